//! Changes from one system to another of who may change, read and reach whom.
//!
//! Two systems are compared by the names of their labels. It knows no code of the kernel's calls.
#![tactic(auto)]

mod change;
mod comparing;
mod edges;
mod names;
mod side;
mod within;
mod writing;

pub use change::{Change, Marks, Role, Sign, Standing, Verb};
pub use comparing::changes;
pub use names::Named;
pub use within::{
    labels_are_twins_by_name, lesser_systems_do_no_more, lesser_systems_keep_claims,
    no_system_differs_from_itself, systems_that_gain_nothing_lie_within,
};
pub use writing::{adds_authority, changes_text, write_cell_marks};
