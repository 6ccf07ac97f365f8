//! The reach of a capability table: the least sharply closed policy that has all authority of its boot state; and how far it lets a
//! label go with another.
//!
//! The crate knows no code of the kernel, and decides nothing.
#![tactic(auto)]

mod acting;
mod boot;
mod extent;
mod laws;
mod least;

pub use acting::{actors, labels_that_act};
pub use boot::node_holders;
pub use extent::Extent;
pub use laws::{runs_keep_labels_apart, runs_stay_in_reach};
pub use least::Reach;
