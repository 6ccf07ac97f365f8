//! The texts of capability tables and policies.
//!
//! It knows no verdict, and nothing of `evtext`.
#![tactic(auto)]

mod caps;
mod drafts;
mod objects;
mod policies;
mod shapes;
mod spelling;
mod tables;
mod write;

pub use caps::{fits_holder, is_thread_and_context, slot_in};
pub use drafts::{PolicyDraft, policies_are_read_as_drafts, read_draft};
pub use policies::{policies_are_read_back, read_policy};
pub use shapes::{Place, slot};
pub use spelling::{slots_are_read_back, terms_are_read_back};
pub use tables::{lines_are_read_back, read_table, tables_are_read_back};
pub use words::{Fault, Lines};
pub use write::{SlotName, label_name, object_name, write_edges, write_policy, write_table};
