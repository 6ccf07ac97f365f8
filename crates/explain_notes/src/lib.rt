//! Explains what the table of a description doesn't show: what is left out of it, and what other programs may do all the same.
//!
//! The crate knows no policy and no verdict.
#![tactic(auto)]

mod devices;
mod notes;
mod overlaps;

pub use devices::Writers;
pub use notes::{Matter, Note, explain_notes, notes_of, notes_on_label};
