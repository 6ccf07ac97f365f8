//! Explains an accepted system: what each label may do, and what in its table may not be meant.
//!
//! The crate knows no claim, no run, no device and no command.
#![tactic(auto)]

mod label_notes;
mod table_notes;

pub use label_notes::explain_changes;
pub use table_notes::explain_notes;
