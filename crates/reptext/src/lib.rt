//! The texts that the program writes besides tables, policies, certificates and logs: reports, each
//! one JSON object on a line, and the names at the place that it tells; the summary, what a label may
//! do, and what changes from one system to another, as JSON; and the list of a table's objects.
//!
//! The crate knows no device, and no code of the kernel's calls.
#![tactic(auto)]

mod breaches;
mod differences;
mod laws;
mod listing;
mod places;
mod reasons;
mod relations;
mod reports;
mod summaries;

pub use breaches::breaches_report;
pub use differences::changes_report;
pub use forms::File;
pub use laws::upgraded_tables_are_reported_alike;
pub use listing::write_objects;
pub use places::{KindsOfObjects, place_names};
pub use reasons::why_report;
pub use reports::{
    accept_report, check_report, denial_text, extent_word, fault_report, hold_report,
    illegal_report, impossible_report, outside_report, unfound_report, within_report,
};
pub use summaries::summary_report;
