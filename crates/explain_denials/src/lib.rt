//! Explains why a table and a policy are denied and what may be done; and where an edge of a policy, or of the reach of
//! a table, comes from, or why there is none.
//!
//! The crate also explains that a word is no label, and which edges of a policy aren't needed. It knows no claim, no
//! run, no device and no command.
#![tactic(auto)]

mod capability;
mod closing;
mod denials;
mod origins;
mod reach_origins;
mod rounds;
mod sharp_denials;
mod surplus;
mod unlabelled;

pub use closing::explain_closing;
pub use denials::{Names, Pasted, explain_denial, explain_outside};
pub use explain_rules::{
    EdgeLine, EdgeList, LabelNames, Reason, an_asked_edge_is_missing, asked_edge, line_of_edge,
};
pub use origins::explain_why_allowed;
pub use reach_origins::{Origins, OtherWays, explain_why};
pub use surplus::explain_surplus;
pub use unlabelled::explain_unlabelled;
