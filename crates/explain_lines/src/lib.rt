//! Explains which condition a faulty line doesn't meet, and which lines of a policy `close` drops.
//!
//! The crate knows no policy and no verdict.
#![tactic(auto)]

mod caps;
mod claims;
mod declared;
mod edges;
mod faults;
mod flaws;
mod limits;
mod memory;
mod mending;
mod names;
mod near;
mod numbers;
mod order;
mod tree;
mod unknown;

pub use faults::explain_fault;
pub use mending::{DroppedEdge, explain_dropped};
