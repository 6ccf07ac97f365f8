//! Explains the entries of a log: why a call is refused, or what the kernel answers to it.
//!
//! The crate knows no table and no policy.
#![tactic(auto)]

mod calls;
mod refused;
mod sought;

pub use calls::{Caller, explain_illegal, explain_refusal};
