//! Explains what is wrong with the description of a system, or with an element of it.
//!
//! The crate knows no policy and no verdict.
#![tactic(auto)]

mod documents;
mod elements;
mod faults;
mod flaws;
mod limits;
mod near;
mod others;
mod rules;

pub use faults::explain_fault;
