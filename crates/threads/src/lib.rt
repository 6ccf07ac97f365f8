//! Threads: calls that suspend and resume them, and that clear and set the roots of their capability spaces.
//!
//! Each call does its whole row of the kernel's step, from the row's first condition on, or leaves
//! the state as it was. No memory is taken.
//!
//! The crate knows no policy.
#![tactic(auto)]

mod running;
mod spaces;

pub use running::{resume, suspend};
pub use spaces::{clear_space, set_space};
