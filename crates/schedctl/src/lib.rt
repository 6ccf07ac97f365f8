//! Scheduling contexts: calls that configure, bind and unbind them, and how one passes between threads.
//!
//! Each call does its whole row of the kernel's step, from the row's first condition on, or leaves
//! the state as it was. [`part`] and [`hand_over`] are changes that calls of other crates make. No
//! memory is taken.
//!
//! The crate knows no policy.
#![tactic(auto)]

mod binding;
mod configuring;
mod links;

pub use binding::{bind, unbind};
pub use configuring::configure;
pub use links::{context_under, hand_over, part};
