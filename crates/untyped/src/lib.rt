//! The call Retype: untyped memory becomes objects.
//!
//! Each condition of the call is a function of its own, with the contract that the kernel's step gives it.
//!
//! The crate knows no policy.
#![tactic(auto)]

mod conditions;
mod filling;
mod finding;
mod limits;
mod making;
mod placing;
mod retyping;
mod room;

pub use retyping::{retype, retype_refusal};
