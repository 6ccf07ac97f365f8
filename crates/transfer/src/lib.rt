//! Messages: calls that send, call, receive and fetch.
//!
//! Each call does its whole row of the kernel's step, from the row's first condition on, or leaves
//! the state as it was. No memory is taken.
//!
//! The crate knows no policy.
#![tactic(auto)]

mod arrivals;
mod fetching;
mod firsts;
mod lending;
mod receiving;
mod releases;
mod sending;

pub use fetching::fetch;
pub use receiving::receive;
pub use sending::{call, send};
