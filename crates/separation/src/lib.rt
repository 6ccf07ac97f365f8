//! Which labels a description of a system joins, and the claims that keep all others apart.
//!
//! The crate knows no table, no policy and no verdict.
#![tactic(auto)]

mod claims;
mod joined;
mod lending;
mod users;

pub use claims::write_claims;
