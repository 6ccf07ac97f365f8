//! Searches for runs by which a label changes an object of another, and for runs that lead out of a policy.
//!
//! The first are scripts whose last call, by a thread of the one label, changes an object of the
//! other. Each script that is found is shown to be such a run.
//!
//! The calls that the edges of a reason name are tried first. A call costs what it can touch, not the size of the
//! system. The crate knows no text, and decides what a run shows only by `runs`.
#![tactic(auto)]

mod atoms;
mod escaping;
mod finding;
mod guided;
mod listing;
mod origin;
mod spaces;
mod touching;
mod trying;

pub use escaping::find_escape;
pub use finding::{Found, find};
pub use guided::edges_of;
