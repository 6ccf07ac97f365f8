//! Removal of capabilities, pass by pass, and of objects that lost their last one (seL4 manual, "Deletion, Revocation, and Recycling").
//!
//! Such objects are finalised first: blocked threads are released, and threads and scheduling contexts are unbound.
//!
//! The crate knows no policy.
#![tactic(auto)]

mod calls;
mod caps;
mod choosing;
mod dropping;
mod kinds;
mod pass;
mod removing;
mod sweeping;

pub use calls::{delete, revoke};
pub use pass::finalise;
pub use removing::remove;
