//! Replies, which answer calls (seL4 manual, "Endpoints"); and how a blocked thread leaves its queue and its reply.
//!
//! The crate knows no policy.
#![tactic(auto)]

mod answering;
mod holding;
mod release;

pub use answering::reply;
pub use holding::{await_message, link, unlink};
pub use release::{abort, give, halt, resume, suspend};
