//! Calls on CNodes: a capability is copied, minted or moved from one slot to another.
//!
//! Each call does its whole row of the kernel's step, from the row's first condition on, or leaves
//! the state as it was. No memory is taken.
//!
//! It knows no policy.
#![tactic(auto)]

mod copies;
mod copying;
mod minting;
mod moving;
mod slots;

pub use copies::{copyable, derive};
pub use copying::copy;
pub use minting::mint;
pub use moving::move_cap;
pub use slots::{target, vacant};
