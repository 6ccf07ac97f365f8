//! Sharply closed policies: which labels keep capabilities for CNodes, the first sharp rule that a policy breaks, and the least sharply
//! closed policy that has some edges.
//!
//! The crate knows no objects, no table and no text.
#![tactic(auto)]

mod asked;
mod broken;
mod closing;
mod keeping;
mod laws;

pub use broken::{SharpBroken, first_broken, is_sharply_closed};
pub use closing::close_sharply;
pub use keeping::keepers;
pub use laws::sharply_closed_policies_are_unbroken;
