//! Guarded lookup: from an address to a slot of a capability space, by shifts and masks; and what a call finds there.
//!
//! It knows no policy.
#![tactic(auto)]

mod chain;
mod finding;
mod level;
mod target;
mod walk;
mod word;

pub use chain::lookup_follows_a_chain;
pub use finding::{find, find_cap, of_kind, permit};
pub use level::Level;
pub use target::{lookup_target, resolve_target, target_below};
pub use walk::{level_at, level_of_cap, lookup, resolve};
