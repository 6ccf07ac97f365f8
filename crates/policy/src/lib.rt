//! Policies: the edges of authority that a system may have.
//!
//! The crate knows no objects.
#![tactic(auto)]

mod acting;
mod actor_why;
mod broken;
mod change;
mod closing;
mod cut;
mod full;
mod guarded;
mod laws;
mod narrow_take;
mod policy;
mod steps;
mod walks;
mod why;

pub use acting::{
    changes_follow_paths, shrinks_follow_paths, what_may_be_changed_is_within_full_authority,
    what_may_shrink_may_be_cut,
};
pub use broken::rules::is_given_by_control;
pub use broken::steps::{DOMAIN, is_in_domain, may_be_granted, subjects};
pub use broken::{Broken, first_broken};
pub use closing::close;
pub use laws::{
    closed_policies_are_sharply_closed, closed_policies_are_unbroken,
    closed_policies_obey_each_rule,
};
pub use policy::Policy;
pub use why::Why;
