//! Confinement and integrity: every run stays within a closed policy that has all authority of its boot state.
//!
//! The boot state is that of a table. The policy has the authority of every state of the run, and
//! no step changes more than it allows. The crate knows no code of the kernel, only the definitions
//! and laws of the steps.
#![tactic(auto)]

mod laws;
mod making;
mod removing;
mod safe;

pub use laws::{
    a_budget_needs_authority, cuts_follow_paths, gains_are_no_shrinking, losses_are_shrinking,
};
pub use making::what_is_made_stays_within_authority;
pub use removing::{
    a_removal_changes_what_may_be_altered, deletes_and_revokes_stay_within_authority,
    removals_stay_confined, removals_stay_within_authority, what_a_removal_changes_shrinks,
};
pub use safe::{
    bounded_systems_keep_labels_apart, changes_are_of_labels_that_act, confined_systems_are_safe,
    idlers_wait_without_contexts, keepers_hold_cnode_capabilities,
    labels_act_from_boot_or_by_control, sharply_confined_systems_are_safe,
};
