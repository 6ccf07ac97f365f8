//! What the kernel's calls do to a machine: row by row what is found and changed, and that machines stay well formed.
//!
//! The rows and the definition of well-formed machines are in `machine`; their laws are here. The
//! crate knows no policy.
#![tactic(auto)]

mod message_laws;
mod removal_laws;
mod step_laws;
mod thread_laws;

pub use message_laws::{
    answers_return_what_calls_lent, arrivals_keep_machines_well_formed,
    blocks_keep_machines_well_formed, releases_keep_machines_well_formed,
};
pub use removal_laws::{
    a_removal_is_told_by_its_look_ups, counts_tell_the_last_capability,
    deletes_and_revokes_leave_nothing, descending_is_decided,
    orphans_come_to_their_nearest_ancestor, removals_keep_machines_well_formed,
    vanished_objects_are_finalised, what_goes_is_the_least_closed_set,
};
pub use step_laws::{
    calls_are_refused_by_conditions, calls_keep_machines_well_formed,
    retypes_keep_machines_well_formed, steps_keep_machines_well_formed, steps_of_one_event_agree,
};
pub use thread_laws::cleared_root_slots_can_be_filled;
