//! The verdict on a capability table and a policy: accepted, or denied with the first rule that is broken and where.
//!
//! It also has laws by counterexample. They show what safety needs: rules of closed policies, reasons of authority, and
//! authority to signal. The crate knows no code of the kernel's calls.
#![tactic(auto)]

mod accepted;
mod acting;
mod bindings;
mod check;
mod counterexamples;
mod denial;
mod excess;
mod laws;
mod rules;
mod safe;
mod slots;

pub use accepted::Accepted;
pub use check::{judge, judge_by};
pub use counterexamples::{
    a_signal_needs_authority, each_reason_of_authority_counts, safety_needs_agreeing_subjects,
    safety_needs_contexts_to_run, safety_needs_control_to_give_all,
    safety_needs_derivation_over_grants, safety_needs_grants_to_share,
    safety_needs_lenders_to_share, safety_needs_replies_to_hold,
    safety_needs_transitive_derivation, sharp_rules_that_follow, sharp_safety_needs_each_rule,
};
pub use denial::Denial;
pub use excess::outside;
pub use laws::{
    a_system_has_one_verdict, a_verdict_is_on_the_boot_state,
    accepted_systems_are_sharply_accepted, confined_states_have_nothing_outside,
};
pub use rules::Rules;
pub use safe::{
    accepted_systems_are_safe, accepted_systems_keep_labels_apart,
    sharply_accepted_systems_are_safe,
};
