//! Fixed systems, and noninterference in them: what others do makes no difference to labels to which none of it
//! flows.
//!
//! In the runs of a fixed system, from the boot state of a table, no capability changes, and no object is made or
//! removed. Noninterference compares two runs that differ only in events of others. The crate decides only whether
//! a table is of a fixed system. It knows no code of the kernel.
#![tactic(auto)]

mod deciding;
mod fixed_laws;
mod laws;

pub use deciding::is_fixed;
pub use fixed_laws::fixed_systems_stay_fixed;
pub use laws::{others_act_through_filters, others_make_no_difference, steps_look_alike};
