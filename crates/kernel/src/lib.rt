//! The reference kernel: the boot state of a capability table, the step that one event makes, and runs of events.
//!
//! The crate knows no label and no policy.
#![tactic(auto)]

mod admit;
mod boot_laws;
mod boot_state;
mod calls;
mod poll;
mod replaying;
mod runs;
mod signal;
mod wait;

pub use boot_laws::each_table_has_one_boot_state;
pub use boot_state::boot;
pub use calls::{retype_refusal, step};
pub use replaying::{logs_stop_where_they_are_no_run, replay};
pub use runs::run;
