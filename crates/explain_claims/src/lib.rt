//! Explains why claims don't hold, how flows go from label to label, who uses a label, what a changed system adds, and
//! what a run does.
//!
//! The crate knows no device and no command.
#![tactic(auto)]

mod broken;
mod chains;
mod differences;
mod escapes;
mod flows_beside;
mod scripts;
mod shared_memory;
mod users;

pub use broken::{Judged, Lead, breach_lines, explain_breach, explain_breaches};
pub use chains::explain_flows;
pub use differences::{explain_difference, explain_differences, may_be_shown};
pub use escapes::explain_escape;
pub use flows_beside::explain_flows_beside;
pub use scripts::explain_run;
pub use shared_memory::explain_shared_memory;
pub use users::{explain_changers, explain_readers};
