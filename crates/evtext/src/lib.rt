//! The texts of scripts, which are events, and of logs, which are events and what they answered.
//!
//! It knows no label and no policy, and nothing of `captext`.
#![tactic(auto)]

mod call;
mod laws;
mod line;
mod log;
mod operands;
mod outcome;
mod script;
mod writing;

pub use laws::{a_text_is_of_one_log, a_text_is_of_one_script, logs_are_read_back};
pub use log::{entry_line, read_log, write_log, write_run};
pub use script::{read_script, write_script};
