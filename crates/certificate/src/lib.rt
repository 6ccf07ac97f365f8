//! Certificates: what a capability table gives, line by line, and their texts.
//!
//! It knows no policy.
#![tactic(auto)]

mod kinds;
mod line;
mod making;
mod reading;
mod writing;

pub use line::{Certificate, Line};
pub use making::make;
pub use reading::read;
pub use writing::write;
