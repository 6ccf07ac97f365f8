//! Claims: their text, which of them don't hold of a system, and the strongest that do.
//!
//! It knows no code of the kernel's calls.
#![tactic(auto)]

mod breaches;
mod claim;
mod deciding;
mod edges;
mod gathering;
mod keeping;
mod lines;
mod reading;
mod rows;
mod writing;

pub use breaches::Breach;
pub use claim::{Claim, LabelList, Most, Who};
pub use deciding::{Broken, Failure, all_broken};
pub use gathering::strongest;
pub use keeping::{Kept, kept_of};
pub use lines::ClaimLines;
pub use reading::read;
pub use writing::{claim_text, write};
