//! A request is done, and a person is told what it finds.
//!
//! The crate knows no command line, and no code of the kernel.
#![tactic(auto)]

mod answering;
mod engines;
mod explaining;
mod opening;
mod sheets;
mod short;
mod swapped;

pub use answering::{answer, answer_short, answer_split, answer_split_short, tell};
pub use opening::{FileOrInput, MOST_BYTES, Opened, open};
pub use report::{End, Open, Watched};
