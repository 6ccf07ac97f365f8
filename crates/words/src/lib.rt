//! The part that all texts share: lines of words, numbers and names, and the faults of a text by number and line.
//!
//! The crate knows nothing of a kernel or a policy.
#![tactic(auto)]

mod faults;
mod first_fault;
mod line;
mod names;
mod numbers;
mod reader;
mod split;
mod text;

pub use faults::{Fault, LineError, Wrong};
pub use first_fault::{a_text_is_refused_for_its_first_fault, a_text_that_is_cut_is_refused};
pub use line::Words;
pub use names::{MAX_NAME_LENGTH, name_of, names_are_read_back};
pub use numbers::{decimal_of, hexadecimal_of, numbers_are_read_back};
pub use reader::{Reader, read_text};
pub use text::Lines;
