//! What the program `confine` may be asked for, and its command line: how its words are read, which request they make,
//! and its help texts.
//!
//! The crate carries no request out: it opens no file, and knows no engine.
#![tactic(auto)]

pub mod help;
mod meaning;
mod reading;
mod request;

pub use meaning::{Verb, Words};
pub use reading::read_request;
pub use request::{Check, CommandLine, Format, Invocation, Manner, OfThree, Request, SplitRun};
