//! Frames: calls that read and write the words of a frame's memory.
//!
//! Each call does its whole row of the kernel's step, from the row's first condition on, or leaves
//! the state as it was. No memory is taken.
//!
//! It knows no policy.
#![tactic(auto)]

mod accesses;

pub use accesses::{read_word, write_word};
