//! The drawings of who may change or take from whom: one of all labels, and a folded one with a box for each program.
//!
//! It knows no claim, and no code of the kernel's calls.
#![tactic(auto)]

mod arrows;
mod boxes;
mod drawing;
mod laws;
mod pairs;
mod verbs;

pub use drawing::write_programs;
pub use laws::{each_system_has_one_drawing, folding_loses_no_label};
pub use pairs::write_drawing;
