//! Texts on what the programs of a system may do to one another: the summary, the users of one label, and flows.
//!
//! - The summary is a matrix of who may change whom, and lists the labels without a thread, with those who change and
//!   read them.
//! - The users of a label are the labels that may change or read it.
//! - The text on flows from one label to another names the programs through which they go. The matrix of flows counts
//!   these programs for each two programs.
//!
//! The crate also has laws on what threads read and write. A matrix of programs has blocks of columns, each with a
//! head, and a line for each row. The rows say what a cell says ([`MatrixRow`]). The crate knows no claim, and no code
//! of the kernel's calls.
#![tactic(auto)]

mod cells;
mod every_pair;
mod flow;
mod flow_lines;
mod flow_sizes;
mod labelled;
mod laws;
mod matrix;
mod matrix_rows;
mod padding;
mod page;
mod reading_laws;
mod regions;
mod rows;
mod sharing;
mod sources;
mod user_lines;
mod ways;
mod writing;

pub use cells::marks;
pub use every_pair::flow_matrix;
pub use flow::{MOST_SETS, flow_text};
pub use labelled::{others, programs};
pub use laws::each_change_has_a_letter;
pub use matrix::write_matrix;
pub use matrix_rows::MatrixRow;
pub use reading_laws::{runs_read_within_reach, summaries_show_who_reads};
pub use regions::{changers, readers, takers, write_names};
pub use rows::{Row, rows_of};
pub use user_lines::{changers_text, readers_text};
pub use writing::summary;
