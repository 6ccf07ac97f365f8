//! Flows by the reach of a table: on whose objects the calls of a label's threads depend, to whom what a
//! label does may come, and through whom; with the smallest sets of programs through which all flows from one
//! label to another go.
//!
//! It decides nothing, and knows no code of the kernel.
#![tactic(auto)]

mod flowing;
mod graph;
mod links;
mod meeting;
mod rows;
mod searching;
mod seeing;
mod smallest;
mod ways;

pub use flowing::Flows;
pub use graph::FlowGraph;
pub use links::Link;
pub use seeing::sees;
pub use smallest::{MOST_FILTERS, Sets, Smallest};
