//! The derivation tree: which capability was derived from which.
//!
//! Each call takes no memory, and is described as a change of the pairs of child and parent.
//!
//! It knows no policy.
#![tactic(auto)]

mod descendants;
mod leaving;
mod raising;
mod removing;
mod slots;
mod tree;

pub use descendants::{descendants_are_named_once, next_descendant};
pub use leaving::leave_tree;
pub use removing::remove_node;
pub use tree::{descends, insert_child, move_node};
