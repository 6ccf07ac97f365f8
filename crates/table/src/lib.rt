//! Capability tables: which labels, objects, capabilities, derivation tree and bindings a system starts with.
//!
//! A [`Draft`] is built up item by item, and keeps the rules of capability tables from the first
//! item on, but for those of the derivation tree. These are tested when it becomes a [`Table`]. A
//! contract sees either as a `Layout`.
//!
//! The crate knows no policy.
#![tactic(auto)]

mod bindings;
mod boot_law;
mod caps;
mod draft;
mod extent;
mod laws;
mod names;
mod objects;
mod table;
mod tree;

pub use boot_law::boot_states_are_well_formed;
pub use draft::Draft;
pub use extent::{is_addressable, is_aligned};
pub use laws::{
    lawful_tables_are_built_up, no_pair_is_for_untyped_memory, upgraded_tables_boot_alike,
};
pub use table::Table;
