//! The labels of objects, and the edges of authority that a capability table gives at boot.
//!
//! The crate knows no step of the kernel.
#![tactic(auto)]

mod boot_authority;
mod edges;
mod label;
mod laws;

pub use boot_authority::authority;
pub use edges::{filled_edges, slot_edges};
pub use label::{declared_label, label_of};
pub use laws::{boot_authority_joins_labels_of_its_table, slot_edges_are_authority};
