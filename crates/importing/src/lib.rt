//! Tables of system descriptions: how each description becomes a capability table.
//!
//! The crate knows no policy, and no text of a table.
#![tactic(auto)]

mod builder;
mod grants;
mod groups;
mod laws;
mod maps;
mod objects;
mod origins;
mod pieces;
mod plan;
mod slots;
mod tables;

pub use groups::labelled_of;
pub use laws::capabilities_come_from_their_elements;
pub use origins::{Origins, origins_of};
pub use pieces::{Form, Grant, Minting, Piece, is_called};
pub use plan::piece_line;
pub use slots::{BELLS, CALLS};
pub use tables::table_of;
