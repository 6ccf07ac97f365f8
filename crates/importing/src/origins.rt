//! Origins of the objects and capabilities in the table of a description.
ghost use Rattle.std.specs.Prelude.{◌≡◌, IfOk};
ghost use Rattle.{microkit.specs.View.description_of, importing.specs.{Origins.origins_of, Pieces.pieces_of}};

use crate::grants::{grants_of, roots_of};
use crate::pieces::{Grant, Minting, Piece, pieces_of};
use microkit::Description;
use std::alloc::{AllocError, Global};

/// The parts of a description that the objects and capabilities of its table come from.
#[derive(Drop)]
pub struct Origins {
    /// What each object is for, in the order of the table's objects.
    pub pieces: Vec<Piece>,
    /// The capabilities, in the order of the table's filled slots.
    pub grants: Vec<Grant>,
}

/// Returns the origins of the objects and capabilities of a description's table.
///
/// The table is the one that [`table_of`](crate::table_of) returns for the same rights.
pub fn origins_of(
    alloc: Global,
    description: &Description,
    minting: Minting,
) -> Result<Origins, AllocError>
    ensures pieces { IfOk result (λ origins. origins.pieces.items
        ≡ pieces_of (description_of description.now)) }
    ensures grants { IfOk result (λ origins. origins.grants.items
        ≡ origins_of (description_of description.now) minting) }
{
    let pieces = pieces_of(alloc, description)?;
    let mut grants = grants_of(alloc, description, minting)?;
    let roots = roots_of(alloc, description, &grants)?;
    grants.extend_from_slice(&roots)?;
    Ok(Origins { pieces, grants })
}
