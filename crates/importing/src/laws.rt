//! A law on where the capabilities of an imported table come from.
ghost use Rattle.std.specs.{List.AllZip, Prelude.{◌≡◌, Ok}};
ghost use Rattle.{microkit.specs.Description.Description as DescriptionOf, machine.specs.Layout.Layout};
ghost use Rattle.importing.specs.{declared.pieces.Minting.Minting, Origins.{ComesFrom, origins_of}, Pieces.pieces_of, Tables.table_at};

/// A law: the filled slots of a description's table are its capabilities, in the same order.
///
/// So the element that a filled slot comes from is found by the slot's place in the table.
pub fn capabilities_come_from_their_elements()
    ensures { (d : DescriptionOf) (minting : Minting) (t : Layout) → table_at d minting ≡ Ok t
        → AllZip (ComesFrom (pieces_of d)) t.caps (origins_of d minting) }
{}
