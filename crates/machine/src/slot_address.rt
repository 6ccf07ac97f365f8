//! Slots as calls name them, and the pair of slots between which a capability is copied or moved.
ghost use Rattle.std.specs.{Fmt.decimal, List.join_with_byte, Prelude.{[], ◌∷◌, Some}};

use crate::Cap;
use base::SlotRef;
use std::fmt;

/// The address of a slot (seL4 manual, "Capability Address Lookup").
///
/// It is the address of a CNode's capability, and below it an index, of which `depth` bits are
/// looked up.
#[derive(Clone, Copy, PartialEq, Eq)]
pub struct SlotAddress {
    pub root: u64,
    pub index: u64,
    /// 1 to 64, else nothing is found.
    pub depth: u64,
}

impl fmt::Display for SlotAddress {
    ghost output = { λ slot. Some (join_with_byte 32 (decimal slot.root ∷ decimal slot.index ∷ decimal slot.depth ∷ [])) };

    fn fmt<W: fmt::Write>(&self, f: &mut fmt::Formatter<W>) -> fmt::Result {
        let root = self.root;
        let index = self.index;
        let depth = self.depth;
        write!(f, "{root} {index} {depth}")
    }
}

/// The slots between which a capability is copied or moved.
#[derive(Clone, Copy, PartialEq, Eq)]
pub struct Ends {
    /// Empty.
    pub target: SlotRef,
    pub source: SlotRef,
    /// What the source holds.
    pub held: Cap,
}
