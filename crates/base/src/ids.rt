//! The numbers of objects, and the places of slots.

/// The number of an object.
///
/// Initial objects are numbered from 0 in the order of the capability table, and objects that the
/// kernel makes follow. A number is never used again, and is below `2^48`.
#[derive(Clone, Copy, PartialEq, Eq, PartialOrd, Ord, Hash)]
pub struct ObjId(pub u64);

/// A slot that may hold a capability: one of a CNode, or the root slot of a TCB, whose index is 0.
///
/// Slots are ordered by holder, then by index.
#[derive(Clone, Copy, PartialEq, Eq, PartialOrd, Ord, Hash)]
pub struct SlotRef {
    pub holder: ObjId,
    pub index: u64,
}
