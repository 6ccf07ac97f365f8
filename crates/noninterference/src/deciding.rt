//! The decision whether a capability table is of a fixed system.
ghost use Rattle.std.specs.Prelude.{◌↔◌, ◌≡◌, IsTrue};
ghost use Rattle.noninterference.specs.{Fixed.IsFixed, Loose.{is_loose, is_loose_cap}};

use base::SlotRef;
use machine::{Cap, Detail, ObjectKind};
use table::Table;

/// Returns whether no slot of a CNode holds a capability for a CNode or for a thread.
///
/// Then no run of the table changes a capability or the derivation tree, or makes or removes an object.
/// The root slot of a thread holds a capability for a CNode, and doesn't count.
pub fn is_fixed(table: &Table) -> bool
    ensures { IsTrue result ↔ IsFixed table.now }
{
    for filled in table.caps() {
        if is_loose(table, filled.slot) {
            return false;
        }
    }
    true
}

// Whether a slot of a CNode holds a capability for a CNode or for a thread.
fn is_loose(table: &Table, slot: SlotRef) -> bool
    ensures { result ≡ is_loose table.now slot }
{
    match table.kind(slot.holder) {
        Some(ObjectKind::CNode) => match table.cap(slot) {
            Some(held) => is_loose_cap(&held),
            None => false,
        },
        _ => false,
    }
}

// Whether a capability is for a CNode or for a thread.
fn is_loose_cap(held: &Cap) -> bool
    ensures { result ≡ is_loose_cap held.now }
{
    matches!(held.detail, Detail::CNode(_) | Detail::Tcb)
}
