//! The filling of slots with the capabilities of new objects.
ghost use Rattle.std.specs.Prelude.{◌+◌, ◌<◌, ◌^◌, ◌≡◌, ◌≤◌, IsSome, IsTrue, None};
ghost use Rattle.base.specs.declared.limits.TheConstants.{OBJECT_NUMBERS};
ghost use Rattle.machine.specs.{Machine.{cap_of, has_slot, object_of, with_cap, with_parent}, Tree.IsAlone};
ghost use Rattle.untyped.specs.{Batch.with_caps, Windows.{AreThere, IsFreeWindow, slots_of}};

use crate::making::new_cap;
use base::{ObjId, SlotRef};
use derivation::insert_child;
use machine::{Cap, MemoryKind};
use objects::State;

/// A number of slots of a CNode, in a row.
#[derive(Clone, Copy)]
pub struct Window {
    pub node: ObjId,
    pub offset: u64,
    pub count: u64,
}

/// Fills an empty slot that is in no pair of the tree, with a capability that is a child of the one in another slot.
fn fill_below(state: &mut State, slot: SlotRef, cap: Cap, parent: SlotRef)
    requires there { IsTrue (has_slot state.old slot) }
    requires vacant { cap_of state.old slot ≡ None }
    requires alone { IsAlone state.old slot }
    requires object { IsSome (object_of state.old cap.object) }
    requires above { IsSome (cap_of state.old parent) }
    ensures { state.new ≡ with_parent (with_cap state.old slot cap) slot parent }
{
    state.put_cap(slot, cap);
    insert_child(state, slot, parent);
}

/// Fills the slots of a window with the capabilities of new objects.
///
/// The objects are numbered from `first` on. The capabilities become children of the one in the
/// slot `parent`.
pub fn fill(state: &mut State, window: Window, first: u64, kind: MemoryKind, parent: SlotRef)
    requires ends { window.offset + window.count < 2 ^ 64 }
    requires numbers { first + window.count ≤ OBJECT_NUMBERS }
    requires free { IsFreeWindow state.old window }
    requires made { AreThere state.old first window.count }
    requires above { IsSome (cap_of state.old parent) }
    ensures { state.new ≡ with_caps state.old first kind (slots_of window) parent }
{
    let mut number = first;
    for index in window.offset..window.offset + window.count {
        let slot = SlotRef {
            holder: window.node,
            index,
        };
        fill_below(state, slot, new_cap(number, kind), parent);
        number += 1;
    }
}
