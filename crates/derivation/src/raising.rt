//! The raising of empty slots: each is put below the nearest filled slot above it.
ghost use Rattle.std.specs.Prelude.{IfSome, Some};
ghost use Rattle.machine.specs.{Machine.{parent_of, same_slot}, Orphans.Nearest, WellFormed.Descends};
ghost use Rattle.derivation.specs.{OwnSlots.is_slot_of, Raising.{AreRaisedFrom, is_empty, parent_hung}, Removing.HasParents};

use crate::slots::slot_count;
use base::{ObjId, SlotRef};
use objects::State;

/// Puts an empty slot, and the empty ones above it, below the first filled one above them. Where
/// there is none they become roots. It takes time in the number of slots that it puts there.
fn raise(state: &mut State, slot: SlotRef)
    ensures { AreRaisedFrom state.old state.new (λ q. same_slot q slot) }
{
    let heir = first_filled(state, slot);
    hang_way(state, slot, heir);
}

// The first filled slot from this one on upwards.
fn first_filled(state: &State, slot: SlotRef) -> Option<SlotRef>
    ensures { Nearest (parent_of state.now) (is_empty state.now) (Some slot) result }
{
    state.keeps_a_forest();
    let mut at = slot;
    while state.cap(at).is_none() {
        at = state.parent(at)?;
    }
    Some(at)
}

// Hangs each slot from this one on upwards below the first filled one, which comes next above them.
fn hang_way(state: &mut State, slot: SlotRef, heir: Option<SlotRef>)
    requires { Nearest (parent_of state.old) (is_empty state.old) (Some slot) heir }
    ensures { AreRaisedFrom state.old state.new (λ q. same_slot q slot) }
{
    state.keeps_a_forest();
    let mut at = slot;
    while state.cap(at).is_none() {
        let parent = state.parent(at);
        hang(state, at, heir);
        let Some(next) = parent else {
            return;
        };
        at = next;
    }
}

// Hangs the slot below another, which it descends from, or makes it a root.
fn hang(state: &mut State, slot: SlotRef, above: Option<SlotRef>)
    requires { IfSome above (λ heir. Descends state.old slot heir) }
    ensures { HasParents state.old state.new (parent_hung state.old slot above) }
{
    state.keeps_a_forest();
    state.detach(slot);
    if let Some(heir) = above {
        state.attach(slot, heir);
    }
}

/// Raises each empty slot of the object, as [`raise`] does. It takes time in the number of its slots,
/// and of those that it hangs elsewhere.
pub(crate) fn raise_slots_of(state: &mut State, id: ObjId)
    ensures { AreRaisedFrom state.old state.new (is_slot_of state.old id) }
{
    for index in 0..slot_count(state, id) {
        raise(state, SlotRef { holder: id, index });
    }
}
