//! Slots of objects that are going, and how they are emptied.
ghost use Rattle.std.specs.Prelude.{ℕ, ◌≡◌, Bool, Contains, None, Some, true};
ghost use Rattle.{base.specs.declared.ids.SlotRef.SlotRef as Slot, machine.specs.Machine.{Machine, cap_of}, objects.specs.Pairs.MayEmpty};
ghost use Rattle.removal.specs.UnderWay.{AreEmptied, AreGoing, IsUnderWay, emptied, emptied_below, slots_at};

use base::{ObjId, SlotRef};
use objects::State;

/// Empties a slot, which is in no pair of the derivation tree, or whose holder is going: then it keeps its
/// place there. Its object is going if that was its last capability.
#[tactic(auto, unfolding(crate::specs::UnderWay::emptied))]
pub(crate) fn empty_slot(state: &mut State, slot: SlotRef)
    requires going { AreGoing state.old }
    requires place { MayEmpty state.old slot }
    ensures value { state.new ≡ emptied state.old slot }
    ensures going { AreGoing state.new }
{
    state.caps_are_for_objects();
    if let Some(cap) = state.cap(slot) {
        state.take_cap(slot);
        if state.cap_count(cap.object) == 0 {
            state.add_going(cap.object);
        }
    }
}

// The number of slots of the object; 0 if there is no such object.
fn slot_count(state: &State, id: ObjId) -> u64
    ensures { result ≡ slots_at state.now id }
{
    match state.object(id) {
        Some(object) => object.slot_count(),
        None => 0,
    }
}

// Empties each slot of the object, which is going, one after another.
fn empty_slots_of(state: &mut State, id: ObjId)
    requires going { AreGoing state.old }
    requires listed { Contains state.old.going id }
    ensures value { state.new ≡ emptied_below state.old id (slots_at state.old id) }
    ensures hollow { (slot : Slot) → slot.holder ≡ id → cap_of state.new slot ≡ None }
    ensures going { AreGoing state.new }
{
    let count = slot_count(state, id);
    for index in 0..count {
        empty_slot(state, SlotRef { holder: id, index });
    }
    state.caps_are_in_slots();
}

/// Empties each slot of the objects that are going, also of those that begin to go meanwhile.
pub(crate) fn cascade(state: &mut State)
    requires { AreGoing state.old }
    ensures emptied { (m : Machine) (chosen : Slot → Bool)
        → IsUnderWay m chosen state.old 0
        → ((slot : Slot) → chosen slot ≡ true → cap_of state.old slot ≡ None)
        → AreEmptied m chosen state.new }
    ensures rest { state.new ≡ record state.old { caps = state.new.caps; going = state.new.going } }
    ensures going { AreGoing state.new }
{
    for next in 0..state.object_count() {
        let Some(id) = state.going(next) else {
            return;
        };
        empty_slots_of(state, id);
    }
}
