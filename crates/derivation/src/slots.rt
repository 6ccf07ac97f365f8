//! The number of slots of an object.
ghost use Rattle.std.specs.Prelude.{◌≡◌};
ghost use Rattle.{base.specs.declared.ids.SlotRef.SlotRef as Slot, derivation.specs.OwnSlots.{is_slot_below, is_slot_of}};

use base::ObjId;
use objects::State;

// How many slots the object has; none where there is no such object. Their indices are the numbers below.
pub(crate) fn slot_count(state: &State, id: ObjId) -> u64
    ensures { (slot : Slot) → is_slot_of state.now id slot ≡ is_slot_below id result slot }
{
    match state.object(id) {
        Some(object) => object.slot_count(),
        None => 0,
    }
}
