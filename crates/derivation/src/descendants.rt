//! The descendants of a slot, one after another.
ghost use Rattle.std.specs.Prelude.{Decides, List, None};
ghost use Rattle.{base.specs.declared.ids.SlotRef.SlotRef as Slot, machine.specs.Machine.Machine};
ghost use Rattle.derivation.specs.Descendants.{AreAllDescendants, AreNamed, IsBehind, IsNextDescendant, IsNextOf};

use crate::slots::slot_count;
use crate::tree::descends;
use base::{ObjId, SlotRef};
use objects::State;

/// Returns the lowest slot behind `last`, or of all where none is named, that descends from `above`.
///
/// Slots rise by their holders, then by their indices.
///
/// Called with `None` first, and then with its last answer, it names each slot that descends from `above` once, and
/// then none ([`descendants_are_named_once`]). It goes through the slots of all objects, and up the tree from each.
pub fn next_descendant(state: &State, above: SlotRef, last: Option<SlotRef>) -> Option<SlotRef>
    ensures { IsNextDescendant state.now above last result }
{
    state.keeps_a_forest();
    state.objects_are_numbered();
    for holder in 0..state.next_id() {
        let next = next_of(state, ObjId(holder), above, last);
        if next.is_some() {
            return next;
        }
    }
    None
}

// Returns the lowest slot of one object behind `last` that descends from `above`.
fn next_of(state: &State, holder: ObjId, above: SlotRef, last: Option<SlotRef>) -> Option<SlotRef>
    ensures { IsNextOf state.now holder above last result }
{
    state.keeps_a_forest();
    for index in 0..slot_count(state, holder) {
        let slot = SlotRef { holder, index };
        if is_behind(last, slot) && descends(state, slot, above) {
            return Some(slot);
        }
    }
    None
}

// Whether the slot comes behind the last, if there is one.
fn is_behind(last: Option<SlotRef>, slot: SlotRef) -> bool
    ensures { Decides result (IsBehind last slot) }
{
    match last {
        Some(last) => {
            last.holder.0 < slot.holder.0
                || (last.holder.0 == slot.holder.0 && last.index < slot.index)
        }
        None => true,
    }
}

/// A law: [`next_descendant`] names all that descends from a slot, each once.
///
/// The calls begin with none, and each is given the answer of the one before.
pub fn descendants_are_named_once()
    ensures { (m : Machine) (above : Slot) (slots : List Slot) → AreNamed m above None slots
        → AreAllDescendants m above slots }
{}
