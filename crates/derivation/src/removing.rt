//! The removal of one slot from the derivation tree.
ghost use Rattle.std.specs.Prelude.{◌≡◌, None, Some};
ghost use Rattle.{base.specs.declared.ids.SlotRef.SlotRef as Slot, machine.specs.Machine.{parent_of, same_slot}};
ghost use Rattle.derivation.specs.{OwnSlots.is_slot_of, Removing.{HasParents, HaveLeft, parent_past, parent_without}};

use crate::slots::slot_count;
use crate::tree::hand_over;
use base::{ObjId, SlotRef};
use objects::State;

/// Takes a slot out of the tree.
///
/// The slot's children come under its parent; where it has none, they have none. The call takes
/// time in the number of children.
pub fn remove_node(state: &mut State, slot: SlotRef)
    ensures { HasParents state.old state.new (parent_without state.old slot) }
{
    let parent = state.parent(slot);
    give_up(state, slot, parent);
    state.detach(slot);
}

// Makes the children of the slot those of another, which is its parent, or of none.
fn give_up(state: &mut State, slot: SlotRef, to: Option<SlotRef>)
    requires { (parent : Slot) → to ≡ Some parent → parent_of state.old slot ≡ Some parent }
    ensures { HasParents state.old state.new (parent_past state.old slot to) }
{
    state.keeps_a_forest();
    match to {
        Some(parent) => hand_over(state, slot, parent),
        None => release(state, slot),
    }
}

// Takes the children of the slot away from it.
fn release(state: &mut State, slot: SlotRef)
    ensures { HasParents state.old state.new (parent_past state.old slot None) }
{
    while let Some(child) = state.first_child(slot) {
        state.detach(child);
    }
}

/// Takes each slot of the object out of the tree, as [`remove_node`] does. It takes time in the number
/// of its slots, and of the children that each has when its turn comes.
pub(crate) fn remove_slots_of(state: &mut State, id: ObjId)
    ensures { HaveLeft state.old state.new (is_slot_of state.old id) }
{
    for index in 0..slot_count(state, id) {
        take_out(state, SlotRef { holder: id, index });
    }
}

// Takes a slot out of the tree, as `remove_node` does.
fn take_out(state: &mut State, slot: SlotRef)
    ensures { HaveLeft state.old state.new (λ q. same_slot q slot) }
{
    state.keeps_a_forest();
    remove_node(state, slot);
}
