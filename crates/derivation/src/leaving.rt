//! The slots of objects that a removal takes away leave the derivation tree.
ghost use Rattle.std.specs.Prelude.{◌≡◌, Contains, None, Some};
ghost use Rattle.{base.specs.declared.ids.SlotRef.SlotRef as Slot, machine.specs.Machine.{cap_of, parent_of}};
ghost use Rattle.derivation.specs.{OwnSlots.is_going_slot, Raising.AreRaisedFrom, Removing.HaveLeft};

use crate::raising::raise_slots_of;
use crate::removing::remove_slots_of;
use objects::State;

/// Takes each slot of the objects that are going out of the tree.
///
/// The slots that have children are empty. It takes time in the number of these slots and of their
/// children.
pub fn leave_tree(state: &mut State)
    requires { (slot parent : Slot) → parent_of state.old slot ≡ Some parent
        → Contains state.old.going parent.holder → cap_of state.old parent ≡ None }
    ensures { HaveLeft state.old state.new (is_going_slot state.old) }
{
    state.keeps_a_forest();
    // Each that is raised first hands its children on once, to one that stays.
    raise_going(state);
    remove_going(state);
}

// Raises each slot of the objects that are going.
fn raise_going(state: &mut State)
    ensures { AreRaisedFrom state.old state.new (is_going_slot state.old) }
{
    for index in 0..state.going_count() {
        let Some(id) = state.going(index) else {
            return;
        };
        raise_slots_of(state, id);
    }
}

fn remove_going(state: &mut State)
    ensures { HaveLeft state.old state.new (is_going_slot state.old) }
{
    for index in 0..state.going_count() {
        let Some(id) = state.going(index) else {
            return;
        };
        remove_slots_of(state, id);
    }
}
