//! Slots that a removal names, and how they are taken out of the tree and emptied.
ghost use Rattle.std.specs.Prelude.{◌≡◌, None, if◌then◌else◌};
ghost use Rattle.{base.specs.declared.ids.SlotRef.SlotRef as Slot, machine.specs.{Below.is_below, Machine.{parent_of, same_slot}}};
ghost use Rattle.{objects.specs.Pairs.AreFilled, derivation.specs.Removing.parent_without};
ghost use Rattle.removal.specs.UnderWay.{AreEmptied, AreGoing, emptied};

use crate::caps::{cascade, empty_slot};
use base::SlotRef;
use derivation::remove_node;
use objects::State;

// Takes a slot out of the derivation tree, and empties it. Its children come under its parent, if it has
// one.
fn take_out(state: &mut State, slot: SlotRef)
    requires { AreGoing state.old }
    ensures rest { state.new ≡ record (emptied state.old slot) { parents = state.new.parents } }
    ensures parents { (q : Slot) → parent_of state.new q ≡ parent_without state.old slot q }
    ensures going { AreGoing state.new }
{
    state.keeps_a_forest();
    remove_node(state, slot);
    empty_slot(state, slot);
}

/// Takes a slot out of the derivation tree, and empties it and each slot that is removed with it. These
/// other slots keep their places in the tree.
pub(crate) fn empty_all_with(state: &mut State, slot: SlotRef)
    requires { AreFilled state.old }
    ensures emptied { AreEmptied state.old (same_slot slot) state.new }
    ensures parents { (q : Slot) → parent_of state.new q ≡ parent_without state.old slot q }
    ensures going { AreGoing state.new }
{
    state.clear_going();
    take_out(state, slot);
    cascade(state);
}

/// Takes all slots that descend from one out of the derivation tree, and empties them and each slot that
/// is removed with them. These other slots keep their places in the tree.
///
/// Each that descends comes under `above` at most once before it is taken out.
pub(crate) fn empty_all_below(state: &mut State, above: SlotRef)
    requires { AreFilled state.old }
    ensures emptied { AreEmptied state.old (is_below state.old above) state.new }
    ensures parents { (q : Slot)
        → parent_of state.new q ≡ (if is_below state.old above q then None else parent_of state.old q) }
    ensures going { AreGoing state.new }
{
    state.clear_going();
    while let Some(child) = state.first_child(above) {
        take_out(state, child);
    }
    cascade(state);
}
