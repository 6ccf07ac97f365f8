//! Pairs of the derivation tree: capabilities enter it and move in it.
ghost use Rattle.std.specs.Prelude.{◌↔◌, ◌≡◌, ◌≢◌, IsSome, IsTrue, Some};
ghost use Rattle.base.specs.declared.ids.SlotRef.{SlotRef as Slot};
ghost use Rattle.machine.specs.{Machine.{cap_of, has_slot, parent_of, with_parent}, Tree.{IsAlone, with_exchanged}, WellFormed.Descends};
ghost use Rattle.{objects.specs.Pairs.IsFilledOrGoing, derivation.specs.Moving.{StandsNoLower, handed_over, lifted}};

use base::SlotRef;
use objects::State;

/// Makes the capability in `slot` a child of that in `parent` (seL4 manual, "Capability Derivation Tree").
///
/// The slot is in no pair of the tree before.
pub fn insert_child(state: &mut State, slot: SlotRef, parent: SlotRef)
    requires below { IsSome (cap_of state.old slot) }
    requires above { IsSome (cap_of state.old parent) }
    requires apart { slot ≢ parent }
    requires alone { IsAlone state.old slot }
    ensures { state.new ≡ with_parent state.old slot parent }
{
    state.keeps_a_forest();
    state.caps_are_in_slots();
    state.attach(slot, parent);
}

/// Gives the place of `from` in the tree to `to`, which is in no pair: its parent, and its children.
///
/// The call takes time in the number of children.
pub fn move_node(state: &mut State, from: SlotRef, to: SlotRef)
    requires target { IsSome (cap_of state.old to) }
    requires alone { IsAlone state.old to }
    ensures { state.new ≡ with_exchanged state.old from to }
{
    state.caps_are_in_slots();
    lift(state, from, to);
    hand_over(state, from, to);
}

// Takes `from` away from its parent, if it has one, and makes `to` the parent's child in its place.
fn lift(state: &mut State, from: SlotRef, to: SlotRef)
    requires target { IsTrue (has_slot state.old to) }
    requires filled { IsFilledOrGoing state.old to }
    requires alone { IsAlone state.old to }
    ensures value { state.new ≡ lifted state.old from to }
    ensures place { StandsNoLower state.new to from }
{
    state.keeps_a_forest();
    let parent = state.parent(from);
    state.detach(from);
    if let Some(parent) = parent {
        state.attach(to, parent);
    }
}

// Makes the children of `from` those of `to`.
pub(crate) fn hand_over(state: &mut State, from: SlotRef, to: SlotRef)
    requires target { IsTrue (has_slot state.old to) }
    requires filled { IsFilledOrGoing state.old to }
    requires apart { (child : Slot) → parent_of state.old child ≡ Some from → from ≢ to }
    requires place { StandsNoLower state.old to from }
    ensures { state.new ≡ handed_over state.old from to }
{
    while let Some(child) = state.first_child(from) {
        state.keeps_a_forest();
        state.detach(child);
        state.attach(child, to);
    }
}

/// Returns whether one slot descends from another: is its child, or a child of what descends from it.
///
/// The call takes time in the length of the way up.
pub fn descends(state: &State, slot: SlotRef, above: SlotRef) -> bool
    ensures { IsTrue result ↔ Descends state.now slot above }
{
    state.keeps_a_forest();
    let mut at = slot;
    while let Some(parent) = state.parent(at) {
        if parent == above {
            return true;
        }
        at = parent;
    }
    false
}
