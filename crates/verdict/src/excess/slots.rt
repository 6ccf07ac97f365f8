//! The slots of an object that lie outside a policy, by the rules A1 to A3.
ghost use Rattle.std.specs.Prelude.{[], ◌∷◌, ◌≡◌, Some};
ghost use Rattle.{base.specs.Kinds.kind_number, machine.specs.{Authority.label_of, Machine.cap_of, WellFormed.kind_of}};
ghost use Rattle.{policy.specs.{Places.FindsLeast, Policy.allows}, verdict.specs.{Outside.LiesUnder, Rules.{a1, a2, a3}, Verdict.place_of}};
ghost use Rattle.machine.specs.declared.object.ObjectKind.TheVariants as kinds;

use super::links::missing_label;
use crate::Denial;
use base::{Edge, Kind, Label, ObjId, SlotRef};
use labels::label_of;
use machine::{Cap, Object};
use objects::State;
use policy::Policy;
use table::Table;

/// The first place in this object's slots where A1 is broken.
pub(crate) fn first_capability(
    table: &Table,
    policy: &Policy,
    state: &State,
    holder: ObjId,
    from: Label,
) -> Option<Denial>
    requires { label_of table.now state.now holder ≡ Some from }
    ensures { FindsLeast place_of (LiesUnder table.now (allows policy.now) state.now (a1 ∷ holder.0 ∷ [])) result }
{
    let Some(Object::CNode(node)) = state.object(holder) else {
        return None;
    };
    state.caps_are_in_slots();
    for index in 0..node.radix.slots() {
        let slot = SlotRef { holder, index };
        if let Some(denial) = first_kind(table, policy, state, slot, from) {
            return Some(denial);
        }
    }
    None
}

// The first place at this slot of a CNode where A1 is broken.
fn first_kind(
    table: &Table,
    policy: &Policy,
    state: &State,
    slot: SlotRef,
    from: Label,
) -> Option<Denial>
    requires node { kind_of state.now slot.holder ≡ Some kinds.CNode }
    requires from { label_of table.now state.now slot.holder ≡ Some from }
    ensures { FindsLeast place_of
        (LiesUnder table.now (allows policy.now) state.now (a1 ∷ slot.holder.0 ∷ slot.index ∷ [])) result }
{
    let held = state.cap(slot)?;
    for kind in Kind::ALL {
        if let Some(denial) = capability_at(table, policy, state, slot, from, &held, kind) {
            return Some(denial);
        }
    }
    None
}

// The place of this kind, if A1 is broken there.
fn capability_at(
    table: &Table,
    policy: &Policy,
    state: &State,
    slot: SlotRef,
    from: Label,
    held: &Cap,
    kind: Kind,
) -> Option<Denial>
    requires node { kind_of state.now slot.holder ≡ Some kinds.CNode }
    requires from { label_of table.now state.now slot.holder ≡ Some from }
    requires held { cap_of state.now slot ≡ Some held.now }
    ensures { FindsLeast place_of
        (LiesUnder table.now (allows policy.now) state.now
        (a1 ∷ slot.holder.0 ∷ slot.index ∷ kind_number kind ∷ [])) result }
{
    if !held.gives(kind) {
        return None;
    }
    let label = missing_label(table, policy, state, from, kind, held.object)?;
    Some(Denial::Capability { slot, kind, label })
}

/// The place of this thread's root, if A2 is broken there.
pub(crate) fn root_at(
    table: &Table,
    policy: &Policy,
    state: &State,
    holder: ObjId,
    from: Label,
) -> Option<Denial>
    requires { label_of table.now state.now holder ≡ Some from }
    ensures { FindsLeast place_of (LiesUnder table.now (allows policy.now) state.now (a2 ∷ holder.0 ∷ [])) result }
{
    let Some(Object::Tcb(_)) = state.object(holder) else {
        return None;
    };
    state.caps_are_in_slots();
    let slot = SlotRef { holder, index: 0 };
    let held = state.cap(slot)?;
    let label = missing_label(table, policy, state, from, Kind::Space, held.object)?;
    Some(Denial::Root { slot, label })
}

/// The first place in this object's slots where A3 is broken of a child.
pub(crate) fn first_pair(
    table: &Table,
    policy: &Policy,
    state: &State,
    holder: ObjId,
    to: Label,
) -> Option<Denial>
    requires { label_of table.now state.now holder ≡ Some to }
    ensures { FindsLeast place_of (LiesUnder table.now (allows policy.now) state.now (a3 ∷ holder.0 ∷ [])) result }
{
    state.keeps_a_forest();
    for index in 0..state.object(holder)?.slot_count() {
        let child = SlotRef { holder, index };
        if let Some(denial) = pair_at(table, policy, state, child, to) {
            return Some(denial);
        }
    }
    None
}

// The place of this child, if A3 is broken there.
fn pair_at(
    table: &Table,
    policy: &Policy,
    state: &State,
    child: SlotRef,
    to: Label,
) -> Option<Denial>
    requires { label_of table.now state.now child.holder ≡ Some to }
    ensures { FindsLeast place_of
        (LiesUnder table.now (allows policy.now) state.now (a3 ∷ child.holder.0 ∷ child.index ∷ [])) result }
{
    let parent = state.parent(child)?;
    let from = label_of(table, state, parent.holder)?;
    if policy.has(Edge {
        from,
        kind: Kind::Derive,
        to,
    }) {
        return None;
    }
    Some(Denial::Pair { child, parent })
}
