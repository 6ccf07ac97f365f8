//! The first place where a state's authority lies outside a policy.
ghost use Rattle.std.specs.Prelude.{◌≡◌, IfNone, IfSome, Some};
ghost use Rattle.{machine.specs.Machine.object_of, policy.specs.{Places.FindsLeast, Policy.allows}, integrity.specs.Confined.IsConfined};
ghost use Rattle.verdict.specs.{Outside.{LiesAt, LiesOutside}, Rules.Excess, Verdict.{IsOutside, excess_of, place_of}};

mod links;
mod slots;

use crate::confined_states_have_nothing_outside;
use crate::denial::{Denial, rule_number};
use base::ObjId;
use labels::label_of;
use links::{binding_at, first_record, holding_at};
use objects::State;
use policy::Policy;
use slots::{first_capability, first_pair, root_at};
use table::Table;

/// Returns the first place where a state's authority lies outside the policy, by the rules A1 to A6.
///
/// There is none exactly if all authority lies within the policy. The table says the labels of
/// objects. The call takes no memory.
pub fn outside(table: &Table, policy: &Policy, state: &State) -> Option<Denial>
    ensures within { IfNone result (IsConfined table.now (allows policy.now) state.now) }
    ensures first { IfSome result (λ denial. (place : Excess) × (excess_of denial ≡ Some place)
        × IsOutside table.now (allows policy.now) state.now place) }
{
    confined_states_have_nothing_outside();
    first_outside(table, policy, state)
}

// The first denial: by the least rule that is broken at any object, at the first such object. Each
// object is looked at once.
fn first_outside(table: &Table, policy: &Policy, state: &State) -> Option<Denial>
    ensures { FindsLeast place_of (LiesOutside table.now (allows policy.now) state.now) result }
{
    state.objects_are_numbered();
    let mut first = None;
    for number in 0..state.next_id() {
        let next = first_at(table, policy, state, ObjId(number));
        if rule_number(&next) < rule_number(&first) {
            first = next;
        }
    }
    first
}

// The first denial at an object. An absent object takes one look-up.
fn first_at(table: &Table, policy: &Policy, state: &State, id: ObjId) -> Option<Denial>
    ensures { FindsLeast place_of (LiesAt table.now (allows policy.now) state.now id) result }
{
    let label = label_of(table, state, id)?;
    if let Some(denial) = first_capability(table, policy, state, id, label) {
        return Some(denial);
    }
    if let Some(denial) = root_at(table, policy, state, id, label) {
        return Some(denial);
    }
    if let Some(denial) = first_pair(table, policy, state, id, label) {
        return Some(denial);
    }
    if let Some(denial) = binding_at(table, policy, state, id, label) {
        return Some(denial);
    }
    if let Some(denial) = holding_at(table, policy, state, id, label) {
        return Some(denial);
    }
    first_record(table, policy, state, id, label)
}
