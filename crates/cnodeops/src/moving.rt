//! The call Move, which moves a capability.
ghost use Rattle.std.specs.Prelude.{◌≡◌, IsTrue, None, Some};
ghost use Rattle.machine.specs.{Machine.{cap_of, has_slot}, Makes.Makes, Step.Move.move_of, Tree.with_moved, WellFormed.IsWellFormed};

use crate::slots::ends;
use base::{Cause, ObjId};
use derivation::move_node;
use machine::{Answer, Ends, Made, SlotAddress};
use objects::State;

/// Takes what the source holds to the target, with its place in the derivation tree.
#[tactic(auto, unfolding(machine::specs::Tree::with_moved))]
fn relocate(state: &mut State, ends: Ends)
    requires well_formed { IsWellFormed state.old }
    requires there { IsTrue (has_slot state.old ends.target) }
    requires vacant { cap_of state.old ends.target ≡ None }
    requires filled { cap_of state.old ends.source ≡ Some ends.held }
    ensures { state.new ≡ with_moved state.old ends.target ends.source ends.held }
{
    state.put_cap(ends.target, ends.held);
    move_node(state, ends.source, ends.target);
    state.take_cap(ends.source);
}

/// Moves a capability to an empty slot, with its place in the derivation tree (seL4 manual, seL4_CNode_Move).
///
/// The caller names the capability's slot as `from`, and the empty slot as `to`.
///
/// # Errors
///
/// In this order:
///
/// - [`Cause::FailedLookup`] (6), [`Cause::InvalidCapability`] (2) or [`Cause::RangeError`] (4),
///   where the slot `to` isn't found
/// - [`Cause::DeleteFirst`] (8), where it is filled
/// - [`Cause::FailedLookup`] (6) or [`Cause::RangeError`] (4), where the slot `from` isn't found or
///   is empty.
#[tactic(auto, unfolding(machine::specs::Step::Move::move_of))]
pub fn move_cap(
    state: &mut State,
    caller: ObjId,
    to: SlotAddress,
    from: SlotAddress,
) -> Result<Made, Cause>
    requires well_formed { IsWellFormed state.old }
    ensures row { Makes state.old state.new result (move_of state.old caller to from) }
    ensures well_formed { IsWellFormed state.new }
{
    let ends = ends(state, caller, to, from)?;
    relocate(state, ends);
    Ok(Made::Done(Answer::Nothing))
}
