//! The call Copy, which copies a capability.
ghost use Rattle.std.specs.Prelude.{◌≡◌};
ghost use Rattle.machine.specs.{Makes.Makes, Step.Copy.copy_of, WellFormed.IsWellFormed};

use crate::copies::{copyable, derive, masked};
use crate::slots::ends;
use base::{Cause, ObjId, Rights};
use machine::{Answer, Made, SlotAddress};
use objects::State;

/// Copies a capability to an empty slot, with those of its rights among `rights` (seL4 manual, seL4_CNode_Copy).
///
/// The caller names the capability's slot as `from`, and the empty slot as `to`. The copy is a
/// child of its source where that is original, else of the source's parent; it isn't original.
///
/// # Errors
///
/// In this order:
///
/// - [`Cause::FailedLookup`] (6), [`Cause::InvalidCapability`] (2) or [`Cause::RangeError`] (4),
///   where the slot `to` isn't found
/// - [`Cause::DeleteFirst`] (8), where it is filled
/// - [`Cause::FailedLookup`] (6) or [`Cause::RangeError`] (4), where the slot `from` isn't found or
///   is empty
/// - [`Cause::IllegalOperation`] (3), where that holds a capability for untyped memory.
#[tactic(auto, unfolding(machine::specs::Step::Copy::copy_of))]
pub fn copy(
    state: &mut State,
    caller: ObjId,
    to: SlotAddress,
    from: SlotAddress,
    rights: Rights,
) -> Result<Made, Cause>
    requires well_formed { IsWellFormed state.old }
    ensures row { Makes state.old state.new result (copy_of state.old caller to from rights) }
    ensures well_formed { IsWellFormed state.new }
{
    let ends = ends(state, caller, to, from)?;
    copyable(&ends.held.detail)?;
    derive(state, ends, masked(rights, ends.held.detail));
    Ok(Made::Done(Answer::Nothing))
}
