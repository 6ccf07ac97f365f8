//! The calls Delete and Revoke, which remove capabilities.
ghost use Rattle.std.specs.Prelude.{◌≡◌};
ghost use Rattle.machine.specs.{Makes.Makes, Step.{Delete.delete_of, Revoke.revoke_of}, WellFormed.IsWellFormed};

use crate::removing::{remove, remove_below};
use base::{Cause, ObjId};
use cnodeops::target;
use machine::{Answer, Made, SlotAddress};
use objects::State;
use steps::removals_keep_machines_well_formed;

/// Removes the capability in a slot, and all that can't stay without it (seL4 manual, seL4_CNode_Delete).
///
/// The caller names the slot by `address`. The slots of CNodes and threads that lose their last
/// capability are removed too, and what these hold. An empty slot stays as it is.
///
/// The call takes time in what is removed and in what is linked to that, and no memory.
///
/// # Errors
///
/// Those of [`target`].
#[tactic(auto, unfolding(machine::specs::Step::Delete::delete_of))]
pub fn delete(state: &mut State, caller: ObjId, address: SlotAddress) -> Result<Made, Cause>
    requires well_formed { IsWellFormed state.old }
    ensures row { Makes state.old state.new result (delete_of state.old caller address) }
    ensures well_formed { IsWellFormed state.new }
{
    // A law, so that the state stays well formed.
    removals_keep_machines_well_formed();
    let slot = target(state, caller, address)?;
    if let Some(_) = state.cap(slot) {
        remove(state, slot);
    }
    Ok(Made::Done(Answer::Nothing))
}

/// Removes all that descends from the capability in a slot (seL4 manual, seL4_CNode_Revoke).
///
/// The caller names the slot by `address`. What can't stay without the descendants is removed too.
/// The capability itself stays, unless its slot is one of those that are removed.
///
/// The call takes time in what is removed and in what is linked to that, and no memory.
///
/// # Errors
///
/// Those of [`target`].
#[tactic(auto, unfolding(machine::specs::Step::Revoke::revoke_of))]
pub fn revoke(state: &mut State, caller: ObjId, address: SlotAddress) -> Result<Made, Cause>
    requires well_formed { IsWellFormed state.old }
    ensures row { Makes state.old state.new result (revoke_of state.old caller address) }
    ensures well_formed { IsWellFormed state.new }
{
    // A law, so that the state stays well formed.
    removals_keep_machines_well_formed();
    let slot = target(state, caller, address)?;
    if let Some(_) = state.cap(slot) {
        remove_below(state, slot);
    }
    Ok(Made::Done(Answer::Nothing))
}
