//! A whole removal, from its first slot to the objects that go.
ghost use Rattle.std.specs.Prelude.{◌≡◌};
ghost use Rattle.machine.specs.{Below.is_below, Machine.same_slot, Removal.removed, WellFormed.IsWellFormed};

use crate::choosing::{empty_all_below, empty_all_with};
use crate::sweeping::sweep;
use base::SlotRef;
use objects::State;
use steps::removals_keep_machines_well_formed;

/// Empties a slot, and removes all that can't stay without it (seL4 manual, "Deletion, Revocation, and Recycling").
///
/// The call takes time in what is removed and what is linked to that.
pub fn remove(state: &mut State, slot: SlotRef)
    requires { IsWellFormed state.old }
    ensures changes { state.new ≡ removed state.old (same_slot slot) }
    ensures well_formed { IsWellFormed state.new }
{
    // A law, so that the state stays well formed.
    removals_keep_machines_well_formed();
    empty_all_with(state, slot);
    sweep(state);
}

/// Empties the slots that descend from one, and removes all that can't stay without them. It takes time
/// in what is removed and what is linked to that.
pub(crate) fn remove_below(state: &mut State, above: SlotRef)
    requires { IsWellFormed state.old }
    ensures { state.new ≡ removed state.old (is_below state.old above) }
{
    empty_all_below(state, above);
    sweep(state);
}
