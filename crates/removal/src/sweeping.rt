//! The end of a removal, once its slots are empty.
ghost use Rattle.std.specs.Prelude.{◌≡◌, Bool};
ghost use Rattle.base.specs.declared.ids.SlotRef.{SlotRef as Slot};
ghost use Rattle.{machine.specs.{Machine.Machine, Removal.removed}, removal.specs.Sweeping.IsSwept};

use crate::dropping::drop_going;
use crate::pass::finalise;
use derivation::leave_tree;
use objects::State;

/// Ends a removal whose slots are all empty. What still is in the derivation tree leaves it. Threads that
/// waited for objects that are going are released, and these objects are removed.
pub(crate) fn sweep(state: &mut State)
    requires { (m : Machine) × (chosen : Slot → Bool) × IsSwept m chosen state.old }
    ensures { (m : Machine) (chosen : Slot → Bool) → IsSwept m chosen state.old → state.new ≡ removed m chosen }
{
    state.keeps_a_forest();
    leave_tree(state);
    finalise(state);
    drop_going(state);
}
