//! Removal of objects that lost their last capability.
ghost use Rattle.std.specs.Prelude.{◌≡◌, Contains};
ghost use Rattle.{base.specs.declared.ids.ObjId.ObjId as Id, removal.specs.Dropping.{IsCutOff, dropped, without_objects}};

use objects::State;

/// Removes the objects that are going, to which nothing holds any more. Then none is going. It takes time
/// in their number.
pub(crate) fn drop_going(state: &mut State)
    requires { (id : Id) → Contains state.old.going id → IsCutOff state.old id }
    ensures { state.new ≡ dropped state.old }
{
    state.keeps_a_forest();
    remove_going(state);
    state.clear_going();
}

// Removes the objects that are going, one after another.
fn remove_going(state: &mut State)
    requires { (id : Id) → Contains state.old.going id → IsCutOff state.old id }
    ensures { state.new ≡ without_objects state.old state.old.going }
{
    for next in 0..state.going_count() {
        let Some(id) = state.going(next) else {
            return;
        };
        state.remove_object(id);
    }
}
