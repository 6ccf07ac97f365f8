//! The release of who waits for objects that are going.
ghost use Rattle.std.specs.{List.list_any, Prelude.◌≡◌};
ghost use Rattle.{machine.specs.{Machine.same_id, WellFormed.LinksAgree}, removal.specs.Pass.IsFinalised};

use crate::kinds::cut_links;
use objects::State;
use replies::unlink;

/// Releases each thread that waits for an object that is going, and cuts all links to such objects.
///
/// A thread that is reached by a reply is halted first, so that it isn't aborted.
pub fn finalise(state: &mut State)
    requires { LinksAgree state.old }
    ensures { IsFinalised state.old (λ id. list_any (same_id id) state.old.going) state.new }
{
    let count = state.going_count();
    for place in 0..count {
        if let Some(id) = state.going(place) {
            unlink(state, id);
        }
    }
    for index in 0..count {
        if let Some(id) = state.going(index) {
            cut_links(state, id);
        }
    }
}
