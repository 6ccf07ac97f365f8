//! The links of an object that is going, kind by kind.
ghost use Rattle.std.specs.Prelude.{◌≡◌};
ghost use Rattle.machine.specs.{Releasing.{IsInItsQueue, with_halted, with_unbound}, WellFormed.LinksAgree};
ghost use Rattle.removal.specs.Finalised.{with_link_cut, with_links_cut, with_waiters_aborted};

use base::ObjId;
use machine::Object;
use objects::State;
use replies::{abort, halt};
use schedctl::part;

/// Aborts each thread that waits at the object.
fn abort_waiters(state: &mut State, id: ObjId)
    requires { LinksAgree state.old }
    ensures { state.new ≡ with_waiters_aborted state.old id }
{
    while let Some(thread) = state.first_waiting(id) {
        abort(state, thread);
    }
}

// Has a thread leave its queue, its reply and its scheduling context.
fn cut_thread(state: &mut State, id: ObjId)
    requires { IsInItsQueue state.old id }
    ensures { state.new ≡ with_unbound (with_halted state.old id) id }
{
    halt(state, id);
    part(state, id);
}

// Unbinds the thread that runs on a scheduling context, if one does.
fn cut_context(state: &mut State, thread: Option<ObjId>)
    ensures { state.new ≡ with_link_cut state.old thread }
{
    if let Some(thread) = thread {
        part(state, thread);
    }
}

/// Releases who waits at the object, and cuts its links to others; a reply's are those that
/// [`replies::unlink`] cuts.
#[tactic(auto, unfolding(crate::specs::Finalised::with_links_cut))]
pub(crate) fn cut_links(state: &mut State, id: ObjId)
    requires { LinksAgree state.old }
    ensures { state.new ≡ with_links_cut state.old id }
{
    match state.object(id) {
        Some(Object::Tcb(_)) => cut_thread(state, id),
        Some(Object::Endpoint(_) | Object::Notification(_)) => abort_waiters(state, id),
        Some(&Object::Context(context)) => cut_context(state, context.thread),
        _ => {}
    }
}
