//! Admission of a thread that makes a call on a core.
ghost use Rattle.std.specs.Prelude.{◌≡◌};
ghost use Rattle.machine.specs.{Machine.object_of, Step.{admitted, running_share, share_of, thread_in}};

use base::{Cause, CoreNo, ObjId};
use machine::{Context, Object, RunState, Share, Tcb};
use objects::State;

/// The thread of that number.
fn thread(state: &State, caller: ObjId) -> Result<Tcb, Cause>
    ensures { result ≡ thread_in (object_of state.now caller) }
{
    match state.object(caller) {
        Some(Object::Tcb(thread)) => Ok(*thread),
        _ => Err(Cause::NoSuchThread),
    }
}

/// The share of a core that a thread with that context runs on.
fn share(state: &State, context: Option<ObjId>) -> Option<Share>
    ensures { result ≡ share_of state.now context }
{
    match state.object(context?) {
        Some(Object::Context(Context { share, .. })) => *share,
        _ => None,
    }
}

/// The share of a core that the thread runs on, if it can run.
fn running(state: &State, thread: &Tcb) -> Result<Share, Cause>
    ensures { result ≡ running_share state.now thread.now }
{
    match thread.state {
        RunState::Ready => share(state, thread.context).ok_or(Cause::NotRunnable),
        _ => Err(Cause::NotRunnable),
    }
}

/// Admits a thread to make a call on a core.
///
/// The thread is there, is ready, and runs on a context that is configured for that core. The
/// answer is the context's share.
///
/// # Errors
///
/// The first of these: [`Cause::NoSuchThread`] (34) if there is no such thread,
/// [`Cause::NotRunnable`] (32) if it isn't ready or has no context that is configured, and
/// [`Cause::WrongCore`] (33) if that is for another core.
#[tactic(auto, unfolding(machine::specs::Step::admitted))]
pub fn admit(state: &State, core: CoreNo, caller: ObjId) -> Result<Share, Cause>
    ensures { result ≡ admitted state.now core caller }
{
    let thread = thread(state, caller)?;
    let share = running(state, &thread)?;
    if share.core == core {
        Ok(share)
    } else {
        Err(Cause::WrongCore)
    }
}
