//! The call Signal, which gives a badge to a notification or to the thread that waits first.
ghost use Rattle.std.specs.Prelude.{◌≡◌};
ghost use Rattle.machine.specs.{Machine.object_of, Makes.Makes, Step.Signal.{pending_in, signal_of, signalled, woken}};

use base::{Cause, ObjId, Rights};
use bitflags::Flags;
use cspace::{find, permit};
use machine::{Answer, Inbox, Made, Notification, Object, ObjectKind, RunState, Tcb};
use objects::State;
use queues::pop_first;

/// Returns the word of a notification, if it has one.
pub fn pending(state: &State, id: ObjId) -> Option<u64>
    ensures { result ≡ pending_in (object_of state.now id) }
{
    match state.object(id) {
        Some(Object::Notification(Notification { pending, .. })) => *pending,
        _ => None,
    }
}

/// Gives a thread that waited a word, and makes it ready.
#[tactic(auto, unfolding(machine::specs::Step::Signal::woken))]
fn wake(state: &mut State, thread: ObjId, word: u64)
    ensures { state.new ≡ woken state.old thread word }
{
    if let Some(Object::Tcb(old)) = state.object(thread) {
        let tcb = Tcb {
            state: RunState::Ready,
            inbox: Inbox::Word(word),
            ..*old
        };
        state.set_tcb(thread, tcb);
    }
}

/// Signals a notification with a badge.
#[tactic(auto, unfolding(machine::specs::Step::Signal::signalled))]
fn notify(state: &mut State, id: ObjId, badge: u64)
    ensures { state.new ≡ signalled state.old id badge }
{
    match pop_first(state, id) {
        Some(thread) => wake(state, thread, badge),
        None => {
            let word = pending(state, id).unwrap_or(0);
            state.set_pending(id, Some(badge | word));
        }
    }
}

/// Signals the notification at an address (seL4 manual, "Notifications").
///
/// The first thread that waits gets the capability's badge. If none waits, the badge joins the
/// notification's word.
///
/// # Errors
///
/// Those of [`find`], and [`Cause::InvalidCapability`] (2) if the right Write is missing.
#[tactic(auto, unfolding(machine::specs::Step::Signal::signal_of))]
pub fn signal(state: &mut State, caller: ObjId, address: u64) -> Result<Made, Cause>
    ensures { Makes state.old state.new result (signal_of state.old caller address) }
{
    let (_, cap) = find(state, ObjectKind::Notification, caller, address)?;
    let end = cap.detail.badged();
    permit(end.rights.contains(Rights::WRITE))?;
    notify(state, cap.object, end.badge);
    Ok(Made::Done(Answer::Nothing))
}
