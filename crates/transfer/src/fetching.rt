//! The call Fetch, which takes what a thread was given and hasn't fetched yet.
ghost use Rattle.std.specs.Prelude.{◌≡◌};
ghost use Rattle.machine.specs.{Machine.object_of, Makes.Makes, Step.Fetch.{emptied, fetch_of, fetched, fetched_in}};
ghost use Rattle.machine.specs.WellFormed.{IsCaller, IsWellFormed};

use base::{Cause, ObjId};
use machine::{Answer, Inbox, Made, Object, Tcb};
use objects::State;
use steps::calls_keep_machines_well_formed;

/// The answer that an inbox gives.
fn fetched(inbox: Inbox) -> Result<Answer, Cause>
    ensures { result ≡ fetched inbox }
{
    match inbox {
        Inbox::Empty => Err(Cause::IllegalOperation),
        Inbox::Message(message) => Ok(Answer::Message(message)),
        Inbox::Word(word) => Ok(Answer::Word(word)),
        Inbox::Aborted => Ok(Answer::Aborted),
    }
}

/// The answer that the inbox of a thread gives.
fn fetched_in(state: &State, thread: ObjId) -> Result<Answer, Cause>
    ensures { result ≡ fetched_in (object_of state.now thread) }
{
    match state.object(thread) {
        Some(Object::Tcb(tcb)) => fetched(tcb.inbox),
        _ => Err(Cause::NoSuchThread),
    }
}

/// Empties the inbox of a thread.
#[tactic(auto, unfolding(machine::specs::Step::Fetch::emptied))]
fn empty_inbox(state: &mut State, thread: ObjId)
    ensures { state.new ≡ emptied state.old thread }
{
    if let Some(&Object::Tcb(tcb)) = state.object(thread) {
        let emptied = Tcb {
            inbox: Inbox::Empty,
            ..tcb
        };
        state.set_tcb(thread, emptied);
    }
}

// The whole row of a fetch.
#[tactic(auto, unfolding(machine::specs::Step::Fetch::fetch_of))]
fn make_fetch(state: &mut State, caller: ObjId) -> Result<Made, Cause>
    ensures { Makes state.old state.new result (fetch_of state.old caller) }
{
    let answer = fetched_in(state, caller)?;
    empty_inbox(state, caller);
    Ok(Made::Done(answer))
}

/// Takes what the caller was given while it waited and hasn't fetched yet.
///
/// This is a message, the word of a notification, or the news that the wait was aborted. The inbox
/// is empty afterwards. (confine's own: seL4 puts these into the thread's registers.)
///
/// # Errors
///
/// [`Cause::IllegalOperation`] (3) where the inbox is empty.
pub fn fetch(state: &mut State, caller: ObjId) -> Result<Made, Cause>
    requires well_formed { IsWellFormed state.old }
    requires caller { IsCaller state.old caller }
    ensures made { Makes state.old state.new result (fetch_of state.old caller) }
    ensures well_formed { IsWellFormed state.new }
{
    // A law, so that the state stays well formed.
    calls_keep_machines_well_formed();
    make_fetch(state, caller)
}
