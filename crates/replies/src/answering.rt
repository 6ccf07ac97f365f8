//! The call Reply, which answers a call.
ghost use Rattle.std.specs.Prelude.{◌≡◌};
ghost use Rattle.machine.specs.{Machine.object_of, Makes.Makes, Step.Reply.{answered, caller_in, gives_back, loan_in}};
ghost use Rattle.machine.specs.{Step.Reply.{reply_of, with_returned}, WellFormed.IsWellFormed};

use crate::release::give;
use base::{Cause, ObjId};
use cspace::find;
use machine::{Answer, Lent, Made, Message, Object, ObjectKind, Reply, ReplyState, RunState, Tcb};
use objects::State;
use schedctl::{context_under, hand_over};
use steps::calls_keep_machines_well_formed;

/// The thread that has called through a reply and waits for its answer.
fn caller_through(state: &State, id: ObjId) -> Option<ObjId>
    ensures { result ≡ caller_in (object_of state.now id) }
{
    match state.object(id) {
        Some(
            &Object::Reply(
                Reply {
                    state: ReplyState::Called(thread),
                    ..
                },
            ),
        ) => Some(thread),
        _ => None,
    }
}

/// The thread's loan, if it called and waits for its answer.
fn loan_in(state: &State, thread: ObjId) -> Option<Lent>
    ensures { result ≡ loan_in (object_of state.now thread) }
{
    match state.object(thread) {
        Some(
            &Object::Tcb(
                Tcb {
                    state: RunState::Called(calling),
                    ..
                },
            ),
        ) => calling.lent,
        _ => None,
    }
}

/// Whether a thread that answers gives its context back: the called thread lent it to it, and has none now.
fn gives_back(state: &State, invoker: ObjId, called: ObjId) -> bool
    ensures { result ≡ gives_back state.now invoker called }
{
    match (
        context_under(state, invoker),
        loan_in(state, called),
        context_under(state, called),
    ) {
        (Some(context), Some(lent), None) => lent.borrower == invoker && lent.context == context,
        _ => false,
    }
}

/// Has the called thread run on the context that it lent to the one that answers, if that still has
/// it. Else nothing changes.
fn give_back(state: &mut State, invoker: ObjId, called: ObjId)
    requires { IsWellFormed state.old }
    ensures returned { state.new ≡ with_returned state.old invoker called }
    ensures well_formed { IsWellFormed state.new }
{
    if gives_back(state, invoker, called) {
        hand_over(state, invoker, called);
    }
}

/// Gives a thread that waits for an answer, if there is one, first the context that it lent, then the
/// words.
fn answer(state: &mut State, invoker: ObjId, called: Option<ObjId>, words: [u64; 4])
    requires { IsWellFormed state.old }
    ensures { state.new ≡ answered state.old invoker called words }
{
    if let Some(called) = called {
        let message = Message {
            badge: 0,
            words,
            capability: false,
        };
        give_back(state, invoker, called);
        give(state, called, message);
    }
}

// Makes a reply by its row.
#[tactic(auto, unfolding(machine::specs::Step::Reply::reply_of))]
fn make_reply(
    state: &mut State,
    caller: ObjId,
    address: u64,
    words: [u64; 4],
) -> Result<Made, Cause>
    requires { IsWellFormed state.old }
    ensures { Makes state.old state.new result (reply_of state.old caller address words) }
{
    let (_, cap) = find(state, ObjectKind::Reply, caller, address)?;
    let called = caller_through(state, cap.object);
    answer(state, caller, called, words);
    Ok(Made::Done(Answer::Nothing))
}

/// Answers the call that was made through the reply at an address (seL4 manual, "Reply objects").
///
/// The thread that called gets the words and can run, and the reply is free. If nobody has
/// called through it, nothing changes. No capability is sent with an answer.
///
/// The scheduling context that the thread lent goes back to it if it was lent to the caller, which
/// still runs on it, and the thread has got no other meanwhile.
///
/// # Errors
///
/// Those of [`find`].
pub fn reply(state: &mut State, caller: ObjId, address: u64, words: [u64; 4]) -> Result<Made, Cause>
    requires well_formed { IsWellFormed state.old }
    ensures made { Makes state.old state.new result (reply_of state.old caller address words) }
    ensures well_formed { IsWellFormed state.new }
{
    // A law, so that the state stays well formed.
    calls_keep_machines_well_formed();
    make_reply(state, caller, address, words)
}
