//! The thread that waits first at an endpoint.
ghost use Rattle.std.specs.Prelude.{◌≡◌};
ghost use Rattle.machine.specs.{Machine.object_of, Step.Deliver.{first_at, receiver_in, sender_in, state_in}};

use base::ObjId;
use machine::{Object, Receiving, RunState, Sending};
use objects::State;

/// The run state of a thread.
fn run_state(state: &State, thread: ObjId) -> Option<RunState>
    ensures { result ≡ state_in (object_of state.now thread) }
{
    match state.object(thread) {
        Some(Object::Tcb(tcb)) => Some(tcb.state),
        _ => None,
    }
}

/// The thread that waits first at an endpoint, and the run state in which it waits.
#[tactic(auto, unfolding(machine::specs::Step::Deliver::first_at))]
fn first_at(state: &State, id: ObjId) -> Option<(ObjId, RunState)>
    ensures { result ≡ first_at state.now id }
{
    let thread = state.first_waiting(id)?;
    let run = run_state(state, thread)?;
    Some((thread, run))
}

/// Returns the thread that waits first at an endpoint, if it receives.
pub fn first_receiver(state: &State, id: ObjId) -> Option<(ObjId, Receiving)>
    ensures { result ≡ receiver_in (first_at state.now id) }
{
    match first_at(state, id) {
        Some((thread, RunState::Receiving(receiving))) => Some((thread, receiving)),
        _ => None,
    }
}

/// Returns the thread that waits first at an endpoint, if it sends.
pub fn first_sender(state: &State, id: ObjId) -> Option<(ObjId, Sending)>
    ensures { result ≡ sender_in (first_at state.now id) }
{
    match first_at(state, id) {
        Some((thread, RunState::Sending(sending))) => Some((thread, sending)),
        _ => None,
    }
}
