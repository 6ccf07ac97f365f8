//! Threads that leave their queue and their reply: halted, aborted, resumed, suspended, or with a message.
ghost use Rattle.std.specs.Prelude.{◌≡◌, unwrap_or};
ghost use Rattle.base.specs.declared.ids.ObjId.{ObjId as Id};
ghost use Rattle.machine.specs.Releasing.{IsInItsQueue, unblocked, with_aborted, with_given, with_halted, with_ready, with_released};
ghost use Rattle.{machine.specs.{Releasing.with_suspended, WellFormed.{IsWellFormed, WaitsAt}}, objects.specs.Waiting.WaitsThere};

use crate::holding::free;
use base::ObjId;
use machine::{Inbox, Message, Object, RunState, Tcb};
use objects::State;
use queues::take_out;

// Takes a thread with that run state out of its queue, and frees its reply.
fn unblock(state: &mut State, thread: ObjId, run: RunState)
    requires { (id : Id) → WaitsAt run id → WaitsThere state.old id thread }
    ensures { state.new ≡ unblocked state.old thread run }
{
    match run {
        RunState::Sending(sending) => take_out(state, sending.endpoint, thread),
        RunState::Receiving(receiving) => {
            take_out(state, receiving.endpoint, thread);
            if let Some(reply) = receiving.reply {
                free(state, reply);
            }
        }
        RunState::Waiting(notification) => take_out(state, notification, thread),
        RunState::Called(calling) => free(state, calling.reply),
        RunState::Inactive | RunState::Ready => {}
    }
}

// Has a thread leave its queue and its reply, with a run state, and an inbox if one is given. Does
// nothing if there is no such thread.
#[tactic(auto, unfolding(machine::specs::Releasing::with_released))]
fn leave(state: &mut State, thread: ObjId, run: RunState, inbox: Option<Inbox>)
    requires { IsInItsQueue state.old thread }
    ensures { state.new
        ≡ with_released state.old thread (λ tcb. record tcb { state = run; inbox = unwrap_or inbox tcb.inbox }) }
{
    if let Some(&Object::Tcb(tcb)) = state.object(thread) {
        unblock(state, thread, tcb.state);
        let left = Tcb {
            state: run,
            inbox: inbox.unwrap_or(tcb.inbox),
            ..tcb
        };
        state.set_tcb(thread, left);
    }
}

/// Has a thread leave its queue and its reply, and run no more (seL4 manual, "Threads and Execution").
///
/// The thread keeps its inbox. Does nothing if there is no such thread.
pub fn halt(state: &mut State, thread: ObjId)
    requires { IsInItsQueue state.old thread }
    ensures halted { state.new ≡ with_halted state.old thread }
    ensures well_formed { IsWellFormed state.old → IsWellFormed state.new }
{
    leave(state, thread, RunState::Inactive, None);
}

/// Has a thread leave its queue and its reply, and continue.
///
/// The thread's inbox says that what the thread waited for is gone. Does nothing if there is no
/// such thread.
pub fn abort(state: &mut State, thread: ObjId)
    requires { IsInItsQueue state.old thread }
    ensures aborted { state.new ≡ with_aborted state.old thread }
    ensures well_formed { IsWellFormed state.old → IsWellFormed state.new }
{
    leave(state, thread, RunState::Ready, Some(Inbox::Aborted));
}

/// Has a thread leave its queue and its reply, and continue (seL4 manual, "Threads and Execution").
///
/// The thread keeps its inbox. Does nothing if there is no such thread.
pub fn resume(state: &mut State, thread: ObjId)
    requires { IsInItsQueue state.old thread }
    ensures ready { state.new ≡ with_ready state.old thread }
    ensures well_formed { IsWellFormed state.old → IsWellFormed state.new }
{
    leave(state, thread, RunState::Ready, None);
}

/// Stops a thread until it is resumed (seL4 manual, "Threads and Execution").
///
/// The thread leaves its queue and its reply. What was in its inbox is lost. Does nothing if
/// there is no such thread.
pub fn suspend(state: &mut State, thread: ObjId)
    requires { IsInItsQueue state.old thread }
    ensures suspended { state.new ≡ with_suspended state.old thread }
    ensures well_formed { IsWellFormed state.old → IsWellFormed state.new }
{
    leave(state, thread, RunState::Inactive, Some(Inbox::Empty));
}

/// Has a thread leave its queue and its reply, and continue with a message (seL4 manual, "Endpoints").
///
/// What was in its inbox is lost. Does nothing if there is no such thread.
pub fn give(state: &mut State, thread: ObjId, message: Message)
    requires { IsInItsQueue state.old thread }
    ensures given { state.new ≡ with_given state.old thread message }
    ensures well_formed { IsWellFormed state.old → IsWellFormed state.new }
{
    leave(
        state,
        thread,
        RunState::Ready,
        Some(Inbox::Message(message)),
    );
}
