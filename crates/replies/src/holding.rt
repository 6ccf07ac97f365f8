//! Replies that hold threads: one that waits for a message, or one that called.
ghost use Rattle.std.specs.Prelude.{◌≡◌, Some};
ghost use Rattle.base.specs.declared.ids.ObjId.{ObjId as Id};
ghost use Rattle.machine.specs.{declared.{object.ReplyState.TheVariants.Waiting, thread.Tcb.Tcb as Thread}, Releasing.IsInItsQueue};
ghost use Rattle.machine.specs.{Releasing.{with_called, with_free, with_holder_halted, with_holding}, Step.Receive.awaiting_message};
ghost use Rattle.{machine.specs.WellFormed.{IsAlike, IsFree, IsIdle, IsThread, IsWellFormed, kind_of}, objects.specs.Waiting.WaitsNowhere};
ghost use Rattle.machine.specs.declared.object.ObjectKind.TheVariants as kind;
ghost use Rattle.machine.specs.declared.thread.RunState.TheVariants as run;

use crate::release::halt;
use base::ObjId;
use machine::{Calling, Object, Receiving, Reply, ReplyState, RunState, Tcb};
use objects::State;
use queues::block;
use steps::blocks_keep_machines_well_formed;

/// Sets the thread that the reply holds. No thread is changed.
#[tactic(auto, unfolding(machine::specs::Releasing::with_holding))]
fn hold(state: &mut State, id: ObjId, holds: ReplyState)
    ensures { state.new ≡ with_holding state.old id holds }
{
    if let Some(&Object::Reply(holding)) = state.object(id) {
        let changed = Reply {
            state: holds,
            ..holding
        };
        state.set_reply(id, changed);
    }
}

/// Makes the reply hold nobody. The thread that it held isn't changed. Does nothing if there is no
/// reply of that number.
pub(crate) fn free(state: &mut State, id: ObjId)
    ensures { state.new ≡ with_free state.old id }
{
    hold(state, id, ReplyState::Free);
}

// Has the reply wait with a thread that waits for a message. The thread isn't changed: its run state
// must name the reply. Does nothing if there is no reply of that number.
fn wait_with(state: &mut State, id: ObjId, thread: ObjId)
    ensures { state.new ≡ with_holding state.old id (Waiting thread) }
{
    hold(state, id, ReplyState::Waiting(thread));
}

// Has a thread wait for a message, and the reply that it names with it.
fn wait_for_message(state: &mut State, thread: ObjId, receiving: Receiving)
    requires { WaitsNowhere state.old thread }
    ensures { state.new ≡ awaiting_message state.old thread receiving }
{
    block(
        state,
        thread,
        receiving.endpoint,
        RunState::Receiving(receiving),
    );
    if let Some(id) = receiving.reply {
        wait_with(state, id, thread);
    }
}

/// Has a thread wait at an endpoint for a message (seL4 manual, "Endpoints" and "Reply objects").
///
/// The thread waits behind those that wait there. If it names a reply, that reply waits with it.
///
/// The thread that the reply held before isn't changed: the reply must be free, and the thread
/// that waits must be ready or inactive.
pub fn await_message(state: &mut State, thread: ObjId, receiving: Receiving)
    requires { WaitsNowhere state.old thread }
    ensures awaiting { state.new ≡ awaiting_message state.old thread receiving }
    ensures well_formed { (tcb : Thread)
        → IsWellFormed state.old
        → IsThread state.old thread tcb
        → IsIdle tcb.state
        → kind_of state.old receiving.endpoint ≡ Some kind.Endpoint
        → IsAlike state.old receiving.endpoint (run.Receiving receiving)
        → ((id : Id) → receiving.reply ≡ Some id → IsFree state.old id)
        → IsWellFormed state.new }
{
    // A law, so that the state stays well formed.
    blocks_keep_machines_well_formed();
    wait_for_message(state, thread, receiving);
}

/// Ties a thread and a reply to each other, as the thread waits for an answer.
#[tactic(auto, unfolding(machine::specs::Releasing::with_called))]
fn tie(state: &mut State, thread: ObjId, calling: Calling)
    ensures { state.new ≡ with_called state.old thread calling }
{
    if let Some(&Object::Tcb(tcb)) = state.object(thread) {
        let called = Tcb {
            state: RunState::Called(calling),
            ..tcb
        };
        state.set_tcb(thread, called);
        hold(state, calling.reply, ReplyState::Called(thread));
    }
}

/// Has a thread wait for the answer to its call, through a reply that then holds it (seL4 manual, "Reply objects").
///
/// The thread that the reply held before isn't changed, nor is the queue in which the caller waited:
/// the reply must be free, and the caller ready or inactive. Does nothing if there is no such thread.
pub fn link(state: &mut State, thread: ObjId, calling: Calling)
    ensures called { state.new ≡ with_called state.old thread calling }
    ensures well_formed { (tcb : Thread)
        → IsWellFormed state.old
        → IsThread state.old thread tcb
        → IsIdle tcb.state
        → IsFree state.old calling.reply
        → IsWellFormed state.new }
{
    // A law, so that the state stays well formed.
    blocks_keep_machines_well_formed();
    tie(state, thread, calling);
}

// Halts the thread that the reply holds.
#[tactic(auto, unfolding(machine::specs::Releasing::with_holder_halted))]
fn halt_holder(state: &mut State, id: ObjId)
    requires { (thread : Id) → IsInItsQueue state.old thread }
    ensures { state.new ≡ with_holder_halted state.old id }
{
    if let Some(&Object::Reply(holding)) = state.object(id) {
        match holding.state {
            ReplyState::Waiting(thread) | ReplyState::Called(thread) => halt(state, thread),
            ReplyState::Free => {}
        }
    }
}

/// Halts the thread that the reply holds, if it holds one (seL4 manual, "Reply objects").
///
/// That frees the reply, so both ends agree. Does nothing if there is no reply of that number.
pub fn unlink(state: &mut State, id: ObjId)
    requires { (thread : Id) → IsInItsQueue state.old thread }
    ensures unlinked { state.new ≡ with_holder_halted state.old id }
    ensures well_formed { IsWellFormed state.old → IsWellFormed state.new }
{
    halt_holder(state, id);
}
