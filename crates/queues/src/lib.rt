//! The queues of threads at endpoints and notifications, first in, first out.
//!
//! The crate knows no policy.
#![tactic(auto)]

ghost use Rattle.std.specs.Prelude.{◌≡◌, IsSome, None, Some};
ghost use Rattle.base.specs.declared.ids.ObjId.{ObjId as Id};
ghost use Rattle.machine.specs.{declared.{object.ObjectKind.ObjectKind as Kind, thread.Tcb.Tcb as Thread}, Changes.first_waiting};
ghost use Rattle.machine.specs.{Changes.{with_waiting, without_first, without_waiting}, Machine.object_of, Releasing.with_blocked};
ghost use Rattle.machine.specs.WellFormed.{IsAlike, IsIdle, IsReceivingWith, IsThread, IsWellFormed, WaitsAt, WaitsAtKind, kind_of};
ghost use Rattle.objects.specs.Waiting.{WaitsNowhere, WaitsThere};

use base::ObjId;
use machine::{Object, RunState, Tcb};
use objects::State;
use steps::blocks_keep_machines_well_formed;

/// Puts a thread behind those that wait at an object.
///
/// Does nothing if there is no such object.
pub fn push_last(state: &mut State, id: ObjId, thread: ObjId)
    requires present { IsSome (object_of state.old thread) }
    requires free { WaitsNowhere state.old thread }
    ensures { state.new ≡ with_waiting state.old id thread }
{
    state.push_waiting(id, thread);
}

/// Has a thread wait at an object in a run state, after those that wait there (seL4 manual, "Threads and Execution").
///
/// Does nothing if there is no such thread.
pub fn block(state: &mut State, thread: ObjId, id: ObjId, run: RunState)
    requires { WaitsNowhere state.old thread }
    ensures blocked { state.new ≡ with_blocked state.old thread id run }
    ensures well_formed { (tcb : Thread) (at : Kind)
        → IsWellFormed state.old
        → IsThread state.old thread tcb
        → IsIdle tcb.state
        → kind_of state.old id ≡ Some at
        → WaitsAt run id
        → WaitsAtKind run at
        → ((named : Id) → ¬ (IsReceivingWith run named))
        → IsAlike state.old id run
        → IsWellFormed state.new }
{
    // A law, so that the state stays well formed.
    blocks_keep_machines_well_formed();
    wait_at(state, thread, id, run);
}

// Gives a thread a run state, and puts it behind those that wait at an object.
#[tactic(auto, unfolding(machine::specs::Releasing::with_blocked))]
fn wait_at(state: &mut State, thread: ObjId, id: ObjId, run: RunState)
    requires { WaitsNowhere state.old thread }
    ensures { state.new ≡ with_blocked state.old thread id run }
{
    if let Some(&Object::Tcb(tcb)) = state.object(thread) {
        state.set_tcb(thread, Tcb { state: run, ..tcb });
        push_last(state, id, thread);
    }
}

/// Takes the first of the threads that wait at an object, and returns it, if there is one.
///
/// The others stay in their order.
#[tactic(auto, using(machine::proofs::Queues::nobody_leaves))]
pub fn pop_first(state: &mut State, id: ObjId) -> Option<ObjId>
    ensures first { result ≡ first_waiting state.old id }
    ensures rest { state.new ≡ without_first state.old id }
    ensures kept { result ≡ None → state.new ≡ state.old }
{
    state.pop_waiting(id)
}

/// Takes a thread out of the queue that it waits in.
///
/// The others stay in their order.
pub fn take_out(state: &mut State, id: ObjId, thread: ObjId)
    requires { WaitsThere state.old id thread }
    ensures { state.new ≡ without_waiting state.old id thread }
{
    state.take_waiting(id, thread);
}
