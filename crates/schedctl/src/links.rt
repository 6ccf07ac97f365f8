//! The links between threads and the scheduling contexts that they run on.
ghost use Rattle.std.specs.Prelude.{◌≡◌, ◌≢◌, None, Some};
ghost use Rattle.machine.specs.{Machine.object_of, Releasing.{with_idle_context, with_unbound}};
ghost use Rattle.machine.specs.{Step.Bind.{context_under, with_bound, with_handed}, WellFormed.{IsWellFormed, kind_of}};
ghost use Rattle.machine.specs.declared.object.ObjectKind.TheVariants as kind;

use base::ObjId;
use machine::{Context, Object, Tcb};
use objects::State;

/// Returns the scheduling context that a thread runs on, if it runs on one.
pub fn context_under(state: &State, thread: ObjId) -> Option<ObjId>
    ensures { result ≡ context_under (object_of state.now thread) }
{
    match state.object(thread) {
        Some(Object::Tcb(tcb)) => tcb.context,
        _ => None,
    }
}

// Takes the thread of a scheduling context from it. Does nothing if there is no context of that number.
#[tactic(auto, unfolding(machine::specs::Releasing::with_idle_context))]
fn idle(state: &mut State, id: ObjId)
    ensures { state.new ≡ with_idle_context state.old id }
{
    if let Some(&Object::Context(context)) = state.object(id) {
        let idle = Context {
            thread: None,
            ..context
        };
        state.set_context(id, idle);
    }
}

// Cuts the link between a thread and its scheduling context at both ends.
#[tactic(auto, unfolding(machine::specs::Releasing::with_unbound))]
fn cut(state: &mut State, thread: ObjId)
    ensures { state.new ≡ with_unbound state.old thread }
{
    if let Some(&Object::Tcb(tcb)) = state.object(thread) {
        if let Some(context) = tcb.context {
            let unbound = Tcb {
                context: None,
                ..tcb
            };
            state.set_tcb(thread, unbound);
            idle(state, context);
        }
    }
}

/// Takes its scheduling context from a thread, and the thread from the context.
///
/// Does nothing if there is no such thread, or it has no context.
pub fn part(state: &mut State, thread: ObjId)
    ensures unbound { state.new ≡ with_unbound state.old thread }
    ensures well_formed { IsWellFormed state.old → IsWellFormed state.new }
{
    cut(state, thread);
}

/// Makes a thread run on a scheduling context, neither of which may be linked yet. Does nothing if
/// one of them doesn't exist.
#[tactic(auto, unfolding(machine::specs::Step::Bind::with_bound))]
pub(crate) fn bind_to(state: &mut State, id: ObjId, thread: ObjId)
    ensures { state.new ≡ with_bound state.old id thread }
{
    if let Some(&Object::Context(context)) = state.object(id) {
        if let Some(&Object::Tcb(tcb)) = state.object(thread) {
            let bound = Tcb {
                context: Some(id),
                ..tcb
            };
            let taken = Context {
                thread: Some(thread),
                ..context
            };
            state.set_tcb(thread, bound);
            state.set_context(id, taken);
        }
    }
}

// Unbinds a thread's scheduling context from it, and binds it to another thread.
#[tactic(auto, unfolding(machine::specs::Step::Bind::with_handed))]
fn rebind(state: &mut State, from: ObjId, to: ObjId)
    ensures { state.new ≡ with_handed state.old from to }
{
    if let Some(id) = context_under(state, from) {
        cut(state, from);
        bind_to(state, id, to);
    }
}

/// Makes the thread `to`, which runs on nothing, run on the scheduling context of `from`, which then runs on nothing.
///
/// The context's share stays as it was, and so do the run states of threads.
pub fn hand_over(state: &mut State, from: ObjId, to: ObjId)
    requires runs { context_under (object_of state.old from) ≢ None }
    requires thread { kind_of state.old to ≡ Some kind.Tcb }
    requires free { context_under (object_of state.old to) ≡ None }
    ensures handed { state.new ≡ with_handed state.old from to }
    ensures well_formed { IsWellFormed state.old → IsWellFormed state.new }
{
    rebind(state, from, to);
}
