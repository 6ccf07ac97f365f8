//! The calls Bind and Unbind, which link a thread to the scheduling context that it runs on, or cut the link.
ghost use Rattle.std.specs.Prelude.{◌≡◌};
ghost use Rattle.machine.specs.{Machine.object_of, Makes.Makes, Step.Bind.{bind_of, thread_on, unbind_of, unlinked}};
ghost use Rattle.machine.specs.{Step.Bind.without_thread, WellFormed.IsWellFormed};

use crate::links::{bind_to, context_under, part};
use base::{Cause, ObjId};
use cspace::find;
use machine::{Answer, Made, Object, ObjectKind};
use objects::State;
use steps::calls_keep_machines_well_formed;

/// The thread that runs on a scheduling context.
fn thread_on(state: &State, id: ObjId) -> Option<ObjId>
    ensures { result ≡ thread_on (object_of state.now id) }
{
    match state.object(id) {
        Some(Object::Context(context)) => context.thread,
        _ => None,
    }
}

/// Refuses if there is a link.
fn unlinked(link: Option<ObjId>) -> Result<(), Cause>
    ensures { result ≡ unlinked link }
{
    match link {
        None => Ok(()),
        Some(_) => Err(Cause::IllegalOperation),
    }
}

/// Unbinds the thread that runs on a scheduling context, if one does.
fn unbind_thread(state: &mut State, thread: Option<ObjId>)
    ensures { state.new ≡ without_thread state.old thread }
{
    if let Some(thread) = thread {
        part(state, thread);
    }
}

// The whole row of a bind.
#[tactic(auto, unfolding(machine::specs::Step::Bind::bind_of))]
fn make_bind(state: &mut State, caller: ObjId, context: u64, thread: u64) -> Result<Made, Cause>
    ensures { Makes state.old state.new result (bind_of state.old caller context thread) }
{
    let (_, context) = find(state, ObjectKind::Context, caller, context)?;
    let (_, thread) = find(state, ObjectKind::Tcb, caller, thread)?;
    unlinked(thread_on(state, context.object))?;
    unlinked(context_under(state, thread.object))?;
    bind_to(state, context.object, thread.object);
    Ok(Made::Done(Answer::Nothing))
}

/// Makes a thread run on a scheduling context (seL4 manual, seL4_SchedContext_Bind).
///
/// The thread is at the address `thread`, and the context at the address `context`. The context
/// needn't be configured yet.
///
/// # Errors
///
/// Those of [`find`], for the context and then for the thread; [`Cause::IllegalOperation`] (3) where
/// a thread runs on the context already, or the thread on a context.
pub fn bind(state: &mut State, caller: ObjId, context: u64, thread: u64) -> Result<Made, Cause>
    requires well_formed { IsWellFormed state.old }
    ensures made { Makes state.old state.new result (bind_of state.old caller context thread) }
    ensures well_formed { IsWellFormed state.new }
{
    // A law, so that the state stays well formed.
    calls_keep_machines_well_formed();
    make_bind(state, caller, context, thread)
}

// The whole row of an unbind.
#[tactic(auto, unfolding(machine::specs::Step::Bind::unbind_of))]
fn make_unbind(state: &mut State, caller: ObjId, address: u64) -> Result<Made, Cause>
    ensures { Makes state.old state.new result (unbind_of state.old caller address) }
{
    let (_, context) = find(state, ObjectKind::Context, caller, address)?;
    let thread = thread_on(state, context.object);
    unbind_thread(state, thread);
    Ok(Made::Done(Answer::Nothing))
}

/// Unbinds the thread that runs on the scheduling context at an address (seL4 manual, seL4_SchedContext_Unbind).
///
/// If none does, nothing changes.
///
/// # Errors
///
/// Those of [`find`].
pub fn unbind(state: &mut State, caller: ObjId, address: u64) -> Result<Made, Cause>
    requires well_formed { IsWellFormed state.old }
    ensures made { Makes state.old state.new result (unbind_of state.old caller address) }
    ensures well_formed { IsWellFormed state.new }
{
    // A law, so that the state stays well formed.
    calls_keep_machines_well_formed();
    make_unbind(state, caller, address)
}
