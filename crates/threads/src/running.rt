//! The calls Suspend and Resume, which stop a thread and let it run again.
ghost use Rattle.std.specs.Prelude.{◌≡◌};
ghost use Rattle.machine.specs.{Makes.Makes, Releasing.IsInItsQueue};
ghost use Rattle.machine.specs.{Step.Suspend.{resume_of, suspend_of, with_resumed}, WellFormed.IsWellFormed};

use base::{Cause, ObjId};
use cspace::find;
use machine::{Answer, Made, Object, ObjectKind, RunState};
use objects::State;
use replies::abort;
use steps::calls_keep_machines_well_formed;

/// Makes an inactive thread run, and aborts a blocked one. A ready one stays so.
#[tactic(auto, unfolding(machine::specs::Step::Suspend::with_resumed))]
fn let_run(state: &mut State, thread: ObjId)
    requires { IsInItsQueue state.old thread }
    ensures { state.new ≡ with_resumed state.old thread }
{
    if let Some(&Object::Tcb(tcb)) = state.object(thread) {
        match tcb.state {
            RunState::Ready => {}
            RunState::Inactive => replies::resume(state, thread),
            _ => abort(state, thread),
        }
    }
}

// The whole row of a suspend.
#[tactic(auto, unfolding(machine::specs::Step::Suspend::suspend_of))]
fn make_suspend(state: &mut State, caller: ObjId, address: u64) -> Result<Made, Cause>
    requires { IsWellFormed state.old }
    ensures { Makes state.old state.new result (suspend_of state.old caller address) }
{
    let (_, tcb) = find(state, ObjectKind::Tcb, caller, address)?;
    replies::suspend(state, tcb.object);
    Ok(Made::Done(Answer::Nothing))
}

/// Suspends the thread at an address (seL4 manual, seL4_TCB_Suspend).
/// The thread leaves its queue and its reply, can't run until it is resumed, and has nothing to
/// fetch.
/// fetch.
///
/// # Errors
///
/// Those of [`find`].
pub fn suspend(state: &mut State, caller: ObjId, address: u64) -> Result<Made, Cause>
    requires well_formed { IsWellFormed state.old }
    ensures made { Makes state.old state.new result (suspend_of state.old caller address) }
    ensures well_formed { IsWellFormed state.new }
{
    // A law, so that the state stays well formed.
    calls_keep_machines_well_formed();
    make_suspend(state, caller, address)
}

// The whole row of a resume.
#[tactic(auto, unfolding(machine::specs::Step::Suspend::resume_of))]
fn make_resume(state: &mut State, caller: ObjId, address: u64) -> Result<Made, Cause>
    requires { IsWellFormed state.old }
    ensures { Makes state.old state.new result (resume_of state.old caller address) }
{
    let (_, tcb) = find(state, ObjectKind::Tcb, caller, address)?;
    let_run(state, tcb.object);
    Ok(Made::Done(Answer::Nothing))
}

/// Resumes the thread at an address (seL4 manual, seL4_TCB_Resume; the abort is confine's own).
///
/// An inactive thread can run, and keeps its inbox. A blocked thread leaves its queue and its
/// reply, can run, and learns that it was aborted. A ready thread stays as it is.
///
/// # Errors
///
/// Those of [`find`].
pub fn resume(state: &mut State, caller: ObjId, address: u64) -> Result<Made, Cause>
    requires well_formed { IsWellFormed state.old }
    ensures made { Makes state.old state.new result (resume_of state.old caller address) }
    ensures well_formed { IsWellFormed state.new }
{
    // A law, so that the state stays well formed.
    calls_keep_machines_well_formed();
    make_resume(state, caller, address)
}
