//! The search for a run that leaves a policy, which is one that ends in a state whose authority lies outside the policy.
ghost use Rattle.std.specs.Prelude.{[], ◌++◌, ◌∷◌, ◌≡◌, ◌≤◌, IfErr, IfOk, IfSome, IsTrue};
ghost use Rattle.{base.specs.Refusals.plain, machine.specs.WellFormed.IsWellFormed, policy.specs.Policy.allows, runs.specs.Escapes.LeavesPolicy};

use crate::atoms::{Known, News};
use crate::finding::{Found, copied, longer, unfound};
use crate::origin::{Origin, apply, settle};
use crate::trying::{Breadth, Callers, Choice, calls_in};
use base::{ObjId, Refusal};
use machine::Event;
use objects::State;
use policy::Policy;
use runs::{MOST_CALLS, leaves, lies_outside, makes, reach};
use std::alloc::Global;
use table::Table;

/// What is searched for, and where.
#[derive(Clone, Copy)]
struct Task<'a> {
    alloc: Global,
    table: &'a Table,
    policy: &'a Policy,
}

/// The scripts after which calls are tried, in this order, and what was seen so far.
#[derive(Drop)]
struct Queue<'a> {
    known: Known<'a>,
    scripts: Vec<Vec<Event>>,
}

/// Searches for a run of at most [`MOST_CALLS`] calls that leaves a policy, and tries at most `steps` calls.
///
/// A run that is found starts in the table's boot state, has no refused call, and ends in a state
/// outside the policy. If none is found, there may be one all the same.
///
/// # Errors
///
/// 40 where memory is refused.
pub fn find_escape(
    alloc: Global,
    table: &Table,
    policy: &Policy,
    steps: u64,
) -> Result<Found, Refusal>
    ensures found { IfOk result (λ found. IfSome found.script
        (λ script. LeavesPolicy table.now (allows policy.now) script.items)) }
    ensures bounded { IfOk result (λ found. found.steps ≤ steps) }
    ensures refused { IfErr result (λ refusal. refusal ≡ plain 40) }
{
    let task = Task {
        alloc,
        table,
        policy,
    };
    let mut queue = Queue {
        known: Known::new(alloc, table, News::Atom),
        scripts: Vec::new(alloc),
    };
    search_from(&task, steps, &mut queue)
}

// Searches from the boot state, with at most a number of calls.
fn search_from(task: &Task<'_>, steps: u64, queue: &mut Queue<'_>) -> Result<Found, Refusal>
    ensures found { IfOk result (λ found. IfSome found.script
        (λ script. LeavesPolicy task.now.table.now (allows task.now.policy.now) script.items)) }
    ensures bounded { IfOk result (λ found. found.steps ≤ steps) }
    ensures refused { IfErr result (λ refusal. refusal ≡ plain 40) }
{
    queue.known.note_boot(task.alloc)?;
    queue.scripts.push(Vec::new(task.alloc))?;
    let mut spent = 0;
    for number in 0..usize::MAX {
        let Some(script) = queue.scripts.get(number) else {
            break;
        };
        let script = copied(task.alloc, script)?;
        let found = try_after(task, &script, steps - spent, queue)?;
        spent += found.steps;
        if found.script.is_some() || spent == steps {
            return Ok(Found {
                script: found.script,
                steps: spent,
            });
        }
    }
    Ok(unfound(spent))
}

// Tries calls of all threads after a script, at most `most` of them, and keeps the scripts that
// lead to something new.
fn try_after(
    task: &Task<'_>,
    script: &[Event],
    most: u64,
    queue: &mut Queue<'_>,
) -> Result<Found, Refusal>
    ensures found { IfOk result (λ found. IfSome found.script
        (λ script. LeavesPolicy task.now.table.now (allows task.now.policy.now) script.items)) }
    ensures bounded { IfOk result (λ found. found.steps ≤ most) }
    ensures refused { IfErr result (λ refusal. refusal ≡ plain 40) }
{
    match reach(task.alloc, task.table, script) {
        Ok(Some(state)) => {
            let origin = Origin {
                script,
                changed: &[],
                state: &state,
            };
            try_calls(task, &origin, most, queue)
        }
        Ok(None) => Ok(unfound(0)),
        Err(refusal) => Err(refusal),
    }
}

// Tries calls of all threads in the origin's state, at most `most` of them.
fn try_calls(
    task: &Task<'_>,
    origin: &Origin<'_>,
    most: u64,
    queue: &mut Queue<'_>,
) -> Result<Found, Refusal>
    ensures found { IfOk result (λ found. IfSome found.script
        (λ script. LeavesPolicy task.now.table.now (allows task.now.policy.now) script.items)) }
    ensures bounded { IfOk result (λ found. found.steps ≤ most) }
    ensures refused { IfErr result (λ refusal. refusal ≡ plain 40) }
{
    let choice = Choice {
        callers: Callers::All,
        breadth: Breadth::Narrow,
        reason: &[],
    };
    let calls = calls_in(task.alloc, task.table, origin.state, &choice)?;
    if calls.is_empty() {
        return Ok(unfound(0));
    }
    match reach(task.alloc, task.table, origin.script) {
        Ok(Some(mut ground)) => try_all(task, origin, &calls, most, &mut ground, queue),
        Ok(None) => Ok(unfound(0)),
        Err(refusal) => Err(refusal),
    }
}

// Tries calls in a copy of the origin's state, at most `most` of them.
fn try_all(
    task: &Task<'_>,
    origin: &Origin<'_>,
    calls: &[Event],
    most: u64,
    ground: &mut State,
    queue: &mut Queue<'_>,
) -> Result<Found, Refusal>
    requires { IsWellFormed ground.old }
    ensures found { IfOk result (λ found. IfSome found.script
        (λ script. LeavesPolicy task.now.table.now (allows task.now.policy.now) script.items)) }
    ensures bounded { IfOk result (λ found. found.steps ≤ most) }
    ensures refused { IfErr result (λ refusal. refusal ≡ plain 40) }
{
    let mut tried = 0;
    for call in calls {
        if tried == most {
            break;
        }
        tried += 1;
        if try_one(task, origin, call, ground, queue)? {
            return Ok(Found {
                script: Some(longer(task.alloc, origin.script, call)?),
                steps: tried,
            });
        }
    }
    Ok(unfound(tried))
}

// Tries a call in a copy of the origin's state, which is restored afterwards. Returns whether the script with the
// call leaves the policy. The script is kept if it leads to something new and may have a further call.
fn try_one(
    task: &Task<'_>,
    origin: &Origin<'_>,
    call: &Event,
    ground: &mut State,
    queue: &mut Queue<'_>,
) -> Result<bool, Refusal>
    requires { IsWellFormed ground.old }
    ensures found { IfOk result (λ found. IsTrue found
        → LeavesPolicy task.now.table.now (allows task.now.policy.now) (origin.now.script.now ++ call.now ∷ [])) }
    ensures well_formed { IsWellFormed ground.new }
    ensures refused { IfErr result (λ refusal. refusal ≡ plain 40) }
{
    let Some(effect) = apply(task.alloc, origin, call, ground)? else {
        return Ok(false);
    };
    if judge(task, origin, ground, &effect.changes, call, queue)? {
        return Ok(true);
    }
    settle(
        task.alloc,
        task.table,
        origin,
        call,
        &effect.touched,
        ground,
    )?;
    Ok(false)
}

// Judges a call that leads from the origin's state to another. Returns whether the script with the call leaves the
// policy. The script is kept if it leads to something new and may have a further call.
fn judge(
    task: &Task<'_>,
    origin: &Origin<'_>,
    to: &State,
    changes: &[ObjId],
    last: &Event,
    queue: &mut Queue<'_>,
) -> Result<bool, Refusal>
    ensures found { IfOk result (λ found. IsTrue found
        → LeavesPolicy task.now.table.now (allows task.now.policy.now) (origin.now.script.now ++ last.now ∷ [])) }
    ensures refused { IfErr result (λ refusal. refusal ≡ plain 40) }
{
    let longer = longer(task.alloc, origin.script, last)?;
    // The state is only a first look: the whole script decides.
    if lies_outside(task.table, task.policy, to)
        && leaves(task.alloc, task.table, task.policy, &longer)?
    {
        return Ok(true);
    }
    if longer.len() < MOST_CALLS && queue.known.note(task.alloc, to, changes, &[])? {
        queue.scripts.push(longer)?;
    }
    Ok(false)
}
