//! The search for a script that answers a question.
ghost use Rattle.std.specs.Prelude.{[], ◌++◌, ◌<◌, ◌∷◌, ◌≡◌, ◌≤◌, IfErr, IfOk, IfSome, IsTrue, None};
ghost use Rattle.{base.specs.Refusals.plain, machine.specs.WellFormed.IsWellFormed, runs.specs.Shown.AnswersQuestion};

use crate::atoms::{Known, News};
use crate::origin::{Origin, apply, settle};
use crate::trying::{Breadth, Callers, Choice, calls_in};
use base::{Edge, Label, ObjId, Refusal};
use machine::Event;
use objects::State;
use runs::{Question, answering, is_near, makes, reach, shows};
use std::alloc::{AllocError, Global};
use table::Table;

/// The largest number of calls that are tried because the edges of a reason name them.
const MOST_NAMED: u64 = 5_000;

/// The number of scripts after which no more are kept.
const MOST_KEPT: usize = 50_000;

/// The end of a search.
#[derive(Drop)]
pub struct Found {
    /// The script that is as asked, if one was found.
    pub script: Option<Vec<Event>>,
    /// The number of calls that were tried.
    pub steps: u64,
}

/// What is searched for, and where.
#[derive(Clone, Copy)]
struct Task<'a> {
    alloc: Global,
    table: &'a Table,
    question: &'a Question,
}

/// The scripts that lead to states from which a search continues, and what was seen so far.
#[derive(Drop)]
struct Front<'a> {
    known: Known<'a>,
    kept: Vec<Kept>,
    /// The number of kept scripts after which the actor's calls were tried.
    own: usize,
    /// The number of kept scripts before which the others' calls were tried after each.
    others: usize,
    /// The number of kept scripts before which the others' calls were tried after each that is near.
    near: usize,
}

/// A script that leads to a state from which a search continues.
#[derive(Drop)]
struct Kept {
    script: Vec<Event>,
    /// The objects in which its state may differ from the boot state.
    changed: Vec<ObjId>,
    /// Whether its last call changed an object of one of the labels that are asked about.
    is_near: bool,
    /// Whether the others' calls were tried after it.
    is_done: bool,
}

/// Searches for a script that answers a question, and tries at most `steps` calls.
///
/// The calls that the edges of `reason` name are tried first: it says why the question's actor may do something to
/// the object. A script that is found answers the question. If none is found, there may be one all the same.
///
/// # Errors
///
/// 40 where memory is refused.
pub fn find(
    alloc: Global,
    table: &Table,
    question: &Question,
    reason: &[Edge],
    steps: u64,
) -> Result<Found, Refusal>
    ensures found { IfOk result (λ found. IfSome found.script (λ script. AnswersQuestion table.now question.now script.items)) }
    ensures bounded { IfOk result (λ found. found.steps ≤ steps) }
    ensures refused { IfErr result (λ refusal. refusal ≡ plain 40) }
{
    let task = Task {
        alloc,
        table,
        question,
    };
    let most = steps.min(MOST_NAMED);
    let named = pass(&task, Breadth::Named, reason, most)?;
    if named.script.is_some() {
        return Ok(named);
    }
    let found = find_unnamed(&task, steps - named.steps)?;
    Ok(Found {
        script: found.script,
        steps: named.steps + found.steps,
    })
}

// Searches with at most a number of calls, without a reason.
fn find_unnamed(task: &Task<'_>, steps: u64) -> Result<Found, Refusal>
    ensures found { IfOk result (λ found. IfSome found.script
        (λ script. AnswersQuestion task.now.table.now task.now.question.now script.items)) }
    ensures bounded { IfOk result (λ found. found.steps ≤ steps) }
    ensures refused { IfErr result (λ refusal. refusal ≡ plain 40) }
{
    let first = pass(task, Breadth::Narrow, &[], steps - steps / 3)?;
    if first.script.is_some() {
        return Ok(first);
    }
    let second = pass(task, Breadth::Wide, &[], steps - first.steps)?;
    Ok(Found {
        script: second.script,
        steps: first.steps + second.steps,
    })
}

/// Returns the end of a search that has found nothing with a number of calls.
pub fn unfound(steps: u64) -> Found
    ensures steps { result.steps ≡ steps }
    ensures none { result.script ≡ None }
{
    Found {
        script: None,
        steps,
    }
}

// Searches with at most a number of calls of one breadth.
fn pass(task: &Task<'_>, breadth: Breadth, reason: &[Edge], steps: u64) -> Result<Found, Refusal>
    ensures found { IfOk result (λ found. IfSome found.script
        (λ script. AnswersQuestion task.now.table.now task.now.question.now script.items)) }
    ensures bounded { IfOk result (λ found. found.steps ≤ steps) }
    ensures refused { IfErr result (λ refusal. refusal ≡ plain 40) }
{
    let mut front = Front {
        known: Known::new(task.alloc, task.table, news_of(breadth)),
        kept: Vec::new(task.alloc),
        own: 0,
        others: 0,
        near: 0,
    };
    search_from(task, breadth, reason, steps, &mut front)
}

// The news that a search of this breadth looks for.
fn news_of(breadth: Breadth) -> News {
    match breadth {
        Breadth::Narrow => News::Atom,
        Breadth::Named | Breadth::Wide => News::Two,
    }
}

// Searches from the boot state, with at most a number of calls.
fn search_from(
    task: &Task<'_>,
    breadth: Breadth,
    reason: &[Edge],
    steps: u64,
    front: &mut Front<'_>,
) -> Result<Found, Refusal>
    ensures found { IfOk result (λ found. IfSome found.script
        (λ script. AnswersQuestion task.now.table.now task.now.question.now script.items)) }
    ensures bounded { IfOk result (λ found. found.steps ≤ steps) }
    ensures refused { IfErr result (λ refusal. refusal ≡ plain 40) }
{
    begin(task.alloc, front)?;
    let mut spent = 0;
    for turn in 0..usize::MAX {
        let Some((number, own)) = next(front, turn) else {
            break;
        };
        let choice = Choice {
            callers: callers(task.question.actor, own),
            breadth,
            reason,
        };
        let found = follow(task, &choice, number, steps - spent, front)?;
        spent += found.steps;
        if found.script.is_some() || spent == steps {
            return Ok(Found {
                script: found.script,
                steps: spent,
            });
        }
    }
    Ok(unfound(spent))
}

// Keeps the empty script, which leads to the boot state.
fn begin(alloc: Global, front: &mut Front<'_>) -> Result<(), Refusal>
    ensures refused { IfErr result (λ refusal. refusal ≡ plain 40) }
{
    front.known.note_boot(alloc)?;
    front.kept.push(Kept {
        script: Vec::new(alloc),
        changed: Vec::new(alloc),
        is_near: true,
        is_done: false,
    })?;
    Ok(())
}

// The threads of a label, or all others.
fn callers(actor: Label, own: bool) -> Callers {
    if own {
        Callers::Of(actor)
    } else {
        Callers::NotOf(actor)
    }
}

// The number of the script to continue from, and whether the actor's calls are tried after it. The actor's calls have
// two turns of three. Every other turn of the others is for a script that is near.
fn next(front: &mut Front<'_>, turn: usize) -> Option<(usize, bool)> {
    let count = front.kept.len();
    if front.own < count && (turn % 3 != 2 || front.others >= front.own) {
        let number = front.own;
        front.own = number + 1;
        return Some((number, true));
    }
    if turn % 2 == 0 {
        if let Some(number) = open_from(&front.kept, front.near, front.own, true) {
            front.near = number + 1;
            finish(&mut front.kept, number);
            return Some((number, false));
        }
    }
    let number = open_from(&front.kept, front.others, front.own, false)?;
    front.others = number + 1;
    finish(&mut front.kept, number);
    Some((number, false))
}

// The number of the first kept script between two numbers after which the others' calls weren't
// tried: of those that are near, or of all.
fn open_from(kept: &[Kept], from: usize, to: usize, near: bool) -> Option<usize>
    ensures { IfSome result (λ number. number < to) }
{
    for number in from..to {
        if let Some(script) = kept.get(number) {
            if !script.is_done && (script.is_near || !near) {
                return Some(number);
            }
        }
    }
    None
}

// Notes that the others' calls were tried after a kept script.
fn finish(kept: &mut [Kept], number: usize) {
    if let Some(script) = kept.get_mut(number) {
        script.is_done = true;
    }
}

// The kept script of that number, and the objects in which its state may differ from the boot state.
fn kept_at(
    alloc: Global,
    kept: &[Kept],
    number: usize,
) -> Result<(Vec<Event>, Vec<ObjId>), AllocError> {
    let mut script = Vec::new(alloc);
    let mut changed = Vec::new(alloc);
    if let Some(kept) = kept.get(number) {
        script.extend_from_slice(&kept.script)?;
        changed.extend_from_slice(&kept.changed)?;
    }
    Ok((script, changed))
}

/// Returns a copy of a script.
pub fn copied(alloc: Global, script: &[Event]) -> Result<Vec<Event>, AllocError> {
    let mut events = Vec::new(alloc);
    events.extend_from_slice(script)?;
    Ok(events)
}

// Tries the calls after the kept script of a number, at most `most` of them, and keeps the scripts
// that lead to something new.
fn follow(
    task: &Task<'_>,
    choice: &Choice<'_>,
    number: usize,
    most: u64,
    front: &mut Front<'_>,
) -> Result<Found, Refusal>
    ensures found { IfOk result (λ found. IfSome found.script
        (λ script. AnswersQuestion task.now.table.now task.now.question.now script.items)) }
    ensures bounded { IfOk result (λ found. found.steps ≤ most) }
    ensures refused { IfErr result (λ refusal. refusal ≡ plain 40) }
{
    let (script, changed) = kept_at(task.alloc, &front.kept, number)?;
    match reach(task.alloc, task.table, &script) {
        Ok(Some(state)) => {
            let origin = Origin {
                script: &script,
                changed: &changed,
                state: &state,
            };
            try_calls(task, choice, &origin, most, front)
        }
        Ok(None) => Ok(unfound(0)),
        Err(refusal) => Err(refusal),
    }
}

// Tries the chosen calls after a script, at most `most` of them.
fn try_calls(
    task: &Task<'_>,
    choice: &Choice<'_>,
    origin: &Origin<'_>,
    most: u64,
    front: &mut Front<'_>,
) -> Result<Found, Refusal>
    ensures found { IfOk result (λ found. IfSome found.script
        (λ script. AnswersQuestion task.now.table.now task.now.question.now script.items)) }
    ensures bounded { IfOk result (λ found. found.steps ≤ most) }
    ensures refused { IfErr result (λ refusal. refusal ≡ plain 40) }
{
    let calls = calls_in(task.alloc, task.table, origin.state, choice)?;
    if calls.is_empty() {
        return Ok(unfound(0));
    }
    match reach(task.alloc, task.table, origin.script) {
        Ok(Some(mut ground)) => try_all(task, origin, &calls, most, &mut ground, front),
        Ok(None) => Ok(unfound(0)),
        Err(refusal) => Err(refusal),
    }
}

// Tries calls in a copy of the origin's state, at most `most` of them.
fn try_all(
    task: &Task<'_>,
    origin: &Origin<'_>,
    calls: &[Event],
    most: u64,
    ground: &mut State,
    front: &mut Front<'_>,
) -> Result<Found, Refusal>
    requires { IsWellFormed ground.old }
    ensures found { IfOk result (λ found. IfSome found.script
        (λ script. AnswersQuestion task.now.table.now task.now.question.now script.items)) }
    ensures bounded { IfOk result (λ found. found.steps ≤ most) }
    ensures refused { IfErr result (λ refusal. refusal ≡ plain 40) }
{
    let mut tried = 0;
    for call in calls {
        if tried == most {
            break;
        }
        tried += 1;
        if try_one(task, origin, call, ground, front)? {
            return Ok(Found {
                script: Some(longer(task.alloc, origin.script, call)?),
                steps: tried,
            });
        }
    }
    Ok(unfound(tried))
}

// Tries a call in a copy of the origin's state, which is restored afterwards. Returns whether the
// script with the call answers the question. The script is kept if it leads to something new.
fn try_one(
    task: &Task<'_>,
    origin: &Origin<'_>,
    call: &Event,
    ground: &mut State,
    front: &mut Front<'_>,
) -> Result<bool, Refusal>
    requires { IsWellFormed ground.old }
    ensures found { IfOk result (λ found. IsTrue found
        → AnswersQuestion task.now.table.now task.now.question.now (origin.now.script.now ++ call.now ∷ [])) }
    ensures well_formed { IsWellFormed ground.new }
    ensures refused { IfErr result (λ refusal. refusal ≡ plain 40) }
{
    let Some(effect) = apply(task.alloc, origin, call, ground)? else {
        return Ok(false);
    };
    if judge(task, origin, ground, &effect.changes, call, front)? {
        return Ok(true);
    }
    settle(
        task.alloc,
        task.table,
        origin,
        call,
        &effect.touched,
        ground,
    )?;
    Ok(false)
}

// Judges a call that leads from the origin's state to another. Returns whether the script with the
// call answers the question. The script is kept if it leads to something new.
fn judge(
    task: &Task<'_>,
    origin: &Origin<'_>,
    to: &State,
    changes: &[ObjId],
    last: &Event,
    front: &mut Front<'_>,
) -> Result<bool, Refusal>
    ensures found { IfOk result (λ found. IsTrue found
        → AnswersQuestion task.now.table.now task.now.question.now (origin.now.script.now ++ last.now ∷ [])) }
    ensures refused { IfErr result (λ refusal. refusal ≡ plain 40) }
{
    if answers(task, origin, to, changes, last)? {
        return Ok(true);
    }
    if front.known.note(task.alloc, to, changes, origin.changed)? && front.kept.len() < MOST_KEPT {
        keep(task, origin, to, changes, last, front)?;
    }
    Ok(false)
}

// Whether a script with a call answers the question. The call leads from the origin's state to another.
fn answers(
    task: &Task<'_>,
    origin: &Origin<'_>,
    to: &State,
    changes: &[ObjId],
    last: &Event,
) -> Result<bool, Refusal>
    ensures shown { IfOk result (λ shown. IsTrue shown
        → AnswersQuestion task.now.table.now task.now.question.now (origin.now.script.now ++ last.now ∷ [])) }
    ensures refused { IfErr result (λ refusal. refusal ≡ plain 40) }
{
    let thread = last.thread;
    let Some(id) = answering(task.table, origin.state, to, changes, thread, task.question) else {
        return Ok(false);
    };
    shows(
        task.alloc,
        task.table,
        origin.script,
        *last,
        task.question,
        id,
    )
}

// Keeps a script with a call.
fn keep(
    task: &Task<'_>,
    origin: &Origin<'_>,
    to: &State,
    changes: &[ObjId],
    last: &Event,
    front: &mut Front<'_>,
) -> Result<(), AllocError> {
    front.kept.push(Kept {
        script: longer(task.alloc, origin.script, last)?,
        changed: joined(task.alloc, origin.changed, changes)?,
        is_near: is_near(task.table, origin.state, to, changes, task.question),
        is_done: false,
    })?;
    Ok(())
}

// The objects of two lists, each once.
fn joined(alloc: Global, ids: &[ObjId], others: &[ObjId]) -> Result<Vec<ObjId>, AllocError> {
    let mut all = Vec::new(alloc);
    all.extend_from_slice(ids)?;
    for id in others {
        if !ids.contains(id) {
            all.push(*id)?;
        }
    }
    Ok(all)
}

/// Returns a script with one more event.
pub fn longer(alloc: Global, script: &[Event], last: &Event) -> Result<Vec<Event>, AllocError>
    ensures { IfOk result (λ longer. longer.items ≡ script.now ++ last.now ∷ []) }
{
    let mut events = Vec::new(alloc);
    events.extend_from_slice(script)?;
    events.push(*last)?;
    Ok(events)
}
