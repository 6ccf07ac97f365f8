//! The command `show`: a run in which a label changes or takes from an object of another.
ghost use Rattle.std.specs.Prelude.{◌≡◌, ◌≤◌, IfErr, IfOk};
ghost use Rattle.{base.specs.Refusals.out_of_memory, commands.specs.Commands.IsJudgedSo, report.specs.Questions.unlabelled};
ghost use Rattle.report.specs.Shows as shows;

use crate::{Asked, Search};
use base::{Edge, Label, Refusal};
use commands::{Answer, Stop};
use evtext::write_script;
use reach::{Extent, Reach};
use reptext::{impossible_report, unfound_report};
use runs::Question;
use search::{edges_of, find};
use std::alloc::Global;
use table::Table;

/// Returns the run that is sought, or why none is shown; or the first of the two names that is no label of the
/// table.
pub(crate) fn shown(
    alloc: Global,
    sought: Search,
    table: &Table,
    actor: &str,
    object: &str,
) -> Result<Answer, Stop>
    ensures { IsJudgedSo (unlabelled table.now actor.now object.now)
        (shows.AnswersSearch sought actor.now object.now table.now) result }
{
    let Some(actor) = table.label_named(actor) else {
        return Err(Stop::NoLabel(Asked::Actor));
    };
    let Some(object) = table.label_named(object) else {
        return Err(Stop::NoLabel(Asked::Object));
    };
    let reach = Reach::of(alloc, table)?;
    Ok(run_answer(alloc, sought, &reach, actor, object)?)
}

/// The answer by the reach of a table.
fn run_answer(
    alloc: Global,
    sought: Search,
    reach: &Reach<'_>,
    actor: Label,
    object: Label,
) -> Result<Answer, Refusal>
    ensures right { IfOk result (shows.ShowsRun sought reach.now.table actor object) }
    ensures exit { IfOk result (λ answer. answer.status ≤ 2) }
    ensures memory { IfErr result (λ refusal. refusal ≡ out_of_memory) }
{
    reach.bounds_runs();
    let bound = reach.extent(actor, object);
    let question = Question {
        actor,
        object,
        taking: sought.takes,
    };
    let reason = edges_of(alloc, reach.why(alloc, actor, object)?);
    bounded_answer(
        alloc,
        reach.table(),
        &question,
        &reason,
        bound,
        most_calls(sought, bound),
    )
}

/// The largest number of calls tried: 0 if threads of the one label can only take and no loss is sought.
fn most_calls(sought: Search, bound: Extent) -> u64
    ensures { result ≡ shows.most_calls sought bound }
{
    match bound {
        Extent::Full => sought.steps,
        Extent::Take => { if sought.takes { sought.steps } else { 0 } }
        Extent::Nothing => 0,
    }
}

/// The answer by how far the one label goes with the other.
fn bounded_answer(
    alloc: Global,
    table: &Table,
    question: &Question,
    reason: &[Edge],
    bound: Extent,
    most: u64,
) -> Result<Answer, Refusal>
    ensures told { IfOk result (shows.TellsRun table.now question.now bound most) }
    ensures exit { IfOk result (λ answer. answer.status ≤ 2) }
    ensures memory { IfErr result (λ refusal. refusal ≡ out_of_memory) }
{
    match bound {
        Extent::Nothing => Ok(Answer::plain(impossible_report(alloc)?, 1)),
        Extent::Full | Extent::Take => found_answer(alloc, table, question, reason, bound, most),
    }
}

/// The script found with at most this number of calls, or that none is found.
fn found_answer(
    alloc: Global,
    table: &Table,
    question: &Question,
    reason: &[Edge],
    bound: Extent,
    most: u64,
) -> Result<Answer, Refusal>
    ensures told { IfOk result (shows.TellsFound table.now question.now bound most) }
    ensures exit { IfOk result (λ answer. answer.status ≤ 2) }
    ensures memory { IfErr result (λ refusal. refusal ≡ out_of_memory) }
{
    if most == 0 {
        return Ok(Answer::plain(unfound_report(alloc, bound, 0)?, 1));
    }
    let found = find(alloc, table, question, reason, most)?;
    match found.script {
        Some(script) => {
            let text = write_script(alloc, &script)?;
            Ok(Answer {
                text,
                status: 0,
                finding: None,
                made: None,
                script: Some(script),
            })
        }
        None => Ok(Answer::plain(unfound_report(alloc, bound, found.steps)?, 1)),
    }
}
