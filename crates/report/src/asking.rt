//! The answers to questions about a system alone, and about a system and a policy.
ghost use Rattle.std.specs.Prelude.{◌++◌, ◌≡◌, IfErr, IfOk, None, false};
ghost use Rattle.{base.specs.Refusals.out_of_memory, reach.specs.Extents.limits_by, captext.specs.PolicyText.edge_lines};
ghost use Rattle.commands.specs.Commands.{IsDoneWith, IsJudgedSo, Says, SystemIsJudged, WithIsJudged, input, output};
ghost use Rattle.commands.specs.Hearing.{SystemIsHeard, WithIsHeard};
ghost use Rattle.report.specs.{Summaries.{IsSummaryIn, TellsSummary}, Systems.{AnswersPolicy, AnswersSystem}};
ghost use Rattle.report.specs.Systems.{IsAskedOfSystem, IsAskedOfPolicy, PolicyIsHeard, lacking, lacking_of_policy};
ghost use Rattle.report.specs.Questions as questions;

use crate::claiming::strongest_text;
use crate::closing::closed;
use crate::flowing::{all_flows_told, flows_told};
use crate::reaching::kept_reach;
use crate::showing::shown;
use crate::using::users_told;
use crate::{Asked, End, Form, Listener, Picture, Sink, Source};
use base::{Edge, Label, Labels, Refusal};
use captext::{PolicyDraft, write_edges};
use commands::{
    Answer, Given, OfPolicy, OfSystem, PolicyFile, Stop, Taken, With, load_given, load_with, tell,
};
use diagram::{write_drawing, write_programs};
use policy::{Policy, Why};
use reach::Reach;
use reptext::{summary_report, why_report, write_objects};
use std::alloc::{AllocError, Global};
use table::Table;

/// Answers a question about a system alone.
///
/// Writes the answer, or the report of the first fault with status 2. The status of an answer is 0,
/// but 1 if `show` shows no run or `--missing` or `--surplus` finds an edge.
pub fn ask<T, L, O>(
    alloc: Global,
    asked: OfSystem<'_>,
    taken: Taken,
    system: &mut T,
    listener: &mut L,
    out: &mut O,
) -> End
where
    T: Source,
    L: Listener,
    O: Sink,
    requires system { T.failed system.old ≡ false }
    requires out { O.failed out.old ≡ false }
    ensures asked { IsAskedOfSystem asked.entry taken (input T.remaining T.failed system.old system.new)
        (output O.contents O.failed O.is_flushed out.old out.new) result }
    ensures heard { SystemIsHeard L.Hears taken (lacking asked.entry) (AnswersSystem asked.entry) (T.remaining system.old)
        listener.old listener.new
        (output O.contents O.failed O.is_flushed out.old out.new) result }
{
    let given = load_given(alloc, taken, system, listener);
    let answer = answered(alloc, asked, &given);
    tell(alloc, given, answer, listener, out)
}

/// The answer to a system that was loaded.
fn answered(
    alloc: Global,
    asked: OfSystem<'_>,
    loaded: &Result<Given, Stop>,
) -> Result<Answer, Stop>
    ensures { SystemIsJudged (lacking asked.entry) (AnswersSystem asked.entry) loaded.now result }
{
    match loaded {
        Ok(given) => system_answer(alloc, asked, given.table()),
        Err(stop) => Err(*stop),
    }
}

/// The answer to the table of a system.
fn system_answer(alloc: Global, asked: OfSystem<'_>, table: &Table) -> Result<Answer, Stop>
    ensures { IsJudgedSo (lacking asked.entry table.now) (AnswersSystem asked.entry table.now) result }
{
    match asked {
        OfSystem::Start(rules, on_close) => {
            Ok(closed(alloc, rules, table, &Policy::new(alloc), on_close)?)
        }
        OfSystem::List => Ok(Answer::plain(write_objects(alloc, table)?, 0)),
        OfSystem::Why {
            form,
            actor,
            object,
        } => explained(alloc, form, table, actor, object),
        OfSystem::Users { usage, object } => users_told(alloc, table, usage, object),
        OfSystem::Show {
            search,
            actor,
            object,
        } => shown(alloc, search, table, actor, object),
        OfSystem::Draw(picture) => { Ok(Answer::plain(reach_picture(alloc, picture, table)?, 0)) }
        OfSystem::Summary(form) => Ok(Answer::plain(summary_text(alloc, form, table)?, 0)),
        OfSystem::Flows { from, to } => flows_told(alloc, table, from, to),
        OfSystem::AllFlows => Ok(Answer::plain(all_flows_told(alloc, table)?, 0)),
        OfSystem::Strongest => Ok(Answer::plain(strongest_text(alloc, table)?, 0)),
    }
}

/// Answers a question about a system and a policy.
///
/// A policy that is closed may have its edges in any order and more than once, and lines with labels that the table lacks, which are
/// dropped.
///
/// Writes the answer, or the report of the first fault with status 2. The status of an answer is 0,
/// but 1 if `--missing` or `--surplus` finds an edge.
pub fn ask_policy<T, P, L, O>(
    alloc: Global,
    asked: OfPolicy<'_>,
    taken: Taken,
    system: &mut T,
    policy: &mut P,
    listener: &mut L,
    out: &mut O,
) -> End
where
    T: Source,
    P: Source,
    L: Listener,
    O: Sink,
    requires system { T.failed system.old ≡ false }
    requires policy { P.failed policy.old ≡ false }
    requires out { O.failed out.old ≡ false }
    ensures asked { IsAskedOfPolicy asked.entry taken (input T.remaining T.failed system.old system.new)
        (input P.remaining P.failed policy.old policy.new)
        (output O.contents O.failed O.is_flushed out.old out.new) result }
    ensures heard { PolicyIsHeard L.Hears asked.entry taken (T.remaining system.old) (P.remaining policy.old)
        listener.old listener.new
        (output O.contents O.failed O.is_flushed out.old out.new) result }
{
    match asked {
        OfPolicy::Close(..) => ask_as::<PolicyDraft, T, P, L, O>(
            alloc, asked, taken, system, policy, listener, out,
        ),
        OfPolicy::Why { .. } => ask_as::<Policy, T, P, L, O>(
            alloc, asked, taken, system, policy, listener, out,
        ),
        OfPolicy::Draw(_) => ask_as::<Policy, T, P, L, O>(
            alloc, asked, taken, system, policy, listener, out,
        ),
    }
}

/// The answer to a question about a system and a policy, which is read in this way.
fn ask_as<X, T, P, L, O>(
    alloc: Global,
    asked: OfPolicy<'_>,
    taken: Taken,
    system: &mut T,
    policy: &mut P,
    listener: &mut L,
    out: &mut O,
) -> End
where
    X: PolicyFile,
    T: Source,
    P: Source,
    L: Listener,
    O: Sink,
    requires system { T.failed system.old ≡ false }
    requires policy { P.failed policy.old ≡ false }
    requires out { O.failed out.old ≡ false }
    ensures asked { IsDoneWith taken X.named X.read_of (lacking_of_policy asked.entry)
        (λ table x. AnswersPolicy asked.entry table (X.edges_of x))
        (input T.remaining T.failed system.old system.new) (input P.remaining P.failed policy.old policy.new)
        (output O.contents O.failed O.is_flushed out.old out.new) result }
    ensures heard { WithIsHeard L.Hears X.held_with taken X.named X.read_of (lacking_of_policy asked.entry)
        (λ table x. AnswersPolicy asked.entry table (X.edges_of x)) (T.remaining system.old) (P.remaining policy.old)
        listener.old listener.new
        (output O.contents O.failed O.is_flushed out.old out.new) result }
{
    let with = load_with::<X, T, P, L>(alloc, taken, system, policy, listener);
    let answer = answered_of_policy(alloc, asked, &with);
    tell(alloc, with, answer, listener, out)
}

/// The answer to a system and a policy that were loaded.
fn answered_of_policy<X: PolicyFile>(
    alloc: Global,
    asked: OfPolicy<'_>,
    loaded: &Result<With<X>, Stop>,
) -> Result<Answer, Stop>
    ensures { WithIsJudged (lacking_of_policy asked.entry)
        (λ table x. AnswersPolicy asked.entry table (X.edges_of x)) loaded.now result }
{
    match loaded {
        Ok(with) => policy_answer(alloc, asked, with.system.table(), with.second.policy()),
        Err(stop) => Err(*stop),
    }
}

/// The answer to the table of a system and a policy.
fn policy_answer(
    alloc: Global,
    asked: OfPolicy<'_>,
    table: &Table,
    policy: &Policy,
) -> Result<Answer, Stop>
    ensures { IsJudgedSo (lacking_of_policy asked.entry table.now) (AnswersPolicy asked.entry table.now policy.now) result }
{
    match asked {
        OfPolicy::Close(rules, on_close) => Ok(closed(alloc, rules, table, policy, on_close)?),
        OfPolicy::Why {
            form,
            actor,
            object,
        } => explained_by(alloc, form, table, policy, actor, object),
        OfPolicy::Draw(picture) => {
            Ok(Answer::plain(policy_picture(alloc, picture, table, policy)?, 0))
        }
    }
}

/// What a label may do to another, and why; or the first of the two names that is no label of the table.
fn explained(
    alloc: Global,
    form: Form,
    table: &Table,
    actor: &str,
    object: &str,
) -> Result<Answer, Stop>
    ensures { IsJudgedSo (questions.unlabelled table.now actor.now object.now)
        (Says (λ text. questions.IsSoByReach table.now (questions.TellsWhy form actor.now object.now table.now text))) result }
{
    let Some(actor) = table.label_named(actor) else {
        return Err(Stop::NoLabel(Asked::Actor));
    };
    let Some(object) = table.label_named(object) else {
        return Err(Stop::NoLabel(Asked::Object));
    };
    let reach = kept_reach(alloc, table)?;
    let why = reach.why(alloc, actor, object)?;
    Ok(Answer::plain(told(alloc, form, table, actor, object, &why)?, 0))
}

/// What a policy allows, and why; or the first of the two names that is no label of the table.
fn explained_by(
    alloc: Global,
    form: Form,
    table: &Table,
    policy: &Policy,
    actor: &str,
    object: &str,
) -> Result<Answer, Stop>
    ensures { IsJudgedSo (questions.unlabelled table.now actor.now object.now)
        (Says (λ text. questions.IsSoByPolicy policy.now (questions.TellsWhy form actor.now object.now table.now text))) result }
{
    let Some(actor) = table.label_named(actor) else {
        return Err(Stop::NoLabel(Asked::Actor));
    };
    let Some(object) = table.label_named(object) else {
        return Err(Stop::NoLabel(Asked::Object));
    };
    let why = policy.why_among(alloc, Labels::all(), actor, object)?;
    Ok(Answer::plain(told(alloc, form, table, actor, object, &why)?, 0))
}

/// The text on what a label may do to another, in a form.
fn told(
    alloc: Global,
    form: Form,
    table: &Table,
    actor: Label,
    object: Label,
    why: &Why,
) -> Result<Vec<u8>, AllocError>
    ensures { IfOk result (λ text. text.items ≡ questions.told_in form table.now actor object why.now) }
{
    match form {
        Form::Text => why_text(alloc, table, why),
        Form::Json => why_report(alloc, table, actor, object, why),
    }
}

/// The lines on what a label may do.
fn why_text(alloc: Global, table: &Table, why: &Why) -> Result<Vec<u8>, AllocError>
    ensures { IfOk result (λ text. text.items ≡ questions.why_text table.now why.now) }
{
    match why {
        Why::Full(edges) => headed(alloc, "full\n", table, edges),
        Why::Take(edges) => headed(alloc, "take\n", table, edges),
        Why::Nothing => headed(alloc, "none\n", table, &[]),
    }
}

/// A line, and the lines of edges.
fn headed(alloc: Global, line: &str, table: &Table, edges: &[Edge]) -> Result<Vec<u8>, AllocError>
    ensures { IfOk result (λ text. text.items ≡ line.now ++ edge_lines table.now edges.now) }
{
    let mut text = Vec::new(alloc);
    text.extend_from_slice(line.as_bytes())?;
    text.extend_from_slice(&write_edges(alloc, edges, table)?)?;
    Ok(text)
}

/// The picture of who may change or take from whom in runs of a table.
fn reach_picture(alloc: Global, picture: Picture, table: &Table) -> Result<Vec<u8>, Refusal>
    ensures text { IfOk result
        (λ text. questions.IsSoByReach table.now (questions.IsPicture picture table.now text.items)) }
    ensures memory { IfErr result (λ refusal. refusal ≡ out_of_memory) }
{
    let reach = kept_reach(alloc, table)?;
    let text = picture_text(alloc, picture, table, reach.policy(), reach.actors())?;
    Ok(text)
}

/// The picture of who may change or take from whom as a policy allows it.
fn policy_picture(
    alloc: Global,
    picture: Picture,
    table: &Table,
    policy: &Policy,
) -> Result<Vec<u8>, AllocError>
    ensures { IfOk result
        (λ text. questions.IsSoByPolicy policy.now (questions.IsPicture picture table.now text.items)) }
{
    picture_text(alloc, picture, table, policy, Labels::all())
}

/// The picture of who may change or take from whom, if threads of these labels make calls.
fn picture_text(
    alloc: Global,
    picture: Picture,
    table: &Table,
    policy: &Policy,
    actors: Labels,
) -> Result<Vec<u8>, AllocError>
    ensures { IfOk result (λ text. questions.IsPicture picture table.now text.items (limits_by policy.now actors)) }
{
    match picture {
        Picture::Labels => write_drawing(alloc, table, policy, actors),
        Picture::Programs => write_programs(alloc, table, policy, actors),
    }
}

/// The summary of a table, in a form.
fn summary_text(alloc: Global, form: Form, table: &Table) -> Result<Vec<u8>, Refusal>
    ensures text { IfOk result (λ text. TellsSummary form table.now text.items) }
    ensures memory { IfErr result (λ refusal. refusal ≡ out_of_memory) }
{
    let reach = kept_reach(alloc, table)?;
    let text = summary_in(alloc, form, &reach)?;
    Ok(text)
}

/// The summary of the reach of a table, in a form.
fn summary_in(alloc: Global, form: Form, reach: &Reach<'_>) -> Result<Vec<u8>, AllocError>
    ensures { IfOk result (λ text. IsSummaryIn form reach.now text.items) }
{
    match form {
        Form::Text => summary::summary(alloc, reach),
        Form::Json => summary_report(alloc, reach),
    }
}
