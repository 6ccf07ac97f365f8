//! The command `replay`: whether a log is that of a run of a system.
ghost use Rattle.std.specs.Prelude.{◌≡◌, ◌≤◌, IfOk, None, false};
ghost use Rattle.{machine.specs.{Boot.IsBoot, WellFormed.{IsWellFormed, kind_of}}, evtext.specs.Log.read_log_of, verdict.specs.Verdict.rule_name};
ghost use Rattle.reptext.specs.{Places.place_names_by, Reports.{line_of, outside_data}};
ghost use Rattle.commands.specs.{Commands.{TellsFinding, ThreeIsJudged, input, output}, Hearing.ThreeIsHeard};
ghost use Rattle.forms.specs.declared.file.File.TheVariants as file;
ghost use Rattle.commands.specs.Hearing as held;
ghost use Rattle.report.specs.Answers as answers;
ghost use Rattle.report.specs.Replays as replays;

use crate::{End, Finding, Listener, Sink, Source};
use base::Refusal;
use commands::{Answer, Entries, Stop, Three, load_three, tell};
use kernel::boot;
use machine::{Event, Outcome};
use objects::State;
use policy::Policy;
use reptext::{illegal_report, outside_report, place_names, within_report};
use std::alloc::{AllocError, Global};
use table::Table;
use verdict::{Denial, outside};

/// Replays a log from the boot state of a table, whether that is accepted or not.
///
/// Writes with status 0 that the log is legal and its last state lies within the policy; with
/// status 1 that this state lies outside, or which entry is the first that is no step; or the
/// report of the first fault with status 2.
pub fn replay<T, P, S, L, O>(
    alloc: Global,
    table: &mut T,
    policy: &mut P,
    log: &mut S,
    listener: &mut L,
    out: &mut O,
) -> End
where
    T: Source,
    P: Source,
    S: Source,
    L: Listener,
    O: Sink,
    requires table { T.failed table.old ≡ false }
    requires policy { P.failed policy.old ≡ false }
    requires log { S.failed log.old ≡ false }
    requires out { O.failed out.old ≡ false }
    ensures done { replays.IsReplayed (input T.remaining T.failed table.old table.new)
        (input P.remaining P.failed policy.old policy.new) (input S.remaining S.failed log.old log.new)
        (output O.contents O.failed O.is_flushed out.old out.new) result }
    ensures heard { ThreeIsHeard L.Hears held.log file.Log (λ t. read_log_of) replays.Replays
        (T.remaining table.old) (P.remaining policy.old) (S.remaining log.old) listener.old listener.new
        (output O.contents O.failed O.is_flushed out.old out.new) result }
{
    let three = load_three::<Entries, T, P, S, L>(alloc, table, policy, log, listener);
    let answer = log_replayed(alloc, &three);
    tell(alloc, three, answer, listener, out)
}

/// The answer to a log that was loaded with its system.
fn log_replayed(alloc: Global, loaded: &Result<Three<Entries>, Stop>) -> Result<Answer, Stop>
    ensures { ThreeIsJudged replays.Replays loaded.now result }
{
    match loaded {
        Ok(three) => Ok(replayed(alloc, &three.table, &three.policy, &three.third)?),
        Err(stop) => Err(*stop),
    }
}

/// The answer to a log: the text and status of its replay.
fn replayed(alloc: Global, table: &Table, policy: &Policy, log: &Entries) -> Result<Answer, Refusal>
    ensures right { IfOk result
        (replays.Replays table.now policy.now log.now) }
    ensures exit { IfOk result (λ answer. answer.status ≤ 2) }
{
    let mut state = boot(alloc, table)?;
    let answer = replayed_from(alloc, table, policy, log.entries.as_slice(), &mut state);
    drop(state);
    answer
}

/// The answer to a log that is replayed from the table's boot state. The state is left where the replay stops.
fn replayed_from(
    alloc: Global,
    table: &Table,
    policy: &Policy,
    entries: &[(Event, Outcome)],
    state: &mut State,
) -> Result<Answer, Refusal>
    requires boot { IsBoot table.now state.old }
    requires well_formed { IsWellFormed state.old }
    ensures right { IfOk result
        (replays.Replays table.now policy.now entries.now) }
    ensures exit { IfOk result (λ answer. answer.status ≤ 2) }
{
    if let Some(at) = kernel::replay(state, entries)? {
        let text = illegal_report(alloc, at + 1)?;
        return Ok(Answer::found(text, Finding::Illegal(at + 1)));
    }
    match outside(table, policy, state) {
        None => Ok(Answer::plain(within_report(alloc, entries.len())?, 0)),
        Some(denial) => Ok(outside_answer(alloc, table, &*state, entries.len(), denial)?),
    }
}

/// The answer to a legal log of this number of entries, whose last state lies outside there.
fn outside_answer(
    alloc: Global,
    table: &Table,
    state: &State,
    entries: usize,
    denial: Denial,
) -> Result<Answer, AllocError>
    ensures { IfOk result (TellsFinding
        (line_of (outside_data entries (rule_name denial) (place_names_by (kind_of state.now) table.now denial)))
        (replays.IsOutsideAt denial)) }
{
    let place = place_names(alloc, table, state, &denial)?;
    let text = outside_report(alloc, entries, denial.rule(), &place)?;
    Ok(Answer::found(text, Finding::Outside(Box::new(alloc, denial)?)))
}

/// Returns what the kernel answers to the event of an entry, from 0, after the steps of the entries
/// before. It is `None` if these are no steps, or there is no such entry.
///
/// # Errors
///
/// 40 where memory is refused.
pub fn answer_at(
    alloc: Global,
    table: &Table,
    entries: &[(Event, Outcome)],
    at: usize,
) -> Result<Option<Outcome>, Refusal>
    ensures { IfOk result (replays.AnswersAt table.now entries.now at) }
{
    let Some((event, _)) = entries.get(at) else {
        return Ok(None);
    };
    let mut state = boot(alloc, table)?;
    match kernel::replay(&mut state, &entries[..at]) {
        Ok(None) => Ok(Some(kernel::step(&mut state, *event))),
        Ok(Some(_)) => Ok(None),
        Err(refusal) => Err(refusal),
    }
}
