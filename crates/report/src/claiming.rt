//! The command `claims`: whether claims hold, and the strongest claims that do.
ghost use Rattle.std.specs.{List.filter, Prelude.{[], ◌≡◌, ◌≤◌, IfOk, None, false, is_some, length}};
ghost use Rattle.{claims.specs.Reading.read_claims_of, commands.specs.{Commands.{WithIsJudged, input, output}, Hearing.WithIsHeard}};
ghost use Rattle.forms.specs.declared.file.File.TheVariants as file;
ghost use Rattle.commands.specs.Hearing as held;
ghost use Rattle.report.specs.Claimed as claimed;

use crate::{End, Finding, Listener, Sink, Source};
use base::Refusal;
use claims::{ClaimLines, all_broken, kept_of, strongest};
use commands::{Answer, Stop, Taken, With, load_with, tell};
use reach::Reach;
use reptext::{breaches_report, hold_report};
use std::alloc::Global;
use table::Table;

/// Reports whether claims hold by the reach of a system. Those that hold are kept in every run from its boot state.
///
/// Writes how many claims hold with status 0, those that don't hold with status 1, or the report of
/// the first fault with status 2.
pub fn check_claims<T, S, L, O>(
    alloc: Global,
    taken: Taken,
    system: &mut T,
    claims: &mut S,
    listener: &mut L,
    out: &mut O,
) -> End
where
    T: Source,
    S: Source,
    L: Listener,
    O: Sink,
    requires system { T.failed system.old ≡ false }
    requires claims { S.failed claims.old ≡ false }
    requires out { O.failed out.old ≡ false }
    ensures judged { claimed.AreJudged taken (input T.remaining T.failed system.old system.new)
        (input S.remaining S.failed claims.old claims.new)
        (output O.contents O.failed O.is_flushed out.old out.new) result }
    ensures heard { WithIsHeard L.Hears held.claims taken file.Claims read_claims_of (λ t. None) claimed.Judges
        (T.remaining system.old) (S.remaining claims.old) listener.old listener.new
        (output O.contents O.failed O.is_flushed out.old out.new) result }
{
    let with = load_with::<ClaimLines, T, S, L>(alloc, taken, system, claims, listener);
    let answer = claims_judged(alloc, &with);
    tell(alloc, with, answer, listener, out)
}

fn claims_judged(alloc: Global, loaded: &Result<With<ClaimLines>, Stop>) -> Result<Answer, Stop>
    ensures { WithIsJudged (λ t. None) claimed.Judges loaded.now result }
{
    match loaded {
        Ok(with) => Ok(claims_answer(alloc, with.system.table(), &with.second)?),
        Err(stop) => Err(*stop),
    }
}

/// The answer to claims on a table.
fn claims_answer(alloc: Global, table: &Table, lines: &ClaimLines) -> Result<Answer, Refusal>
    ensures right { IfOk result (claimed.Judges table.now lines.now) }
    ensures exit { IfOk result (λ answer. answer.status ≤ 2) }
{
    let reach = Reach::of(alloc, table)?;
    reach_answer(alloc, &reach, lines)
}

/// The answer to claims by the reach of a table.
fn reach_answer(alloc: Global, reach: &Reach<'_>, lines: &ClaimLines) -> Result<Answer, Refusal>
    ensures right { IfOk result (claimed.Judges reach.now.table lines.now) }
    ensures exit { IfOk result (λ answer. answer.status ≤ 2) }
{
    reach.bounds_runs();
    let broken = all_broken(alloc, reach, lines)?;
    let table = reach.table();
    let kept = kept_of(table);
    if broken.is_empty() {
        return Ok(Answer::plain(hold_report(alloc, claim_count(lines), kept)?, 0));
    }
    let text = breaches_report(alloc, table, lines, &broken, kept)?;
    Ok(Answer::found(text, Finding::Broken(broken)))
}

/// The number of claims in lines.
fn claim_count(lines: &ClaimLines) -> usize
    ensures { result ≡ claimed.claim_count lines.now }
{
    filled_count(lines.as_slice())
}

/// The number of filled entries.
fn filled_count<X>(entries: &[Option<X>]) -> usize
    ensures { result ≡ length (filter is_some entries.now) }
{
    entries.iter().filter(|entry| entry.is_some()).count()
}

/// Returns the text of the strongest claims that hold of a table.
pub(crate) fn strongest_text(alloc: Global, table: &Table) -> Result<Vec<u8>, Refusal>
    ensures text { IfOk result (λ text. claimed.TellsStrongest table.now text.items) }
{
    let reach = Reach::of(alloc, table)?;
    let lines = strongest(alloc, &reach)?;
    let text = claims::write(alloc, &lines, table)?;
    Ok(text)
}
