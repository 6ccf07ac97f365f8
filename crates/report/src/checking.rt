//! The command `check`: whether a table keeps to a policy.
ghost use Rattle.std.specs.Prelude.{ℕ, ◌<◌, ◌≡◌, ◌≤◌, IfOk, None, false};
ghost use Rattle.captext.specs.Policies.{read_policy_of};
ghost use Rattle.forms.specs.declared.file.File.TheVariants as file;
ghost use Rattle.commands.specs.declared.choices.Taken.TheVariants as taken;
ghost use Rattle.commands.specs.{Commands.{IsJudgedSo, WithIsJudged, input, output}, Ends.status_of, Hearing.WithIsHeard};
ghost use Rattle.commands.specs.Hearing as held;
ghost use Rattle.report.specs.Answers as answers;

use crate::{End, Gate, Listener, OnAccept, Rules, Sink, Source};
use base::Refusal;
use commands::{Answer, Stop, Taken, With, denied, load_with, tell};
use policy::Policy;
use reptext::check_report;
use std::alloc::Global;
use std::thread::Threads;
use table::Table;
use verdict::judge_by;

/// Checks a table against a policy, by a set of rules, with 1 to 16 workers, each of which arrives at the
/// gate first.
/// Writes the report or the certificate of an acceptance with status 0, the report of a denial with
/// status 1, or the report of the first fault with status 2.
pub fn check<R, G, T, P, L, O>(
    rt: &R,
    alloc: Global,
    rules: Rules,
    table: &mut T,
    policy: &mut P,
    on_accept: OnAccept,
    workers: usize,
    gate: &G,
    listener: &mut L,
    out: &mut O,
) -> End
where
    R: Threads + Sync,
    G: Gate + Sync,
    T: Source,
    P: Source,
    L: Listener,
    O: Sink,
    requires table { T.failed table.old ≡ false }
    requires policy { P.failed policy.old ≡ false }
    requires out { O.failed out.old ≡ false }
    requires workers { (1 ≤ workers) × (workers ≤ 16) }
    ensures checked { answers.IsChecked rules on_accept (input T.remaining T.failed table.old table.new)
        (input P.remaining P.failed policy.old policy.new)
        (output O.contents O.failed O.is_flushed out.old out.new) result }
    ensures heard { WithIsHeard L.Hears held.policy taken.Table file.Policy read_policy_of (λ t. None)
        (answers.Checks rules on_accept) (T.remaining table.old) (P.remaining policy.old) listener.old listener.new
        (output O.contents O.failed O.is_flushed out.old out.new) result }
    ensures arrived { status_of result ≡ 0 → (worker : ℕ) → worker < workers → G.HasArrived gate.now worker }
{
    let with = load_with::<Policy, T, P, L>(alloc, Taken::Table, table, policy, listener);
    let answer = checked(rt, alloc, rules, &with, on_accept, workers, gate);
    tell(alloc, with, answer, listener, out)
}

/// The verdict on a table and a policy that were loaded.
fn checked<R: Threads + Sync, G: Gate + Sync>(
    rt: &R,
    alloc: Global,
    rules: Rules,
    loaded: &Result<With<Policy>, Stop>,
    on_accept: OnAccept,
    workers: usize,
    gate: &G,
) -> Result<Answer, Stop>
    requires workers { (1 ≤ workers) × (workers ≤ 16) }
    ensures judged { WithIsJudged (λ t. None) (answers.Checks rules on_accept) loaded.now result }
    ensures arrived { IfOk result (λ answer. answer.status ≡ 0
        → (worker : ℕ) → worker < workers → G.HasArrived gate.now worker) }
{
    match loaded {
        Ok(with) => {
            verdict_answer(
                rt,
                alloc,
                rules,
                with.system.table(),
                &with.second,
                on_accept,
                workers,
                gate,
            )
        }
        Err(stop) => Err(*stop),
    }
}

/// The verdict on a table and a policy. The text on an acceptance is made after it.
fn verdict_answer<R: Threads + Sync, G: Gate + Sync>(
    rt: &R,
    alloc: Global,
    rules: Rules,
    table: &Table,
    policy: &Policy,
    on_accept: OnAccept,
    workers: usize,
    gate: &G,
) -> Result<Answer, Stop>
    requires workers { (1 ≤ workers) × (workers ≤ 16) }
    ensures judged { IsJudgedSo None (answers.Checks rules on_accept table.now policy.now) result }
    ensures arrived { IfOk result (λ answer. answer.status ≡ 0
        → (worker : ℕ) → worker < workers → G.HasArrived gate.now worker) }
{
    match judge_by(rt, alloc, table, policy, rules, workers, gate)? {
        Ok(()) => Ok(Answer::plain(accepted_text(alloc, table, policy, on_accept)?, 0)),
        Err(denial) => Ok(denied(alloc, table, denial)?),
    }
}

/// The text on an acceptance. The certificate is made only if it is asked for.
fn accepted_text(
    alloc: Global,
    table: &Table,
    policy: &Policy,
    on_accept: OnAccept,
) -> Result<Vec<u8>, Refusal>
    ensures { IfOk result (λ text. answers.TellsCheck on_accept table.now policy.now text.items) }
{
    match on_accept {
        OnAccept::Report => Ok(check_report(alloc, table, policy)?),
        OnAccept::Certificate => {
            let certificate = certificate::make(alloc, table)?;
            certificate::write(alloc, &certificate, table)
        }
    }
}
