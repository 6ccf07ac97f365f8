//! The command `run`, if one thread makes all calls.
ghost use Rattle.std.specs.Prelude.{◌≡◌, IfOk, None, false};
ghost use Rattle.{evtext.specs.Script.read_script_of, commands.specs.{Commands.{ThreeIsJudged, input, output}, Hearing.ThreeIsHeard}};
ghost use Rattle.forms.specs.declared.file.File.TheVariants as file;
ghost use Rattle.commands.specs.Hearing as held;
ghost use Rattle.report.specs.Answers as answers;

use crate::{End, Listener, Rules, Sink, Source};
use base::Refusal;
use commands::{Answer, Made, Script, Stop, Three, denied, load_three, tell};
use deal::Open;
use evtext::write_run;
use kernel::boot;
use std::alloc::Global;
use std::thread::Threads;
use table::Table;
use verdict::judge_by;

/// Checks a table against a policy, by a set of rules, and runs a script if they are accepted.
///
/// Writes the log of the run with status 0, the report of a denial with status 1, or the report of
/// the first fault with status 2.
pub fn run<R, T, P, S, L, O>(
    rt: &R,
    alloc: Global,
    rules: Rules,
    table: &mut T,
    policy: &mut P,
    script: &mut S,
    listener: &mut L,
    out: &mut O,
) -> End
where
    R: Threads + Sync,
    T: Source,
    P: Source,
    S: Source,
    L: Listener,
    O: Sink,
    requires table { T.failed table.old ≡ false }
    requires policy { P.failed policy.old ≡ false }
    requires script { S.failed script.old ≡ false }
    requires out { O.failed out.old ≡ false }
    ensures done { answers.IsRun rules (input T.remaining T.failed table.old table.new)
        (input P.remaining P.failed policy.old policy.new) (input S.remaining S.failed script.old script.new)
        (output O.contents O.failed O.is_flushed out.old out.new) result }
    ensures heard { ThreeIsHeard L.Hears held.script file.Script (λ t. read_script_of) (answers.Runs rules)
        (T.remaining table.old) (P.remaining policy.old) (S.remaining script.old) listener.old listener.new
        (output O.contents O.failed O.is_flushed out.old out.new) result }
{
    let three = load_three::<Script, T, P, S, L>(alloc, table, policy, script, listener);
    let answer = ran(rt, alloc, rules, &three);
    tell(alloc, three, answer, listener, out)
}

/// The log of a script on a system, both loaded, or why the system is denied.
fn ran<R: Threads + Sync>(
    rt: &R,
    alloc: Global,
    rules: Rules,
    loaded: &Result<Three<Script>, Stop>,
) -> Result<Answer, Stop>
    ensures { ThreeIsJudged (answers.Runs rules) loaded.now result }
{
    let Three {
        table,
        policy,
        third,
    } = match loaded {
        Ok(three) => three,
        Err(stop) => return Err(*stop),
    };
    match judge_by(rt, alloc, table, policy, rules, 1, &Open)? {
        Ok(()) => Ok(run_answer(alloc, table, third)?),
        Err(denial) => Ok(denied(alloc, table, denial)?),
    }
}

/// The log of a run of the events from the boot state of the table.
fn run_answer(alloc: Global, table: &Table, script: &Script) -> Result<Answer, Refusal>
    ensures { IfOk result (answers.IsLogOfRun table.now script.now) }
{
    let mut state = boot(alloc, table)?;
    let mut outcomes = Vec::new(alloc);
    let events = script.events.as_slice();
    let ran = kernel::run(&mut state, events, &mut outcomes);
    drop(state);
    ran?;
    Ok(Answer {
        text: write_run(alloc, events, &outcomes)?,
        status: 0,
        finding: None,
        made: Some(Made::InTurn(outcomes)),
        script: None,
    })
}
