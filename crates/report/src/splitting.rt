//! The command `run`, if a worker for each core makes the calls.
ghost use Rattle.std.specs.Prelude.{◌≡◌, IfOk, None, false};
ghost use Rattle.{evtext.specs.Script.read_script_of, commands.specs.{Commands.{ThreeIsJudged, input, output}, Hearing.ThreeIsHeard}};
ghost use Rattle.forms.specs.declared.file.File.TheVariants as file;
ghost use Rattle.commands.specs.Hearing as held;
ghost use Rattle.report.specs.Answers as answers;

use crate::{End, Gate, Listener, Open, Sink, Source};
use base::Refusal;
use commands::{Answer, Made, Script, Stop, Three, denied, load_three, tell};
use cores::split;
use evtext::write_log;
use std::alloc::Global;
use std::sync::Wait;
use std::thread::Threads;
use verdict::{Accepted, judge};

/// Checks a table against a policy, and makes a script's calls if they are accepted: each core's by
/// a worker of its own, in the script's order. A worker that has calls arrives at the gate first;
/// workers are numbered by rising core.
///
/// Writes the log in the order of the calls with status 0, the report of a denial with status 1, or
/// the report of the first fault with status 2. All this holds if the function returns: a worker
/// waits for the others' calls.
pub fn run_split<R, G, T, P, S, L, O>(
    rt: &R,
    alloc: Global,
    table: &mut T,
    policy: &mut P,
    script: &mut S,
    gate: &G,
    listener: &mut L,
    out: &mut O,
) -> End
where
    R: Threads + Wait + Sync,
    G: Gate + Sync,
    T: Source,
    P: Source,
    S: Source,
    L: Listener,
    O: Sink,
    requires table { T.failed table.old ≡ false }
    requires policy { P.failed policy.old ≡ false }
    requires script { S.failed script.old ≡ false }
    requires out { O.failed out.old ≡ false }
    ensures done { answers.IsRunSplit (input T.remaining T.failed table.old table.new)
        (input P.remaining P.failed policy.old policy.new) (input S.remaining S.failed script.old script.new)
        (output O.contents O.failed O.is_flushed out.old out.new) result }
    ensures heard { ThreeIsHeard L.Hears held.script file.Script (λ t. read_script_of) answers.AnswersSplitRun
        (T.remaining table.old) (P.remaining policy.old) (S.remaining script.old) listener.old listener.new
        (output O.contents O.failed O.is_flushed out.old out.new) result }
{
    let three = load_three::<Script, T, P, S, L>(alloc, table, policy, script, listener);
    let answer = ran_split(rt, alloc, &three, gate);
    tell(alloc, three, answer, listener, out)
}

/// The log that workers make of a script on a system, both loaded, or why the system is denied.
fn ran_split<R: Threads + Wait + Sync, G: Gate + Sync>(
    rt: &R,
    alloc: Global,
    loaded: &Result<Three<Script>, Stop>,
    gate: &G,
) -> Result<Answer, Stop>
    ensures { ThreeIsJudged answers.AnswersSplitRun loaded.now result }
{
    let Three {
        table,
        policy,
        third,
    } = match loaded {
        Ok(three) => three,
        Err(stop) => return Err(*stop),
    };
    match judge(rt, alloc, table, policy, 1, &Open)? {
        Ok(accepted) => {
            let answer = split_answer(rt, alloc, &accepted, third, gate);
            drop(accepted);
            Ok(answer?)
        }
        Err(denial) => Ok(denied(alloc, table, denial)?),
    }
}

fn split_answer<R: Threads + Wait + Sync, G: Gate + Sync>(
    rt: &R,
    alloc: Global,
    accepted: &Accepted,
    script: &Script,
    gate: &G,
) -> Result<Answer, Refusal>
    ensures { IfOk result (answers.IsLogOfSplit accepted.now.table script.now) }
{
    let log = split(rt, alloc, accepted, &script.events, gate)?;
    Ok(Answer {
        text: write_log(alloc, &log)?,
        status: 0,
        finding: None,
        made: Some(Made::ByWorkers(log)),
        script: None,
    })
}
