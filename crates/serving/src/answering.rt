//! The answer to a request: files are opened by their names, an engine does the request, and its end is reported.
ghost use Rattle.std.specs.{Fn.FnReturnsAt, Prelude.{◌≡◌, ◌≤◌, false}};
ghost use Rattle.{devices.specs.Watched.failed_of, commands.specs.Ends.status_of};
ghost use Rattle.requests.specs.Requests.{HaveArrived, HasFewWorkers, names_of};
ghost use Rattle.serving.specs.Opening.{IsAnswered, IsServedInShort, RunsSplit, Serves, written};

use crate::engines::serve;
use crate::explaining::Explainer;
use crate::opening::{Opened, open_all, open_by};
use crate::short::Shortener;
use report::{End, Gate, Open, Rules, Watched, run_split};
use requests::{Invocation, OfThree, Request, SplitRun};
use std::io::{self, Read, Write};
use std::rt::Clock;
use std::sync::Wait;
use std::thread::Threads;

/// Does a request, and returns the exit status and the files.
///
/// `opener` opens the files by their names. The answer is written to `out`. If a system is
/// accepted, all requested workers have arrived at the gate.
pub fn answer<'a, R, F, O, G, W>(
    rt: &R,
    invocation: Invocation<'a>,
    opener: &O,
    gate: &G,
    out: &mut Watched<W>,
) -> (u8, Request<'a, Opened<F>>)
where
    R: Eprint + AllocGlobal + Clock + Threads + Sync,
    F: Read + Drop,
    O: Fn(&str) -> io::Result<F>,
    G: Gate + Sync,
    W: Write,
    requires opener { O.IsAlwaysCallable opener.now }
    requires limits { HasFewWorkers invocation.request }
    requires out { failed_of out.old ≡ false }
    ensures served { IsAnswered (FnReturnsAt O.Fn opener.now)
        (Serves F.remaining (written W.contents out.old out.new)) invocation.entry.request result.1 result.0 }
    ensures exit { result.0 ≤ 2 }
    ensures arrived { result.0 ≡ 0 → HaveArrived (G.HasArrived gate.now) invocation.entry.request }
{
    let files = open_all(opener, invocation.request);
    let mut explainer = Explainer::new(rt, invocation);
    let (end, files) = serve(rt, files, gate, &mut explainer, out);
    let status = tell(rt, end);
    explainer.hear_end(end, &files);
    (status, files)
}

/// Does a request, as [`answer`] does, and writes to `out` a line for each finding in place of a
/// report.
pub fn answer_short<'a, R, F, O, G, W>(
    rt: &R,
    invocation: Invocation<'a>,
    opener: &O,
    gate: &G,
    out: &mut Watched<W>,
) -> (u8, Request<'a, Opened<F>>)
where
    R: Eprint + AllocGlobal + Clock + Threads + Sync,
    F: Read + Drop,
    O: Fn(&str) -> io::Result<F>,
    G: Gate + Sync,
    W: Write,
    requires opener { O.IsAlwaysCallable opener.now }
    requires limits { HasFewWorkers invocation.request }
    requires out { failed_of out.old ≡ false }
    ensures served { IsServedInShort (FnReturnsAt O.Fn opener.now) (Serves F.remaining)
        invocation.entry.request result.1 result.0 }
    ensures exit { result.0 ≤ 2 }
    ensures arrived { result.0 ≡ 0 → HaveArrived (G.HasArrived gate.now) invocation.entry.request }
{
    let files = open_all(opener, invocation.request);
    let mut shortener = Shortener::new(rt, invocation);
    let mut kept = Watched::new(Vec::new(rt.alloc()));
    let (end, files) = serve(rt, files, gate, &mut shortener, &mut kept);
    let end = shortener.write(end, &kept.into_inner(), out);
    let status = tell(rt, end);
    shortener.hear_end(end, &files);
    (status, files)
}

/// Runs a script by a worker for each core, as [`answer`] does a request.
///
/// What it promises holds if it returns: the workers wait for each other's calls. So it is apart
/// from all other requests, which always return.
pub fn answer_split<'a, R, F, O, W>(
    rt: &R,
    run: SplitRun<'a>,
    opener: &O,
    out: &mut Watched<W>,
) -> (u8, Request<'a, Opened<F>>)
where
    R: Eprint + AllocGlobal + Clock + Threads + Wait + Sync,
    F: Read + Drop,
    O: Fn(&str) -> io::Result<F>,
    W: Write,
    requires opener { O.IsAlwaysCallable opener.now }
    requires out { failed_of out.old ≡ false }
    ensures served { IsAnswered (FnReturnsAt O.Fn opener.now)
        (RunsSplit F.remaining (written W.contents out.old out.new)) (names_of run.entry) result.1 result.0 }
    ensures exit { result.0 ≤ 2 }
{
    let mut table = open_by(opener, run.table);
    let mut policy = open_by(opener, run.policy);
    let mut script = open_by(opener, run.script);
    let mut explainer = Explainer::new(rt, run.invocation());
    let end = run_split(
        rt,
        rt.alloc(),
        &mut table,
        &mut policy,
        &mut script,
        &Open,
        &mut explainer,
        out,
    );
    let status = tell(rt, end);
    let files = Request::OfThree(OfThree::Run(Rules::Closed), table, policy, script);
    explainer.hear_end(end, &files);
    (status, files)
}

/// Runs a script by a worker for each core, as [`answer_split`] does, and writes to `out` as
/// [`answer_short`] does.
pub fn answer_split_short<'a, R, F, O, W>(
    rt: &R,
    run: SplitRun<'a>,
    opener: &O,
    out: &mut Watched<W>,
) -> (u8, Request<'a, Opened<F>>)
where
    R: Eprint + AllocGlobal + Clock + Threads + Wait + Sync,
    F: Read + Drop,
    O: Fn(&str) -> io::Result<F>,
    W: Write,
    requires opener { O.IsAlwaysCallable opener.now }
    requires out { failed_of out.old ≡ false }
    ensures served { IsServedInShort (FnReturnsAt O.Fn opener.now) (RunsSplit F.remaining)
        (names_of run.entry) result.1 result.0 }
    ensures exit { result.0 ≤ 2 }
{
    let mut table = open_by(opener, run.table);
    let mut policy = open_by(opener, run.policy);
    let mut script = open_by(opener, run.script);
    let mut shortener = Shortener::new(rt, run.invocation());
    let mut kept = Watched::new(Vec::new(rt.alloc()));
    let end = run_split(
        rt,
        rt.alloc(),
        &mut table,
        &mut policy,
        &mut script,
        &Open,
        &mut shortener,
        &mut kept,
    );
    let end = shortener.write(end, &kept.into_inner(), out);
    let status = tell(rt, end);
    let files = Request::OfThree(OfThree::Run(Rules::Closed), table, policy, script);
    shortener.hear_end(end, &files);
    (status, files)
}

/// Says on standard error why there is no answer, if there is none, and returns the exit status.
///
/// Nothing changes if standard error can't be written to.
pub fn tell<R: Eprint>(rt: &R, end: End) -> u8
    ensures { result ≡ status_of end }
{
    if let Some(message) = end.message() {
        let _ = rt.eprintln(message);
    }
    end.status()
}
