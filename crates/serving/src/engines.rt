//! The call of the engine that does a request, on files that are open.
ghost use Rattle.std.specs.Prelude.{◌≡◌, ◌≤◌, false};
ghost use Rattle.{devices.specs.Watched.failed_of, commands.specs.{Commands.{input, output}, Ends.status_of}};
ghost use Rattle.{requests.specs.Requests.{HaveArrived, HasFewWorkers}, serving.specs.Opening.{AreSound, Serves, ServesThree, written}};

use crate::opening::Opened;
use report::{
    End, Gate, Listener, Sink, Source, Watched, ask, ask_policy, check, check_claims, compare,
    import, replay, run, verify,
};
use requests::{OfThree, Request};
use std::io::{Read, Write};
use std::thread::Threads;

/// Does a request on these files, and returns them.
pub(crate) fn serve<'a, R, F, G, L, W>(
    rt: &R,
    files: Request<'a, Opened<F>>,
    gate: &G,
    listener: &mut L,
    out: &mut Watched<W>,
) -> (End, Request<'a, Opened<F>>)
where
    R: AllocGlobal + Threads + Sync,
    F: Read + Drop,
    G: Gate + Sync,
    L: Listener,
    W: Write,
    requires files { AreSound files }
    requires limits { HasFewWorkers files }
    requires out { failed_of out.old ≡ false }
    ensures served { Serves F.remaining (written W.contents out.old out.new) files.entry result.1 result.0 }
    ensures exit { status_of result.0 ≤ 2 }
    ensures arrived { status_of result.0 ≡ 0 → HaveArrived (G.HasArrived gate.now) files.entry }
{
    let alloc = rt.alloc();
    match files {
        Request::OfDescription(asked, mut description) => {
            let end = import(alloc, asked, &mut description, listener, out);
            (end, Request::OfDescription(asked, description))
        }
        Request::OfSystem(asked, taken, mut system) => {
            let end = ask(alloc, asked, taken, &mut system, listener, out);
            (end, Request::OfSystem(asked, taken, system))
        }
        Request::OfPolicy(asked, taken, mut system, mut policy) => {
            let end = ask_policy(alloc, asked, taken, &mut system, &mut policy, listener, out);
            (end, Request::OfPolicy(asked, taken, system, policy))
        }
        Request::OfClaims(taken, mut system, mut claims) => {
            let end = check_claims(alloc, taken, &mut system, &mut claims, listener, out);
            (end, Request::OfClaims(taken, system, claims))
        }
        Request::OfTwo(form, taken, mut old, mut new) => {
            let end = compare(alloc, form, taken, &mut old, &mut new, listener, out);
            (end, Request::OfTwo(form, taken, old, new))
        }
        Request::Check(asked, mut table, mut policy) => {
            let end = check(
                rt,
                alloc,
                asked.rules,
                &mut table,
                &mut policy,
                asked.on_accept,
                asked.workers,
                gate,
                listener,
                out,
            );
            (end, Request::Check(asked, table, policy))
        }
        Request::OfThree(asked, mut table, mut policy, mut third) => {
            let end = serve_three(
                rt,
                asked,
                &mut table,
                &mut policy,
                &mut third,
                listener,
                out,
            );
            (end, Request::OfThree(asked, table, policy, third))
        }
    }
}

/// Does a command on a table, a policy and a third file.
fn serve_three<R, T, P, S, L, O>(
    rt: &R,
    asked: OfThree,
    table: &mut T,
    policy: &mut P,
    third: &mut S,
    listener: &mut L,
    out: &mut O,
) -> End
where
    R: AllocGlobal + Threads + Sync,
    T: Source,
    P: Source,
    S: Source,
    L: Listener,
    O: Sink,
    requires table { T.failed table.old ≡ false }
    requires policy { P.failed policy.old ≡ false }
    requires third { S.failed third.old ≡ false }
    requires out { O.failed out.old ≡ false }
    ensures served { ServesThree asked (input T.remaining T.failed table.old table.new)
        (input P.remaining P.failed policy.old policy.new) (input S.remaining S.failed third.old third.new)
        (output O.contents O.failed O.is_flushed out.old out.new) result }
    ensures exit { status_of result ≤ 2 }
{
    let alloc = rt.alloc();
    match asked {
        OfThree::Verify(rules) => verify(rt, alloc, rules, table, policy, third, listener, out),
        OfThree::Run(rules) => run(rt, alloc, rules, table, policy, third, listener, out),
        OfThree::Replay => replay(alloc, table, policy, third, listener, out),
    }
}
