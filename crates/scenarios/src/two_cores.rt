//! A signal and two polls on two cores, and a kernel whose log is full.
use crate::callers::{Caller, Running};
use crate::legal::ends_in;
use crate::memory::made;
use crate::scenes::{Plan, Scene, carry_out};
use crate::systems::TWO_CORES;
use base::{Misuse, ObjId, Refusal};
use captext::{read_table, write_table};
use cores::{Kernel, Naming};
use machine::{Answer, Call, Outcome};
use std::alloc::Global;
use std::process::Abort;
use std::sync::Wait;
use std::test::Fail;
use std::thread::Threads;
use table::Table;

/// The outcome of a call that answers nothing.
pub const DONE: Outcome = Outcome::Done(Answer::Nothing);

/// A signal by the capability at address 0.
pub const SIGNAL: Call = Call::Signal { address: 0 };

/// A poll by the capability at address 0.
pub const POLL: Call = Call::Poll { address: 0 };

/// The thread that may signal, on core 1.
pub const SIGNALLER: ObjId = ObjId(2);

/// The thread that may poll, on core 0.
pub const POLLER: ObjId = ObjId(3);

/// Returns the outcome of a poll that gets this word.
pub fn word(word: u64) -> Outcome {
    Outcome::Done(Answer::Word(word))
}

/// Returns the outcome of a call to a kernel whose log is full.
pub fn full() -> Outcome {
    Outcome::Refused(Refusal::from(Misuse::LogFull))
}

/// Has one signal, both meet, and the other poll.
fn call_and_meet<J: Naming, R: Abort + Wait>(
    rt: &R,
    kernel: &Kernel<J>,
    first: &mut Caller<J>,
    second: &mut Caller<J>,
) {
    first.is_answered(rt, kernel, SIGNALLER, &SIGNAL, &DONE);
    assert!(rt; first.meet(kernel, second).is_ok());
    second.is_answered(rt, kernel, POLLER, &POLL, &word(4));
}

/// Polls with a log that has room for both polls: then each call finds it full.
fn both_polls<J: Naming, R: Abort + Wait>(
    rt: &R,
    kernel: &Kernel<J>,
    first: &mut Caller<J>,
    second: &mut Caller<J>,
) {
    call_and_meet(rt, kernel, first, second);
    second.is_answered(rt, kernel, POLLER, &POLL, &word(0));
    second.is_answered(rt, kernel, POLLER, &POLL, &full());
    first.is_answered(rt, kernel, SIGNALLER, &SIGNAL, &full());
    assert!(rt; second.meet(kernel, first).is_ok());
}

/// Polls with a log that has room for one of the polls.
fn one_poll<J: Naming, R: Abort + Wait>(
    rt: &R,
    kernel: &Kernel<J>,
    first: &mut Caller<J>,
    second: &mut Caller<J>,
) {
    call_and_meet(rt, kernel, first, second);
    second.is_answered(rt, kernel, POLLER, &POLL, &full());
}

fn make_calls<J: Naming, R: Abort + Wait>(
    rt: &R,
    size: usize,
    kernel: &Kernel<J>,
    callers: &mut [Caller<J>],
) {
    assert!(rt; callers.len() == 2);
    if let Some((first, others)) = callers.split_first_mut() {
        for second in others {
            if size == 3 {
                both_polls(rt, kernel, first, second);
            } else {
                one_poll(rt, kernel, first, second);
            }
        }
    }
}

// The engine's report of the log.
fn report(size: usize) -> &'static str {
    if size == 3 {
        "{\"entries\":3,\"state\":\"within\",\"verdict\":\"legal\"}\n"
    } else {
        "{\"entries\":2,\"state\":\"within\",\"verdict\":\"legal\"}\n"
    }
}

/// Makes a signal and two polls, over a log of `size` entries, and compares how they end.
///
/// # Errors
///
/// The failure of the test, if the calls don't end as they must.
pub fn play_signal_and_polls<
    J: Naming + Send + Sync,
    R: Abort + AllocGlobal + Threads + Wait + Sync,
>(rt: &R, table: &Table, mut running: Running<J>, size: usize) -> Result<(), Fail> {
    make_calls(rt, size, &running.kernel, running.callers.as_mut_slice());
    ends_in(rt, &TWO_CORES, table, running, report(size))
}

fn signal_and_poll<R: Abort + AllocGlobal + Threads + Wait + Sync>(
    rt: &R,
    size: usize,
) -> Result<(), Fail> {
    let plan = Plan::Opening {
        size,
        cores: &[1, 0],
        scene: Scene::SignalAndPolls { size },
    };
    carry_out(rt, &TWO_CORES, &plan)
}

#[test]
fn a_signal_and_two_polls(rt: HostRuntime) -> Result<(), Fail> {
    signal_and_poll(&rt, 3)
}

#[test]
fn the_second_poll_finds_the_log_full(rt: HostRuntime) -> Result<(), Fail> {
    signal_and_poll(&rt, 2)
}

/// The text of a table, as one of version 2.
fn upgraded(alloc: Global, text: &str) -> Result<Vec<u8>, Fail> {
    let mut table = made(read_table(alloc, text.as_bytes()))?;
    table.upgrade();
    made(write_table(alloc, &table))
}

#[test]
fn an_upgraded_table_is_written_with_the_later_header(rt: HostRuntime) -> Result<(), Fail> {
    let text = upgraded(rt.alloc(), TWO_CORES.table)?;
    let lines = TWO_CORES.table.as_bytes().strip_prefix(b"confine-table 1");
    assert!(rt; lines.is_some());
    assert!(rt; text.strip_prefix(b"confine-table 2") == lines);
    Ok(())
}
