//! Eight threads of the host, which call at the same time.
use crate::callers::{Caller, Ended, Running, closed};
use crate::legal::{entries_on, is_legal};
use crate::memory::lend_mut;
use crate::rounds::make_rounds;
use crate::scenes::{Plan, Scene, carry_out};
use crate::systems::EIGHT_CORES;
use crate::two_cores::{SIGNAL, full};
use base::ObjId;
use cores::{Kernel, Naming};
use std::process::Abort;
use std::sync::Wait;
use std::test::Fail;
use std::thread;
use std::thread::Threads;
use table::Table;

/// Makes each caller's rounds in a thread of its own.
fn all_make_rounds<J: Naming + Send + Sync, R: Threads + Wait + Sync>(
    rt: &R,
    kernel: &Kernel<J>,
    callers: &mut [Caller<J>],
) {
    thread::for_each_mut(
        rt,
        callers,
        8,
        &|_, caller: &mut Caller<J>| {
            make_rounds(rt, kernel, caller);
        },
    );
}

/// Returns how many of their calls the log had room for, and how many found it full.
fn counts<J: Naming>(callers: &[Caller<J>]) -> (u64, u64) {
    let mut entered: u64 = 0;
    let mut full: u64 = 0;
    for caller in callers {
        entered = entered.saturating_add(caller.entered());
        full = full.saturating_add(caller.full());
    }
    (entered, full)
}

/// Asserts that one more call of each finds the log full.
fn each_finds_it_full<J: Naming, R: Abort + Wait>(
    rt: &R,
    kernel: &Kernel<J>,
    callers: &mut [Caller<J>],
) {
    for caller in callers {
        let thread = ObjId(u64::from(caller.core().number()) + 1);
        caller.is_answered(rt, kernel, thread, &SIGNAL, &full());
    }
}

/// Has the first caller meet each other.
fn first_meets_all<J: Naming, R: Abort>(rt: &R, kernel: &Kernel<J>, callers: &mut [Caller<J>]) {
    assert!(rt; callers.len() == 8);
    if let Some((first, others)) = callers.split_first_mut() {
        for other in others {
            assert!(rt; first.meet(kernel, other).is_ok());
        }
    }
}

fn make_calls<J: Naming + Send + Sync, R: Abort + Threads + Wait + Sync>(
    rt: &R,
    room: u64,
    kernel: &Kernel<J>,
    callers: &mut [Caller<J>],
) {
    all_make_rounds(rt, kernel, callers);
    let (entered, full) = counts(callers);
    assert!(rt; entered == room);
    assert!(rt; entered.saturating_add(full) == 1_600);
    each_finds_it_full(rt, kernel, callers);
    first_meets_all(rt, kernel, callers);
}

/// Asserts that the log has 200 entries on each core if no call found it full.
fn has_all(rt: &impl Abort, room: u64, ended: &Ended) {
    if room == 1_600 {
        for core in 0..8u8 {
            assert!(rt; entries_on(&ended.log, core) == 200);
        }
    }
}

// The engine's report of the log.
fn report(room: u64) -> &'static str {
    if room == 1_600 {
        "{\"entries\":1600,\"state\":\"within\",\"verdict\":\"legal\"}\n"
    } else {
        "{\"entries\":1000,\"state\":\"within\",\"verdict\":\"legal\"}\n"
    }
}

/// Plays rounds over a log that has room for `room` of their 1,600 calls.
///
/// # Errors
///
/// [`Fail`] if something that the test needs isn't made, or the kernel isn't closed.
pub fn play_rounds<J: Naming + Send + Sync, R: Abort + AllocGlobal + Threads + Wait + Sync>(
    rt: &R,
    table: &Table,
    mut running: Running<J>,
    room: u64,
) -> Result<(), Fail> {
    make_calls(rt, room, &running.kernel, running.callers.as_mut_slice());
    lend_mut(closed(rt, running), |ended: &mut Ended| {
        has_all(rt, room, ended);
        is_legal(rt, &EIGHT_CORES, table, ended, report(room))
    })
}

fn make_rounds_over<R: Abort + AllocGlobal + Threads + Wait + Sync>(
    rt: &R,
    size: usize,
) -> Result<(), Fail> {
    let plan = Plan::Opening {
        size,
        cores: &[0, 1, 2, 3, 4, 5, 6, 7],
        scene: Scene::Rounds { room: size as u64 },
    };
    carry_out(rt, &EIGHT_CORES, &plan)
}

#[test]
fn eight_cores(rt: HostRuntime) -> Result<(), Fail> {
    make_rounds_over(&rt, 1_600)
}

#[test]
fn eight_cores_fill_the_log(rt: HostRuntime) -> Result<(), Fail> {
    make_rounds_over(&rt, 1_000)
}
