//! Assertions on a kernel that was closed: its log is a run, and its state the one at the end.
ghost use Rattle.std.specs.Prelude.{IfOk};
ghost use Rattle.machine.specs.WellFormed.{IsWellFormed};

use crate::callers::{Ended, Running, closed, closed_alone};
use crate::memory::{lend_mut, made};
use crate::same::are_same;
use crate::systems::System;
use cores::{Kernel, Naming};
use evtext::{read_log, write_log};
use kernel::{boot, run};
use machine::{Event, Outcome};
use objects::State;
use report::{End, Silence, Watched, replay};
use std::process::Abort;
use std::test::Fail;
use std::thread::Threads;
use table::Table;

type Entry = (Event, Outcome);

/// Returns the number of entries on the core of this number.
pub fn entries_on(log: &[Entry], core: u8) -> usize {
    log.iter()
        .filter(|entry: &&Entry| -> bool { entry.0.core.number() == core })
        .count()
}

// The engine's end on the log, and what it writes.
fn replayed<R: AllocGlobal>(rt: &R, system: &System, log: &[u8]) -> (End, Vec<u8>) {
    let mut table = Watched::new(system.table.as_bytes());
    let mut policy = Watched::new(system.policy.as_bytes());
    let mut log = Watched::new(log);
    let mut out = Watched::new(Vec::new(rt.alloc()));
    let end = replay(
        rt.alloc(),
        &mut table,
        &mut policy,
        &mut log,
        &mut Silence,
        &mut out,
    );
    (end, out.into_inner())
}

// Asserts that the engine writes this report of the log.
fn is_replayed_as<R: Abort + AllocGlobal>(rt: &R, system: &System, log: &[u8], report: &str) {
    let (end, written) = replayed(rt, system, log);
    assert!(rt; end == End::Status(0));
    assert!(rt; written.as_slice() == report.as_bytes());
}

fn is_read_back<R: Abort + AllocGlobal>(rt: &R, log: &[Entry], text: &[u8]) -> Result<(), Fail> {
    let back = made(read_log(rt.alloc(), text))?;
    assert!(rt; back.as_slice() == log);
    Ok(())
}

// Asserts that the log's text is read back, and that the engine reports this of it.
fn has_text<R: Abort + AllocGlobal>(
    rt: &R,
    system: &System,
    ended: &Ended,
    report: &str,
) -> Result<(), Fail> {
    let text = made(write_log(rt.alloc(), &ended.log))?;
    is_read_back(rt, &ended.log, &text)?;
    is_replayed_as(rt, system, &text, report);
    Ok(())
}

fn events_of<R: AllocGlobal>(rt: &R, log: &[Entry]) -> Result<Vec<Event>, Fail> {
    let mut events = Vec::new(rt.alloc());
    for (event, _) in log {
        made(events.push(*event))?;
    }
    Ok(events)
}

fn outcomes_are(rt: &impl Abort, outcomes: &[Outcome], log: &[Entry]) {
    assert!(rt; outcomes.len() == log.len());
    for (outcome, (_, logged)) in outcomes.iter().zip(log) {
        assert!(rt; outcome == logged);
    }
}

// Asserts that a run of the log's events on the boot state has the log's outcomes, and ends in the same state.
fn is_run_on<R: Abort + AllocGlobal>(
    rt: &R,
    state: &mut State,
    ended: &mut Ended,
) -> Result<(), Fail>
    requires { IsWellFormed state.old }
{
    let events = events_of(rt, &ended.log)?;
    let mut outcomes = Vec::new(rt.alloc());
    made(run(state, &events, &mut outcomes))?;
    outcomes_are(rt, &outcomes, &ended.log);
    are_same(rt, state, &mut ended.state);
    Ok(())
}

fn booted<R: AllocGlobal>(rt: &R, table: &Table) -> Result<State, Fail>
    ensures { IfOk result IsWellFormed }
{
    made(boot(rt.alloc(), table))
}

fn is_run<R: Abort + AllocGlobal>(rt: &R, table: &Table, ended: &mut Ended) -> Result<(), Fail> {
    let mut state = booted(rt, table)?;
    is_run_on(rt, &mut state, ended)
}

/// Asserts that the log is read back from its text, is that of a run with this state at its end,
/// and that the engine of `replay` writes this report of it. All queues of the state are empty
/// afterwards.
///
/// # Errors
///
/// [`Fail`] if something that the test needs isn't made.
pub fn is_legal<R: Abort + AllocGlobal>(
    rt: &R,
    system: &System,
    table: &Table,
    ended: &mut Ended,
    report: &str,
) -> Result<(), Fail> {
    has_text(rt, system, ended, report)?;
    is_run(rt, table, ended)
}

fn leaves<R: Abort + AllocGlobal>(
    rt: &R,
    system: &System,
    table: &Table,
    ended: Result<Ended, Fail>,
    report: &str,
) -> Result<(), Fail> {
    lend_mut(ended, |ended: &mut Ended| {
        is_legal(rt, system, table, ended, report)
    })
}

/// Closes the kernel with its callers, and asserts what [`is_legal`] does of its log and state.
///
/// # Errors
///
/// [`Fail`] if something that the test needs isn't made, or the kernel isn't closed.
pub fn ends_in<J: Naming + Send + Sync, R: Abort + AllocGlobal + Threads + Sync>(
    rt: &R,
    system: &System,
    table: &Table,
    running: Running<J>,
    report: &str,
) -> Result<(), Fail> {
    leaves(rt, system, table, closed(rt, running), report)
}

/// Closes the kernel with no seat, and asserts what [`is_legal`] does of its log and state.
///
/// # Errors
///
/// [`Fail`] if something that the test needs isn't made, or the kernel isn't closed.
pub fn ends_alone_in<J: Naming, R: Abort + AllocGlobal>(
    rt: &R,
    system: &System,
    table: &Table,
    kernel: Kernel<J>,
    report: &str,
) -> Result<(), Fail> {
    let ended = closed_alone(rt.alloc(), kernel);
    leaves(rt, system, table, ended, report)
}
