//! A whole script, made by the workers on a kernel of its own.
ghost use Rattle.std.specs.Prelude.{◌≡◌, ◌≤◌, All, IfErr, IfOk, length};
ghost use Rattle.{base.specs.Refusals.out_of_memory, machine.specs.{Boot.IsBoot, Machine.Machine}};
ghost use Rattle.cores.specs.{Seats.{AreNew, IsOf}, SplitRun.IsSplitRun, Workers.AreAllCores};

use crate::workers::{CORES, all_workers, busy_cores};
use crate::{Naming, Opened, Seat};
use base::{CoreNo, MAX_EVENTS, Refusal};
use deal::Gate;
use machine::{Event, Log};
use std::alloc::{AllocError, Global};
use std::marker::Brand;
use std::sync::Wait;
use std::thread::Threads;
use verdict::Accepted;

// All cores, by their numbers.
fn all_cores(alloc: Global) -> Result<Vec<CoreNo>, AllocError>
    ensures { IfOk result (λ cores. AreAllCores cores.items) }
{
    let mut cores = Vec::with_capacity(alloc, CORES)?;
    for number in 0..CoreNo::COUNT {
        if let Some(core) = CoreNo::new(number) {
            cores.push_reserved(core);
        }
    }
    Ok(cores)
}

// The log of the kernel, once all workers are done.
fn split_named<J: Naming + Send + Sync, R: Threads + Wait + Sync, G: Gate + Sync>(
    rt: &R,
    opened: Opened,
    seats: Vec<Seat>,
    events: &[Event],
    gate: &G,
) -> Result<Log, Refusal>
    requires opened { opened ≡ J.ticket }
    requires cores { AreAllCores J.ticket.cores }
    requires new { AreNew J.ticket seats.items }
    requires of { All (IsOf J.ticket) seats.items }
    requires room { length events.now ≤ J.ticket.size }
    ensures split { IfOk result (λ log. (last : Machine) × IsSplitRun J.ticket.boot events.now log.items last) }
    ensures memory { IfErr result (λ refusal. refusal ≡ out_of_memory) }
{
    let busy = busy_cores(events);
    let kernel = opened.named::<J>();
    let Ok(mut seats) = all_workers(rt, &kernel, seats, events, &busy, gate) else {
        return Err(Refusal::OUT_OF_MEMORY);
    };
    match kernel.close(seats.as_mut_slice()) {
        Ok((_state, log)) => Ok(log),
        Err(_) => unreachable!(),
    }
}

/// Makes the script's events on a kernel in the boot state, by a worker for each core, side by side.
///
/// Each worker makes the events of its core, in their order. The log has all of them, in the
/// order in which they were made.
///
/// A worker that has events arrives at the gate before them. At the gate workers are numbered from
/// 0, in the order of their cores. What is promised holds if it returns: a call waits for the calls
/// of other workers.
///
/// It differs from threads by hand: where a thread can't be started, its worker works in turn.
///
/// # Errors
///
/// 40 where memory is refused.
pub fn split<R: Threads + Wait + Sync, G: Gate + Sync>(
    rt: &R,
    alloc: Global,
    accepted: &Accepted,
    events: &[Event],
    gate: &G,
) -> Result<Log, Refusal>
    requires { length events.now ≤ MAX_EVENTS }
    ensures split { IfOk result (λ log. (boot last : Machine) × IsBoot accepted.now.table boot
        × IsSplitRun boot events.now log.items last) }
    ensures memory { IfErr result (λ refusal. refusal ≡ out_of_memory) }
{
    let cores = all_cores(alloc)?;
    let (opened, seats) = Opened::open(alloc, accepted, events.len().max(1), cores.as_slice(), 0)?;
    split_named::<Brand, _, _>(rt, opened, seats, events, gate)
}
