//! Scenes: a system that is accepted, a kernel that is opened for it, and what a test does with them.
ghost use Rattle.std.specs.Prelude.{◌≡◌, All};
ghost use Rattle.cores.specs.Seats.{IsOf};

use crate::callers::{Running, with_callers};
use crate::eight_cores::play_rounds;
use crate::limits::refuse_sizes_and_seats;
use crate::memory::{lend, made};
use crate::strangers::refuse_a_stranger;
use crate::systems::System;
use crate::two_cores::play_signal_and_polls;
use base::CoreNo;
use captext::{read_policy, read_table};
use cores::{Naming, Opened, Seat};
use deal::Open;
use policy::Policy;
use std::alloc::{AllocError, Global};
use std::marker::Brand;
use std::process::Abort;
use std::sync::Wait;
use std::test::Fail;
use std::thread::Threads;
use table::Table;
use verdict::{Accepted, judge};

/// A use of a kernel by a test.
#[derive(Clone, Copy)]
pub enum Scene {
    /// A signal and two polls, over a log with room for `size` entries.
    SignalAndPolls { size: usize },
    /// Rounds over a log that has room for `room` of their 1,600 calls.
    Rounds { room: u64 },
}

/// A use of a system by a test.
#[derive(Clone, Copy)]
pub enum Plan<'a> {
    /// Kernels of many sizes and numbers of seats are asked for.
    Limits,
    /// Two kernels, of numbers 0 and 1.
    Strangers,
    /// A scene with the kernel whose log has this size, and whose seats have these cores.
    Opening {
        size: usize,
        cores: &'a [u64],
        scene: Scene,
    },
}

/// Returns the cores of these numbers.
pub fn cores_of(alloc: Global, numbers: &[u64]) -> Result<Vec<CoreNo>, AllocError> {
    let mut cores = Vec::with_capacity(alloc, numbers.len())?;
    for number in numbers {
        if let Some(core) = CoreNo::new(*number) {
            cores.push(core)?;
        }
    }
    Ok(cores)
}

fn play<J: Naming + Send + Sync, R: Abort + AllocGlobal + Threads + Wait + Sync>(
    rt: &R,
    table: &Table,
    running: Running<J>,
    scene: Scene,
) -> Result<(), Fail> {
    match scene {
        Scene::SignalAndPolls { size } => play_signal_and_polls(rt, table, running, size),
        Scene::Rounds { room } => play_rounds(rt, table, running, room),
    }
}

// Plays the scene, with the kernel by a name.
fn play_named<J: Naming + Send + Sync, R: Abort + AllocGlobal + Threads + Wait + Sync>(
    rt: &R,
    table: &Table,
    opened: Opened,
    seats: Vec<Seat>,
    scene: Scene,
) -> Result<(), Fail>
    requires opened { opened ≡ J.ticket }
    requires seats { All (IsOf J.ticket) seats.items }
{
    match with_callers::<J, R>(rt, opened, seats) {
        Ok(running) => play(rt, table, running, scene),
        Err(_) => Err(Fail::new("there is no memory")),
    }
}

// Plays the scene, with the kernel that is opened for it.
fn play_opened<R: Abort + AllocGlobal + Threads + Wait + Sync>(
    rt: &R,
    accepted: &Accepted<'_>,
    size: usize,
    cores: &[CoreNo],
    scene: Scene,
) -> Result<(), Fail> {
    match Opened::open(rt.alloc(), accepted, size, cores, 0) {
        Ok((opened, seats)) => {
            play_named::<Brand, R>(rt, accepted.table(), opened, seats, scene)
        }
        Err(_) => Err(Fail::new("it isn't opened")),
    }
}

fn play_on<R: Abort + AllocGlobal + Threads + Wait + Sync>(
    rt: &R,
    accepted: &Accepted<'_>,
    size: usize,
    cores: &[u64],
    scene: Scene,
) -> Result<(), Fail> {
    let cores = made(cores_of(rt.alloc(), cores))?;
    play_opened(rt, accepted, size, &cores, scene)
}

fn follow<R: Abort + AllocGlobal + Threads + Wait + Sync>(
    rt: &R,
    accepted: &Accepted<'_>,
    plan: &Plan<'_>,
) -> Result<(), Fail> {
    match *plan {
        Plan::Limits => refuse_sizes_and_seats(rt, accepted),
        Plan::Strangers => refuse_a_stranger(rt, accepted),
        Plan::Opening { size, cores, scene } => play_on(rt, accepted, size, cores, scene),
    }
}

fn carry_out_for<R: Abort + AllocGlobal + Threads + Wait + Sync>(
    rt: &R,
    table: &Table,
    policy: &Policy,
    plan: &Plan<'_>,
) -> Result<(), Fail> {
    match judge(rt, rt.alloc(), table, policy, 1, &Open) {
        Ok(Ok(accepted)) => follow(rt, &accepted, plan),
        _ => Err(Fail::new("it isn't accepted")),
    }
}

fn carry_out_with<R: Abort + AllocGlobal + Threads + Wait + Sync>(
    rt: &R,
    system: &System,
    table: &Table,
    plan: &Plan<'_>,
) -> Result<(), Fail> {
    let policy = made(read_policy(rt.alloc(), system.policy.as_bytes(), table));
    lend(policy, |policy| carry_out_for(rt, table, policy, plan))
}

/// Carries out what a test does with this system.
///
/// # Errors
///
/// [`Fail`] if something that the test needs isn't made, accepted, opened or closed.
pub fn carry_out<R: Abort + AllocGlobal + Threads + Wait + Sync>(
    rt: &R,
    system: &System,
    plan: &Plan<'_>,
) -> Result<(), Fail> {
    let table = made(read_table(rt.alloc(), system.table.as_bytes()));
    lend(table, |table| carry_out_with(rt, system, table, plan))
}
