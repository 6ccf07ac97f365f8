//! Seats of a kernel of another number, in each place where a seat is used.
ghost use Rattle.std.specs.Prelude.{◌≡◌, ◌≢◌, All};
ghost use Rattle.cores.specs.Seats.{IsOf};

use crate::callers::{Caller, Running, kept_with, with_callers};
use crate::legal::{ends_alone_in, ends_in};
use crate::memory::made;
use crate::scenes::{Plan, carry_out, cores_of};
use crate::systems::TWO_CORES;
use crate::two_cores::{DONE, SIGNAL, SIGNALLER};
use base::{CoreNo, Misuse, Refusal};
use cores::{Kernel, Naming, Opened, Seat};
use std::marker::Brand;
use std::process::Abort;
use std::sync::Wait;
use std::test::Fail;
use std::thread::Threads;
use table::Table;
use verdict::Accepted;

const ONE_ENTRY: &str = "{\"entries\":1,\"state\":\"within\",\"verdict\":\"legal\"}\n";

fn foreign() -> Refusal {
    Refusal::from(Misuse::ForeignSeat)
}

/// Asserts that one of these is refused in each place of a call and of a meeting.
fn is_refused<J: Naming, K: Naming, R: Abort + Wait>(
    rt: &R,
    kernel: &Kernel<J>,
    own: &mut Caller<J>,
    stranger: &mut Caller<K>,
)
    requires { K.ticket.name ≢ J.ticket.name }
{
    assert!(rt; stranger.call_strange(rt, kernel, SIGNALLER, &SIGNAL) == Some(foreign()));
    assert!(rt; own.meet_stranger(kernel, stranger) == Err(foreign()));
    assert!(rt; own.be_met(kernel, stranger) == Err(foreign()));
}

fn are_refused<J: Naming, K: Naming, R: Abort + Wait>(
    rt: &R,
    kernel: &Kernel<J>,
    callers: &mut [Caller<J>],
    stranger: &mut Caller<K>,
)
    requires { K.ticket.name ≢ J.ticket.name }
{
    for own in callers {
        is_refused(rt, kernel, own, stranger);
    }
}

/// Asserts that the kernel isn't closed with a stranger among its seats, and is handed back with its one entry.
fn is_kept<J: Naming + Send + Sync, K: Naming, R: Abort + AllocGlobal + Threads + Sync>(
    rt: &R,
    table: &Table,
    running: Running<J>,
    stranger: Caller<K>,
) -> Result<(), Fail>
    requires { K.ticket.name ≢ J.ticket.name }
{
    match kept_with(rt, running, stranger) {
        Some((kernel, refusal)) => {
            assert!(rt; refusal == foreign());
            ends_alone_in(rt, &TWO_CORES, table, kernel, ONE_ENTRY)
        }
        None => Err(Fail::new("it isn't handed back")),
    }
}

fn signals<J: Naming, R: Abort + Wait>(rt: &R, kernel: &Kernel<J>, caller: &mut Caller<J>) {
    caller.is_answered(rt, kernel, SIGNALLER, &SIGNAL, &DONE);
}

fn all_signal<J: Naming, R: Abort + Wait>(rt: &R, kernel: &Kernel<J>, callers: &mut [Caller<J>]) {
    for caller in callers {
        signals(rt, kernel, caller);
    }
}

/// Asserts that the stranger is refused here, and fits its own kernel as before; each kernel has an entry.
fn visit<J: Naming + Send + Sync, K: Naming, R: Abort + AllocGlobal + Threads + Wait + Sync>(
    rt: &R,
    table: &Table,
    mut running: Running<J>,
    kernel: &Kernel<K>,
    mut stranger: Caller<K>,
) -> Result<(), Fail>
    requires { K.ticket.name ≢ J.ticket.name }
{
    all_signal(rt, &running.kernel, running.callers.as_mut_slice());
    are_refused(
        rt,
        &running.kernel,
        running.callers.as_mut_slice(),
        &mut stranger,
    );
    signals(rt, kernel, &mut stranger);
    is_kept(rt, table, running, stranger)
}

/// Takes a seat of the other kernel.
fn taken<K: Naming>(other: &mut Running<K>) -> Result<Caller<K>, Fail> {
    Ok(other.callers.pop().ok_or("a stranger")?)
}

fn visit_from<J: Naming + Send + Sync, K: Naming, R: Abort + AllocGlobal + Threads + Wait + Sync>(
    rt: &R,
    table: &Table,
    running: Running<J>,
    other: &mut Running<K>,
) -> Result<(), Fail>
    requires { K.ticket.name ≢ J.ticket.name }
{
    match taken(other) {
        Ok(stranger) => visit(rt, table, running, &other.kernel, stranger),
        Err(fail) => {
            drop(running);
            Err(fail)
        }
    }
}

// Makes the visit, with the kernel by its name.
fn visit_named<J: Naming + Send + Sync, K: Naming, R: Abort + AllocGlobal + Threads + Wait + Sync>(
    rt: &R,
    table: &Table,
    opened: Opened,
    seats: Vec<Seat>,
    other: &mut Running<K>,
) -> Result<(), Fail>
    requires opened { opened ≡ J.ticket }
    requires seats { All (IsOf J.ticket) seats.items }
    requires apart { K.ticket.name ≢ J.ticket.name }
{
    match with_callers::<J, R>(rt, opened, seats) {
        Ok(running) => visit_from(rt, table, running, other),
        Err(_) => Err(Fail::new("there is no memory")),
    }
}

fn visit_opened<K: Naming, R: Abort + AllocGlobal + Threads + Wait + Sync>(
    rt: &R,
    accepted: &Accepted<'_>,
    cores: &[CoreNo],
    other: &mut Running<K>,
) -> Result<(), Fail>
    requires { K.ticket.name ≡ 1 }
{
    match Opened::open(rt.alloc(), accepted, 10, cores, 0) {
        Ok((opened, seats)) => {
            visit_named::<Brand, K, R>(rt, accepted.table(), opened, seats, other)
        }
        Err(_) => Err(Fail::new("it isn't opened")),
    }
}

fn visit_running<K: Naming + Send + Sync, R: Abort + AllocGlobal + Threads + Wait + Sync>(
    rt: &R,
    accepted: &Accepted<'_>,
    cores: &[CoreNo],
    mut other: Running<K>,
) -> Result<(), Fail>
    requires { K.ticket.name ≡ 1 }
{
    match visit_opened(rt, accepted, cores, &mut other) {
        Ok(()) => ends_in(rt, &TWO_CORES, accepted.table(), other, ONE_ENTRY),
        Err(fail) => {
            drop(other);
            Err(fail)
        }
    }
}

// Makes the visit, with the stranger's kernel by its name.
fn stranger_named<K: Naming + Send + Sync, R: Abort + AllocGlobal + Threads + Wait + Sync>(
    rt: &R,
    accepted: &Accepted<'_>,
    cores: &[CoreNo],
    opened: Opened,
    seats: Vec<Seat>,
) -> Result<(), Fail>
    requires opened { opened ≡ K.ticket }
    requires seats { All (IsOf K.ticket) seats.items }
    requires name { K.ticket.name ≡ 1 }
{
    match with_callers::<K, R>(rt, opened, seats) {
        Ok(other) => visit_running(rt, accepted, cores, other),
        Err(_) => Err(Fail::new("there is no memory")),
    }
}

fn stranger_opened<R: Abort + AllocGlobal + Threads + Wait + Sync>(
    rt: &R,
    accepted: &Accepted<'_>,
    cores: &[CoreNo],
) -> Result<(), Fail> {
    match Opened::open(rt.alloc(), accepted, 10, cores, 1) {
        Ok((opened, seats)) => stranger_named::<Brand, R>(rt, accepted, cores, opened, seats),
        Err(_) => Err(Fail::new("it isn't opened")),
    }
}

/// Asserts of two kernels, of numbers 0 and 1, that a seat of the second is refused by the first.
///
/// # Errors
///
/// [`Fail`] if something that the test needs isn't made, opened or handed back.
pub fn refuse_a_stranger<R: Abort + AllocGlobal + Threads + Wait + Sync>(
    rt: &R,
    accepted: &Accepted<'_>,
) -> Result<(), Fail> {
    let cores = made(cores_of(rt.alloc(), &[1]))?;
    stranger_opened(rt, accepted, &cores)
}

#[test]
fn a_seat_of_another_kernel(rt: HostRuntime) -> Result<(), Fail> {
    carry_out(&rt, &TWO_CORES, &Plan::Strangers)
}
