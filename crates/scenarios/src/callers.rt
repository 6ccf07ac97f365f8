//! A kernel and callers with seats known to be its own, so that no test has to say so.
ghost use Rattle.std.specs.Prelude.{◌≡◌, ◌≢◌, All, IfOk};
ghost use Rattle.{cores.specs.Seats.IsOf, scenarios.specs.Fitting.IsFit};

use base::{CoreNo, Misuse, ObjId, Refusal};
use cores::{Kernel, Naming, Opened, Seat};
use machine::{Call, Log, Outcome};
use objects::State;
use std::alloc::{AllocError, Global};
use std::marker::{Model, PhantomData};
use std::process::Abort;
use std::sync::Wait;
use std::test::Fail;
use std::thread;
use std::thread::Threads;

/// A seat of the kernel that has this name, and how its calls ended.
#[derive(Drop)]
pub struct Caller<J: Naming> {
    seat: Seat,
    entered: u64,
    full: u64,
    of: PhantomData<J>,
}

impl<J: Naming> Model for Caller<J> {
    ghost use Rattle.std.specs.Prelude.{ℕ};
    ghost use Rattle.cores.specs.Seats.{IsOf};

    ghost Value = { ℕ };

    ghost view = { λ caller. caller.seat.number };

    ghost invariant = { λ caller. IsOf J.ticket caller.seat };
}

impl<J: Naming> Caller<J> {
    fn new(seat: Seat) -> Caller<J>
        requires { IsOf J.ticket seat }
    {
        Caller {
            seat,
            entered: 0,
            full: 0,
            of: PhantomData,
        }
    }

    fn into_seat(self) -> Seat
        ensures { IsOf J.ticket result }
    {
        self.seat
    }

    /// Returns the core that its calls are on.
    pub fn core(&self) -> CoreNo {
        self.seat.core()
    }

    /// Returns its place in the list of cores that the kernel was opened with.
    pub fn number(&self) -> u64 {
        self.seat.number()
    }

    /// Returns the number of its calls that the log had room for.
    pub fn entered(&self) -> u64 {
        self.entered
    }

    /// Returns the number of its calls that found the log full.
    pub fn full(&self) -> u64 {
        self.full
    }

    /// Makes a call, and counts it.
    pub fn call<R: Wait>(
        &mut self,
        rt: &R,
        kernel: &Kernel<J>,
        thread: ObjId,
        call: &Call,
    ) -> Outcome {
        let outcome = kernel.call(rt, &mut self.seat, thread, *call);
        self.count(&outcome);
        outcome
    }

    fn count(&mut self, outcome: &Outcome) {
        match *outcome {
            Outcome::Refused(refusal) if refusal == Refusal::from(Misuse::LogFull) => {
                self.full = self.full.saturating_add(1);
            }
            _ => self.entered = self.entered.saturating_add(1),
        }
    }

    /// Makes a call, and asserts that it has this outcome.
    pub fn is_answered<R: Abort + Wait>(
        &mut self,
        rt: &R,
        kernel: &Kernel<J>,
        thread: ObjId,
        call: &Call,
        outcome: &Outcome,
    ) {
        assert!(rt; self.call(rt, kernel, thread, call) == *outcome);
    }

    /// Meets another caller of the same kernel.
    ///
    /// # Errors
    ///
    /// 42 if a seat is of another kernel.
    pub fn meet(&mut self, kernel: &Kernel<J>, other: &mut Caller<J>) -> Result<(), Refusal> {
        kernel.meet(&mut self.seat, &mut other.seat)?;
        Ok(())
    }

    /// Calls a kernel of another number, and returns its refusal if it refuses the call.
    pub fn call_strange<K: Naming, R: Wait>(
        &mut self,
        rt: &R,
        kernel: &Kernel<K>,
        thread: ObjId,
        call: &Call,
    ) -> Option<Refusal>
        requires { J.ticket.name ≢ K.ticket.name }
    {
        match kernel.call(rt, &mut self.seat, thread, *call) {
            Outcome::Refused(refusal) => Some(refusal),
            _ => None,
        }
    }

    /// Meets a caller of another kernel, which comes second.
    ///
    /// # Errors
    ///
    /// 42 if a seat is of another kernel.
    pub fn meet_stranger<K: Naming>(
        &mut self,
        kernel: &Kernel<J>,
        stranger: &mut Caller<K>,
    ) -> Result<(), Refusal>
        requires { K.ticket.name ≢ J.ticket.name }
    {
        kernel.meet(&mut self.seat, &mut stranger.seat)?;
        Ok(())
    }

    /// Meets a caller of another kernel, which comes first.
    ///
    /// # Errors
    ///
    /// 42 if a seat is of another kernel.
    pub fn be_met<K: Naming>(
        &mut self,
        kernel: &Kernel<J>,
        stranger: &mut Caller<K>,
    ) -> Result<(), Refusal>
        requires { K.ticket.name ≢ J.ticket.name }
    {
        kernel.meet(&mut stranger.seat, &mut self.seat)?;
        Ok(())
    }
}

/// A kernel that its callers share.
#[derive(Drop)]
pub struct Running<J: Naming> {
    pub kernel: Kernel<J>,
    pub callers: Vec<Caller<J>>,
}

/// The state and the log that are left of a kernel that was closed.
#[derive(Drop)]
pub struct Ended {
    pub state: State,
    pub log: Log,
}

fn callers_of<J: Naming + Send + Sync, R: Threads + Sync>(
    rt: &R,
    seats: Vec<Seat>,
) -> Result<Vec<Caller<J>>, AllocError>
    requires { All (IsOf J.ticket) seats.items }
{
    thread::map_vec(
        rt,
        seats,
        &|seat: Seat| -> Caller<J>
            requires { IsOf J.ticket seat }
        { Caller::new(seat) },
    )
}

fn seats_of<J: Naming + Send + Sync, R: Threads + Sync>(
    rt: &R,
    callers: Vec<Caller<J>>,
) -> Result<Vec<Seat>, AllocError>
    ensures { IfOk result (λ seats. All (IsFit J.ticket) seats.items) }
{
    thread::map_vec(
        rt,
        callers,
        &|caller: Caller<J>| -> Seat
            ensures { IsFit J.ticket result }
        { caller.into_seat() },
    )
}

/// Returns the kernel by its name, with a caller for each seat.
pub fn with_callers<J: Naming + Send + Sync, R: Threads + Sync>(
    rt: &R,
    opened: Opened,
    seats: Vec<Seat>,
) -> Result<Running<J>, AllocError>
    requires opened { opened ≡ J.ticket }
    requires seats { All (IsOf J.ticket) seats.items }
{
    match callers_of(rt, seats) {
        Ok(callers) => Ok(Running {
            kernel: opened.named(),
            callers,
        }),
        Err(error) => {
            drop(opened);
            Err(error)
        }
    }
}

// Closes the kernel with these seats.
fn closed_with<J: Naming>(kernel: Kernel<J>, seats: &mut [Seat]) -> Result<Ended, Fail>
    requires { All (IsFit J.ticket) seats.old }
{
    match kernel.close(seats) {
        Ok((state, log)) => Ok(Ended { state, log }),
        Err(back) => {
            drop(back);
            Err(Fail::new("it isn't closed"))
        }
    }
}

/// Closes the kernel with the callers that are left.
///
/// # Errors
///
/// [`Fail`] if memory is refused, or the kernel isn't closed.
pub fn closed<J: Naming + Send + Sync, R: Threads + Sync>(
    rt: &R,
    running: Running<J>,
) -> Result<Ended, Fail> {
    let Running { kernel, callers } = running;
    match seats_of(rt, callers) {
        Ok(mut seats) => {
            let ended = closed_with(kernel, seats.as_mut_slice());
            drop(seats);
            ended
        }
        Err(_) => {
            drop(kernel);
            Err(Fail::new("there is no memory"))
        }
    }
}

/// Closes a kernel with no seat.
///
/// # Errors
///
/// [`Fail`] if the kernel isn't closed.
pub fn closed_alone<J: Naming>(alloc: Global, kernel: Kernel<J>) -> Result<Ended, Fail> {
    let mut none: Vec<Seat> = Vec::new(alloc);
    closed_with(kernel, none.as_mut_slice())
}

// These seats and another.
fn with_one_more<J: Naming>(mut seats: Vec<Seat>, seat: Seat) -> Result<Vec<Seat>, AllocError>
    requires seats { All (IsFit J.ticket) seats.items }
    requires seat { IsFit J.ticket seat }
    ensures { IfOk result (λ all. All (IsFit J.ticket) all.items) }
{
    seats.push(seat)?;
    Ok(seats)
}

// The seats of these callers and of one of another kernel.
fn seats_with<J: Naming + Send + Sync, K: Naming, R: Threads + Sync>(
    rt: &R,
    callers: Vec<Caller<J>>,
    stranger: Caller<K>,
) -> Result<Vec<Seat>, AllocError>
    requires { K.ticket.name ≢ J.ticket.name }
    ensures { IfOk result (λ all. All (IsFit J.ticket) all.items) }
{
    match seats_of(rt, callers) {
        Ok(seats) => with_one_more::<J>(seats, stranger.into_seat()),
        Err(error) => {
            drop(stranger);
            Err(error)
        }
    }
}

// Tries to close the kernel with these seats, and returns what comes back.
fn kept<J: Naming>(kernel: Kernel<J>, seats: &mut [Seat]) -> Option<(Kernel<J>, Refusal)>
    requires { All (IsFit J.ticket) seats.old }
{
    match kernel.close(seats) {
        Ok(ended) => {
            drop(ended);
            None
        }
        Err(back) => Some(back),
    }
}

/// Tries to close the kernel with its callers and with one of another kernel, and returns what comes
/// back: the kernel and a refusal.
pub fn kept_with<J: Naming + Send + Sync, K: Naming, R: Threads + Sync>(
    rt: &R,
    running: Running<J>,
    stranger: Caller<K>,
) -> Option<(Kernel<J>, Refusal)>
    requires { K.ticket.name ≢ J.ticket.name }
{
    let Running { kernel, callers } = running;
    match seats_with(rt, callers, stranger) {
        Ok(mut seats) => {
            let back = kept(kernel, seats.as_mut_slice());
            drop(seats);
            back
        }
        Err(_) => {
            drop(kernel);
            None
        }
    }
}
