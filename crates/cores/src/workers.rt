//! The workers, one for each core.
ghost use Rattle.std.specs.Prelude.{[], ℕ, ◌<◌, ◌≡◌, All, IfOk, List, length, slice_index_or};
ghost use Rattle.machine.specs.declared.call.Event.{Event as Made};
ghost use Rattle.cores.specs.{Seats.{IsOf, Known}, Workers.{AreBusy, IsUnused, Worked, worker_number}};

use crate::{Kernel, Naming, Seat};
use base::{CoreNo, Misuse, Refusal};
use deal::Gate;
use machine::{Event, Outcome};
use std::alloc::AllocError;
use std::sync::Wait;
use std::thread;
use std::thread::Threads;

/// How many cores there are.
pub(crate) const CORES: usize = CoreNo::COUNT as usize;

/// For each core, whether the script has events on it.
pub(crate) type Busy = [bool; CORES];

// The seat's core, whose worker has arrived at the gate, makes its events of the script. It ends
// before their end only where the log is full.
fn work<J: Naming, R: Wait, G: Gate>(
    rt: &R,
    kernel: &Kernel<J>,
    events: &[Event],
    _gate: &G,
    mut seat: Seat,
) -> Seat
    requires of { IsOf J.ticket seat }
    requires new { seat.mine ≡ [] }
    requires arrived { G.HasArrived _gate.now (worker_number events.now seat.core) }
    ensures { Worked J.ticket events.now seat result }
{
    let core = seat.core();
    let full = Outcome::Refused(Refusal::from(Misuse::LogFull));
    for event in events {
        if event.core == core && kernel.call(rt, &mut seat, event.thread, event.call) == full {
            return seat;
        }
    }
    seat
}

/// The cores that the script has events on. Each event is on a core that there can be.
pub(crate) fn busy_cores(events: &[Event]) -> Busy
    ensures below { All (λ event. event.core < CoreNo.COUNT) events.now }
    ensures busy { AreBusy events.now result }
{
    let mut busy = [false; CORES];
    for event in events {
        busy[usize::from(event.core.number())] = true;
    }
    busy
}

// The number of the core's worker at the gate.
fn number_of_worker(busy: &Busy, core: CoreNo) -> usize
    ensures { (events : List Made) → AreBusy events busy.now → result ≡ worker_number events core }
{
    let mut number = 0;
    for below in 0..usize::from(core.number()) {
        if busy[below] {
            number += 1;
        }
    }
    number
}

// The worker of the seat's core arrives at the gate and makes its events, if the script has some on its core.
fn serve<J: Naming, R: Wait, G: Gate>(
    rt: &R,
    kernel: &Kernel<J>,
    events: &[Event],
    busy: &Busy,
    gate: &G,
    seat: Seat,
) -> Seat
    requires fresh { IsUnused J.ticket seat }
    requires busy { AreBusy events.now busy.now }
    ensures { Worked J.ticket events.now seat result }
{
    let core = seat.core();
    if !busy[usize::from(core.number())] {
        return seat;
    }
    gate.arrive(number_of_worker(busy, core));
    work(rt, kernel, events, gate, seat)
}

/// Each seat's worker makes its events of the script, side by side. It gives the seats back.
pub(crate) fn all_workers<J: Naming + Send + Sync, R: Threads + Wait + Sync, G: Gate + Sync>(
    rt: &R,
    kernel: &Kernel<J>,
    seats: Vec<Seat>,
    events: &[Event],
    busy: &Busy,
    gate: &G,
) -> Result<Vec<Seat>, AllocError>
    requires fresh { All (IsUnused J.ticket) seats.items }
    requires busy { AreBusy events.now busy.now }
    ensures count { IfOk result (λ worked. length worked.items ≡ length seats.items) }
    ensures worked { IfOk result (λ worked. (i : ℕ) (d : Known) → i < length seats.items
        → Worked J.ticket events.now (slice_index_or seats.items i d) (slice_index_or worked.items i d)) }
{
    thread::map_vec(
        rt,
        seats,
        &|seat: Seat| -> Seat
            requires { IsUnused J.ticket seat × AreBusy events.now busy.now }
            ensures { Worked J.ticket events.entry.now seat result }
        { serve(rt, kernel, events, busy, gate, seat) },
    )
}
