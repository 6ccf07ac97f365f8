//! A kernel that was opened, and has no name yet.
ghost use Rattle.std.specs.Prelude.{[], ◌<◌, ◌^◌, ◌≡◌, ◌≤◌, ◌⊎◌, All, IfErr, IfOk, IsErrOf, length};
ghost use Rattle.{base.specs.Refusals.plain, machine.specs.{Boot.IsBoot, WellFormed.IsWellFormed}};
ghost use Rattle.cores.specs.{Rule.about, Seats.{AreFresh, AreNew, CanDeal, IsOf, about_in}, Tokens.{IsAt, IsOfOneSeat}};

use crate::board::{Board, Key, Token};
use crate::desk::Desk;
use crate::naming::Naming;
use crate::running::Kernel;
use crate::seat::Seat;
use crate::word::new_board;
use base::{CoreNo, MAX_EVENTS, Misuse, Refusal};
use kernel::boot;
use machine::Log;
use objects::State;
use std::alloc::{AllocError, Global};
use std::marker::{Model, PhantomData};
use std::snapshot::Snapshot;
use std::sync::Mutex;
use verdict::Accepted;

/// The most seats that a kernel has.
pub const MAX_SEATS: usize = 64;

/// A kernel in its boot state, which nobody calls yet.
///
/// [`named`](Opened::named) makes it one that threads can call.
#[derive(Drop)]
pub struct Opened {
    board: Board,
    keeper: Token,
    state: State,
    log: Log,
    size: usize,
    name: u64,
}

impl Model for Opened {
    ghost use Rattle.std.specs.Prelude.{vec_capacity};
    ghost use Rattle.base.specs.contracts.ids.ObjId as id;
    ghost use Rattle.base.specs.contracts.ids.SlotRef as slot;
    ghost use Rattle.machine.specs.Machine.{machine_code};
    ghost use Rattle.machine.specs.contracts.cap.Cap as capability;
    ghost use Rattle.machine.specs.contracts.object.Object as object;
    ghost use Rattle.cores.specs.Seats.{IsOpened, Ticket, ticket_code, ticket_of};

    ghost Value = { Ticket };

    ghost coded = { ticket_code (machine_code id.the_row.coded slot.the_row.coded object.the_row.coded capability.the_row.coded) };

    ghost view = { λ opened. ticket_of opened.board.shared.table_id opened.board.shared.key.boot.value opened.board.shared.key.cores.value.items opened.size opened.name };

    ghost invariant = { λ opened. IsOpened (ticket_of opened.board.shared.table_id opened.board.shared.key.boot.value opened.board.shared.key.cores.value.items opened.size opened.name) opened.keeper opened.log.items (vec_capacity opened.log) opened.state };
}

// A seat for each core, in their order.
fn all_seats(
    alloc: Global,
    board: &Board,
    keeper: &mut Token,
    name: u64,
    cores: &[CoreNo],
) -> Result<Vec<Seat>, AllocError>
    requires keeper { IsAt board.now.shared.table_id keeper.old }
    requires first { CanDeal keeper.old.me.0 cores.now 0 }
    ensures keeper { IsAt board.now.shared.table_id keeper.new }
    ensures seats { IfOk result (λ seats. AreFresh keeper.old.table_id (about_in keeper.old.me.0) name seats.items) }
    ensures dealt { IfOk result (λ _. (CanDeal keeper.new.me.0 cores.now (length cores.now))
        × (about_in keeper.new.me.0 ≡ about_in keeper.old.me.0)) }
{
    let mut seats = Vec::with_capacity(alloc, cores.len())?;
    for number in 0..cores.len() {
        seats.push_reserved(Seat::deal(board, keeper, name, number as u64, cores[number]));
    }
    Ok(seats)
}

// A word without an entry, its keeper, and a seat for each core, in their order.
#[derive(Drop)]
struct Dealt {
    board: Board,
    keeper: Token,
    seats: Vec<Seat>,
}

// What a kernel in this state needs besides its log.
fn deal_all(alloc: Global, state: &State, cores: &[CoreNo], name: u64) -> Result<Dealt, AllocError>
    ensures at { IfOk result (λ d. IsAt d.board.shared.table_id d.keeper) }
    ensures key { IfOk result
        (λ d. (d.board.shared.key.boot.value ≡ state.now) × (d.board.shared.key.cores.value.items ≡ cores.now)) }
    ensures keeper { IfOk result (λ d. CanDeal d.keeper.me.0 cores.now (length cores.now)
        × (about_in d.keeper.me.0 ≡ about state.now cores.now)) }
    ensures seats { IfOk result (λ d. AreFresh d.board.shared.table_id (about state.now cores.now) name d.seats.items) }
{
    let list = cores.to_vec(alloc)?;
    let key = Key {
        boot: Snapshot::of(state),
        cores: Snapshot::of(&list),
    };
    let (board, mut keeper) = new_board(alloc, &key)?;
    let seats = all_seats(alloc, &board, &mut keeper, name, cores)?;
    Ok(Dealt {
        board,
        keeper,
        seats,
    })
}

// The kernel in this state, with its seats.
fn begun(
    alloc: Global,
    state: State,
    size: usize,
    cores: &[CoreNo],
    name: u64,
) -> Result<(Opened, Vec<Seat>), AllocError>
    requires formed { IsWellFormed state }
    requires size { size ≤ MAX_EVENTS }
    ensures opened { IfOk result
        (λ r. (r.0.boot ≡ state) × (r.0.cores ≡ cores.now) × (r.0.size ≡ size) × (r.0.name ≡ name)) }
    ensures seats { IfOk result (λ r. AreNew r.0 r.1.items) }
{
    let log = Vec::with_capacity(alloc, size)?;
    let Dealt {
        board,
        keeper,
        seats,
    } = deal_all(alloc, &state, cores, name)?;
    let opened = Opened {
        board,
        keeper,
        state,
        log,
        size,
        name,
    };
    Ok((opened, seats))
}

impl Opened {
    /// Opens a kernel in the boot state of an accepted table, with a seat for each of these cores, in their order.
    ///
    /// The kernel's log has room for `size` entries, 1 to 1,000,000.
    ///
    /// Kernels whose seats could be mixed up must have different names.
    ///
    /// # Errors
    ///
    /// 43 where the size is outside its limits, else 46 where there are no cores or more than
    /// [`MAX_SEATS`], and 40 where memory is refused.
    pub fn open(
        alloc: Global,
        accepted: &Accepted,
        size: usize,
        cores: &[CoreNo],
        name: u64,
    ) -> Result<(Opened, Vec<Seat>), Refusal>
        ensures opened { IfOk result (λ r. IsBoot accepted.now.table r.0.boot × (r.0.cores ≡ cores.now)
            × (r.0.size ≡ size) × (r.0.name ≡ name)) }
        ensures seats { IfOk result (λ r. AreNew r.0 r.1.items × All (IsOf r.0) r.1.items) }
        ensures log_size { (size < 1) ⊎ (MAX_EVENTS < size) → IsErrOf result (plain 43) }
        ensures seat_count { 1 ≤ size → size ≤ MAX_EVENTS → (length cores.now < 1) ⊎ (MAX_SEATS < length cores.now)
            → IsErrOf result (plain 46) }
        ensures memory { 1 ≤ size → size ≤ MAX_EVENTS → 1 ≤ length cores.now → length cores.now ≤ MAX_SEATS
            → IfErr result (λ refusal. refusal ≡ plain 40) }
    {
        if size < 1 || size > MAX_EVENTS {
            return Err(Refusal::from(Misuse::LogSize));
        }
        if cores.is_empty() || cores.len() > MAX_SEATS {
            return Err(Refusal::from(Misuse::SeatCount));
        }
        let state = boot(alloc, accepted.table())?;
        Ok(begun(alloc, state, size, cores, name)?)
    }

    /// Returns the kernel by the name that its type has.
    pub fn named<J: Naming>(self) -> Kernel<J>
        requires { self ≡ J.ticket }
        ensures { result ≡ self }
    {
        let Opened {
            board,
            keeper,
            state,
            log,
            size,
            name,
        } = self;
        let desk = Desk {
            state,
            log,
            keeper,
            of: PhantomData,
        };
        Kernel {
            board,
            desk: Mutex::new(desk),
            size,
            name,
        }
    }
}
