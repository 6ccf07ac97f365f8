//! A kernel that several threads call at once.
ghost use Rattle.std.specs.Prelude.{ℕ, ◌<◌, ◌==◌, ◌↔◌, ◌≡◌, ◌≢◌, ◌≤◌, ◌⊎◌, All, Decides, IfErr, IfOk, length, slice_index_or};
ghost use Rattle.{base.specs.Refusals.plain, machine.specs.declared.call.Outcome.TheVariants.Refused};
ghost use Rattle.cores.specs.Seats.{Calls, Closes, IsAtBoard, IsAtTicket, IsOf, Known, Looks, Meet};

use crate::board::Board;
use crate::desk::Desk;
use crate::naming::Naming;
use crate::seat::Seat;
use crate::word::{leave, see, visit};
use base::{Misuse, ObjId, Refusal};
use machine::{Call, Log, Outcome};
use objects::State;
use std::marker::Model;
use std::sync::{Mutex, Wait};

/// A kernel that several threads call at once, each by a seat of its own.
///
/// All calls stand in one history, whose log [`close`](Kernel::close) gives.
///
/// One lock lies round each call, so that a call is one step.
#[derive(Drop)]
pub struct Kernel<J: Naming> {
    pub(crate) board: Board,
    pub(crate) desk: Mutex<Desk<J>>,
    pub(crate) size: usize,
    pub(crate) name: u64,
}

impl<J: Naming> Model for Kernel<J> {
    ghost use Rattle.base.specs.contracts.ids.ObjId as id;
    ghost use Rattle.base.specs.contracts.ids.SlotRef as slot;
    ghost use Rattle.machine.specs.Machine.{machine_code};
    ghost use Rattle.machine.specs.contracts.cap.Cap as capability;
    ghost use Rattle.machine.specs.contracts.object.Object as object;
    ghost use Rattle.cores.specs.Seats.{IsKernel, Ticket, ticket_code, ticket_of};

    ghost Value = { Ticket };

    ghost coded = { ticket_code (machine_code id.the_row.coded slot.the_row.coded object.the_row.coded capability.the_row.coded) };

    ghost view = { λ kernel. ticket_of kernel.board.shared.table_id kernel.board.shared.key.boot.value kernel.board.shared.key.cores.value.items kernel.size kernel.name };

    ghost invariant = { λ kernel. IsKernel J.ticket kernel.board.shared.table_id kernel.board.shared.key.boot.value kernel.board.shared.key.cores.value.items kernel.size kernel.name };
}

// Shows two seats of one word one history.
fn show(board: &Board, first: &mut Seat, second: &mut Seat)
    requires first { IsAtBoard board.now.shared.table_id first.old }
    requires second { IsAtBoard board.now.shared.table_id second.old }
    requires start { second.old.start ≡ first.old.start }
    ensures first { Looks first.old first.new }
    ensures second { Looks second.old second.new }
    ensures meet { Meet first.new second.new }
{
    visit(board, &mut second.token, &mut first.token);
    see(board, &mut first.token);
    leave(board, &mut first.token, &mut second.token);
}

// Shows each of the seats the whole history.
fn show_all<J: Naming>(board: &Board, desk: &mut Desk<J>, seats: &mut [Seat])
    requires board { IsAtTicket J.ticket board.now.shared.table_id }
    requires of { All (IsOf J.ticket) seats.old }
    ensures same { desk.new ≡ desk.old }
    ensures count { length seats.new ≡ length seats.old }
    ensures looks { (i : ℕ) (d : Known) → i < length seats.old
        → Looks (slice_index_or seats.old i d) (slice_index_or seats.new i d) }
    ensures whole { (i : ℕ) (d : Known) → i < length seats.old → (slice_index_or seats.new i d).seen ≡ desk.old }
{
    for number in 0..seats.len() {
        desk.look(board, &mut seats[number]);
    }
}

// Whether all seats have this name.
fn are_all_called(seats: &[Seat], name: u64) -> bool
    ensures { Decides result (All (λ seat. seat.name ≡ name) seats.now) }
{
    seats.iter().all(
        |seat: &Seat| -> bool
            ensures { result ≡ (seat.now.name == name) }
        { seat.name == name },
    )
}

impl<J: Naming> Kernel<J> {
    /// Makes a call of a thread, on the seat's core.
    ///
    /// The call waits for the lock. What is promised holds if it returns.
    ///
    /// # Errors
    ///
    /// 42 where the seat is of another kernel, and then nothing changes. 41 where the log is full:
    /// no call is made, and the seat has seen the whole history. Every other refusal is the call's
    /// own.
    pub fn call<R: Wait>(&self, rt: &R, seat: &mut Seat, thread: ObjId, call: Call) -> Outcome
        requires { seat.old.name ≡ J.ticket.name → IsOf J.ticket seat.old }
        ensures foreign { (result ≡ Refused (plain 42)) ↔ (seat.old.name ≢ J.ticket.name) }
        ensures unchanged { result ≡ Refused (plain 42) → seat.new ≡ seat.old }
        ensures full { result ≡ Refused (plain 41) → Looks seat.old seat.new × (length seat.new.seen ≡ J.ticket.size) }
        ensures called { result ≢ Refused (plain 42) → result ≢ Refused (plain 41)
            → Calls seat.old (record { core = seat.old.core; thread = thread; call = call }) result seat.new
            × (length seat.new.seen ≤ J.ticket.size) }
    {
        if seat.name != self.name {
            return Outcome::Refused(Refusal::from(Misuse::ForeignSeat));
        }
        self.desk
            .lock(rt)
            .call(&self.board, self.size, seat, thread, call)
    }

    /// Shows two seats one history, which begins with all that both have seen.
    ///
    /// The call takes no lock, and waits for nobody.
    ///
    /// # Errors
    ///
    /// 42 where a seat is of another kernel, and then nothing changes.
    pub fn meet(&self, first: &mut Seat, second: &mut Seat) -> Result<(), Refusal>
        requires first { first.old.name ≡ J.ticket.name → IsOf J.ticket first.old }
        requires second { second.old.name ≡ J.ticket.name → IsOf J.ticket second.old }
        ensures ok { IfOk result
            (λ _. Looks first.old first.new × Looks second.old second.new × Meet first.new second.new) }
        ensures own { IfOk result (λ _. (first.old.name ≡ J.ticket.name) × (second.old.name ≡ J.ticket.name)) }
        ensures foreign { IfErr result (λ refusal. (refusal ≡ plain 42)
            × ((first.old.name ≢ J.ticket.name) ⊎ (second.old.name ≢ J.ticket.name))
            × (first.new ≡ first.old) × (second.new ≡ second.old)) }
    {
        if first.name != self.name || second.name != self.name {
            return Err(Refusal::from(Misuse::ForeignSeat));
        }
        show(&self.board, first, second);
        Ok(())
    }

    /// Closes the kernel, and returns its state and its log.
    ///
    /// Each of these seats has then seen the whole history.
    ///
    /// # Errors
    ///
    /// 42 where a seat is of another kernel. Then the kernel is handed back, and nothing changes.
    pub fn close(self, seats: &mut [Seat]) -> Result<(State, Log), (Kernel<J>, Refusal)>
        requires { All (λ seat. seat.name ≡ J.ticket.name → IsOf J.ticket seat) seats.old }
        ensures ok { IfOk result (λ ended. Closes J.ticket ended.0 ended.1.items seats.old seats.new) }
        ensures own { IfOk result (λ _. All (λ seat. seat.name ≡ J.ticket.name) seats.old) }
        ensures foreign { IfErr result (λ back. (back.0 ≡ self) × (back.1 ≡ plain 42) × (seats.new ≡ seats.old)
            × ¬ (All (λ seat. seat.name ≡ J.ticket.name) seats.old)) }
    {
        if !are_all_called(seats, self.name) {
            return Err((self, Refusal::from(Misuse::ForeignSeat)));
        }
        let Kernel { board, desk, .. } = self;
        let mut desk = desk.into_inner();
        show_all(&board, &mut desk, seats);
        Ok(desk.into_parts())
    }
}
