//! The desk under a kernel's lock: the state and its log, with the keeper of the history.
ghost use Rattle.std.specs.Prelude.{◌<◌, ◌^◌, ◌↔◌, ◌≡◌, ◌≢◌, ◌≤◌, Bool, length};
ghost use Rattle.{base.specs.Refusals.plain, machine.specs.{declared.call.Outcome.TheVariants.Refused, WellFormed.IsWellFormed}};
ghost use Rattle.{kernel.specs.Legal.IsLogBetween, cores.specs.{History.{OnCores, log_of}, Seats.{Calls, IsAtTicket, IsOf, Looks}}};

use crate::board::{Board, Token};
use crate::naming::Naming;
use crate::seat::Seat;
use crate::view::Noted;
use crate::word::{leave, record, see, visit};
use base::{Misuse, ObjId, Refusal};
use kernel::step;
use machine::{Call, Event, Log, Outcome};
use objects::State;
use std::marker::{Model, PhantomData};

/// The state and its log, with the keeper of the history. Contracts see it as the history.
#[derive(Drop)]
pub(crate) struct Desk<J: Naming> {
    pub(crate) state: State,
    pub(crate) log: Log,
    pub(crate) keeper: Token,
    pub(crate) of: PhantomData<J>,
}

impl<J: Naming> Model for Desk<J> {
    ghost use Rattle.std.specs.Prelude.{List, vec_capacity};
    ghost use Rattle.cores.specs.{declared.view.Noted.Noted, Seats.{InOrder, history_of}};

    ghost Value = { List Noted };

    ghost view = { λ desk. history_of desk.keeper };

    ghost invariant = { λ desk. InOrder J.ticket desk.keeper desk.log.items (vec_capacity desk.log) desk.state };
}

impl<J: Naming> Desk<J> {
    /// Whether the log has no room for an entry more.
    fn is_full(&self, size: usize) -> bool
        requires { size ≡ J.ticket.size }
        ensures full { (result ≡ Bool.true) ↔ (length self.now ≡ size) }
        ensures within { length self.now ≤ size }
    {
        self.log.len() == size
    }

    /// Makes a call, as the history's next entry.
    fn add(&mut self, board: &Board, seat: &mut Seat, thread: ObjId, call: Call) -> Outcome
        requires board { IsAtTicket J.ticket board.now.shared.table_id }
        requires of { IsOf J.ticket seat.old }
        requires room { (length self.old < J.ticket.size) × (J.ticket.size < 2 ^ 32) }
        ensures calls { Calls seat.old (record { core = seat.old.core; thread = thread; call = call }) result seat.new }
        ensures history { self.new ≡ seat.new.seen }
        ensures within { length seat.new.seen ≤ J.ticket.size }
        ensures begun { (result ≢ Refused (plain 41)) × (result ≢ Refused (plain 42)) }
    {
        visit(board, &mut seat.token, &mut self.keeper);
        let event = &Event {
            core: seat.core,
            thread,
            call,
        };
        let outcome = step(&mut self.state, *event);
        let noted = Noted {
            seat: seat.number,
            event: *event,
            outcome,
        };
        record(board, &mut self.keeper, &noted);
        self.log.push_reserved((*event, outcome));
        leave(board, &mut self.keeper, &mut seat.token);
        outcome
    }

    /// Shows a seat the whole history.
    pub(crate) fn look(&mut self, board: &Board, seat: &mut Seat)
        requires board { IsAtTicket J.ticket board.now.shared.table_id }
        requires of { IsOf J.ticket seat.old }
        ensures looks { Looks seat.old seat.new }
        ensures whole { seat.new.seen ≡ self.old }
        ensures same { self.new ≡ self.old }
    {
        visit(board, &mut seat.token, &mut self.keeper);
        see(board, &mut self.keeper);
        leave(board, &mut self.keeper, &mut seat.token);
    }

    /// Makes a call, or shows the seat the history where that is as long as the log may be.
    pub(crate) fn call(
        &mut self,
        board: &Board,
        size: usize,
        seat: &mut Seat,
        thread: ObjId,
        call: Call,
    ) -> Outcome
        requires board { IsAtTicket J.ticket board.now.shared.table_id }
        requires size { (size ≡ J.ticket.size) × (J.ticket.size < 2 ^ 32) }
        requires of { IsOf J.ticket seat.old }
        ensures own { result ≢ Refused (plain 42) }
        ensures full { result ≡ Refused (plain 41) → Looks seat.old seat.new × (length seat.new.seen ≡ size) }
        ensures called { result ≢ Refused (plain 41)
            → Calls seat.old (record { core = seat.old.core; thread = thread; call = call }) result seat.new
            × (length seat.new.seen ≤ size) }
    {
        if self.is_full(size) {
            self.look(board, seat);
            return Outcome::Refused(Refusal::from(Misuse::LogFull));
        }
        self.add(board, seat, thread, call)
    }

    /// The state and the log, once nobody calls any more.
    pub(crate) fn into_parts(self) -> (State, Log)
        ensures run { IsLogBetween J.ticket.boot (log_of self) result.0 }
        ensures formed { IsWellFormed result.0 }
        ensures on_cores { OnCores J.ticket.cores self }
        ensures logged { result.1.items ≡ log_of self }
    {
        let Desk { state, log, .. } = self;
        (state, log)
    }
}
