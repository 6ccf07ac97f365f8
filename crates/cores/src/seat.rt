//! A seat, by which one thread calls the kernel. It has no lock, and no part of the state.
ghost use Rattle.std.specs.Prelude.{[], ◌≡◌, Some, slice_get};
ghost use Rattle.cores.specs.{Moves.after_deal, Seats.{CanSeat, about_in}, Tokens.{IsAt, IsOfOneSeat}};

use crate::board::{Board, Token};
use crate::word::deal;
use base::CoreNo;
use std::marker::Model;

/// The right to call a kernel from one core.
///
/// Contracts see it as what it has seen and made.
#[derive(Drop)]
pub struct Seat {
    pub(crate) token: Token,
    /// The number of the kernel.
    pub(crate) name: u64,
    pub(crate) number: u64,
    pub(crate) core: CoreNo,
}

impl Model for Seat {
    ghost use Rattle.base.specs.contracts.ids.ObjId as id;
    ghost use Rattle.base.specs.contracts.ids.SlotRef as slot;
    ghost use Rattle.machine.specs.Machine.{machine_code};
    ghost use Rattle.machine.specs.contracts.cap.Cap as capability;
    ghost use Rattle.machine.specs.contracts.object.Object as object;
    ghost use Rattle.cores.specs.Seats.{IsSeated, Known, known, known_code};
    ghost use Rattle.cores.specs.contracts.view.Noted as noted;

    ghost Value = { Known };

    ghost coded = { known_code (machine_code id.the_row.coded slot.the_row.coded object.the_row.coded capability.the_row.coded) noted.the_row.coded };

    ghost view = { λ seat. known seat.token seat.name seat.number seat.core };

    ghost invariant = { λ seat. IsSeated seat.token seat.number seat.core };
}

impl Seat {
    /// Deals the seat of the keeper's next number.
    pub(crate) fn deal(
        board: &Board,
        keeper: &mut Token,
        name: u64,
        number: u64,
        core: CoreNo,
    ) -> Seat
        requires keeper { IsAt board.now.shared.table_id keeper.old }
        requires next { CanSeat keeper.old.me.0 number core }
        ensures keeper { IsOfOneSeat keeper.old keeper.new × (keeper.new.me ≡ (after_deal keeper.old.me.0, [])) }
        ensures seat { result ≡ record { table = keeper.old.table_id; start = about_in keeper.old.me.0; name = name; number = number; core = core; seen = []; mine = [] } }
    {
        let token = deal(board, keeper);
        Seat {
            token,
            name,
            number,
            core,
        }
    }

    /// Returns the seat's number: its place in the list of cores that the kernel was opened with.
    pub fn number(&self) -> u64
        ensures { result ≡ self.now.number }
    {
        self.number
    }

    /// Returns the core that its calls are on.
    pub fn core(&self) -> CoreNo
        ensures { result ≡ self.now.core }
    {
        self.core
    }
}
