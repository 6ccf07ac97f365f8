//! Views: what a seat knows of the history. No value of these types but `Noted` is made: they say what proofs remember.

use base::CoreNo;
use machine::{Event, Outcome};
use objects::State;
use std::collections::LinkedList;

/// One entry of the history.
#[derive(Clone, Copy)]
pub struct Noted {
    /// The number of the seat that made it.
    pub seat: u64,
    pub event: Event,
    pub outcome: Outcome,
}

/// The facts that a kernel was opened with.
///
/// They never change, and every seat knows them.
pub struct About {
    /// The state before the first entry.
    pub boot: State,
    /// The core of each seat, by the seat's number.
    pub cores: LinkedList<CoreNo>,
}

/// The knowledge of the keeper, the one seat that adds to the history.
pub struct Keeping {
    pub history: LinkedList<Noted>,
    /// Seats from this number on have not been dealt.
    pub next: u64,
}

/// The knowledge of a caller's seat about the history.
pub struct Hand {
    pub number: u64,
    /// The beginning of the history that it has seen.
    pub seen: LinkedList<Noted>,
    /// Its own entries.
    pub mine: LinkedList<Noted>,
}

/// The knowledge of a seat of the board.
///
/// The keeper keeps the history, a caller's seat has a hand, and a seat that is visited has the
/// visitor's hand as its guest.
pub struct View {
    pub about: Option<About>,
    pub kept: Option<Keeping>,
    pub hand: Option<Hand>,
    pub guest: Option<Hand>,
}
