//! The word that all seats share, and its rule.

use crate::view::{Noted, View};
use atomic_table::{Join, Play, Seat, Split, Table, TableRule};
use base::CoreNo;
use objects::State;
use std::alloc::Global;
use std::marker::{Brand, PhantomData};
use std::snapshot::Snapshot;

/// The values that the word gets when it is made: the first state, and the core of each seat.
#[derive(Drop)]
pub struct Key {
    pub boot: Snapshot<State>,
    pub cores: Snapshot<Vec<CoreNo>>,
}

/// The rule of the word.
pub struct Law;

impl TableRule<(), View, Key> for Law {
    ghost use Rattle.cores.specs.Rule.{Kept, first_view};

    ghost holds = { λ key s. Kept key.boot.value key.cores.value.items s };

    ghost first = { λ key. first_view key.boot.value key.cores.value.items };
}

/// A table of one word and no slots.
pub type Board = Table<(), View, Key, Law, Global>;

/// The token that a seat steps with.
///
/// A token has no bytes.
pub type Token = Seat<(), View>;

/// The keeper deals a seat of the next number.
pub(crate) struct Deal;

impl Split<View> for Deal {
    ghost use Rattle.cores.specs.Moves.{after_deal, newcomer};

    ghost left = { after_deal };

    ghost right = { newcomer };
}

/// A seat's hand becomes another's guest.
pub(crate) struct Visit;

impl Split<View> for Visit {
    ghost use Rattle.cores.specs.Moves.{hand_as_guest, without_hand};

    ghost left = { without_hand };

    ghost right = { hand_as_guest };
}

impl Join<View> for Visit {
    ghost use Rattle.cores.specs.Moves.{blank, with_guest};

    ghost both = { with_guest };

    ghost spent = { blank };
}

/// A guest becomes its seat's hand again.
pub(crate) struct Leave;

impl Split<View> for Leave {
    ghost use Rattle.cores.specs.Moves.{guest_as_hand, without_guest};

    ghost left = { without_guest };

    ghost right = { guest_as_hand };
}

impl Join<View> for Leave {
    ghost use Rattle.cores.specs.Moves.{blank, with_hand};

    ghost both = { with_hand };

    ghost spent = { blank };
}

/// A load sees the whole history.
pub(crate) struct See;

impl Play<(), View> for See {
    ghost use Rattle.cores.specs.Moves.{Sees};

    ghost then = { λ _ before found after. Sees before found after };
}

/// Which entry a step adds. Each call of [`crate::word::record`] picks it.
pub(crate) trait Saying {
    ghost use Rattle.cores.specs.declared.view.Noted.{Noted};

    ghost entry: { Noted };
}

impl Saying for Brand {
    ghost use Rattle.cores.specs.Moves.{nothing_noted};

    ghost entry = { nothing_noted };
}

/// The keeper adds the guest's entry.
pub(crate) struct Record<N: Saying>(PhantomData<N>);

impl<N: Saying> Play<(), View> for Record<N> {
    ghost use Rattle.cores.specs.Moves.{Records};

    ghost then = { λ _ before _ after. Records N.entry before after };
}
