//! The steps on the word, each as a function that says how the views change. They wait for nobody.
//!
//! A call visits the keeper, records, and leaves, so that one step on the word changes what both know. The word is
//! loaded as a call begins and as it ends, and added to once.
ghost use Rattle.std.specs.Prelude.{[], ◌∷◌, ◌≡◌, IfOk, IfSome, None, Some, length};
ghost use Rattle.cores.specs.declared.view.{About.About, Hand.Hand, Keeping.Keeping};
ghost use Rattle.cores.specs.Moves.{Sees, Shows, after_deal, after_record, guest_as_hand, hand_as_guest, newcomer, with_guest, with_hand};
ghost use Rattle.cores.specs.{Moves.{with_seen, without_guest, without_hand}, Rule.first_view, Tokens.{CanRecord, IsAt, IsOfOneSeat}};

use crate::board::{Board, Deal, Key, Leave, Record, Saying, See, Token, Visit};
use crate::view::Noted;
use std::alloc::{AllocError, Global};
use std::marker::Brand;

/// A word with no entry yet, and the keeper's token.
pub(crate) fn new_board(alloc: Global, key: &Key) -> Result<(Board, Token), AllocError>
    ensures at { IfOk result (λ r. IsAt r.0.shared.table_id r.1) }
    ensures key { IfOk result (λ r. r.0.shared.key ≡ key.now) }
    ensures view { IfOk result (λ r. r.1.me ≡ (first_view key.now.boot.value key.now.cores.value.items, [])) }
{
    Board::of_words(alloc, &[0], key)
}

/// Deals a seat of the keeper's next number. It is asked for only while there is no entry.
pub(crate) fn deal(board: &Board, keeper: &mut Token) -> Token
    requires keeper { IsAt board.now.shared.table_id keeper.old }
    requires first { IfSome keeper.old.me.0.kept (λ kept. kept.history ≡ []) }
    ensures keeper { IsOfOneSeat keeper.old keeper.new × (keeper.new.me ≡ (after_deal keeper.old.me.0, [])) }
    ensures seat { (result.table_id ≡ keeper.old.table_id) × (result.me ≡ (newcomer keeper.old.me.0, [])) }
{
    board.shared.split_seat::<Deal>(keeper)
}

/// All that `from` knows for itself goes to `to`, as its guest.
pub(crate) fn visit(board: &Board, from: &mut Token, to: &mut Token)
    requires from { IsAt board.now.shared.table_id from.old }
    requires to { IsAt board.now.shared.table_id to.old }
    ensures from { IsOfOneSeat from.old from.new × (from.new.me ≡ (without_hand from.old.me.0, [])) }
    ensures to { IsOfOneSeat to.old to.new × (to.new.me ≡ (with_guest to.old.me.0 (hand_as_guest from.old.me.0), [])) }
{
    let guest = board.shared.split_seat::<Visit>(from);
    board.shared.join_seat::<Visit>(to, guest);
}

/// The guest of `from` goes to `to`, which knows it for itself.
pub(crate) fn leave(board: &Board, from: &mut Token, to: &mut Token)
    requires from { IsAt board.now.shared.table_id from.old }
    requires to { IsAt board.now.shared.table_id to.old }
    ensures from { IsOfOneSeat from.old from.new × (from.new.me ≡ (without_guest from.old.me.0, [])) }
    ensures to { IsOfOneSeat to.old to.new × (to.new.me ≡ (with_hand to.old.me.0 (guest_as_hand from.old.me.0), [])) }
{
    let hand = board.shared.split_seat::<Leave>(from);
    board.shared.join_seat::<Leave>(to, hand);
}

/// Sees the history as it is, with the guest, and answers how long it is.
pub(crate) fn see(board: &Board, token: &mut Token) -> u64
    requires { IsAt board.now.shared.table_id token.old }
    ensures same { IsOfOneSeat token.old token.new }
    ensures seen { Sees token.old.me result token.new.me }
{
    board.shared.load::<See>(token, 0)
}

/// The keeper adds its guest's entry to the history.
pub(crate) fn record(board: &Board, keeper: &mut Token, noted: &Noted)
    requires keeper { IsAt board.now.shared.table_id keeper.old }
    requires may { CanRecord keeper.old.me.0 noted.now }
    ensures same { IsOfOneSeat keeper.old keeper.new }
    ensures added { (kept : Keeping) (hand : Hand) → keeper.old.me.0.kept ≡ Some kept
        → keeper.old.me.0.guest ≡ Some hand
        → (keeper.new.me ≡ (after_record keeper.old.me.0 kept noted.now hand, [])) × Shows kept.history hand }
{
    record_this::<Brand>(board, keeper, noted);
}

fn record_this<N: Saying>(board: &Board, keeper: &mut Token, _noted: &Noted)
    requires entry { _noted.now ≡ N.entry }
    requires keeper { IsAt board.now.shared.table_id keeper.old }
    requires may { CanRecord keeper.old.me.0 _noted.now }
    ensures same { IsOfOneSeat keeper.old keeper.new }
    ensures added { (kept : Keeping) (hand : Hand) → keeper.old.me.0.kept ≡ Some kept
        → keeper.old.me.0.guest ≡ Some hand
        → (keeper.new.me ≡ (after_record keeper.old.me.0 kept _noted.now hand, [])) × Shows kept.history hand }
{
    board.shared.fetch_add::<Record<N>>(keeper, 0, 1);
}
