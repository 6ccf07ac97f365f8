//! The context that a caller lends to its receiver.
ghost use Rattle.std.specs.Prelude.{◌≡◌, ◌≢◌, Some};
ghost use Rattle.base.specs.declared.ids.ObjId.{ObjId as Id};
ghost use Rattle.machine.specs.{Machine.object_of, Step.Send.{called_through, loan_made}, WellFormed.{IsFree, IsWellFormed, kind_of}};
ghost use Rattle.machine.specs.declared.object.ObjectKind.TheVariants as kind;

use base::ObjId;
use machine::{Calling, Lent};
use objects::State;
use replies::{halt, link};
use schedctl::{context_under, hand_over};

/// The loan of a caller to a receiver: the scheduling context that the caller runs on, if the
/// receiver has none.
fn loan_made(state: &State, caller: ObjId, receiver: ObjId) -> Option<Lent>
    ensures { result ≡ loan_made state.now caller receiver }
{
    match (context_under(state, caller), context_under(state, receiver)) {
        (Some(context), None) => Some(Lent {
            context,
            borrower: receiver,
        }),
        _ => None,
    }
}

// Makes a thread whose call was delivered wait for its answer through a reply, and lend its context
// meanwhile.
fn wait_and_lend(state: &mut State, caller: ObjId, receiver: ObjId, id: ObjId)
    requires well_formed { IsWellFormed state.old }
    requires caller { kind_of state.old caller ≡ Some kind.Tcb }
    requires receiver { kind_of state.old receiver ≡ Some kind.Tcb }
    requires apart { caller ≢ receiver }
    requires free { IsFree state.old id }
    ensures { state.new ≡ called_through state.old caller receiver (Some id) }
{
    let lent = loan_made(state, caller, receiver);
    halt(state, caller);
    link(state, caller, Calling { reply: id, lent });
    if let Some(lent) = lent {
        hand_over(state, caller, lent.borrower);
    }
}

/// Makes a caller wait for its answer through a reply, and lends its context to the receiver.
///
/// The call was delivered to the receiver, and the reply holds nobody. The scheduling context is
/// lent if the receiver has none. The caller is halted if there is no reply for an answer.
pub fn call_through(state: &mut State, caller: ObjId, receiver: ObjId, reply: Option<ObjId>)
    requires well_formed { IsWellFormed state.old }
    requires caller { kind_of state.old caller ≡ Some kind.Tcb }
    requires receiver { kind_of state.old receiver ≡ Some kind.Tcb }
    requires apart { caller ≢ receiver }
    requires free { (id : Id) → reply ≡ Some id → IsFree state.old id }
    ensures { state.new ≡ called_through state.old caller receiver reply }
{
    match reply {
        Some(id) => wait_and_lend(state, caller, receiver, id),
        None => halt(state, caller),
    }
}
