//! The delivery of messages, each with at most one capability.
ghost use Rattle.std.specs.Prelude.{◌≡◌, is_ok};
ghost use Rattle.machine.specs.{Step.Deliver.{arrival_of, delivered, message_of, with_arrival}, WellFormed.IsWellFormed};

use base::{Cause, ObjId};
use cnodeops::{copyable, derive, target, vacant};
use cspace::{find_cap, permit};
use machine::{Ends, Message, Receiving, Sending, SlotAddress};
use objects::State;
use replies::give;
use steps::{arrivals_keep_machines_well_formed, releases_keep_machines_well_formed};

/// The slots between which a message's capability is copied, if one arrives; else the reason why none does.
#[tactic(auto, unfolding(machine::specs::Step::Deliver::arrival_of))]
fn arrival(
    state: &State,
    sender: ObjId,
    sending: Sending,
    receiver: ObjId,
    slot: Option<SlotAddress>,
) -> Result<Ends, Cause>
    ensures { result ≡ arrival_of state.now sender sending receiver slot }
{
    permit(sending.grant)?;
    let from = sending.capability.ok_or(Cause::InvalidArgument)?;
    let (source, held) = find_cap(state, sender, from)?;
    copyable(&held.detail)?;
    let to = slot.ok_or(Cause::InvalidArgument)?;
    let target = target(state, receiver, to)?;
    vacant(state.cap(target))?;
    Ok(Ends {
        target,
        source,
        held,
    })
}

/// Copies a message's capability to the receiver's slot, if one arrives. Returns whether one does.
pub fn arrive(
    state: &mut State,
    sender: ObjId,
    sending: Sending,
    receiver: ObjId,
    slot: Option<SlotAddress>,
) -> bool
    requires { IsWellFormed state.old }
    ensures arrived { result ≡ is_ok (arrival_of state.old sender sending receiver slot) }
    ensures changes { state.new ≡ with_arrival state.old (arrival_of state.old sender sending receiver slot) }
    ensures well_formed { IsWellFormed state.new }
{
    // A law, so that the state stays well formed.
    arrivals_keep_machines_well_formed();
    match arrival(state, sender, sending, receiver, slot) {
        Ok(ends) => {
            derive(state, ends, ends.held.detail);
            true
        }
        Err(_) => false,
    }
}

/// Returns a message as its receiver gets it.
pub fn message(sending: Sending, arrived: bool) -> Message
    ensures { result ≡ message_of sending arrived }
{
    let words = sending.words;
    Message {
        badge: sending.badge,
        words,
        capability: arrived,
    }
}

/// Gives a message to a thread that waits to receive.
#[tactic(auto, unfolding(machine::specs::Step::Deliver::delivered))]
pub fn deliver(
    state: &mut State,
    sender: ObjId,
    sending: Sending,
    receiver: ObjId,
    receiving: Receiving,
)
    requires { IsWellFormed state.old }
    ensures changes { state.new ≡ delivered state.old sender sending receiver receiving }
    ensures well_formed { IsWellFormed state.new }
{
    // A law, so that the state stays well formed.
    releases_keep_machines_well_formed();
    let arrived = arrive(state, sender, sending, receiver, receiving.slot);
    give(state, receiver, message(sending, arrived));
}
