//! The call Receive, which takes a message or waits for one.
ghost use Rattle.std.specs.Prelude.{◌≡◌};
ghost use Rattle.base.specs.declared.ids.ObjId.{ObjId as Id};
ghost use Rattle.machine.specs.{Makes.Makes, Step.Receive.{find_named_reply, receive_of, received, with_reply_ended}};
ghost use Rattle.{machine.specs.WellFormed.{IsCaller, IsWellFormed}, objects.specs.Waiting.WaitsNowhere};

use crate::arrivals::{arrive, message};
use crate::firsts::first_sender;
use crate::releases::release;
use base::{Cause, ObjId, Rights};
use bitflags::Flags;
use cspace::{find, permit};
use machine::{Answer, Made, ObjectKind, Receiving, SlotAddress};
use objects::State;
use replies::{await_message, unlink};
use steps::{calls_keep_machines_well_formed, releases_keep_machines_well_formed};

/// The reply at an address, if one is given.
fn find_named_reply(
    state: &State,
    caller: ObjId,
    named: Option<u64>,
) -> Result<Option<ObjId>, Cause>
    ensures { result ≡ find_named_reply state.now caller named }
{
    match named {
        None => Ok(None),
        Some(address) => {
            let (_, cap) = find(state, ObjectKind::Reply, caller, address)?;
            Ok(Some(cap.object))
        }
    }
}

/// Halts the thread that the named reply holds, if one is named.
fn end_reply(state: &mut State, reply: Option<ObjId>)
    requires { IsWellFormed state.old }
    ensures changes { state.new ≡ with_reply_ended state.old reply }
    ensures well_formed { IsWellFormed state.new }
    ensures free { (thread : Id) → WaitsNowhere state.old thread → WaitsNowhere state.new thread }
{
    // A law, so that the state stays well formed.
    releases_keep_machines_well_formed();
    if let Some(id) = reply {
        unlink(state, id);
    }
}

/// Takes the message of the first thread that waits to send, or makes the receiver wait for one.
fn receive_or_wait(state: &mut State, caller: ObjId, receiving: Receiving) -> Made
    requires well_formed { IsWellFormed state.old }
    requires free { WaitsNowhere state.old caller }
    ensures { (result, state.new) ≡ received state.old caller receiving }
{
    match first_sender(state, receiving.endpoint) {
        Some((sender, sending)) => {
            let arrived = arrive(state, sender, sending, caller, receiving.slot);
            release(state, sender, sending, receiving.reply);
            Made::Done(Answer::Message(message(sending, arrived)))
        }
        None => {
            await_message(state, caller, receiving);
            Made::Blocked
        }
    }
}

// The whole row of a receive.
#[tactic(auto, unfolding(machine::specs::Step::Receive::receive_of))]
fn make_receive(
    state: &mut State,
    caller: ObjId,
    address: u64,
    reply: Option<u64>,
    slot: Option<SlotAddress>,
) -> Result<Made, Cause>
    requires well_formed { IsWellFormed state.old }
    requires free { WaitsNowhere state.old caller }
    ensures { Makes state.old state.new result (receive_of state.old caller address reply slot) }
{
    let (_, cap) = find(state, ObjectKind::Endpoint, caller, address)?;
    permit(cap.detail.badged().rights.contains(Rights::READ))?;
    let reply = find_named_reply(state, caller, reply)?;
    end_reply(state, reply);
    let receiving = Receiving {
        endpoint: cap.object,
        reply,
        slot,
    };
    Ok(receive_or_wait(state, caller, receiving))
}

/// Receives a message through the endpoint at an address (seL4 manual, "Endpoints", "Reply objects" and seL4_Recv).
///
/// The message is that of the first thread that waits to send. If there is none, the caller waits
/// for one.
///
/// A call is answered through the reply at the address `reply`, if one is given. The thread that
/// the reply held until then is halted first. The message's capability, if one arrives, is put into
/// the empty slot `slot`. The message comes without it if no slot is given, or the slot doesn't
/// exist or is filled.
///
/// # Errors
///
/// Those of [`find`], [`Cause::InvalidCapability`] (2) where the right Read is missing, and then
/// those of [`find`] for the reply.
pub fn receive(
    state: &mut State,
    caller: ObjId,
    address: u64,
    reply: Option<u64>,
    slot: Option<SlotAddress>,
) -> Result<Made, Cause>
    requires well_formed { IsWellFormed state.old }
    requires caller { IsCaller state.old caller }
    ensures made { Makes state.old state.new result (receive_of state.old caller address reply slot) }
    ensures well_formed { IsWellFormed state.new }
{
    // A law, so that the state stays well formed.
    calls_keep_machines_well_formed();
    make_receive(state, caller, address, reply, slot)
}
