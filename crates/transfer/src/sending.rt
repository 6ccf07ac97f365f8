//! The calls Send and Call, which send a message.
ghost use Rattle.std.specs.Prelude.{◌≡◌};
ghost use Rattle.machine.specs.{Makes.Makes, Step.Deliver.{first_at, receiver_in, sending_by}};
ghost use Rattle.machine.specs.Step.Send.{called_or_waits, endpoint_call_of, send_of, sent_or_waits};
ghost use Rattle.{machine.specs.WellFormed.{IsCaller, IsWellFormed}, objects.specs.Waiting.WaitsNowhere};

use crate::arrivals::deliver;
use crate::firsts::first_receiver;
use crate::lending::call_through;
use crate::releases::answer_through;
use base::{Cause, ObjId, Rights};
use bitflags::Flags;
use cspace::{find, permit};
use machine::{Answer, Badged, Made, ObjectKind, RunState, Sending};
use objects::State;
use queues::block;
use steps::calls_keep_machines_well_formed;

/// The record of a message that is sent by a capability to an endpoint.
fn sending_by(
    endpoint: ObjId,
    end: Badged,
    is_call: bool,
    words: [u64; 4],
    capability: Option<u64>,
) -> Sending
    ensures { result ≡ sending_by endpoint end is_call words capability }
{
    let grants = end.rights.contains(Rights::GRANT);
    Sending {
        endpoint,
        badge: end.badge,
        grant: end.rights.contains(Rights::WRITE) && grants,
        is_call,
        can_reply: grants || end.rights.contains(Rights::GRANT_REPLY),
        words,
        capability,
    }
}

/// Gives a message to the first thread that waits to receive, or makes its sender wait for one.
fn send_or_wait(state: &mut State, caller: ObjId, sending: Sending) -> Made
    requires well_formed { IsWellFormed state.old }
    requires free { WaitsNowhere state.old caller }
    ensures { (result, state.new)
        ≡ sent_or_waits state.old caller sending (receiver_in (first_at state.old sending.endpoint)) }
{
    match first_receiver(state, sending.endpoint) {
        Some((receiver, receiving)) => {
            deliver(state, caller, sending, receiver, receiving);
            Made::Done(Answer::Nothing)
        }
        None => {
            block(state, caller, sending.endpoint, RunState::Sending(sending));
            Made::Blocked
        }
    }
}

// The whole row of a send.
#[tactic(auto, unfolding(machine::specs::Step::Send::send_of))]
fn make_send(
    state: &mut State,
    caller: ObjId,
    address: u64,
    words: [u64; 4],
    capability: Option<u64>,
) -> Result<Made, Cause>
    requires well_formed { IsWellFormed state.old }
    requires free { WaitsNowhere state.old caller }
    ensures { Makes state.old state.new result (send_of state.old caller address words capability) }
{
    let (_, cap) = find(state, ObjectKind::Endpoint, caller, address)?;
    let end = cap.detail.badged();
    permit(end.rights.contains(Rights::WRITE))?;
    let sending = sending_by(cap.object, end, false, words, capability);
    Ok(send_or_wait(state, caller, sending))
}

/// Sends a message through the endpoint at an address (seL4 manual, "Endpoints" and seL4_Send).
///
/// The first thread that waits to receive gets the message. If there is none, the caller waits for
/// one.
///
/// At most one capability is sent with it: that at the address `capability` when the message is
/// received. It arrives if the capability to the endpoint has the right Grant, it isn't for untyped
/// memory, and the receiver gave an empty slot. Otherwise the message is sent without it.
///
/// # Errors
///
/// Those of [`find`], and [`Cause::InvalidCapability`] (2) where the right Write is missing.
pub fn send(
    state: &mut State,
    caller: ObjId,
    address: u64,
    words: [u64; 4],
    capability: Option<u64>,
) -> Result<Made, Cause>
    requires well_formed { IsWellFormed state.old }
    requires caller { IsCaller state.old caller }
    ensures made { Makes state.old state.new result (send_of state.old caller address words capability) }
    ensures well_formed { IsWellFormed state.new }
{
    // A law, so that the state stays well formed.
    calls_keep_machines_well_formed();
    make_send(state, caller, address, words, capability)
}

/// Gives a call to the first thread that waits to receive, and makes the caller wait for the
/// answer; or makes it wait for a receiver.
fn call_or_wait(state: &mut State, caller: ObjId, sending: Sending)
    requires well_formed { IsWellFormed state.old }
    requires caller { IsCaller state.old caller }
    ensures { state.new
        ≡ called_or_waits state.old caller sending (receiver_in (first_at state.old sending.endpoint)) }
{
    match first_receiver(state, sending.endpoint) {
        Some((receiver, receiving)) => {
            deliver(state, caller, sending, receiver, receiving);
            call_through(
                state,
                caller,
                receiver,
                answer_through(sending, receiving.reply),
            );
        }
        None => block(state, caller, sending.endpoint, RunState::Sending(sending)),
    }
}

// The whole row of a call.
#[tactic(auto, unfolding(machine::specs::Step::Send::endpoint_call_of))]
fn make_call(
    state: &mut State,
    caller: ObjId,
    address: u64,
    words: [u64; 4],
    capability: Option<u64>,
) -> Result<Made, Cause>
    requires well_formed { IsWellFormed state.old }
    requires caller { IsCaller state.old caller }
    ensures { Makes state.old state.new result (endpoint_call_of state.old caller address words capability) }
{
    let (_, cap) = find(state, ObjectKind::Endpoint, caller, address)?;
    let end = cap.detail.badged();
    permit(end.rights.contains(Rights::WRITE))?;
    let sending = sending_by(cap.object, end, true, words, capability);
    call_or_wait(state, caller, sending);
    Ok(Made::Blocked)
}

/// Sends a message, and makes the caller wait for the answer (seL4 manual, "Endpoints", "Reply objects" and seL4_Call).
///
/// The message is sent as by [`send`]. The answer comes through the reply that the receiver named.
///
/// If the receiver named none, or the capability to the endpoint has neither the right Grant nor
/// GrantReply, the caller is halted once its message is received. Otherwise, if the receiver was
/// there first and runs on no scheduling context, it runs on the caller's until it answers.
///
/// # Errors
///
/// Those of [`send`].
pub fn call(
    state: &mut State,
    caller: ObjId,
    address: u64,
    words: [u64; 4],
    capability: Option<u64>,
) -> Result<Made, Cause>
    requires well_formed { IsWellFormed state.old }
    requires caller { IsCaller state.old caller }
    ensures made { Makes state.old state.new result (endpoint_call_of state.old caller address words capability) }
    ensures well_formed { IsWellFormed state.new }
{
    // A law, so that the state stays well formed.
    calls_keep_machines_well_formed();
    make_call(state, caller, address, words, capability)
}
