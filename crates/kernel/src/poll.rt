//! The call Poll, which takes a notification's word.
ghost use Rattle.machine.specs.{Makes.Makes, Step.Poll.poll_of};

use crate::signal::pending;
use base::{Cause, ObjId, Rights};
use bitflags::Flags;
use cspace::{find, permit};
use machine::{Answer, Made, ObjectKind};
use objects::State;

/// Takes the word of the notification at an address, or 0 if it has none (seL4 manual, "Notifications").
///
/// # Errors
///
/// Those of [`find`], and [`Cause::InvalidCapability`] (2) if the right Read is missing.
#[tactic(auto, unfolding(machine::specs::Step::Poll::poll_of))]
pub fn poll(state: &mut State, caller: ObjId, address: u64) -> Result<Made, Cause>
    ensures { Makes state.old state.new result (poll_of state.old caller address) }
{
    let (_, cap) = find(state, ObjectKind::Notification, caller, address)?;
    permit(cap.detail.badged().rights.contains(Rights::READ))?;
    let word = pending(state, cap.object).unwrap_or(0);
    state.set_pending(cap.object, None);
    Ok(Made::Done(Answer::Word(word)))
}
