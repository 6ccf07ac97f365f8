//! The call Wait, which takes a notification's word or waits for one.
ghost use Rattle.{machine.specs.{Makes.Makes, Step.Wait.wait_of}, objects.specs.Waiting.WaitsNowhere};

use crate::signal::pending;
use base::{Cause, ObjId, Rights};
use bitflags::Flags;
use cspace::{find, permit};
use machine::{Answer, Made, ObjectKind, RunState};
use objects::State;
use queues::block;

/// Takes the word of the notification at an address (seL4 manual, "Notifications").
///
/// The caller waits for a word if the notification has none.
///
/// # Errors
///
/// Those of [`find`], and [`Cause::InvalidCapability`] (2) if the right Read is missing.
#[tactic(auto, unfolding(machine::specs::Step::Wait::wait_of))]
pub fn wait(state: &mut State, caller: ObjId, address: u64) -> Result<Made, Cause>
    requires { WaitsNowhere state.old caller }
    ensures { Makes state.old state.new result (wait_of state.old caller address) }
{
    let (_, cap) = find(state, ObjectKind::Notification, caller, address)?;
    let notification = cap.object;
    permit(cap.detail.badged().rights.contains(Rights::READ))?;
    match pending(state, notification) {
        Some(word) => {
            state.set_pending(notification, None);
            Ok(Made::Done(Answer::Word(word)))
        }
        None => {
            block(state, caller, notification, RunState::Waiting(notification));
            Ok(Made::Blocked)
        }
    }
}
