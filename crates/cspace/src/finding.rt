//! Capabilities that a thread finds at an address: any, or one to an object of a kind.
ghost use Rattle.std.specs.Prelude.{◌≡◌};
ghost use Rattle.machine.specs.Step.Find.{find, find_cap, of_kind, permitted};

use crate::resolve;
use base::{Cause, ObjId, SlotRef};
use machine::{Cap, Detail, ObjectKind};
use objects::State;

/// Returns the slot at an address in a thread's capability space, and the capability that it holds.
///
/// # Errors
///
/// Those of [`resolve`], and [`Cause::InvalidCapability`] (2) where the slot is empty.
#[tactic(auto, unfolding(machine::specs::Step::Find::find_cap))]
pub fn find_cap(state: &State, caller: ObjId, address: u64) -> Result<(SlotRef, Cap), Cause>
    ensures { result ≡ find_cap state.now caller address }
{
    let (slot, _) = resolve(state, caller, address)?;
    match state.held(slot) {
        Some(held) => Ok((slot, *held)),
        None => Err(Cause::InvalidCapability),
    }
}

/// Refuses a capability that isn't to an object of a kind.
///
/// # Errors
///
/// [`Cause::InvalidCapability`] (2) where it is to an object of another kind.
pub fn of_kind(kind: ObjectKind, detail: &Detail) -> Result<(), Cause>
    ensures { result ≡ of_kind kind detail.now }
{
    match (kind, detail) {
        (ObjectKind::Untyped, Detail::Untyped)
        | (ObjectKind::CNode, Detail::CNode(_))
        | (ObjectKind::Tcb, Detail::Tcb)
        | (ObjectKind::Endpoint, Detail::Endpoint(_))
        | (ObjectKind::Notification, Detail::Notification(_))
        | (ObjectKind::Reply, Detail::Reply)
        | (ObjectKind::Context, Detail::Context)
        | (ObjectKind::Frame, Detail::Frame(_))
        | (ObjectKind::Control, Detail::Control) => Ok(()),
        _ => Err(Cause::InvalidCapability),
    }
}

/// Returns the slot at an address in a thread's capability space, and the capability that it holds,
/// to an object of a kind.
///
/// # Errors
///
/// Those of [`find_cap`], and [`Cause::InvalidCapability`] (2) where the capability is to an object of
/// another kind.
#[tactic(auto, unfolding(machine::specs::Step::Find::find))]
pub fn find(
    state: &State,
    kind: ObjectKind,
    caller: ObjId,
    address: u64,
) -> Result<(SlotRef, Cap), Cause>
    ensures { result ≡ find kind state.now caller address }
{
    let (slot, cap) = find_cap(state, caller, address)?;
    of_kind(kind, &cap.detail)?;
    Ok((slot, cap))
}

/// Refuses where a capability lacks the right that a call needs (seL4 manual, "Access Rights").
///
/// # Errors
///
/// [`Cause::InvalidCapability`] (2) where `allowed` is false.
pub fn permit(allowed: bool) -> Result<(), Cause>
    ensures { result ≡ permitted allowed }
{
    if allowed {
        Ok(())
    } else {
        Err(Cause::InvalidCapability)
    }
}
