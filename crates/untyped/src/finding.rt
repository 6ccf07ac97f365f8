//! The look-ups of the untyped memory and the CNode that a retype names.
ghost use Rattle.std.specs.Prelude.{◌≡◌};
ghost use Rattle.{machine.specs.Step.Retype.{find_taker, find_untyped, memory_in}, untyped.specs.Shown.{found_shown, taker_shown}};

use base::{Cause, LookupFailure, ObjId, SlotRef};
use cspace::{Level, find, level_at, resolve};
use machine::{Object, ObjectKind, Untyped};
use objects::State;

/// A piece of untyped memory that objects are made from, with the slot of its capability.
#[derive(Clone, Copy)]
pub struct Source {
    pub slot: SlotRef,
    pub id: ObjId,
    pub memory: Untyped,
}

/// The object as untyped memory.
fn memory_in(object: Option<Object>) -> Result<Untyped, Cause>
    ensures { result ≡ memory_in object }
{
    match object {
        Some(Object::Untyped(memory)) => Ok(memory),
        _ => Err(Cause::InvalidCapability),
    }
}

/// Returns the untyped memory that a caller names.
///
/// # Errors
///
/// Those of [`find`].
#[tactic(auto, unfolding(machine::specs::Step::Retype::find_untyped))]
pub fn find_untyped(state: &State, caller: ObjId, address: u64) -> Result<Source, Cause>
    ensures { found_shown result ≡ find_untyped state.now caller address }
{
    let (slot, cap) = find(state, ObjectKind::Untyped, caller, address)?;
    let memory = memory_in(state.object(cap.object).copied())?;
    Ok(Source {
        slot,
        id: cap.object,
        memory,
    })
}

/// Returns the CNode that a caller names to take the capabilities of new objects.
///
/// # Errors
///
/// [`Cause::FailedLookup`] (6): that of [`resolve`], or `MissingCapability` where the slot holds no
/// CNode's capability.
#[tactic(auto, unfolding(machine::specs::Step::Retype::find_taker))]
pub fn find_taker(state: &State, caller: ObjId, address: u64) -> Result<Level, Cause>
    ensures { taker_shown result ≡ find_taker state.now caller address }
{
    let (slot, _) = resolve(state, caller, address)?;
    match level_at(state, slot) {
        Some(level) => Ok(level),
        None => Err(Cause::FailedLookup(LookupFailure::MissingCapability)),
    }
}
