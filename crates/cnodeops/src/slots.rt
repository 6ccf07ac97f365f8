//! The slots that a call names, to fill one or to take from one.
ghost use Rattle.std.specs.Prelude.{◌≡◌, IsOkAnd, Some};
ghost use Rattle.machine.specs.{Lookup.{level_at, lookup_of}, Machine.cap_of, Step.Target.{ends_of, source_of, target_of, vacant}};
ghost use Rattle.{cspace.specs.Strings.level_shown, cnodeops.specs.Below.source_below};

use base::{Cause, LookupFailure, ObjId, SlotRef};
use cspace::{Level, level_at, level_of_cap, of_kind, resolve, target_below};
use machine::{Cap, Ends, ObjectKind, SlotAddress};
use objects::State;

/// Returns the slot that a caller names as the target.
///
/// # Errors
///
/// In this order:
///
/// - [`Cause::FailedLookup`] (6), where the slot of the root isn't found
/// - [`Cause::InvalidCapability`] (2), where that holds no CNode's capability
/// - [`Cause::RangeError`] (4) or [`Cause::FailedLookup`] (6), where the look-up from there fails,
///   as in [`cspace::resolve_target`].
#[tactic(auto, unfolding(machine::specs::Lookup::level_at, machine::specs::Step::Find::find_cap, machine::specs::Step::Find::find, machine::specs::Step::Target::target_of, machine::specs::Step::Target::lookup_target_of, cspace::specs::Below::target_below))]
pub fn target(state: &State, caller: ObjId, address: SlotAddress) -> Result<SlotRef, Cause>
    ensures { result ≡ target_of state.now caller address }
{
    let (node, _) = resolve(state, caller, address.root)?;
    let Some(root) = state.held(node) else {
        return Err(Cause::InvalidCapability);
    };
    of_kind(ObjectKind::CNode, &root.detail)?;
    let Some(level) = level_of_cap(state, root) else {
        return Err(Cause::FailedLookup(LookupFailure::InvalidRoot));
    };
    target_below(state, &level, address.index, address.depth)
}

/// Refuses to fill a slot that is filled, where this is what it holds (seL4 manual, seL4_DeleteFirst).
///
/// # Errors
///
/// [`Cause::DeleteFirst`] (8) where the slot holds a capability.
pub fn vacant(filling: Option<Cap>) -> Result<(), Cause>
    ensures { result ≡ vacant filling }
{
    match filling {
        None => Ok(()),
        Some(_) => Err(Cause::DeleteFirst),
    }
}

// Refuses to fill a slot that is filled.
fn unfilled(state: &State, slot: SlotRef) -> Result<(), Cause>
    ensures { result ≡ vacant (cap_of state.now slot) }
{
    match state.held(slot) {
        None => Ok(()),
        Some(_) => Err(Cause::DeleteFirst),
    }
}

// The slot of a source below a CNode, and the capability in it.
#[tactic(auto, unfolding(crate::specs::Below::source_below))]
fn source_below(state: &State, level: &Level, address: SlotAddress) -> Result<(SlotRef, Cap), Cause>
    ensures { result ≡ source_below state.now (level_shown level.now) address }
{
    let slot = target_below(state, level, address.index, address.depth)?;
    match state.held(slot) {
        Some(held) => Ok((slot, *held)),
        None => Err(Cause::FailedLookup(LookupFailure::MissingCapability)),
    }
}

/// The slot that a caller names as the source, and the capability in it. Where its root is the
/// target's, that isn't looked up again: it led to the CNode `level`.
#[tactic(auto, unfolding(machine::specs::Step::Target::source_of, machine::specs::Step::Target::lookup_target_of, cspace::specs::Below::target_below, crate::specs::Below::source_below))]
fn source(
    state: &State,
    caller: ObjId,
    address: SlotAddress,
    root: u64,
    level: &Level,
) -> Result<(SlotRef, Cap), Cause>
    requires { IsOkAnd (lookup_of state.now caller root)
        (λ place. level_at state.now place.0 ≡ Some (level_shown level.now)) }
    ensures { result ≡ source_of state.now caller address }
{
    if address.root == root {
        return source_below(state, level, address);
    }
    let (node, _) = resolve(state, caller, address.root)?;
    let Some(own) = level_at(state, node) else {
        return Err(Cause::FailedLookup(LookupFailure::InvalidRoot));
    };
    source_below(state, &own, address)
}

/// Returns the slots that a caller names to fill one from the other.
///
/// # Errors
///
/// In this order:
///
/// - those of [`target`], for the slot `to`
/// - [`Cause::DeleteFirst`] (8), where that slot is filled
/// - [`Cause::FailedLookup`] (6) or [`Cause::RangeError`] (4), where the slot `from` isn't found
/// - [`Cause::FailedLookup`] (6) with `MissingCapability`, where it is empty.
#[tactic(auto, unfolding(machine::specs::Lookup::level_at, machine::specs::Step::Find::find_cap, machine::specs::Step::Find::find, machine::specs::Step::Target::ends_of, machine::specs::Step::Target::target_of, machine::specs::Step::Target::lookup_target_of, cspace::specs::Below::target_below))]
pub fn ends(state: &State, caller: ObjId, to: SlotAddress, from: SlotAddress) -> Result<Ends, Cause>
    ensures { result ≡ ends_of state.now caller to from }
{
    let (node, _) = resolve(state, caller, to.root)?;
    let Some(root) = state.held(node) else {
        return Err(Cause::InvalidCapability);
    };
    of_kind(ObjectKind::CNode, &root.detail)?;
    let Some(level) = level_of_cap(state, root) else {
        return Err(Cause::FailedLookup(LookupFailure::InvalidRoot));
    };
    let target = target_below(state, &level, to.index, to.depth)?;
    unfilled(state, target)?;
    let (source, held) = source(state, caller, from, to.root, &level)?;
    Ok(Ends {
        target,
        source,
        held,
    })
}
