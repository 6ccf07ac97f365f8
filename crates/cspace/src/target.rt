//! The slot that a call names by an index and a depth.
ghost use Rattle.std.specs.Prelude.{◌↔◌, ◌≡◌, ◌≢◌, ◌⊎◌, IfErr, IfOk, IsErrAnd};
ghost use Rattle.base.specs.declared.{ids.SlotRef.SlotRef as Slot, refusal.Cause.{Cause as Why, TheVariants.FailedLookup}};
ghost use Rattle.base.specs.{declared.refusal.LookupFailure.TheVariants.MissingCapability, Refusals.refusal_of};
ghost use Rattle.machine.specs.Step.Target.{exactly, lookup_target_of};
ghost use Rattle.cspace.specs.{Below.target_below, Chain.{TargetFails, TargetFinds}, Strings.level_shown};

use crate::level::Level;
use crate::walk::{level_at, walk};
use base::{Cause, LookupFailure, Refusal, SlotRef};
use objects::State;

/// The slot where a lookup ends, if no bits are left there.
fn exactly(slot: SlotRef, left: u32) -> Result<SlotRef, Cause>
    ensures { result ≡ exactly (slot, left) }
{
    if left > 0 {
        return Err(Cause::FailedLookup(LookupFailure::DepthMismatch));
    }
    Ok(slot)
}

/// Returns the slot where a walk ends that takes the low `depth` bits of an index, from a CNode on.
///
/// # Errors
///
/// Those of [`resolve_target`], where the CNode is that of the slot's capability.
#[tactic(auto, unfolding(crate::specs::Below::target_below))]
pub fn target_below(state: &State, level: &Level, index: u64, depth: u64) -> Result<SlotRef, Cause>
    ensures { result ≡ target_below state.now (level_shown level.now) index depth }
{
    if depth < 1 || depth > 64 {
        return Err(Cause::RangeError);
    }
    let (slot, left) = walk(state, *level, index, depth as u32).map_err(Cause::FailedLookup)?;
    exactly(slot, left)
}

/// The slot where such a walk ends from the CNode whose capability the slot `from` holds.
#[tactic(auto, unfolding(machine::specs::Step::Target::lookup_target_of, crate::specs::Below::target_below))]
fn walk_target(state: &State, from: SlotRef, index: u64, depth: u64) -> Result<SlotRef, Cause>
    ensures { result ≡ lookup_target_of state.now from index depth }
{
    let Some(level) = level_at(state, from) else {
        return Err(Cause::FailedLookup(LookupFailure::InvalidRoot));
    };
    target_below(state, &level, index, depth)
}

/// Returns the slot to which the low `depth` bits of an index lead (seL4 manual, "Capability Address Lookup").
///
/// The look-up begins at the CNode whose capability the slot `from` holds. The slot that is found
/// may be empty. It is found exactly where a chain of CNode capabilities ends whose guards and
/// indices, joined, are these bits, and there is one such chain.
///
/// # Errors
///
/// In this order:
///
/// - [`Cause::FailedLookup`] (6) with `InvalidRoot`, where `from` holds no CNode capability
/// - [`Cause::RangeError`] (4), where the depth isn't from 1 to 64
/// - [`Cause::FailedLookup`] (6) with `GuardMismatch` or `DepthMismatch`, where a CNode on the way
///   selects no slot
/// - [`Cause::FailedLookup`] (6) with `DepthMismatch`, where bits are left at a slot that holds no
///   CNode capability.
pub fn resolve_target(
    state: &State,
    from: SlotRef,
    index: u64,
    depth: u64,
) -> Result<SlotRef, Cause>
    ensures value { result ≡ lookup_target_of state.now from index depth }
    ensures found { (slot : Slot) → (result ≡ Ok slot) ↔ TargetFinds state.now from index depth slot }
    ensures failed { (cause : Why) → (result ≡ Err cause) ↔ TargetFails state.now from index depth cause }
    ensures either { ((slot : Slot) × TargetFinds state.now from index depth slot)
        ⊎ ((cause : Why) × TargetFails state.now from index depth cause) }
    ensures unique { (slot other : Slot)
        → (a : TargetFinds state.now from index depth slot) (b : TargetFinds state.now from index depth other)
        → (a.root ≡ b.root) × (a.resolves.links ≡ b.resolves.links) × (a.resolves.last ≡ b.resolves.last) }
    ensures never_missing { result ≢ Err (FailedLookup MissingCapability) }
{
    state.cnodes_take_bits();
    walk_target(state, from, index, depth)
}

/// Returns the slot that [`resolve_target`] finds, or its failure as a refusal.
///
/// # Errors
///
/// Those of [`resolve_target`] as a [`Refusal`]: 4, or 6 with the detail of the failure.
pub fn lookup_target(
    state: &State,
    from: SlotRef,
    index: u64,
    depth: u64,
) -> Result<SlotRef, Refusal>
    ensures value { IfOk result (λ slot. lookup_target_of state.now from index depth ≡ Ok slot) }
    ensures refusal { IfErr result (λ refusal.
        IsErrAnd (lookup_target_of state.now from index depth) (λ cause. refusal ≡ refusal_of cause)) }
    ensures found { (slot : Slot) → (result ≡ Ok slot) ↔ TargetFinds state.now from index depth slot }
    ensures failed { (cause : Why)
        → (result ≡ Err (refusal_of cause)) ↔ TargetFails state.now from index depth cause }
{
    Ok(resolve_target(state, from, index, depth)?)
}
