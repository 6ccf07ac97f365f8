//! Look-ups of addresses in a thread's capability space.
ghost use Rattle.std.specs.{Option.option_map, Prelude.{ℕ, ◌<◌, ◌↔◌, ◌≡◌, ◌≢◌, ◌≤◌, ◌⊎◌, IfErr, IfOk, IsErrAnd, Some}};
ghost use Rattle.base.specs.declared.{ids.SlotRef.SlotRef as Slot, refusal.Cause.TheVariants.FailedLookup};
ghost use Rattle.base.specs.{declared.refusal.LookupFailure.{LookupFailure as Failure, TheVariants.MissingCapability}, Refusals.refusal_of};
ghost use Rattle.machine.specs.{Bits.bits, Lookup.{level_at, level_of_cap, lookup_of, walk}};
ghost use Rattle.cspace.specs.{Chain.{Fails, Finds}, Roots.root_level, Strings.{level_shown, place_shown}};

use crate::level::Level;
use base::{Cause, LookupFailure, ObjId, Refusal, SlotRef};
use machine::{Cap, Detail, Object};
use objects::State;

/// Returns the CNode that a capability shows, if it is a CNode's.
pub fn level_of_cap(state: &State, cap: &Cap) -> Option<Level>
    ensures { option_map level_shown result ≡ level_of_cap state.now (Some cap.now) }
{
    let Detail::CNode(guard) = cap.detail else {
        return None;
    };
    let Some(Object::CNode(node)) = state.object(cap.object) else {
        return None;
    };
    Some(Level {
        node: cap.object,
        guard,
        radix: node.radix,
    })
}

/// Returns the CNode whose capability the slot holds, if it holds one.
#[tactic(auto, unfolding(machine::specs::Lookup::level_at))]
pub fn level_at(state: &State, slot: SlotRef) -> Option<Level>
    ensures { option_map level_shown result ≡ level_at state.now slot }
{
    let cap = state.held(slot)?;
    level_of_cap(state, cap)
}

/// The CNode at a thread's root, if the number is a thread's.
#[tactic(auto, using(crate::proofs::RootLemmas::root_level_by_cap))]
fn root_level(state: &State, thread: ObjId) -> Option<Level>
    ensures { option_map level_shown result ≡ root_level state.now thread }
{
    let cap = state.root(thread)?;
    level_of_cap(state, cap)
}

/// The slot where the low `left` bits of an address end, from a CNode on, and how many bits are left
/// then.
pub(crate) fn walk(
    state: &State,
    level: Level,
    address: u64,
    left: u32,
) -> Result<(SlotRef, u32), LookupFailure>
    requires { left ≤ 64 }
    ensures { (most : ℕ) → left < most
        → place_shown address result ≡ walk most state.now (level_shown level) (bits left address) }
{
    let (slot, rest) = level.select(address, left)?;
    if rest == 0 {
        return Ok((slot, 0));
    }
    match level_at(state, slot) {
        Some(next) => walk(state, next, address, rest),
        None => Ok((slot, rest)),
    }
}

/// Returns the slot at an address in a thread's capability space (seL4 manual, "Capability Address Lookup").
///
/// The number of the address's 64 bits that are left there is returned with it. The slot may be
/// empty. It is found exactly where a chain of CNode capabilities ends whose guards and indices,
/// joined, begin the address, and there is one such chain.
///
/// # Errors
///
/// [`Cause::FailedLookup`] (6):
///
/// - with `InvalidRoot`, where the number is no thread's or the thread's root holds no CNode
///   capability
/// - with `GuardMismatch` or `DepthMismatch`, where a CNode on the way selects no slot.
pub fn resolve(state: &State, thread: ObjId, address: u64) -> Result<(SlotRef, u32), Cause>
    ensures value { result ≡ lookup_of state.now thread address }
    ensures found { (slot : Slot) (left : ℕ) → (result ≡ Ok (slot, left)) ↔ Finds state.now thread address slot left }
    ensures failed { (failure : Failure)
        → (result ≡ Err (FailedLookup failure)) ↔ Fails state.now thread address failure }
    ensures either { ((slot : Slot) × (left : ℕ) × Finds state.now thread address slot left)
        ⊎ ((failure : Failure) × Fails state.now thread address failure) }
    ensures unique { (slot other : Slot) (left remainder : ℕ)
        → (a : Finds state.now thread address slot left) (b : Finds state.now thread address other remainder)
        → (a.root ≡ b.root) × (a.resolves.links ≡ b.resolves.links) × (a.resolves.last ≡ b.resolves.last)
        × (a.rest ≡ b.rest) }
    ensures never_missing { result ≢ Err (FailedLookup MissingCapability) }
{
    state.cnodes_take_bits();
    let Some(root) = root_level(state, thread) else {
        return Err(Cause::FailedLookup(LookupFailure::InvalidRoot));
    };
    walk(state, root, address, u64::BITS).map_err(Cause::FailedLookup)
}

/// Returns what [`resolve`] finds, or its failure as a refusal.
///
/// # Errors
///
/// Those of [`resolve`] as a [`Refusal`]: 6, with the detail of the failure.
pub fn lookup(state: &State, thread: ObjId, address: u64) -> Result<(SlotRef, u32), Refusal>
    ensures value { IfOk result (λ place. lookup_of state.now thread address ≡ Ok place) }
    ensures refusal { IfErr result (λ refusal.
        IsErrAnd (lookup_of state.now thread address) (λ cause. refusal ≡ refusal_of cause)) }
    ensures found { (slot : Slot) (left : ℕ) → (result ≡ Ok (slot, left)) ↔ Finds state.now thread address slot left }
    ensures failed { (failure : Failure)
        → (result ≡ Err (refusal_of (FailedLookup failure))) ↔ Fails state.now thread address failure }
{
    Ok(resolve(state, thread, address)?)
}
