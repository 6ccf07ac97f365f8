//! The call Mint, which copies a capability with a badge or a guard.
ghost use Rattle.std.specs.Prelude.{◌%◌, ◌==◌, ◌^◌, ◌≡◌, ◌≤◌, Err, Ok, if◌then◌else◌};
ghost use Rattle.base.specs.declared.refusal.Cause.TheVariants.{IllegalOperation};
ghost use Rattle.machine.specs.{Makes.Makes, Step.Mint.{guarded, mint_of, minted}, WellFormed.IsWellFormed};

use crate::copies::{copyable, derive, masked};
use crate::slots::ends;
use base::{Cause, ObjId, Rights};
use machine::{Answer, Badged, CapData, Detail, Guard, Made, Object, SlotAddress};
use objects::State;

/// What a capability says of an endpoint or a notification, with this badge, which is given once.
fn badged(badge: u64, end: Badged) -> Result<Badged, Cause>
    ensures { result ≡ (if end.badge == 0 then Ok (record end { badge = badge }) else Err IllegalOperation) }
{
    if end.badge == 0 {
        Ok(Badged { badge, ..end })
    } else {
        Err(Cause::IllegalOperation)
    }
}

/// The low `size` bits of a value.
fn low_bits(size: u64, value: u64) -> u64
    requires { size ≤ 64 }
    ensures { result ≡ value % 2 ^ size }
{
    if size == 0 {
        return 0;
    }
    value & (u64::MAX >> (64 - size))
}

/// The low `size` bits of a value as the guard before a CNode, if an address has room for both.
fn guarded(size: u64, value: u64, object: Option<Object>) -> Result<Detail, Cause>
    ensures { result ≡ guarded size value object }
{
    let Some(Object::CNode(node)) = object else {
        return Err(Cause::IllegalOperation);
    };
    if size > 64 - u64::from(node.radix.bits()) {
        return Err(Cause::IllegalOperation);
    }
    let value = low_bits(size, value);
    let size = size as u8;
    Ok(Detail::CNode(Guard { size, value }))
}

/// What a capability to an object says with a badge or a guard.
fn minted(object: Option<Object>, given: CapData, detail: Detail) -> Result<Detail, Cause>
    ensures { result ≡ minted object given detail }
{
    match (given, detail) {
        (CapData::Badge(badge), Detail::Endpoint(end)) => {
            Ok(Detail::Endpoint(badged(badge, end)?))
        }
        (CapData::Badge(badge), Detail::Notification(end)) => {
            Ok(Detail::Notification(badged(badge, end)?))
        }
        (CapData::Guard { size, value }, Detail::CNode(_)) => guarded(size, value, object),
        _ => Err(Cause::IllegalOperation),
    }
}

/// Copies a capability, and gives the copy a badge or a guard (seL4 manual, seL4_CNode_Mint).
///
/// It copies as [`copy`](crate::copy) does. Where the copy's badge is another than the source's,
/// the copy is original.
///
/// # Errors
///
/// Those of [`copy`](crate::copy), and then [`Cause::IllegalOperation`] (3) where the capability
/// takes no such badge or guard:
///
/// - a badge, if it isn't for an endpoint or a notification, or has one that isn't 0
/// - a guard, if it isn't for a CNode, or the guard and the radix have more than 64 bits together.
#[tactic(auto, unfolding(machine::specs::Step::Mint::mint_of))]
pub fn mint(
    state: &mut State,
    caller: ObjId,
    to: SlotAddress,
    from: SlotAddress,
    rights: Rights,
    given: CapData,
) -> Result<Made, Cause>
    requires well_formed { IsWellFormed state.old }
    ensures row { Makes state.old state.new result (mint_of state.old caller to from rights given) }
    ensures well_formed { IsWellFormed state.new }
{
    let ends = ends(state, caller, to, from)?;
    copyable(&ends.held.detail)?;
    let object = state.object(ends.held.object).copied();
    let detail = minted(object, given, masked(rights, ends.held.detail))?;
    derive(state, ends, detail);
    Ok(Made::Done(Answer::Nothing))
}
