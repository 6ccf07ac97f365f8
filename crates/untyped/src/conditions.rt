//! The conditions of a retype on size, number and slots.
ghost use Rattle.std.specs.Prelude.{◌+◌, ◌<◌, ◌^◌, ◌≡◌, ◌≤◌, IfOk};
ghost use Rattle.base.specs.declared.limits.TheConstants.{MAX_RADIX};
ghost use Rattle.machine.specs.Step.Retype.{a_few, all_vacant, between, in_node, sized, window};

use base::{Cause, MAX_MADE, MAX_RADIX, ObjId, SlotRef};
use machine::{MemoryKind, Radix};
use objects::State;

/// Refuses a number that isn't between two others.
fn between(least: u64, most: u64, bits: u64) -> Result<(), Cause>
    ensures { result ≡ between least most bits }
{
    if bits < least {
        Err(Cause::InvalidArgument)
    } else if most < bits {
        Err(Cause::RangeError)
    } else {
        Ok(())
    }
}

/// Refuses a size that objects of the kind can't have.
///
/// # Errors
///
/// [`Cause::InvalidArgument`] (1) where `bits` is below the least size, 4 for untyped memory and 1
/// for a CNode; [`Cause::RangeError`] (4) where it is above the greatest, 47 and 12.
pub fn sized(kind: MemoryKind, bits: u64) -> Result<(), Cause>
    ensures { result ≡ sized kind bits }
{
    match kind {
        MemoryKind::Untyped => between(4, 47, bits),
        MemoryKind::CNode => between(1, u64::from(MAX_RADIX), bits),
        _ => Ok(()),
    }
}

/// Refuses to make none, or more than a call may make.
///
/// # Errors
///
/// [`Cause::RangeError`] (4) where `count` is 0, or above [`base::MAX_MADE`].
pub fn a_few(count: u64) -> Result<(), Cause>
    ensures { result ≡ a_few count }
{
    if 1 <= count && count <= MAX_MADE {
        Ok(())
    } else {
        Err(Cause::RangeError)
    }
}

/// Refuses a window that a CNode of the radix doesn't have whole.
///
/// # Errors
///
/// [`Cause::RangeError`] (4) where the window ends past the CNode's slots.
pub fn in_node(radix: Radix, offset: u64, count: u64) -> Result<(), Cause>
    ensures value { result ≡ in_node radix offset count }
    ensures within { IfOk result (λ fits. offset + count ≤ 2 ^ MAX_RADIX) }
{
    let slots = radix.slots();
    // The sum of the two may exceed every number.
    if offset <= slots && count <= slots - offset {
        Ok(())
    } else {
        Err(Cause::RangeError)
    }
}

/// Refuses if a slot of the window is filled.
///
/// # Errors
///
/// [`Cause::DeleteFirst`] (8) where one of the slots holds a capability.
pub fn all_vacant(state: &State, node: ObjId, offset: u64, count: u64) -> Result<(), Cause>
    requires { offset + count < 2 ^ 64 }
    ensures { result ≡ all_vacant state.now (window node offset count) }
{
    for index in offset..offset + count {
        let slot = SlotRef {
            holder: node,
            index,
        };
        if let Some(_) = state.cap(slot) {
            return Err(Cause::DeleteFirst);
        }
    }
    Ok(())
}
