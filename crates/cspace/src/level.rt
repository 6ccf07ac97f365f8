//! A CNode as one step of a look-up.
ghost use Rattle.std.specs.{Option.option_map, Prelude.{◌<◌, ◌≡◌, ◌≤◌, IfOk, IfSome}};
ghost use Rattle.{machine.specs.{Bits.{after, bits}, Lookup.hop}, cspace.specs.Strings.{level_shown, place_shown}};

use crate::word::field;
use base::{LookupFailure, ObjId, SlotRef};
use machine::{Guard, Radix};

/// A CNode as a capability shows it.
#[derive(Clone, Copy)]
pub struct Level {
    pub node: ObjId,
    pub guard: Guard,
    pub radix: Radix,
}

/// How many of the low `left` bits of an address are left after a guard, if they begin with it.
fn after_guard(guard: Guard, address: u64, left: u32) -> Option<u32>
    requires { left ≤ 64 }
    ensures value { option_map (λ rest. bits rest address) result
        ≡ after (bits guard.size guard.value) (bits left address) }
    ensures most { IfSome result (λ rest. rest ≤ left) }
{
    let size = u32::from(guard.size);
    if size > left {
        return None;
    }
    let rest = left - size;
    if field(address, rest, size) == field(guard.value, 0, size) {
        Some(rest)
    } else {
        None
    }
}

impl Level {
    /// Returns the slot that the low `left` bits of an address select here, and the number of bits that are left then.
    ///
    /// # Errors
    ///
    /// [`LookupFailure::GuardMismatch`] where the bits don't begin with the guard, and
    /// [`LookupFailure::DepthMismatch`] where fewer are left after it than the radix.
    pub fn select(self, address: u64, left: u32) -> Result<(SlotRef, u32), LookupFailure>
        requires { left ≤ 64 }
        ensures value { place_shown address result ≡ hop (level_shown self) (bits left address) }
        ensures fewer { IfOk result (λ place. place.1 < left) }
    {
        let Some(rest) = after_guard(self.guard, address, left) else {
            return Err(LookupFailure::GuardMismatch);
        };
        let radix = u32::from(self.radix.bits());
        if radix > rest {
            return Err(LookupFailure::DepthMismatch);
        }
        let left = rest - radix;
        let slot = SlotRef {
            holder: self.node,
            index: field(address, left, radix),
        };
        Ok((slot, left))
    }
}
