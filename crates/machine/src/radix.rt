//! The radix of a CNode, which says how many slots it has.
ghost use Rattle.std.specs.Prelude.{ℕ, ◌<◌, ◌^◌, ◌↔◌, ◌≡◌, ◌≤◌, IfSome, IsSome};
ghost use Rattle.base.specs.declared.limits.TheConstants.{MAX_RADIX};

use base::MAX_RADIX;
use std::marker::Model;

/// The number of bits of an address that a CNode takes to select a slot, from 1 to 12.
///
/// A CNode of a radix has `2^radix` slots.
#[derive(Clone, Copy, PartialEq, Eq)]
pub struct Radix {
    bits: u8,
}

impl Model for Radix {
    ghost Value = { ℕ };

    ghost view = { λ radix. radix.bits };

    ghost invariant = { λ radix. (0 < radix.bits) × (radix.bits ≤ MAX_RADIX) };

    ghost inverse = { λ bits. record { bits = bits } };
}

impl Radix {
    /// Returns the radix of this number of bits, if it is from 1 to [`MAX_RADIX`].
    pub fn new(bits: u64) -> Option<Radix>
        ensures valid { IsSome result ↔ ((0 < bits) × (bits ≤ MAX_RADIX)) }
        ensures value { IfSome result (λ radix. radix ≡ bits) }
    {
        if 0 < bits && bits <= u64::from(MAX_RADIX) {
            Some(Radix { bits: bits as u8 })
        } else {
            None
        }
    }

    /// Returns the number of bits.
    pub fn bits(self) -> u8
        ensures value { result ≡ self }
        ensures least { 0 < result }
        ensures most { result ≤ MAX_RADIX }
    {
        self.bits
    }

    /// Returns the number of slots that a CNode of this radix has.
    pub fn slots(self) -> u64
        ensures value { result ≡ 2 ^ self }
        ensures most { result ≤ 2 ^ MAX_RADIX }
    {
        1 << self.bits
    }
}
