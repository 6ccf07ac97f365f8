//! The number of a processor core.
ghost use Rattle.std.specs.{Fmt.decimal, Prelude.{ℕ, ◌<◌, ◌↔◌, ◌≡◌, IfSome, IsSome, Some}};

use std::fmt;
use std::marker::Model;

/// The number of a processor core, from 0 to 15.
#[derive(Clone, Copy, PartialEq, Eq, PartialOrd, Ord, Hash)]
pub struct CoreNo {
    number: u8,
}

impl Model for CoreNo {
    ghost use Rattle.std.specs.Prelude.{ℕ, ◌<◌};
    ghost use Rattle.base.specs.declared.core_number.TheConstants.CoreNo as CoreNo;

    ghost Value = { ℕ };

    ghost view = { λ core. core.number };

    ghost invariant = { λ core. core.number < CoreNo.COUNT };

    ghost inverse = { λ number. record { number = number } };
}

impl CoreNo {
    /// The number of cores that there can be.
    pub const COUNT: u64 = 16;

    /// Returns the core of this number, if the number is below [`CoreNo::COUNT`].
    pub fn new(number: u64) -> Option<CoreNo>
        ensures valid { IsSome result ↔ (number < CoreNo.COUNT) }
        ensures value { IfSome result (λ core. core ≡ number) }
    {
        if number < CoreNo::COUNT {
            Some(CoreNo {
                number: number as u8,
            })
        } else {
            None
        }
    }

    /// Returns the core's number.
    pub fn number(self) -> u8
        ensures value { result ≡ self }
        ensures below { result < CoreNo.COUNT }
    {
        self.number
    }
}

impl fmt::Display for CoreNo {
    ghost output = { λ core. Some (decimal core) };

    fn fmt<W: fmt::Write>(&self, f: &mut fmt::Formatter<W>) -> fmt::Result {
        let number = self.number;
        write!(f, "{number}")
    }
}
