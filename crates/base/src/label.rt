//! The security label of an object.
ghost use Rattle.std.specs.Prelude.{ℕ, ◌<◌, ◌↔◌, ◌≡◌, IfSome, IsSome};

use std::marker::Model;

/// The security label of an object, numbered from 0 in the order of the capability table.
#[derive(Clone, Copy, PartialEq, Eq, PartialOrd, Ord, Hash)]
pub struct Label {
    number: u16,
}

impl Model for Label {
    ghost use Rattle.std.specs.Prelude.{ℕ, ◌<◌};
    ghost use Rattle.base.specs.declared.label.TheConstants.Label as Label;

    ghost Value = { ℕ };

    ghost view = { λ label. label.number };

    ghost invariant = { λ label. label.number < Label.COUNT };

    ghost inverse = { λ number. record { number = number } };
}

impl Label {
    /// The number of labels that there can be.
    pub const COUNT: u16 = 256;

    /// Returns the label of this number, if the number is below [`Label::COUNT`].
    pub fn new(number: u16) -> Option<Label>
        ensures valid { IsSome result ↔ (number < Label.COUNT) }
        ensures value { IfSome result (λ label. label ≡ number) }
    {
        if number < Label::COUNT {
            Some(Label { number })
        } else {
            None
        }
    }

    /// Returns the label's number.
    pub fn number(self) -> u16
        ensures value { result ≡ self }
        ensures below { result < Label.COUNT }
    {
        self.number
    }
}
