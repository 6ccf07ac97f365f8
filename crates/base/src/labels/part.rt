//! A part of a set of labels: a set of numbers below 64, as one word.
ghost use Rattle.std.specs.Prelude.{ℕ, ◌&&◌, ◌<◌, ◌==◌, ◌||◌, ◌≡◌, IfNone, IfSome, false, not, true};
ghost use Rattle.base.specs.Labels.{is_in_part};

/// A set of numbers below 64, as a word whose bit at a number says whether the number is in it.
#[derive(Clone, Copy, PartialEq, Eq)]
pub(super) struct Part {
    word: u64,
}

impl Part {
    /// No number.
    pub(super) fn none() -> Part
        ensures { (number : ℕ) → is_in_part result number ≡ false }
    {
        Part { word: 0 }
    }

    /// This number alone.
    #[tactic(auto, using(crate::proofs::LabelSets::in_only))]
    pub(super) fn only(number: u8) -> Part
        requires { number < 64 }
        ensures { (other : ℕ) → is_in_part result other ≡ (other == number) }
    {
        Part { word: 1 << number }
    }

    /// Whether the number is in the set.
    pub(super) fn has(self, number: u8) -> bool
        requires { number < 64 }
        ensures { result ≡ is_in_part self number }
    {
        (self.word >> number) & 1 == 1
    }

    /// The numbers of either set.
    #[tactic(auto, using(crate::proofs::LabelSets::in_either))]
    pub(super) fn union(self, other: Part) -> Part
        ensures { (number : ℕ) → is_in_part result number ≡ (is_in_part self number || is_in_part other number) }
    {
        Part {
            word: self.word | other.word,
        }
    }

    /// The numbers that are in both sets.
    #[tactic(auto, using(crate::proofs::LabelSets::in_both))]
    pub(super) fn intersection(self, other: Part) -> Part
        ensures { (number : ℕ) → is_in_part result number ≡ (is_in_part self number && is_in_part other number) }
    {
        Part {
            word: self.word & other.word,
        }
    }

    /// The numbers of this set that aren't in the other.
    #[tactic(auto, using(crate::proofs::LabelSets::in_first_alone))]
    pub(super) fn difference(self, other: Part) -> Part
        ensures { (number : ℕ) → is_in_part result number ≡ (is_in_part self number && not (is_in_part other number)) }
    {
        Part {
            word: self.word & !other.word,
        }
    }

    /// The least number, if the set has any.
    #[tactic(auto, using(crate::proofs::LabelSets::least_label, crate::proofs::LabelSets::no_label))]
    pub(super) fn first(self) -> Option<u8>
        ensures some { IfSome result (λ least. (least < 64) × (is_in_part self least ≡ true)
            × ((number : ℕ) → number < least → is_in_part self number ≡ false)) }
        ensures none { IfNone result ((number : ℕ) → is_in_part self number ≡ false) }
    {
        if self.word == 0 {
            return None;
        }
        Some(self.word.trailing_zeros() as u8)
    }
}
