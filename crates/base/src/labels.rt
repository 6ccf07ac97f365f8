//! Sets of labels.
mod members;
mod part;

ghost use Rattle.std.specs.Prelude.{ℕ, ◌%◌, ◌&&◌, ◌/◌, ◌<◌, ◌==◌, ◌||◌, ◌↔◌, ◌≡◌, IfNone, IfSome, false, min, not, true};
ghost use Rattle.base.specs.declared.label.TheConstants.Label as Label;
ghost use Rattle.base.specs.Labels.{is_in};

use crate::Label;
pub use members::Members;
use part::Part;

/// A set of labels, in parts that each have 64 of the labels that there can be.
#[derive(Clone, Copy, PartialEq, Eq)]
pub struct Labels {
    parts: [Part; 4],
}

impl Labels {
    /// Returns the set without labels.
    pub fn none() -> Labels
        ensures { (label : ℕ) → is_in result label ≡ false }
    {
        Labels {
            parts: [Part::none(); 4],
        }
    }

    /// Returns the set of this label alone.
    pub fn only(label: Label) -> Labels
        ensures { (other : ℕ) → is_in result other ≡ (other == label) }
    {
        let (part, number) = place(label);
        let mut parts = [Part::none(); 4];
        parts[part] = Part::only(number);
        Labels { parts }
    }

    /// Returns the set of all labels that there can be.
    pub fn all() -> Labels
        ensures { (label : ℕ) → (is_in result label ≡ true) ↔ (label < Label.COUNT) }
    {
        Labels::below(usize::from(Label::COUNT))
    }

    /// Returns the set of the labels with a number below this one.
    pub fn below(count: usize) -> Labels
        ensures { (label : ℕ) → (is_in result label ≡ true) ↔ (label < min count Label.COUNT) }
    {
        let mut labels = Labels::none();
        for number in 0..count.min(usize::from(Label::COUNT)) {
            if let Some(label) = Label::new(number as u16) {
                labels = labels.union(Labels::only(label));
            }
        }
        labels
    }

    /// Returns whether the label is in the set.
    pub fn has(self, label: Label) -> bool
        ensures { result ≡ is_in self label }
    {
        let (part, number) = place(label);
        self.parts[part].has(number)
    }

    /// Returns the labels that are in either set.
    pub fn union(self, other: Labels) -> Labels
        ensures { (label : ℕ) → is_in result label ≡ (is_in self label || is_in other label) }
    {
        Labels {
            parts: [
                self.parts[0].union(other.parts[0]),
                self.parts[1].union(other.parts[1]),
                self.parts[2].union(other.parts[2]),
                self.parts[3].union(other.parts[3]),
            ],
        }
    }

    /// Returns the labels that are in both sets.
    pub fn intersection(self, other: Labels) -> Labels
        ensures { (label : ℕ) → is_in result label ≡ (is_in self label && is_in other label) }
    {
        Labels {
            parts: [
                self.parts[0].intersection(other.parts[0]),
                self.parts[1].intersection(other.parts[1]),
                self.parts[2].intersection(other.parts[2]),
                self.parts[3].intersection(other.parts[3]),
            ],
        }
    }

    /// Returns the labels of this set that aren't in the other.
    pub fn difference(self, other: Labels) -> Labels
        ensures { (label : ℕ) → is_in result label ≡ (is_in self label && not (is_in other label)) }
    {
        Labels {
            parts: [
                self.parts[0].difference(other.parts[0]),
                self.parts[1].difference(other.parts[1]),
                self.parts[2].difference(other.parts[2]),
                self.parts[3].difference(other.parts[3]),
            ],
        }
    }

    /// Returns the label with the least number, if the set has any.
    pub fn first(self) -> Option<Label>
        ensures some { IfSome result
            (λ least. (is_in self least ≡ true) × ((label : ℕ) → label < least → is_in self label ≡ false)) }
        ensures none { IfNone result ((label : ℕ) → is_in self label ≡ false) }
    {
        for (index, part) in self.parts.iter().enumerate() {
            if let Some(number) = part.first() {
                return Label::new(index as u16 * 64 + u16::from(number));
            }
        }
        None
    }

    /// Returns the labels of the set, one after another, rising.
    pub fn iter(self) -> Members
        ensures { result.rest ≡ self }
    {
        Members { rest: self }
    }
}

// Which part has a label, and the label's number there.
fn place(label: Label) -> (usize, u8)
    ensures part { result.0 ≡ label / 64 }
    ensures number { result.1 ≡ label % 64 }
    ensures below { label < Label.COUNT }
{
    let number = label.number();
    (usize::from(number / 64), (number % 64) as u8)
}
