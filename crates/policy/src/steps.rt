//! Steps along edges of some kinds: from a label, from a set of labels, and to a set.
ghost use Rattle.std.specs.Prelude.{ℕ, ◌↔◌, ◌≡◌, true};
ghost use Rattle.{base.specs.Labels.is_in, policy.specs.{Policy.allows, Steps.{IsSource, IsTarget, is_joined}}};

use crate::Policy;
use base::{Kind, Label, Labels};

impl Policy {
    /// Returns the labels to which the label has an edge of one of these kinds.
    ///
    /// Returns no label if there are no kinds.
    pub fn row_of_kinds(&self, from: Label, kinds: &[Kind]) -> Labels
        ensures { (to : ℕ) → is_in result to ≡ is_joined (allows self.now) kinds.now from to }
    {
        let mut row = Labels::none();
        for kind in kinds {
            row = row.union(self.row(from, *kind));
        }
        row
    }

    /// Returns the labels to which a label of the set has an edge of one of these kinds.
    pub fn targets(&self, froms: Labels, kinds: &[Kind]) -> Labels
        ensures { (to : ℕ) → (is_in result to ≡ true) ↔ IsTarget (allows self.now) kinds.now froms to }
    {
        let mut found = Labels::none();
        for number in 0..self.span() {
            if let Some(from) = Label::new(number) {
                if froms.has(from) {
                    found = found.union(self.row_of_kinds(from, kinds));
                }
            }
        }
        found
    }

    /// Returns the labels that have an edge of one of these kinds to a label of the set.
    pub fn sources(&self, tos: Labels, kinds: &[Kind]) -> Labels
        ensures { (from : ℕ) → (is_in result from ≡ true) ↔ IsSource (allows self.now) kinds.now tos from }
    {
        let mut found = Labels::none();
        for number in 0..self.span() {
            if let Some(from) = Label::new(number) {
                let met = self.row_of_kinds(from, kinds).intersection(tos);
                if met.first().is_some() {
                    found = found.union(Labels::only(from));
                }
            }
        }
        found
    }
}
