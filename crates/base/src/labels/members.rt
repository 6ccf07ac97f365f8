//! The labels of a set, one after another.
ghost use Rattle.std.specs.Iterator.{YieldsFirst, item_count};
ghost use Rattle.base.specs.Labels.{members_of};

use super::Labels;
use crate::Label;

/// The labels of a set, one after another, rising. [`Labels::iter`] makes it.
#[derive(Drop)]
pub struct Members {
    pub(super) rest: Labels,
}

impl Iterator for Members {
    type Item = Label;

    ghost next_gives = { YieldsFirst (λ members. members_of members.rest) };

    ghost remaining = { item_count (λ members. members_of members.rest) };

    fn next(&mut self) -> Option<Label> {
        let label = self.rest.first()?;
        // A label's number is below the number of labels: the list of members ends there.
        let _ = label.number();
        self.rest = self.rest.difference(Labels::only(label));
        Some(label)
    }
}
