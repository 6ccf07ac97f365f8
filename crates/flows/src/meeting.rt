//! The labels whose row has a label of a set.
ghost use Rattle.std.specs.Prelude.{ℕ, ◌↔◌, ◌≡◌, ◌≤◌, length, true};
ghost use Rattle.{base.specs.Labels.is_in, flows.specs.Rows.MeetsSet};
ghost use Rattle.base.specs.declared.label.TheConstants.Label as Label;

use base::{Label, Labels};

/// Returns the labels whose row has a label of the set.
pub(crate) fn meeting(rows: &[Labels], set: Labels) -> Labels
    requires { length rows.now ≤ Label.COUNT }
    ensures { (label : ℕ) → (is_in result label ≡ true) ↔ MeetsSet rows.now set label }
{
    let mut found = Labels::none();
    for (number, row) in rows.iter().enumerate() {
        if let Some(label) = Label::new(number as u16) {
            let met = row.intersection(set);
            if met.first().is_some() {
                found = found.union(Labels::only(label));
            }
        }
    }
    found
}
