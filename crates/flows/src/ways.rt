//! Ways in the graph of flows that leave a set of programs out.
ghost use Rattle.std.specs.Prelude.{ℕ, ◌&&◌, ◌==◌, ◌||◌, ◌≡◌, ◌≢◌, IfOk, MatchOption, false, length, not};
ghost use Rattle.{base.specs.Labels.is_in, flows.specs.{Stages.AreBetween, Ways.Way}};
ghost use Rattle.base.specs.declared.label.TheConstants.Label as Label;

use base::{Label, Labels};
use std::alloc::{AllocError, Global};

/// A label to which a way leads, and the labels on it after the first and before this one.
#[derive(Clone, Copy)]
pub(crate) struct Step {
    pub label: Label,
    pub between: Labels,
}

/// Returns the labels between the ends of a way that leaves a set out, if there is one.
///
/// On no other way are there fewer labels, but no contract says that.
pub(crate) fn way(
    alloc: Global,
    rows: &[Labels],
    from: Label,
    to: Label,
    set: Labels,
) -> Result<Option<Labels>, AllocError>
    requires count { length rows.now ≡ Label.COUNT }
    requires differ { from ≢ to }
    requires ends { is_in set to ≡ false }
    ensures { IfOk result (λ found. MatchOption found (¬ Way rows.now (is_in set) from to)
        (AreBetween rows.now (is_in set) from to)) }
{
    let mut seen = set.union(Labels::only(from)).union(Labels::only(to));
    let mut steps = Vec::new(alloc);
    steps.push(Step {
        label: from,
        between: Labels::none(),
    })?;
    let mut at = 0;
    while at < steps.len() {
        let step = steps[at];
        let row = rows[usize::from(step.label.number())];
        let between = past(&step, from);
        if row.has(to) {
            return Ok(Some(between));
        }
        match row.difference(seen).first() {
            Some(label) => {
                // A label's number is below `Label::COUNT`.
                label.number();
                seen = seen.union(Labels::only(label));
                steps.push(Step { label, between })?;
            }
            None => at += 1,
        }
    }
    Ok(None)
}

// The labels on a way after the first, with the one to which it leads.
fn past(step: &Step, from: Label) -> Labels
    ensures { (l : ℕ) → is_in result l ≡ (is_in step.now.between l || ((l == step.now.label) && not (l == from))) }
{
    let label = Labels::only(step.label).difference(Labels::only(from));
    step.between.union(label)
}
