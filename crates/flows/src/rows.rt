//! Rows of labels: for each label, whose objects it may affect and on whose it depends.
ghost use Rattle.std.specs.Prelude.{ℕ, ◌<◌, ◌↔◌, ◌≡◌, IfOk, true};
ghost use Rattle.{base.specs.Labels.is_in, reach.specs.Extents.limits_of, flows.specs.{Flowing.{DependsOn, MayAffect}, Rows.RelateSo}};
ghost use Rattle.base.specs.declared.label.TheConstants.Label as Label;

use crate::seeing::sees;
use base::{Label, Labels};
use reach::Reach;
use std::alloc::{AllocError, Global};

/// Returns for each label the labels whose objects it may change or make smaller.
pub(crate) fn affected_rows(alloc: Global, reach: &Reach<'_>) -> Result<Vec<Labels>, AllocError>
    ensures { IfOk result (λ rows. RelateSo (MayAffect (limits_of reach.now)) rows.items) }
{
    let mut rows = Vec::with_capacity(alloc, Label::COUNT as usize)?;
    for number in 0..Label::COUNT {
        if let Some(actor) = Label::new(number) {
            rows.push(affected(reach, actor))?;
        }
    }
    Ok(rows)
}

/// Returns for each label the labels on whose objects it depends: itself, and those that it sees.
pub(crate) fn needed_rows(alloc: Global, reach: &Reach<'_>) -> Result<Vec<Labels>, AllocError>
    ensures { IfOk result (λ rows. RelateSo (DependsOn (limits_of reach.now)) rows.items) }
{
    let mut rows = Vec::with_capacity(alloc, Label::COUNT as usize)?;
    for number in 0..Label::COUNT {
        if let Some(actor) = Label::new(number) {
            rows.push(needed(reach, actor))?;
        }
    }
    Ok(rows)
}

// The labels whose objects threads of this label may change or make smaller.
fn affected(reach: &Reach<'_>, actor: Label) -> Labels
    ensures { (l : ℕ) → (is_in result l ≡ true) ↔ MayAffect (limits_of reach.now) actor l }
{
    reach.changed_by(actor).union(reach.shrunk_by(actor))
}

// The labels on whose objects this label depends.
fn needed(reach: &Reach<'_>, label: Label) -> Labels
    ensures { (l : ℕ) → (is_in result l ≡ true) ↔ DependsOn (limits_of reach.now) label l }
{
    Labels::only(label).union(sees(reach, label))
}

/// A law, with nothing to run: the labels of a set are some that there can be.
pub(crate) fn labels_are_few(set: Labels)
    ensures { (l : ℕ) → is_in set l ≡ true → l < Label.COUNT }
{
    let _ = set;
}
