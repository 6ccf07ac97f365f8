//! The smallest sets of programs through which all flows from one label to another go.
ghost use Rattle.std.specs.Prelude.{◌<◌, ◌≡◌, ◌≢◌, ◌≤◌, IfOk, false, length};
ghost use Rattle.{base.specs.Labels.is_in, reach.specs.Extents.limits_of};
ghost use Rattle.flows.specs.{Sets.AreFirst, Smallest.{IsFilterSet, IsSmallest}, Stages.{Completes, IsStage}, Ways.Separates};
ghost use Rattle.base.specs.declared.label.TheConstants.Label as Label;

use crate::graph::FlowGraph;
use crate::rows::labels_are_few;
use crate::searching::{Question, Stage, add_sets};
use crate::ways::way;
use base::{Label, Labels};
use std::alloc::{AllocError, Global};

/// The most programs of a set that is looked for.
pub const MOST_FILTERS: usize = 5;

/// Sets of programs.
#[derive(Drop)]
pub struct Sets {
    /// The sets, by the numbers of their labels.
    pub sets: Vec<Labels>,
    /// Whether there are no other sets of this size.
    pub all: bool,
}

/// The smallest sets of programs through which all flows from one label to another go.
#[derive(Drop)]
pub enum Smallest {
    /// No set of programs is one: something flows through none but the two labels themselves.
    Direct,
    /// Each such set has more than [`MOST_FILTERS`] programs.
    Larger,
    /// The sets with the fewest programs. That is the empty set if nothing flows from the one label to the other.
    Fewest(Sets),
}

impl<'a> FlowGraph<'a> {
    /// Returns the smallest sets of programs through which all flows from the label `from` to the label `to` go, at
    /// most `most` of them.
    pub fn smallest_filters(
        &self,
        alloc: Global,
        from: Label,
        to: Label,
        most: usize,
    ) -> Result<Smallest, AllocError>
        requires { 0 < most }
        ensures { IfOk result (IsSmallest (IsFilterSet (limits_of self.now) from to) most) }
    {
        if from.number() == to.number() {
            return Ok(Smallest::Direct);
        }
        let ends = Labels::only(from).union(Labels::only(to));
        let others = self.reach.actors().difference(ends);
        fewest(alloc, &self.rows, &Question { from, to, most }, others)
    }
}

// The smallest sets of these labels that leave no way.
fn fewest(
    alloc: Global,
    rows: &[Labels],
    question: &Question,
    others: Labels,
) -> Result<Smallest, AllocError>
    requires count { length rows.now ≡ Label.COUNT }
    requires differ { question.now.from ≢ question.now.to }
    requires not_from { is_in others question.now.from ≡ false }
    requires not_to { is_in others question.now.to ≡ false }
    requires some { 0 < question.now.most }
    ensures { IfOk result (IsSmallest (Separates rows.now question.now.from question.now.to others) question.now.most) }
{
    labels_are_few(others);
    if way(alloc, rows, question.from, question.to, others)?.is_some() {
        return Ok(Smallest::Direct);
    }
    for size in 0..=MOST_FILTERS {
        let stage = Stage {
            chosen: Labels::none(),
            allowed: others,
            room: size,
        };
        let found = first_sets(alloc, rows, question, &stage)?;
        if !found.sets.is_empty() {
            return Ok(Smallest::Fewest(found));
        }
    }
    Ok(Smallest::Larger)
}

// The first sets that complete a stage.
fn first_sets(
    alloc: Global,
    rows: &[Labels],
    question: &Question,
    stage: &Stage,
) -> Result<Sets, AllocError>
    requires count { length rows.now ≡ Label.COUNT }
    requires stage { IsStage question.now.from question.now.to stage.now }
    ensures first { IfOk result
        (λ found. AreFirst (Completes rows.now question.now.from question.now.to stage.now) found.sets.items found.all) }
    ensures few { IfOk result (λ found. length found.sets.items ≤ question.now.most) }
    ensures full { IfOk result (λ found. found.all ≡ false → length found.sets.items ≡ question.now.most) }
{
    let mut sets = Vec::new(alloc);
    let all = add_sets(alloc, rows, question, stage, &mut sets)?;
    Ok(Sets { sets, all })
}
