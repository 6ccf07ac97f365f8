//! The search for sets of a size that leave no way between two labels.
ghost use Rattle.std.specs.Prelude.{◌≡◌, ◌≤◌, IfOk, MatchOption, false, length, true};
ghost use Rattle.base.specs.{declared.labels.Labels.Labels, Labels.is_in};
ghost use Rattle.flows.specs.Stages.{AreAdded, AreUseful, Completes, IsStage, IsTried};
ghost use Rattle.base.specs.declared.label.TheConstants.Label as Label;

use crate::ways::way;
use base::{Label, Labels};
use std::alloc::{AllocError, Global};

/// Two labels between which sets are looked for, and how many sets at most.
#[derive(Clone, Copy)]
pub(crate) struct Question {
    pub from: Label,
    pub to: Label,
    pub most: usize,
}

/// The labels that a set has already, those that it may have besides, and how many of these it has to have.
#[derive(Clone, Copy)]
pub(crate) struct Stage {
    pub chosen: Labels,
    pub allowed: Labels,
    pub room: usize,
}

/// Adds the sets that complete a stage, in their order, until there are as many as are wanted.
///
/// Returns whether these are all.
pub(crate) fn add_sets(
    alloc: Global,
    rows: &[Labels],
    question: &Question,
    stage: &Stage,
    sets: &mut Vec<Labels>,
) -> Result<bool, AllocError>
    requires count { length rows.now ≡ Label.COUNT }
    requires stage { IsStage question.now.from question.now.to stage.now }
    requires few { length sets.old.items ≤ question.now.most }
    ensures { IfOk result (AreAdded (Completes rows.now question.now.from question.now.to stage.now) sets.old.items sets.new.items
        question.now.most) }
{
    let Some(useful) = useful(alloc, rows, question, stage)? else {
        return Ok(true);
    };
    if stage.room == 0 {
        return add_set(sets, stage.chosen, question.most);
    }
    let Some(first) = useful.first() else {
        return Ok(true);
    };
    let first = Labels::only(first);
    let rest = useful.difference(first);
    let with = Stage {
        chosen: stage.chosen.union(first),
        allowed: rest,
        room: stage.room - 1,
    };
    if !add_sets(alloc, rows, question, &with, sets)? {
        return Ok(false);
    }
    let without = Stage {
        chosen: stage.chosen,
        allowed: rest,
        room: stage.room,
    };
    add_sets(alloc, rows, question, &without, sets)
}

// Adds a set if there aren't as many yet as are wanted, and returns whether it was added.
fn add_set(sets: &mut Vec<Labels>, set: Labels, most: usize) -> Result<bool, AllocError>
    requires { length sets.old.items ≤ most }
    ensures { IfOk result (IsTried set sets.old.items sets.new.items most) }
{
    if sets.len() >= most {
        return Ok(false);
    }
    sets.push(set)?;
    Ok(true)
}

// The labels that may be chosen and can complete a set, if there is such a set at all. It looks for as many ways with
// no label in common as labels are still to be chosen: a set has a label of each.
fn useful(
    alloc: Global,
    rows: &[Labels],
    question: &Question,
    stage: &Stage,
) -> Result<Option<Labels>, AllocError>
    requires count { length rows.now ≡ Label.COUNT }
    requires stage { IsStage question.now.from question.now.to stage.now }
    ensures { IfOk result (λ found. MatchOption found
        ((set : Labels) → ¬ Completes rows.now question.now.from question.now.to stage.now set)
        (AreUseful rows.now question.now.from question.now.to stage.now)) }
{
    let mut set = stage.chosen;
    for count in 0..stage.room {
        let Some(between) = way(alloc, rows, question.from, question.to, set)? else {
            return Ok(Some(stage.allowed));
        };
        if between.intersection(stage.allowed).first().is_none() {
            return Ok(None);
        }
        set = set.union(between);
    }
    match way(alloc, rows, question.from, question.to, set)? {
        Some(_) => Ok(None),
        None => Ok(Some(stage.allowed.intersection(set))),
    }
}
