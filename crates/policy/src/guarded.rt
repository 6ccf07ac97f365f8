//! The least walks whose steps end in given sets of labels.
ghost use Rattle.std.specs.Prelude.{ℕ, ◌&&◌, ◌↔◌, ◌≡◌, IfOk, List, true};
ghost use Rattle.base.specs.{declared.edge.Edge.Edge, Labels.is_in};
ghost use Rattle.policy.specs.{Guarded.{FindsLesserGuarded, IsGuardedWalk, lets_through}, Policy.allows, Walks.FindsWalk};

use crate::Policy;
use crate::walks::{Step, end, lesser};
use base::{Edge, Label, Labels};
use std::alloc::{AllocError, Global};

/// A step of a walk, to a label of a set if one is given.
#[derive(Clone, Copy)]
pub(crate) struct Turn<'a> {
    pub(crate) step: Step<'a>,
    pub(crate) among: Option<Labels>,
}

impl Policy {
    /// The least of the walks that take each of the turns.
    pub(crate) fn guarded_walk(
        &self,
        alloc: Global,
        turns: &[Turn],
        from: Label,
        to: Label,
    ) -> Result<Option<Vec<Edge>>, AllocError>
        ensures { IfOk result (FindsWalk (IsGuardedWalk (allows self.now) turns.now from to)) }
    {
        let Some((turn, rest)) = turns.split_first() else {
            return Ok(if from == to {
                Some(Vec::new(alloc))
            } else {
                None
            });
        };
        let goals = guarded(self.guarded_reaching(rest, to), turn.among);
        let Some(edge) = self.first_edge(&turn.step, from, goals) else {
            return Ok(None);
        };
        let Some(mut edges) = self.guarded_walk(alloc, rest, end(&edge, from), to)? else {
            return Ok(None);
        };
        edges.insert(0, edge)?;
        Ok(Some(edges))
    }

    /// The lesser of a walk, if one was found, and the least of those that take each of the turns.
    pub(crate) fn lesser_guarded(
        &self,
        alloc: Global,
        found: Option<Vec<Edge>>,
        turns: &[Turn],
        from: Label,
        to: Label,
    ) -> Result<Option<Vec<Edge>>, AllocError>
        ensures { IfOk result (FindsLesserGuarded (allows self.now) turns.now from to found) }
    {
        let walk = self.guarded_walk(alloc, turns, from, to)?;
        Ok(lesser(found, walk))
    }

    // The labels from which walks of these turns lead to a label.
    fn guarded_reaching(&self, turns: &[Turn], to: Label) -> Labels
        ensures { (from : ℕ) → (is_in result from ≡ true)
            ↔ ((edges : List Edge) × IsGuardedWalk (allows self.now) turns.now from to edges) }
    {
        match turns.split_first() {
            None => Labels::only(to),
            Some((turn, rest)) => {
                let goals = guarded(self.guarded_reaching(rest, to), turn.among);
                self.before(&turn.step, goals)
            }
        }
    }
}

// The labels that are in another set too, if one is given.
fn guarded(labels: Labels, among: Option<Labels>) -> Labels
    ensures { (label : ℕ) → is_in result label ≡ (is_in labels label && lets_through among label) }
{
    match among {
        None => labels,
        Some(others) => labels.intersection(others),
    }
}
