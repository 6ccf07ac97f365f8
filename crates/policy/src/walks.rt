//! Steps of walks, along edges of a policy and against them, and the lesser of two walks.
ghost use Rattle.std.specs.{Cmp.Lexicographic.slice_cmp, Ordering.{is_lt, nat_cmp}, Prelude.{ℕ, ◌&&◌, ◌↔◌, ◌≡◌, true}};
ghost use Rattle.base.specs.{declared.edge.Edge.Edge, Labels.is_in};
ghost use Rattle.policy.specs.{Policy.allows, Reasons.{edge, reason_place}};
ghost use Rattle.policy.specs.Walks.{FindsFirst, GoesAgainst, GoesAlong, Leads, LeadsOf, is_of, lesser_of, other_end};

use crate::Policy;
use crate::broken::cells::first_cell;
use base::{Edge, Kind, Label, Labels};

/// A step of a walk: along an edge of one of some kinds, or against an edge of one of others.
#[derive(Clone, Copy)]
pub(crate) struct Step<'a> {
    pub(crate) along: &'a [Kind],
    pub(crate) against: &'a [Kind],
}

impl<'a> Step<'a> {
    /// The step along an edge of one of the kinds.
    pub(crate) fn along(kinds: &'a [Kind]) -> Step<'a>
        ensures { GoesAlong kinds.now result }
    {
        Step {
            along: kinds,
            against: &[],
        }
    }

    /// The step against an edge of one of the kinds.
    pub(crate) fn against(kinds: &'a [Kind]) -> Step<'a>
        ensures { GoesAgainst kinds.now result }
    {
        Step {
            along: &[],
            against: kinds,
        }
    }
}

impl Policy {
    /// The labels from which a step leads to a label of the set.
    pub(crate) fn before(&self, step: &Step, goals: Labels) -> Labels
        ensures { (from : ℕ) → (is_in result from ≡ true)
            ↔ ((edge : Edge) × Leads (allows self.now) step.now from goals edge) }
    {
        self.sources(goals, step.along)
            .union(self.targets(goals, step.against))
    }

    /// The first edge by which a step leads to a label of the set.
    pub(crate) fn first_edge(&self, step: &Step, from: Label, goals: Labels) -> Option<Edge>
        ensures { FindsFirst (Leads (allows self.now) step.now from goals) result }
    {
        for number in 0..self.span() {
            if let Some(start) = Label::new(number) {
                if let Some(edge) = self.first_edge_of(step, from, goals, start) {
                    return Some(edge);
                }
            }
        }
        None
    }

    // The first edge of the label `start` by which a step leads there.
    fn first_edge_of(&self, step: &Step, from: Label, goals: Labels, start: Label) -> Option<Edge>
        ensures { FindsFirst (LeadsOf (allows self.now) step.now from goals start) result }
    {
        let (kind, to) = first_cell(
            |kind: Kind| -> Labels
                ensures { (to : ℕ) → (is_in result to ≡ true)
                    ↔ Leads (allows self.entry.now) step.entry.now from goals (edge start kind to) }
            { self.ends_of(step, from, goals, start, kind) },
        )?;
        Some(Edge {
            from: start,
            kind,
            to,
        })
    }

    // The labels to which `start` has an edge of this kind by which a step leads there.
    fn ends_of(&self, step: &Step, from: Label, goals: Labels, start: Label, kind: Kind) -> Labels
        ensures { (to : ℕ) → (is_in result to ≡ true)
            ↔ Leads (allows self.now) step.now from goals (edge start kind to) }
    {
        let along = labels_if(takes(step.along, kind), labels_if(start == from, goals));
        let only = labels_if(goals.has(start), Labels::only(from));
        let against = labels_if(takes(step.against, kind), only);
        self.row(start, kind).intersection(along.union(against))
    }
}

// Whether a step by edges of some kinds takes those of this kind.
fn takes(kinds: &[Kind], kind: Kind) -> bool
    ensures { result ≡ is_of kinds.now kind }
{
    kinds.contains(&kind)
}

fn labels_if(taken: bool, labels: Labels) -> Labels
    ensures { (label : ℕ) → is_in result label ≡ (taken && is_in labels label) }
{
    if taken { labels } else { Labels::none() }
}

/// The other end of an edge, seen from `from`.
pub(crate) fn end(edge: &Edge, from: Label) -> Label
    ensures { result ≡ other_end edge.now from }
{
    if edge.from == from {
        edge.to
    } else {
        edge.from
    }
}

/// The lesser of two walks, if there are any.
pub(crate) fn lesser(one: Option<Vec<Edge>>, other: Option<Vec<Edge>>) -> Option<Vec<Edge>>
    ensures { result ≡ lesser_of one other }
{
    match (one, other) {
        (Some(one), Some(other)) => {
            if comes_before(&other, &one) {
                Some(other)
            } else {
                Some(one)
            }
        }
        (None, other) => other,
        (one, None) => one,
    }
}

// Returns whether a walk comes before another: it has fewer edges, or equally many and the first that differs is less.
fn comes_before(one: &[Edge], other: &[Edge]) -> bool
    ensures { result ≡ is_lt (slice_cmp nat_cmp (reason_place one.now) (reason_place other.now)) }
{
    if one.len() != other.len() {
        return one.len() < other.len();
    }
    one < other
}
