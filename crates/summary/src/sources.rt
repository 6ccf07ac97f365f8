//! The sources of each label: the labels that have an edge of a kind to it.
ghost use Rattle.std.specs.Prelude.{[], ℕ, ◌<◌, ◌↔◌, ◌∷◌, ◌≡◌, ◌≤◌, IfOk, length, true};
ghost use Rattle.{base.specs.Labels.is_in, policy.specs.{Policy.allows, Steps.IsSource}, summary.specs.Sources.{IsJoint, IsSources}};
ghost use Rattle.base.specs.declared.label.TheConstants.Label as Label;

use base::{Edge, Kind, Label, Labels};
use policy::Policy;
use std::alloc::{AllocError, Global};
use std::marker::Model;

/// For each label, the labels that have an edge of a kind to it.
#[derive(Drop)]
pub(crate) struct Sources<'a> {
    policy: &'a Policy,
    kind: Kind,
    rows: Vec<Labels>,
}

impl<'a> Model for Sources<'a> {
    ghost use Rattle.policy.specs.Policy.{allows};
    ghost use Rattle.summary.specs.Sources.{IsSources, SourcesOf};

    ghost Value = { SourcesOf };

    ghost view = { λ sources. record { edges = sources.policy.now; kind = sources.kind } };

    ghost invariant = { λ sources. IsSources (allows sources.policy.now) sources.kind sources.rows.items };
}

impl<'a> Sources<'a> {
    /// Returns the sources of the edges of a kind that a policy has.
    pub(crate) fn new(
        alloc: Global,
        policy: &'a Policy,
        kind: Kind,
    ) -> Result<Sources<'a>, AllocError>
        ensures { IfOk result (λ sources. sources ≡ record { edges = policy.now; kind = kind }) }
    {
        let rows = rows_of(alloc, policy, kind)?;
        Ok(Sources { policy, kind, rows })
    }

    /// Returns the labels that have an edge of the kind to a label of the set.
    pub(crate) fn of(&self, ends: Labels) -> Labels
        ensures { (from : ℕ) → (is_in result from ≡ true)
            ↔ IsSource (allows self.now.edges) (self.now.kind ∷ []) ends from }
    {
        self.policy.edges_rise();
        join(&self.rows, ends)
    }
}

/// Returns the labels whose threads make calls and that have an edge to a label of the set.
pub(crate) fn waiting(sources: &Sources<'_>, ends: Labels, actors: Labels) -> Labels
    ensures { (from : ℕ) → (is_in result from ≡ true)
        ↔ (IsSource (allows sources.now.edges) (sources.now.kind ∷ []) ends from × (is_in actors from ≡ true)) }
{
    sources.of(ends).intersection(actors)
}

fn rows_of(alloc: Global, policy: &Policy, kind: Kind) -> Result<Vec<Labels>, AllocError>
    ensures { IfOk result (λ rows. IsSources (allows policy.now) kind rows.items) }
{
    let mut rows = Vec::with_capacity(alloc, Label::COUNT as usize)?;
    for number in 0..Label::COUNT {
        if let Some(end) = Label::new(number) {
            rows.push(sources_of(policy, kind, end))?;
        }
    }
    Ok(rows)
}

/// Returns the labels that have an edge of the kind to this label.
pub(crate) fn sources_of(policy: &Policy, kind: Kind, to: Label) -> Labels
    ensures { (from : ℕ) → (is_in result from ≡ true) ↔ (allows policy.now from kind to ≡ true) }
{
    policy.edges_rise();
    let mut found = Labels::none();
    for number in 0..Label::COUNT {
        if let Some(from) = Label::new(number) {
            if policy.has(Edge { from, kind, to }) {
                found = found.union(Labels::only(from));
            }
        }
    }
    found
}

/// Returns the labels that are in the row of a label of the set.
pub(crate) fn join(rows: &[Labels], set: Labels) -> Labels
    requires { length rows.now ≤ Label.COUNT }
    ensures { (label : ℕ) → (is_in result label ≡ true) ↔ IsJoint rows.now set label }
{
    let mut found = Labels::none();
    for (number, row) in rows.iter().enumerate() {
        if let Some(label) = Label::new(number as u16) {
            if set.has(label) {
                found = found.union(*row);
            }
        }
    }
    found
}
