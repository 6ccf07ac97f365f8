//! The first edge that a claim excludes.
ghost use Rattle.std.specs.Prelude.{ℕ, ◌↔◌, ◌≡◌, IfNone, IfSome, true};
ghost use Rattle.{base.specs.Labels.is_in, machine.specs.Layout.Layout, table.specs.Names.AreLabelsOf, policy.specs.Policy.allows};
ghost use Rattle.claims.specs.Edges.{IsFirstEdgeBy, IsFirstOfKind, IsFirstRead, LacksEdgesOf, LacksKind, LacksReads};
ghost use Rattle.claims.specs.Holding.{AreLabelNames, AreTwo, HoldsOnEdges, IsFirstEdge};

use crate::breaches::{named, objects_of_only};
use crate::claim::{Claim, Who};
use base::{Edge, Kind, Label, Labels};
use policy::Policy;

/// The labels of a table but this one, if it is a label of the table.
fn others_of(labels: Labels, label: Label) -> Labels
    ensures { (t : Layout) → AreLabelsOf t labels → (l : ℕ) → (is_in result l ≡ true) ↔ AreTwo t label l }
{
    if !labels.has(label) {
        return Labels::none();
    }
    labels.difference(Labels::only(label))
}

/// These labels, if a label is the one that is named.
fn if_named(named: Label, label: Label, labels: Labels) -> Labels
    ensures { (l : ℕ) → (is_in result l ≡ true) ↔ ((label ≡ named) × (is_in labels l ≡ true)) }
{
    if label.number() != named.number() {
        return Labels::none();
    }
    labels
}

/// The labels that the one end of `without` names, where the other end names this label.
fn objects_named(actors: Who, objects: Who, labels: Labels, actor: Label) -> Labels
    ensures { (t : Layout) → AreLabelsOf t labels
        → (l : ℕ) → (is_in result l ≡ true) ↔ AreLabelNames t actors objects actor l }
{
    match actors {
        Who::One(one) => match objects {
            Who::One(object) => if_named(one, actor, Labels::only(object)),
            Who::Others => if_named(one, actor, others_of(labels, actor)),
        },
        Who::Others => named(objects, others_of(labels, actor)),
    }
}

/// The first edge of a kind from a label to one of these.
fn first_of_kind(policy: &Policy, actor: Label, kind: Kind, objects: Labels) -> Option<Edge>
    ensures some { IfSome result (IsFirstOfKind (allows policy.now) actor kind objects) }
    ensures none { IfNone result (LacksKind (allows policy.now) actor kind objects) }
{
    let to = objects.intersection(policy.row(actor, kind)).first()?;
    Some(Edge {
        from: actor,
        kind,
        to,
    })
}

/// The first edge by which a label reads one of these.
fn first_read(policy: &Policy, actor: Label, objects: Labels) -> Option<Edge>
    ensures some { IfSome result (IsFirstRead (allows policy.now) actor objects) }
    ensures none { IfNone result (LacksReads (allows policy.now) actor objects) }
{
    if let Some(edge) = first_of_kind(policy, actor, Kind::Receive, objects) {
        return Some(edge);
    }
    if let Some(edge) = first_of_kind(policy, actor, Kind::Await, objects) {
        return Some(edge);
    }
    first_of_kind(policy, actor, Kind::Read, objects)
}

/// The first edge from a label that a claim excludes, if there is one.
fn first_edge_by(policy: &Policy, labels: Labels, claim: &Claim, actor: Label) -> Option<Edge>
    ensures some { IfSome result (λ edge. (t : Layout) → AreLabelsOf t labels
        → IsFirstEdgeBy t (allows policy.now) claim.now actor edge) }
    ensures none { IfNone result ((t : Layout) → AreLabelsOf t labels
        → LacksEdgesOf t (allows policy.now) claim.now actor) }
{
    match claim {
        Claim::Readers(object, readers) => {
            let others = others_of(labels, actor);
            first_read(
                policy,
                actor,
                objects_of_only(*object, readers, others, actor),
            )
        }
        Claim::Without(actors, kind, objects) => {
            first_of_kind(
                policy,
                actor,
                *kind,
                objects_named(*actors, *objects, labels, actor),
            )
        }
        Claim::AtMost(_, _, _)
        | Claim::Only(_, _)
        | Claim::Within(_, _)
        | Claim::Through(_, _, _) => None,
    }
}

/// Returns the first edge of a policy that a claim excludes, if there is one.
pub(crate) fn first_edge(policy: &Policy, labels: Labels, claim: &Claim) -> Option<Edge>
    ensures some { IfSome result (λ edge. (t : Layout) → AreLabelsOf t labels
        → IsFirstEdge t (allows policy.now) claim.now edge) }
    ensures none { IfNone result ((t : Layout) → AreLabelsOf t labels
        → HoldsOnEdges t (allows policy.now) claim.now) }
{
    policy.edges_rise();
    for number in 0..Label::COUNT {
        if let Some(actor) = Label::new(number) {
            if let Some(edge) = first_edge_by(policy, labels, claim, actor) {
                return Some(edge);
            }
        }
    }
    None
}
