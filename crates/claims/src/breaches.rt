//! The first pair of labels that has more authority than a claim leaves.
ghost use Rattle.std.specs.{List.{Contains, list_any}, Prelude.{ℕ, ◌==◌, ◌↔◌, ◌≡◌, IfNone, IfSome, IsTrue, true}};
ghost use Rattle.{base.specs.Labels.is_in, machine.specs.Layout.Layout, table.specs.Names.AreLabelsOf, reach.specs.Extents.Limits};
ghost use Rattle.claims.specs.Breaches.{AreExcess, HoldsOf, IsFirstBreachBy};
ghost use Rattle.claims.specs.{Holding.{Bounds, HoldsOnPairs, IsFirstBreach, IsNamed, most_of}, Rows.{AreRowsByLabel, IsRow}};

use crate::claim::{Claim, LabelList, Most, Who};
use crate::rows::{Row, Rows};
use base::{Label, Labels};
use reach::Extent;

/// Two labels of which the one has more authority on the other than a claim leaves it.
#[derive(Clone, Copy)]
pub struct Breach {
    pub actor: Label,
    pub object: Label,
    /// How far the authority goes.
    pub extent: Extent,
}

/// Whether an end of a claim names this label.
fn names(who: Who, label: Label) -> bool
    ensures { IsTrue result ↔ IsNamed who label }
{
    match who {
        Who::One(named) => label == named,
        Who::Others => true,
    }
}

/// The labels of these that an end of a claim names.
pub(crate) fn named(who: Who, labels: Labels) -> Labels
    ensures { (l : ℕ) → (is_in result l ≡ true) ↔ ((is_in labels l ≡ true) × IsNamed who l) }
{
    match who {
        Who::One(label) => labels.intersection(Labels::only(label)),
        Who::Others => labels,
    }
}

/// Whether `only` or `readers` names this label beside its object.
fn is_among(actors: &LabelList, actor: Label) -> bool
    ensures { result ≡ list_any (λ other. actor == other) actors.now }
{
    actors
        .as_slice()
        .iter()
        .any(|other| actor.number() == other.number())
}

/// The labels of a table but this one with which `none` or `take` bounds what it does.
fn objects_of_ends(actors: Who, objects: Who, others: Labels, actor: Label) -> Labels
    ensures { (l : ℕ) → (is_in result l ≡ true) ↔ ((is_in others l ≡ true) × IsNamed actors actor × IsNamed objects l) }
{
    if !names(actors, actor) {
        return Labels::none();
    }
    named(objects, others)
}

/// The label of a table but this one with which `only` bounds what it does, and `readers` whether it reads.
pub(crate) fn objects_of_only(
    object: Label,
    actors: &LabelList,
    others: Labels,
    actor: Label,
) -> Labels
    ensures { (l : ℕ) → (is_in result l ≡ true)
        ↔ ((is_in others l ≡ true) × (l ≡ object) × (¬ Contains actors.now actor)) }
{
    if is_among(actors, actor) {
        return Labels::none();
    }
    others.intersection(Labels::only(object))
}

/// The labels of a table but this one with which `within` bounds what it does.
fn objects_of_within(by: Label, objects: &LabelList, others: Labels, actor: Label) -> Labels
    ensures { (l : ℕ) → (is_in result l ≡ true)
        ↔ ((is_in others l ≡ true) × (actor ≡ by) × (¬ Contains objects.now l)) }
{
    if actor.number() != by.number() {
        return Labels::none();
    }
    others.difference(objects.set())
}

/// The labels of a table with which a claim bounds what this one does.
fn objects_of(claim: &Claim, labels: Labels, actor: Label) -> Labels
    ensures { (t : Layout) → AreLabelsOf t labels → (l : ℕ) → (is_in result l ≡ true) ↔ Bounds t claim.now actor l }
{
    if !labels.has(actor) {
        return Labels::none();
    }
    let others = labels.difference(Labels::only(actor));
    match claim {
        Claim::AtMost(_, actors, objects) => objects_of_ends(*actors, *objects, others, actor),
        Claim::Only(object, actors) => objects_of_only(*object, actors, others, actor),
        Claim::Within(by, objects) => objects_of_within(*by, objects, others, actor),
        Claim::Readers(_, _) => Labels::none(),
        Claim::Through(_, _, _) => Labels::none(),
        Claim::Without(_, _, _) => Labels::none(),
    }
}

/// The labels on which a label has more authority than this.
fn excess(most: Most, row: Row) -> Labels
    ensures { (limits : Limits) (a : ℕ) → IsRow limits a row → AreExcess limits a most result }
{
    match most {
        Most::Nothing => row.affected(),
        Most::Take => row.changed,
    }
}

/// What a claim leaves the labels whose authority it bounds.
fn most_of(claim: &Claim) -> Most
    ensures { result ≡ most_of claim.now }
{
    match claim {
        Claim::AtMost(most, _, _) => *most,
        _ => Most::Nothing,
    }
}

/// Returns the first pair of labels that has more authority than a claim leaves, if there is one.
pub(crate) fn first_breach(rows: &Rows, labels: Labels, claim: &Claim) -> Option<Breach>
    ensures some { IfSome result (λ breach. (t : Layout) (limits : Limits) → AreLabelsOf t labels → AreRowsByLabel limits rows.now
        → IsFirstBreach t limits claim.now breach) }
    ensures none { IfNone result ((t : Layout) (limits : Limits) → AreLabelsOf t labels → AreRowsByLabel limits rows.now
        → HoldsOnPairs t limits claim.now) }
{
    for number in 0..Label::COUNT {
        if let Some(actor) = Label::new(number) {
            if let Some(breach) = first_breach_by(rows.row(actor), labels, claim, actor) {
                return Some(breach);
            }
        }
    }
    None
}

/// The first object of a pair with this label, if one has more.
fn first_breach_by(row: Row, labels: Labels, claim: &Claim, actor: Label) -> Option<Breach>
    ensures some { IfSome result (λ breach. (t : Layout) (limits : Limits) → AreLabelsOf t labels → IsRow limits actor row
        → IsFirstBreachBy t limits claim.now actor breach) }
    ensures none { IfNone result ((t : Layout) (limits : Limits) → AreLabelsOf t labels → IsRow limits actor row
        → HoldsOf t limits claim.now actor) }
{
    let objects = objects_of(claim, labels, actor);
    let object = objects.intersection(excess(most_of(claim), row)).first()?;
    Some(Breach {
        actor,
        object,
        extent: row.on(object),
    })
}
