//! The labels to which the sharp rules ask for an edge of a kind from a label.
ghost use Rattle.std.specs.Prelude.{ℕ, ◌↔◌, ◌≡◌, ◌⊎◌, true};
ghost use Rattle.base.specs.Labels.{is_in};
ghost use Rattle.policy.specs.{Closed.{ControlGives, MayBeGranted}, Domain.IsInDomain, Policy.allows, Sharp.{MayPut, Told}};
ghost use Rattle.sharp.specs.Asked.{DerivesSharply, HoldsSharply, IsLentSharply};
ghost use Rattle.sharp.specs.Asked.{IsMissingAmong, IsSharplyGiven, RunsSharply, SharesSharply};

use base::{Kind, Label, Labels};
use policy::{DOMAIN, Policy, is_given_by_control, subjects};

/// The labels to which a label lacks the edge of this kind, if these labels share with it.
pub(crate) fn missing(
    policy: &Policy,
    keeping: Labels,
    from: Label,
    kind: Kind,
    sharing: Labels,
) -> Labels
    ensures { (to : ℕ) → (is_in result to ≡ true)
        ↔ IsMissingAmong (allows policy.now) (Told (is_in keeping)) (Told (is_in sharing)) from kind to }
{
    let there = policy.row(from, kind);
    match kind {
        Kind::Derive => derived(policy, keeping, from).difference(there),
        Kind::Runs => run(policy, from).difference(there),
        Kind::Holds => held(policy, from).difference(there),
        _ => given(policy, keeping, from, kind, sharing).difference(there),
    }
}

/// The labels that share with this one what they may do.
pub(crate) fn givers(policy: &Policy, keeping: Labels, taker: Label) -> Labels
    ensures { (giver : ℕ) → (is_in result giver ≡ true)
        ↔ SharesSharply (allows policy.now) (Told (is_in keeping)) giver taker }
{
    let found = policy.row_of_kinds(taker, &DOMAIN);
    found
        .union(putters(policy, keeping, taker))
        .union(granters(policy, keeping, taker))
}

// The labels that may put their capabilities into the CNodes of this one.
fn putters(policy: &Policy, keeping: Labels, label: Label) -> Labels
    ensures { (a : ℕ) → (is_in result a ≡ true) ↔ MayPut (allows policy.now) (Told (is_in keeping)) a label }
{
    policy
        .sources(Labels::only(label), &[Kind::Control])
        .intersection(keeping)
}

// The labels whose capabilities this one may be granted, if it keeps capabilities.
fn granters(policy: &Policy, keeping: Labels, taker: Label) -> Labels
    ensures { (giver : ℕ) → (is_in result giver ≡ true)
        ↔ ((is_in keeping taker ≡ true) × MayBeGranted (allows policy.now) giver taker) }
{
    if keeping.has(taker) {
        policy.sources(policy.row(taker, Kind::Receive), &[Kind::Grant])
    } else {
        Labels::none()
    }
}

// The labels to which a label is given the edge of this kind, by control or by the labels that share with it.
fn given(policy: &Policy, keeping: Labels, from: Label, kind: Kind, sharing: Labels) -> Labels
    ensures { (to : ℕ) → (is_in result to ≡ true)
        ↔ IsSharplyGiven (allows policy.now) (Told (is_in keeping)) (Told (is_in sharing)) from kind to }
{
    let controlled = controlled(policy, keeping, from, kind);
    if kind.is_structural() {
        return controlled;
    }
    controlled.union(policy.targets(sharing, &[kind]))
}

/// The labels to which control gives a label the edge of this kind, if the label keeps capabilities.
pub(crate) fn controlled(policy: &Policy, keeping: Labels, from: Label, kind: Kind) -> Labels
    ensures { (to : ℕ) → (is_in result to ≡ true)
        ↔ ((is_in keeping from ≡ true) × ControlGives (allows policy.now) from kind to) }
{
    if keeping.has(from) && is_given_by_control(kind) {
        policy.row(from, Kind::Control)
    } else {
        Labels::none()
    }
}

// The labels that may come to derive from a label: capabilities are put there, or derived further.
fn derived(policy: &Policy, keeping: Labels, parent: Label) -> Labels
    ensures { (child : ℕ) → (is_in result child ≡ true)
        ↔ DerivesSharply (allows policy.now) (Told (is_in keeping)) parent child }
{
    let having = holders(policy, parent);
    let putting = having.intersection(keeping);
    let further = policy.targets(policy.row(parent, Kind::Derive), &[Kind::Derive]);
    policy.targets(putting, &[Kind::Control]).union(further)
}

// The labels that find capabilities of a label, and those that may be granted them.
fn holders(policy: &Policy, label: Label) -> Labels
    ensures { (b : ℕ) → (is_in result b ≡ true)
        ↔ (IsInDomain (allows policy.now) b label
        ⊎ ((a : ℕ) × IsInDomain (allows policy.now) a label × MayBeGranted (allows policy.now) a b)) }
{
    let finding = subjects(policy, label);
    let endpoints = policy.targets(finding, &[Kind::Grant]);
    finding.union(policy.sources(endpoints, &[Kind::Receive]))
}

// The contexts that a label may be bound to or lent.
fn run(policy: &Policy, label: Label) -> Labels
    ensures { (context : ℕ) → (is_in result context ≡ true) ↔ RunsSharply (allows policy.now) label context }
{
    let controlling = policy.sources(Labels::only(label), &[Kind::Control]);
    let bound = policy.targets(controlling, &[Kind::Context]);
    bound.union(lent(policy, label))
}

/// The contexts that a label may be lent while it waits without one.
pub(crate) fn lent(policy: &Policy, label: Label) -> Labels
    ensures { (context : ℕ) → (is_in result context ≡ true) ↔ IsLentSharply (allows policy.now) label context }
{
    if policy.row(label, Kind::Reply).first().is_none() || !policy.idlers().has(label) {
        return Labels::none();
    }
    let callers = policy.sources(policy.row(label, Kind::Receive), &[Kind::Call]);
    policy.targets(callers, &[Kind::Runs])
}

/// The labels that a reply may hold: those that may receive with it, and those that may call where such a label receives.
pub(crate) fn held(policy: &Policy, reply: Label) -> Labels
    ensures { (thread : ℕ) → (is_in result thread ≡ true) ↔ HoldsSharply (allows policy.now) reply thread }
{
    let naming = policy.sources(Labels::only(reply), &[Kind::Reply]);
    let endpoints = policy.targets(naming, &[Kind::Receive]);
    let servers = policy
        .sources(endpoints, &[Kind::Receive])
        .intersection(naming);
    servers.union(policy.sources(endpoints, &[Kind::Call]))
}
