//! The least closed policy that has the edges of a policy, and some more.
ghost use Rattle.std.specs.Prelude.{ℕ, ◌++◌, ◌↔◌, ◌≡◌, IfOk, OnOk, false, true};
ghost use Rattle.base.specs.{declared.kind.Kind.Kind, Labels.is_in};
ghost use Rattle.policy.specs.{Closed.{ControlGives, IsClosed}, Closing.IsLeastClosed, Policy.allows};
ghost use Rattle.policy.specs.Settling.{Grows, IsGiven, IsMissing, IsSettled, Shares};

use crate::Policy;
use crate::broken::rules::{
    is_given_by_control, not_derived, not_derived_in_domain, not_held, not_lent,
};
use crate::broken::steps::{domain, subjects};
use base::{Edge, Kind, Label, Labels};
use std::alloc::{AllocError, Global};

/// Returns the least closed policy that has the edges of a policy, and these.
///
/// Every closed policy that has them has all edges of the result.
pub fn close(alloc: Global, policy: &Policy, edges: &[Edge]) -> Result<Policy, AllocError>
    ensures { IfOk result (λ closed. IsLeastClosed (policy.now ++ edges.now) closed) }
{
    let mut closed = Policy::new(alloc);
    closed.extend(&policy.edges(alloc)?)?;
    closed.extend(edges)?;
    settle(&mut closed)?;
    Ok(closed)
}

// Adds the edges that closed policies have, until none is missing.
fn settle(policy: &mut Policy) -> Result<(), AllocError>
    ensures { OnOk result (IsLeastClosed policy.old policy.new) }
{
    while settle_labels(policy)? {
        policy.edges_rise();
    }
    Ok(())
}

// Adds the missing edges of each label. Returns whether there were any.
fn settle_labels(policy: &mut Policy) -> Result<bool, AllocError>
    ensures grows { IfOk result (λ changed. Grows policy.old policy.new changed) }
    ensures settled { IfOk result (λ changed. changed ≡ false → IsClosed (allows policy.new)) }
{
    let mut changed = false;
    for number in 0..policy.span() {
        if let Some(from) = Label::new(number) {
            if settle_label(policy, from)? {
                changed = true;
            }
        }
    }
    Ok(changed)
}

// Adds the missing edges of a label. Returns whether there were any.
fn settle_label(policy: &mut Policy, from: Label) -> Result<bool, AllocError>
    ensures grows { IfOk result (λ changed. Grows policy.old policy.new changed) }
    ensures settled { IfOk result
        (λ changed. changed ≡ false → (kind : Kind) → IsSettled (allows policy.new) from kind) }
{
    let mut sharing = givers(policy, from);
    let mut changed = false;
    for kind in Kind::ALL {
        if settle_row(policy, from, kind, sharing)? {
            changed = true;
            sharing = givers(policy, from);
        }
    }
    Ok(changed)
}

// Adds the missing edges of a label and a kind, as these labels share with it. Returns whether there were any.
fn settle_row(
    policy: &mut Policy,
    from: Label,
    kind: Kind,
    sharing: Labels,
) -> Result<bool, AllocError>
    requires { (giver : ℕ) → (is_in sharing giver ≡ true) ↔ Shares (allows policy.old) giver from }
    ensures grows { IfOk result (λ changed. Grows policy.old policy.new changed) }
    ensures settled { IfOk result (λ changed. changed ≡ false → IsSettled (allows policy.new) from kind) }
{
    let lacks = missing(policy, from, kind, sharing);
    match lacks.first() {
        None => Ok(false),
        Some(first) => {
            // A label's number is below `Label::COUNT`.
            first.number();
            policy.add_row(from, kind, lacks)?;
            Ok(true)
        }
    }
}

// The labels to which an edge of this kind is missing, from a label with which these share.
fn missing(policy: &Policy, from: Label, kind: Kind, sharing: Labels) -> Labels
    requires { (giver : ℕ) → (is_in sharing giver ≡ true) ↔ Shares (allows policy.now) giver from }
    ensures { (to : ℕ) → (is_in result to ≡ true) ↔ IsMissing (allows policy.now) from kind to }
{
    match kind {
        Kind::Derive => not_derived_in_domain(policy, from).union(not_derived(policy, from)),
        Kind::Runs => policy
            .row(from, Kind::Context)
            .difference(policy.row(from, Kind::Runs))
            .union(not_lent(policy, from)),
        Kind::Holds => not_held(policy, from),
        _ => given(policy, from, kind, sharing).difference(policy.row(from, kind)),
    }
}

// The labels to which control, or a label that shares with it, gives the label the edge of this kind.
fn given(policy: &Policy, from: Label, kind: Kind, sharing: Labels) -> Labels
    requires { (giver : ℕ) → (is_in sharing giver ≡ true) ↔ Shares (allows policy.now) giver from }
    ensures { (to : ℕ) → (is_in result to ≡ true) ↔ IsGiven (allows policy.now) from kind to }
{
    let controlled = controlled(policy, from, kind);
    if kind.is_structural() {
        return controlled;
    }
    controlled.union(policy.targets(sharing, &[kind]))
}

// The labels to which the label gets the edge of this kind by control.
fn controlled(policy: &Policy, from: Label, kind: Kind) -> Labels
    ensures { (to : ℕ) → (is_in result to ≡ true) ↔ ControlGives (allows policy.now) from kind to }
{
    if is_given_by_control(kind) {
        policy.row(from, Kind::Control)
    } else {
        Labels::none()
    }
}

// The labels that share with this one what they may do.
fn givers(policy: &Policy, taker: Label) -> Labels
    ensures { (giver : ℕ) → (is_in result giver ≡ true) ↔ Shares (allows policy.now) giver taker }
{
    let around = domain(policy, Labels::only(taker));
    let granting = policy.sources(policy.row(taker, Kind::Receive), &[Kind::Grant]);
    subjects(policy, taker).union(around).union(granting)
}
