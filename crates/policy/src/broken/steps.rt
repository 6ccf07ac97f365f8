//! Steps from label to label that the rules name: to a domain, and by a grant.
ghost use Rattle.std.specs.Prelude.{ℕ, ◌↔◌, ◌≡◌, IsTrue, true};
ghost use Rattle.{base.specs.Labels.is_in, policy.specs.{Closed.MayBeGranted, Domain.IsInDomain, Policy.allows}};

use crate::Policy;
use base::{Kind, Label, Labels};

/// The kinds of edge from a label to those in its domain.
pub const DOMAIN: [Kind; 2] = [Kind::Space, Kind::Control];

/// The labels in the domain of a label of the set.
pub(crate) fn domain(policy: &Policy, subjects: Labels) -> Labels
    ensures { (label : ℕ) → (is_in result label ≡ true)
        ↔ ((subject : ℕ) × (is_in subjects subject ≡ true) × IsInDomain (allows policy.now) subject label) }
{
    policy.targets(subjects, &DOMAIN)
}

/// Returns the labels that have this one in their domain.
pub fn subjects(policy: &Policy, label: Label) -> Labels
    ensures { (subject : ℕ) → (is_in result subject ≡ true) ↔ IsInDomain (allows policy.now) subject label }
{
    policy.sources(Labels::only(label), &DOMAIN)
}

/// Returns whether a label is in the domain of a subject.
pub fn is_in_domain(policy: &Policy, subject: Label, label: Label) -> bool
    ensures { IsTrue result ↔ IsInDomain (allows policy.now) subject label }
{
    policy.row_of_kinds(subject, &DOMAIN).has(label)
}

/// Returns whether the label `taker` may get capabilities from the label `giver` by a grant over some endpoint.
pub fn may_be_granted(policy: &Policy, giver: Label, taker: Label) -> bool
    ensures { IsTrue result ↔ MayBeGranted (allows policy.now) giver taker }
{
    let endpoints = policy.row(giver, Kind::Grant);
    endpoints
        .intersection(policy.row(taker, Kind::Receive))
        .first()
        .is_some()
}
