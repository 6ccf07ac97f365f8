//! The search for broken places of each of the sharp rules S1 to S8, at a label or at a pair of labels.
ghost use Rattle.std.specs.Prelude.{[], ℕ, ◌↔◌, ◌∷◌, ◌≡◌, ◌⊎◌, IsTrue, false, true};
ghost use Rattle.base.specs.declared.kind.Kind.TheVariants as kinds;
ghost use Rattle.base.specs.{Kinds.is_structural, Labels.is_in};
ghost use Rattle.policy.specs.{Closed.IsLacking, Domain.IsInDomain, Policy.allows, Sharp.{KeeperTest, MayPut, Told}};
ghost use Rattle.sharp.specs.{Asked.{HoldsSharply, IsLentSharply}, Broken.{ControlGivesKeeper, FindsSharply, MayBeBound, PutsByGrant, PutsInDomain}};
ghost use Rattle.sharp.specs.Broken.{s1, s2, s3, s4, s5, s6, s7, s8};

use super::{SharpBroken, label};
use crate::asked::{controlled, held, lent};
use base::{Kind, Label, Labels};
use policy::{Policy, is_in_domain, may_be_granted, subjects};

/// The first place with this subject where S1 is broken.
pub(crate) fn subject_lacks(policy: &Policy, keeping: Labels, subject: Label) -> Option<SharpBroken>
    ensures { FindsSharply (allows policy.now) (Told (is_in keeping)) (s1 ∷ subject ∷ []) result }
{
    for number in 0..policy.span() {
        if let Some(broken) = subject_lacks_of(policy, keeping, subject, label(number)) {
            return Some(broken);
        }
    }
    None
}

// The first place with this pair of labels where S1 is broken.
fn subject_lacks_of(
    policy: &Policy,
    keeping: Labels,
    subject: Label,
    other: Label,
) -> Option<SharpBroken>
    ensures { FindsSharply (allows policy.now) (Told (is_in keeping)) (s1 ∷ subject ∷ other ∷ []) result }
{
    if !gives_use(policy, keeping, subject, other) {
        return None;
    }
    for kind in Kind::ALL {
        if let Some(target) = use_lacks(policy, other, subject, kind).first() {
            return Some(SharpBroken::SubjectLacks {
                subject,
                other,
                kind,
                target,
            });
        }
    }
    None
}

// Whether a subject finds capabilities with the other label, or the other may put its own into the
// subject's CNodes.
fn gives_use(policy: &Policy, keeping: Labels, subject: Label, other: Label) -> bool
    ensures { IsTrue result
        ↔ (IsInDomain (allows policy.now) subject other
        ⊎ MayPut (allows policy.now) (Told (is_in keeping)) other subject) }
{
    is_in_domain(policy, subject, other)
        || (keeping.has(other) && policy.row(other, Kind::Control).has(subject))
}

// The labels to which the giver has an edge of this kind of use that the taker lacks.
fn use_lacks(policy: &Policy, giver: Label, taker: Label, kind: Kind) -> Labels
    ensures { (target : ℕ) → (is_in result target ≡ true)
        ↔ ((is_structural kind ≡ false) × (allows policy.now giver kind target ≡ true)
        × (allows policy.now taker kind target ≡ false)) }
{
    if kind.is_structural() {
        return Labels::none();
    }
    policy.row(giver, kind).difference(policy.row(taker, kind))
}

/// The first place with this subject where S2 is broken.
pub(crate) fn control_lacks(policy: &Policy, keeping: Labels, subject: Label) -> Option<SharpBroken>
    ensures { FindsSharply (allows policy.now) (Told (is_in keeping)) (s2 ∷ subject ∷ []) result }
{
    for kind in Kind::ALL {
        if let Some(object) = not_controlled(policy, keeping, subject, kind).first() {
            return Some(SharpBroken::ControlLacks {
                subject,
                kind,
                object,
            });
        }
    }
    None
}

// The labels at which S2 is broken with this subject and kind.
fn not_controlled(policy: &Policy, keeping: Labels, subject: Label, kind: Kind) -> Labels
    ensures { (object : ℕ) → (is_in result object ≡ true)
        ↔ IsLacking (ControlGivesKeeper (allows policy.now) (Told (is_in keeping)) subject kind object)
        (allows policy.now subject kind object) }
{
    controlled(policy, keeping, subject, kind).difference(policy.row(subject, kind))
}

/// The first place with this giver where S3 is broken.
pub(crate) fn grant_lacks(policy: &Policy, keeping: Labels, giver: Label) -> Option<SharpBroken>
    ensures { FindsSharply (allows policy.now) (Told (is_in keeping)) (s3 ∷ giver ∷ []) result }
{
    for number in 0..policy.span() {
        if let Some(broken) = grant_lacks_of(policy, keeping, giver, label(number)) {
            return Some(broken);
        }
    }
    None
}

// The first place with this pair of labels where S3 is broken.
fn grant_lacks_of(
    policy: &Policy,
    keeping: Labels,
    giver: Label,
    taker: Label,
) -> Option<SharpBroken>
    ensures { FindsSharply (allows policy.now) (Told (is_in keeping)) (s3 ∷ giver ∷ taker ∷ []) result }
{
    if !keeping.has(taker) || !may_be_granted(policy, giver, taker) {
        return None;
    }
    for kind in Kind::ALL {
        if let Some(target) = use_lacks(policy, giver, taker, kind).first() {
            return Some(SharpBroken::GrantLacks {
                giver,
                taker,
                kind,
                target,
            });
        }
    }
    None
}

/// The first place with this parent where S4 is broken.
pub(crate) fn domain_lacks(policy: &Policy, keeping: Labels, parent: Label) -> Option<SharpBroken>
    ensures { FindsSharply (allows policy.now) (Told (is_in keeping)) (s4 ∷ parent ∷ []) result }
{
    let child = not_put(policy, keeping, parent).first()?;
    Some(SharpBroken::DomainLacks { parent, child })
}

// The labels at which S4 is broken with this parent.
fn not_put(policy: &Policy, keeping: Labels, parent: Label) -> Labels
    ensures { (child : ℕ) → (is_in result child ≡ true)
        ↔ IsLacking (PutsInDomain (allows policy.now) (Told (is_in keeping)) parent child)
        (allows policy.now parent kinds.Derive child) }
{
    let putting = subjects(policy, parent).intersection(keeping);
    policy
        .targets(putting, &[Kind::Control])
        .difference(policy.row(parent, Kind::Derive))
}

/// The first place with this parent where S5 is broken.
pub(crate) fn derive_lacks(policy: &Policy, keeping: Labels, parent: Label) -> Option<SharpBroken>
    ensures { FindsSharply (allows policy.now) (Told (is_in keeping)) (s5 ∷ parent ∷ []) result }
{
    let child = not_derived(policy, keeping, parent).first()?;
    Some(SharpBroken::DeriveLacks { parent, child })
}

// The labels at which S5 is broken with this parent.
fn not_derived(policy: &Policy, keeping: Labels, parent: Label) -> Labels
    ensures { (child : ℕ) → (is_in result child ≡ true)
        ↔ IsLacking (PutsByGrant (allows policy.now) (Told (is_in keeping)) parent child)
        (allows policy.now parent kinds.Derive child) }
{
    let endpoints = policy.targets(subjects(policy, parent), &[Kind::Grant]);
    let takers = policy
        .sources(endpoints, &[Kind::Receive])
        .intersection(keeping);
    let granted = policy.targets(takers, &[Kind::Control]);
    let derived = policy.row(parent, Kind::Derive);
    granted
        .union(policy.targets(derived, &[Kind::Derive]))
        .difference(derived)
}

/// The first place with this subject where S6 is broken. It doesn't depend on the keepers.
pub(crate) fn context_lacks(policy: &Policy, subject: Label) -> Option<SharpBroken>
    ensures { (keeps : KeeperTest) → FindsSharply (allows policy.now) (Told keeps) (s6 ∷ subject ∷ []) result }
{
    let context = not_bound(policy, subject).first()?;
    Some(SharpBroken::ContextLacks { subject, context })
}

// The labels at which S6 is broken with this subject.
fn not_bound(policy: &Policy, subject: Label) -> Labels
    ensures { (context : ℕ) → (is_in result context ≡ true)
        ↔ IsLacking (MayBeBound (allows policy.now) subject context) (allows policy.now subject kinds.Runs context) }
{
    let controlling = policy.sources(Labels::only(subject), &[Kind::Control]);
    policy
        .targets(controlling, &[Kind::Context])
        .difference(policy.row(subject, Kind::Runs))
}

/// The first place with this reply where S7 is broken. It doesn't depend on the keepers.
pub(crate) fn reply_lacks(policy: &Policy, reply: Label) -> Option<SharpBroken>
    ensures { (keeps : KeeperTest) → FindsSharply (allows policy.now) (Told keeps) (s7 ∷ reply ∷ []) result }
{
    let thread = not_held(policy, reply).first()?;
    Some(SharpBroken::ReplyLacks { reply, thread })
}

// The labels at which S7 is broken with this reply.
fn not_held(policy: &Policy, reply: Label) -> Labels
    ensures { (thread : ℕ) → (is_in result thread ≡ true)
        ↔ IsLacking (HoldsSharply (allows policy.now) reply thread) (allows policy.now reply kinds.Holds thread) }
{
    held(policy, reply).difference(policy.row(reply, Kind::Holds))
}

/// The first place with this borrower where S8 is broken. It doesn't depend on the keepers.
pub(crate) fn lent_lacks(policy: &Policy, borrower: Label) -> Option<SharpBroken>
    ensures { (keeps : KeeperTest) → FindsSharply (allows policy.now) (Told keeps) (s8 ∷ borrower ∷ []) result }
{
    let context = not_lent(policy, borrower).first()?;
    Some(SharpBroken::LentLacks { borrower, context })
}

// The labels at which S8 is broken with this borrower.
fn not_lent(policy: &Policy, borrower: Label) -> Labels
    ensures { (context : ℕ) → (is_in result context ≡ true)
        ↔ IsLacking (IsLentSharply (allows policy.now) borrower context)
        (allows policy.now borrower kinds.Runs context) }
{
    lent(policy, borrower).difference(policy.row(borrower, Kind::Runs))
}
