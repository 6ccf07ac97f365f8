//! The rules P1 to P8 at a label or at a pair of labels: where each is broken.
ghost use Rattle.std.specs.Prelude.{[], ℕ, ◌↔◌, ◌∷◌, ◌≡◌, ◌≢◌, IsTrue, false, true};
ghost use Rattle.base.specs.{Kinds.is_structural, Labels.is_in};
ghost use Rattle.policy.specs.{Broken.{IsBrokenAt, p1, p2, p3, p4, p5, p6, p7, p8}, Closed.IsGivenByControl};
ghost use Rattle.policy.specs.{Policy.allows, Search.FindsBroken};
ghost use Rattle.policy.specs.declared.broken.Broken.TheVariants as broken;

use super::Broken;
use super::cells::first_cell;
use super::steps::{domain, is_in_domain, may_be_granted, subjects};
use crate::Policy;
use base::{Kind, Label, Labels};

/// P1 at a pair of labels.
pub(crate) fn subjects_disagree(policy: &Policy, subject: Label, other: Label) -> Option<Broken>
    ensures { FindsBroken (allows policy.now) (p1 ∷ subject ∷ other ∷ []) result }
{
    if !is_in_domain(policy, subject, other) {
        return None;
    }
    let (kind, target) = first_cell(
        |kind: Kind| -> Labels
            ensures { (target : ℕ) → (is_in result target ≡ true)
                ↔ ((is_structural kind ≡ false)
                × (allows policy.entry.now subject kind target ≢ allows policy.entry.now other kind target)) }
        {
            if kind.is_structural() {
                return Labels::none();
            }
            let ours = policy.row(subject, kind);
            let theirs = policy.row(other, kind);
            ours.difference(theirs).union(theirs.difference(ours))
        },
    )?;
    Some(Broken::SubjectsDisagree {
        subject,
        other,
        kind,
        target,
    })
}

/// P2 at a label.
pub(crate) fn control_lacks(policy: &Policy, subject: Label) -> Option<Broken>
    ensures { FindsBroken (allows policy.now) (p2 ∷ subject ∷ []) result }
{
    let (kind, object) = first_cell(
        |kind: Kind| -> Labels
            ensures { (object : ℕ) → (is_in result object ≡ true)
                ↔ IsBrokenAt (allows policy.entry.now) (broken.ControlLacks subject kind object) }
        {
            if is_given_by_control(kind) {
                policy
                    .row(subject, Kind::Control)
                    .difference(policy.row(subject, kind))
            } else {
                Labels::none()
            }
        },
    )?;
    Some(Broken::ControlLacks {
        subject,
        kind,
        object,
    })
}

/// Returns whether P2 requires the edge of this kind to each label that a label controls.
///
/// It does for [`Kind::Space`], and for each kind that isn't structural but [`Kind::SchedControl`].
pub fn is_given_by_control(kind: Kind) -> bool
    ensures { IsTrue result ↔ IsGivenByControl kind }
{
    match kind {
        Kind::Space => true,
        Kind::SchedControl => false,
        _ => !kind.is_structural(),
    }
}

/// P3 at a pair of labels.
pub(crate) fn grant_lacks(policy: &Policy, giver: Label, taker: Label) -> Option<Broken>
    ensures { FindsBroken (allows policy.now) (p3 ∷ giver ∷ taker ∷ []) result }
{
    if !may_be_granted(policy, giver, taker) {
        return None;
    }
    let (kind, target) = first_cell(
        |kind: Kind| -> Labels
            ensures { (target : ℕ) → (is_in result target ≡ true)
                ↔ ((is_structural kind ≡ false) × (allows policy.entry.now giver kind target ≡ true)
                × (allows policy.entry.now taker kind target ≡ false)) }
        {
            if kind.is_structural() {
                return Labels::none();
            }
            policy.row(giver, kind).difference(policy.row(taker, kind))
        },
    )?;
    Some(Broken::GrantLacks {
        giver,
        taker,
        kind,
        target,
    })
}

/// P4 at a parent.
pub(crate) fn domain_lacks(policy: &Policy, parent: Label) -> Option<Broken>
    ensures { FindsBroken (allows policy.now) (p4 ∷ parent ∷ []) result }
{
    let child = not_derived_in_domain(policy, parent).first()?;
    Some(Broken::DomainLacks { parent, child })
}

/// The labels at which P4 is broken with this parent.
pub(crate) fn not_derived_in_domain(policy: &Policy, parent: Label) -> Labels
    ensures { (child : ℕ)
        → (is_in result child ≡ true) ↔ IsBrokenAt (allows policy.now) (broken.DomainLacks parent child) }
{
    domain(policy, subjects(policy, parent)).difference(policy.row(parent, Kind::Derive))
}

/// P5 at a parent.
pub(crate) fn derive_lacks(policy: &Policy, parent: Label) -> Option<Broken>
    ensures { FindsBroken (allows policy.now) (p5 ∷ parent ∷ []) result }
{
    let child = not_derived(policy, parent).first()?;
    Some(Broken::DeriveLacks { parent, child })
}

/// The labels at which P5 is broken with this parent.
pub(crate) fn not_derived(policy: &Policy, parent: Label) -> Labels
    ensures { (child : ℕ)
        → (is_in result child ≡ true) ↔ IsBrokenAt (allows policy.now) (broken.DeriveLacks parent child) }
{
    let endpoints = policy.targets(subjects(policy, parent), &[Kind::Grant]);
    let granted = domain(policy, policy.sources(endpoints, &[Kind::Receive]));
    let derived = policy.row(parent, Kind::Derive);
    granted
        .union(policy.targets(derived, &[Kind::Derive]))
        .difference(derived)
}

/// P6 at a subject.
pub(crate) fn context_lacks(policy: &Policy, subject: Label) -> Option<Broken>
    ensures { FindsBroken (allows policy.now) (p6 ∷ subject ∷ []) result }
{
    let context = policy
        .row(subject, Kind::Context)
        .difference(policy.row(subject, Kind::Runs))
        .first()?;
    Some(Broken::ContextLacks { subject, context })
}

/// P7 at a reply.
pub(crate) fn reply_lacks(policy: &Policy, reply: Label) -> Option<Broken>
    ensures { FindsBroken (allows policy.now) (p7 ∷ reply ∷ []) result }
{
    let thread = not_held(policy, reply).first()?;
    Some(Broken::ReplyLacks { reply, thread })
}

/// The labels at which P7 is broken with this reply.
pub(crate) fn not_held(policy: &Policy, reply: Label) -> Labels
    ensures { (thread : ℕ)
        → (is_in result thread ≡ true) ↔ IsBrokenAt (allows policy.now) (broken.ReplyLacks reply thread) }
{
    let servers = policy.sources(Labels::only(reply), &[Kind::Reply]);
    let endpoints = policy.targets(servers, &[Kind::Receive]);
    let callers = policy.sources(endpoints, &[Kind::Call]);
    servers
        .union(callers)
        .difference(policy.row(reply, Kind::Holds))
}

/// P8 at a borrower.
pub(crate) fn lent_lacks(policy: &Policy, borrower: Label) -> Option<Broken>
    ensures { FindsBroken (allows policy.now) (p8 ∷ borrower ∷ []) result }
{
    let context = not_lent(policy, borrower).first()?;
    Some(Broken::LentLacks { borrower, context })
}

/// The labels at which P8 is broken with this borrower.
pub(crate) fn not_lent(policy: &Policy, borrower: Label) -> Labels
    ensures { (context : ℕ)
        → (is_in result context ≡ true) ↔ IsBrokenAt (allows policy.now) (broken.LentLacks borrower context) }
{
    let endpoints = policy.row(borrower, Kind::Receive);
    let lenders = policy.sources(endpoints, &[Kind::Call]);
    policy
        .targets(lenders, &[Kind::Runs])
        .difference(policy.row(borrower, Kind::Runs))
}
