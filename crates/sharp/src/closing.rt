//! The closing of a policy: the least sharply closed policy that has its edges and some more.
ghost use Rattle.std.specs.Prelude.{ℕ, ◌++◌, ◌≡◌, IfOk, OnOk, false, true};
ghost use Rattle.{base.specs.{declared.kind.Kind.Kind, Labels.is_in}, policy.specs.{Policy.allows, Sharp.{IsSharplyClosed, Told}}};
ghost use Rattle.sharp.specs.{Asked.{IsSettledAmong, IsSharplySettled, SharesSharply}, Least.{GrowsSharply, IsLeastSharp}};

use crate::asked::{givers, missing};
use crate::keeping::keepers;
use base::{Edge, Kind, Label, Labels};
use policy::Policy;
use std::alloc::{AllocError, Global};

/// Returns the least sharply closed policy that has the edges of a policy and these edges.
///
/// The labels of `held` hold capabilities for CNodes at boot, and a policy's keepers are the result
/// of [`keepers`]. Every sharply closed policy that has these edges has all edges of the result.
pub fn close_sharply(
    alloc: Global,
    policy: &Policy,
    edges: &[Edge],
    held: Labels,
) -> Result<Policy, AllocError>
    ensures { IfOk result (λ closed. IsLeastSharp (policy.now ++ edges.now) (is_in held) closed) }
{
    let mut closed = Policy::new(alloc);
    closed.extend(&policy.edges(alloc)?)?;
    closed.extend(edges)?;
    settle(&mut closed, held)?;
    Ok(closed)
}

// Adds missing edges of sharply closed policies, until none is missing.
fn settle(policy: &mut Policy, held: Labels) -> Result<(), AllocError>
    ensures { OnOk result (IsLeastSharp policy.old (is_in held) policy.new) }
{
    let mut keeping = keepers(policy, held);
    while settle_labels(policy, keeping)? {
        policy.edges_rise();
        keeping = keepers(policy, held);
    }
    Ok(())
}

// Adds the edges that are missing at each label, for these keepers. Returns whether there were any.
fn settle_labels(policy: &mut Policy, keeping: Labels) -> Result<bool, AllocError>
    ensures grows { IfOk result (λ changed. GrowsSharply keeping policy.old policy.new changed) }
    ensures settled { IfOk result
        (λ changed. changed ≡ false → IsSharplyClosed (allows policy.new) (Told (is_in keeping))) }
{
    let mut changed = false;
    for number in 0..policy.span() {
        if let Some(from) = Label::new(number) {
            if settle_label(policy, keeping, from)? {
                changed = true;
            }
        }
    }
    Ok(changed)
}

// Adds the edges that are missing at a label. Returns whether there were any.
fn settle_label(policy: &mut Policy, keeping: Labels, from: Label) -> Result<bool, AllocError>
    ensures grows { IfOk result (λ changed. GrowsSharply keeping policy.old policy.new changed) }
    ensures settled { IfOk result (λ changed.
        changed ≡ false → (kind : Kind) → IsSharplySettled (allows policy.new) (Told (is_in keeping)) from kind) }
{
    let sharing = givers(policy, keeping, from);
    let mut changed = false;
    for kind in Kind::ALL {
        if settle_row(policy, keeping, from, kind, sharing)? {
            changed = true;
        }
    }
    Ok(changed)
}

// Adds the edges of this kind that are missing at a label, with which these labels share. Returns whether there were any.
fn settle_row(
    policy: &mut Policy,
    keeping: Labels,
    from: Label,
    kind: Kind,
    sharing: Labels,
) -> Result<bool, AllocError>
    requires { (giver : ℕ) → is_in sharing giver ≡ true
        → SharesSharply (allows policy.old) (Told (is_in keeping)) giver from }
    ensures grows { IfOk result (λ changed. GrowsSharply keeping policy.old policy.new changed) }
    ensures settled { IfOk result (λ changed. changed ≡ false
        → IsSettledAmong (allows policy.new) (Told (is_in keeping)) (Told (is_in sharing)) from kind) }
{
    let lacks = missing(policy, keeping, from, kind, sharing);
    match lacks.first() {
        None => Ok(false),
        Some(first) => {
            // A label's number is below `Label::COUNT`.
            first.number();
            policy.add_row(from, kind, lacks)?;
            Ok(true)
        }
    }
}
