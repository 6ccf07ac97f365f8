//! The search for the labels that keep capabilities for CNodes.
ghost use Rattle.std.specs.Prelude.{ℕ, ◌↔◌, ◌≡◌, true};
ghost use Rattle.{base.specs.Labels.is_in, policy.specs.Policy.allows, sharp.specs.Keeping.{KeepsNext, KeepsFrom}};

use base::{Kind, Labels};
use policy::Policy;

/// Returns the labels that keep capabilities for CNodes by a policy, if the labels of `held` hold some at boot.
///
/// The labels of `held` keep them. So does each label with an edge `space` to a label that keeps
/// them, and each label to which such a label has an edge `control`. No other label does.
pub fn keepers(policy: &Policy, held: Labels) -> Labels
    ensures { (a : ℕ) → (is_in result a ≡ true) ↔ KeepsFrom (allows policy.now) (is_in held) a }
{
    let mut keeping = held;
    let mut more = beside(policy, keeping);
    while let Some(label) = more.first() {
        // A label's number is below `Label::COUNT`.
        label.number();
        keeping = keeping.union(more);
        more = beside(policy, keeping);
    }
    keeping
}

// The labels that keep by one step from these, without these.
fn beside(policy: &Policy, keeping: Labels) -> Labels
    ensures { (a : ℕ) → (is_in result a ≡ true) ↔ KeepsNext (allows policy.now) (is_in keeping) a }
{
    let finding = policy.sources(keeping, &[Kind::Space]);
    let handed = policy.targets(keeping, &[Kind::Control]);
    finding.union(handed).difference(keeping)
}
