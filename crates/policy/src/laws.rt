//! Laws on closed policies.
ghost use Rattle.std.specs.Prelude.{ℕ, ◌↔◌, ◌≡◌, true};
ghost use Rattle.policy.specs.{declared.broken.Broken.Broken as BrokenOf, Broken.IsBrokenAt, Closed.IsClosed};
ghost use Rattle.policy.specs.{Domain.EdgeTest, Needed.{BreaksOnly, Obeys, Rule}, Sharp.{IsSharplyClosed, KeeperTest, Told}};

/// A law: a closed policy obeys each of the eight rules, and no rule follows from the others.
///
/// For each rule there is a policy that breaks it alone, and so isn't closed. The policy with every
/// edge is closed.
pub fn closed_policies_obey_each_rule()
    ensures full { IsClosed (λ from kind to. true) }
    ensures each { (test : EdgeTest) → IsClosed test → (rule : Rule) → Obeys test rule }
    ensures needed { (rule : Rule) → BreaksOnly rule }
{}

/// A law: a policy is closed exactly if it breaks no rule of closed policies, at no place.
pub fn closed_policies_are_unbroken()
    ensures { (test : EdgeTest) → IsClosed test ↔ ((broken : BrokenOf) → ¬ IsBrokenAt test broken) }
{}

/// A law: a closed policy is sharply closed, whichever labels keep capabilities for CNodes.
///
/// A policy that is sharply closed stays so if fewer labels keep them.
pub fn closed_policies_are_sharply_closed()
    ensures closed { (test : EdgeTest) (keeps : KeeperTest) → IsClosed test → IsSharplyClosed test (Told keeps) }
    ensures fewer { (test : EdgeTest) (keeps fewer : KeeperTest)
        → ((a : ℕ) → fewer a ≡ true → keeps a ≡ true)
        → IsSharplyClosed test (Told keeps)
        → IsSharplyClosed test (Told fewer) }
{}
