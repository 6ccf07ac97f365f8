//! The law that sharply closed policies are those that break no sharp rule.
ghost use Rattle.std.specs.Prelude.{◌↔◌};
ghost use Rattle.policy.specs.{Domain.EdgeTest, Sharp.{IsSharplyClosed, KeeperTest, Told}};
ghost use Rattle.sharp.specs.{declared.broken.SharpBroken.SharpBroken as SharpBrokenOf, Broken.IsSharplyBrokenAt};

/// A law: for any keepers, a policy is sharply closed exactly if it breaks no sharp rule at any
/// place.
pub fn sharply_closed_policies_are_unbroken()
    ensures { (test : EdgeTest) (keeps : KeeperTest)
        → IsSharplyClosed test (Told keeps) ↔ ((broken : SharpBrokenOf) → ¬ IsSharplyBrokenAt test (Told keeps) broken) }
{}
