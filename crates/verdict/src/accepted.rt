//! Pairs of a capability table and a policy that are accepted.
ghost use Rattle.std.specs.Prelude.{◌≡◌};
ghost use Rattle.{policy.specs.Policy.allows, integrity.specs.Safe.IsSafe, verdict.specs.{System.IsAcceptedSystem, Verdict.IsAccepted}};

use crate::safe::accepted_systems_are_safe;
use policy::Policy;
use std::marker::Model;
use table::Table;

/// A capability table and a policy that are accepted.
///
/// No rule is broken, and every run from the table's boot state is safe. [`judge`](crate::judge)
/// makes one of what it accepts.
#[derive(Drop)]
pub struct Accepted<'a> {
    table: &'a Table,
    policy: &'a Policy,
}

impl<'a> Model for Accepted<'a> {
    ghost use Rattle.verdict.specs.System.{IsAcceptedSystem, System};

    ghost Value = { System };

    ghost view = { λ accepted. record { table = accepted.table.now; policy = accepted.policy.now } };

    ghost invariant = { λ accepted. IsAcceptedSystem (record { table = accepted.table.now; policy = accepted.policy.now }) };
}

// The headline for this table and this policy.
fn are_safe(table: &Table, policy: &Policy)
    requires { IsAccepted table.now (allows policy.now) }
    ensures { IsSafe table.now (allows policy.now) }
{
    table.keeps_rules();
    accepted_systems_are_safe();
}

impl<'a> Accepted<'a> {
    /// Returns the system of a table and a policy that are accepted.
    pub fn of(table: &'a Table, policy: &'a Policy) -> Accepted<'a>
        requires { IsAccepted table.now (allows policy.now) }
        ensures system { result ≡ record { table = table.now; policy = policy.now } }
        ensures safe { IsSafe table.now (allows policy.now) }
    {
        are_safe(table, policy);
        Accepted { table, policy }
    }

    /// Returns the table.
    pub fn table(&self) -> &'a Table
        ensures table { result.now ≡ self.now.table }
        ensures accepted { IsAcceptedSystem self.now }
    {
        self.table
    }

    /// Returns the policy.
    pub fn policy(&self) -> &'a Policy
        ensures policy { result.now ≡ self.now.policy }
        ensures accepted { IsAcceptedSystem self.now }
    {
        self.policy
    }
}
