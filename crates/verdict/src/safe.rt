//! The headline: laws about the runs of accepted systems.
ghost use Rattle.std.specs.Prelude.{ℕ, List};
ghost use Rattle.{base.specs.declared.edge.Edge.Edge, machine.specs.Layout.Layout, table.specs.Rules.IsLawful};
ghost use Rattle.policy.specs.{Change.{ActorTest, MayChange}, NarrowTake.MayShrink, Policy.allows};
ghost use Rattle.integrity.specs.{Acting.HoldsOfActors, Apart.{NeverChanges, OnlyTakes}, Safe.IsSafe};
ghost use Rattle.verdict.specs.{ByRules.IsAcceptedBy, Verdict.IsAccepted};
ghost use Rattle.verdict.specs.declared.rules.Rules.TheVariants as rules;

use integrity::{
    bounded_systems_keep_labels_apart, confined_systems_are_safe, sharply_confined_systems_are_safe,
};

/// A law, the headline: every run of a capability table and a policy that are accepted is safe.
///
/// After every list of kernel calls by any threads in any interleaving:
///
/// - every capability lies within the policy
/// - no step changes an object of a label on which its caller's label has no modifying authority
/// - a context's configured budget or period changes only by a caller whose label has the policy's
///   SchedControl edge.
pub fn accepted_systems_are_safe()
    ensures { (t : Layout) (edges : List Edge)
        → IsLawful t
        → IsAccepted t (allows edges)
        → IsSafe t (allows edges) }
{
    confined_systems_are_safe();
}

/// A law, the headline for the sharp rules: every run of a capability table and a policy that they
/// accept is safe.
///
/// After every list of kernel calls, what [`accepted_systems_are_safe`] says holds.
pub fn sharply_accepted_systems_are_safe()
    ensures { (t : Layout) (edges : List Edge)
        → IsLawful t
        → IsAcceptedBy rules.Sharp t (allows edges)
        → IsSafe t (allows edges) }
{
    sharply_confined_systems_are_safe();
}

/// A law: in runs of an accepted system, threads change only objects of labels that they may change or shrink.
///
/// In every run from the boot state, a step of a thread never changes, makes or removes an object
/// of a label that the thread's label may neither change nor make smaller. An object of a label
/// that it may only make smaller stays as it is, or shrinks.
///
/// This holds for each test of labels that accepts all that may act and may have threads.
pub fn accepted_systems_keep_labels_apart()
    ensures apart { (t : Layout) (edges : List Edge) (acts : ActorTest) (a l : ℕ)
        → IsLawful t
        → IsAccepted t (allows edges)
        → HoldsOfActors t (allows edges) acts
        → ¬ MayChange (allows edges) acts a l
        → ¬ MayShrink (allows edges) acts a l
        → NeverChanges t a l }
    ensures takes { (t : Layout) (edges : List Edge) (acts : ActorTest) (a l : ℕ)
        → IsLawful t
        → IsAccepted t (allows edges)
        → HoldsOfActors t (allows edges) acts
        → ¬ MayChange (allows edges) acts a l
        → OnlyTakes t a l }
{
    accepted_systems_are_safe();
    bounded_systems_keep_labels_apart();
}
