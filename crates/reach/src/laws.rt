//! Laws on the reach of a table.
ghost use Rattle.std.specs.Prelude.{ℕ, ◌≡◌, List};
ghost use Rattle.{base.specs.declared.{edge.Edge.Edge, kind.Kind.Kind}, machine.specs.Layout.Layout, table.specs.Rules.IsLawful};
ghost use Rattle.policy.specs.{Change.{ActorTest, MayChange}, Closed.IsClosed, Closing.IsWithin, Domain.EdgeTest, NarrowTake.MayShrink};
ghost use Rattle.{policy.specs.Policy.allows, integrity.specs.{Acting.HoldsOfActors, Apart.{NeverChanges, OnlyTakes}, Safe.IsSafe}};
ghost use Rattle.reach.specs.Reach.{HasBootAuthority, IsReach};

use integrity::{bounded_systems_keep_labels_apart, sharply_confined_systems_are_safe};

/// A law: every run of a table is safe by the reach of the table, without any other policy.
///
/// The reach lies within each closed policy that has all authority of the boot state, so within each
/// policy by which the table is accepted. A table has only one reach: any two have the same edges.
pub fn runs_stay_in_reach()
    ensures safe { (t : Layout) (edges : List Edge)
        → IsLawful t
        → IsReach t edges
        → IsSafe t (allows edges) }
    ensures within { (t : Layout) (edges : List Edge) (allowed : EdgeTest)
        → IsReach t edges
        → IsClosed allowed
        → HasBootAuthority t allowed
        → IsWithin (allows edges) allowed }
    ensures one { (t : Layout) (edges other : List Edge)
        → IsReach t edges
        → IsReach t other
        → (from : ℕ) (kind : Kind) (to : ℕ) → allows edges from kind to ≡ allows other from kind to }
{
    sharply_confined_systems_are_safe();
}

/// A law: in every run of a table, threads of a label change only what they may change by the reach of the table.
///
/// No step of theirs changes, makes or removes an object of a label that they may not change and may
/// not make smaller. If they may not change it, each object stays as it is, or shrinks. This holds
/// for each test of labels that holds of all that may act and may have threads.
pub fn runs_keep_labels_apart()
    ensures apart { (t : Layout) (edges : List Edge) (acts : ActorTest) (a l : ℕ)
        → IsLawful t
        → IsReach t edges
        → HoldsOfActors t (allows edges) acts
        → ¬ MayChange (allows edges) acts a l
        → ¬ MayShrink (allows edges) acts a l
        → NeverChanges t a l }
    ensures takes { (t : Layout) (edges : List Edge) (acts : ActorTest) (a l : ℕ)
        → IsLawful t
        → IsReach t edges
        → HoldsOfActors t (allows edges) acts
        → ¬ MayChange (allows edges) acts a l
        → OnlyTakes t a l }
{
    runs_stay_in_reach();
    bounded_systems_keep_labels_apart();
}
