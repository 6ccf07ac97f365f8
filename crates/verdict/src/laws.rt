//! Laws about verdicts: that there is one, and that it is a verdict on the boot state; and about authority outside a policy.
ghost use Rattle.std.specs.Prelude.{◌↔◌, ◌≡◌, List, Result, Some};
ghost use Rattle.{base.specs.declared.edge.Edge.Edge, machine.specs.{Boot.IsBoot, Layout.Layout, Machine.Machine}};
ghost use Rattle.{table.specs.Rules.IsLawful, policy.specs.{Closed.IsClosed, Domain.EdgeTest, Policy.allows}};
ghost use Rattle.integrity.specs.{Confined.IsConfined, Keeping.IsSharp};
ghost use Rattle.verdict.specs.declared.{denial.Denial.Denial, rules.Rules.{Rules, Rules as rules}};
ghost use Rattle.verdict.specs.{ByRules.{IsAcceptedBy, IsVerdictBy}, Rules.{Exceeds, Excess}, Sources.of_machine};
ghost use Rattle.verdict.specs.{System.{IsVerdict, System}, Verdict.{Breaks, IsAccepted, IsLeastBroken, IsOutside, excess_of}};

/// A law: a state is confined exactly if no authority lies outside the policy at any place of the rules A1 to A6.
pub fn confined_states_have_nothing_outside()
    ensures { (t : Layout) (allowed : EdgeTest) (m : Machine)
        → IsConfined t allowed m ↔ ((place : Excess) → ¬ Exceeds (of_machine t m) allowed place) }
{}

/// A law: the verdict on a table is one on its boot state.
///
/// A rule is broken at a place exactly if the boot state's authority lies outside the policy there,
/// and each such place has its denial. That denial is the verdict exactly if the policy is closed
/// and the place is the first. A table and a policy are accepted exactly if the policy is closed
/// and the boot state is confined. The sharp rules accept them exactly if the boot state is
/// confined and the policy is sharply closed, with the labels that may keep capabilities for CNodes
/// as keepers.
pub fn a_verdict_is_on_the_boot_state()
    ensures place { (t : Layout) (allowed : EdgeTest) (boot : Machine) (denial : Denial) (place : Excess)
        → IsLawful t
        → IsBoot t boot
        → excess_of denial ≡ Some place
        → Breaks t allowed denial ↔ Exceeds (of_machine t boot) allowed place }
    ensures each { (t : Layout) (allowed : EdgeTest) (boot : Machine) (place : Excess)
        → IsLawful t
        → IsBoot t boot
        → Exceeds (of_machine t boot) allowed place
        → (denial : Denial) × (excess_of denial ≡ Some place) }
    ensures first { (t : Layout) (allowed : EdgeTest) (boot : Machine) (denial : Denial) (place : Excess)
        → IsLawful t
        → IsBoot t boot
        → excess_of denial ≡ Some place
        → IsLeastBroken t allowed denial ↔ (IsClosed allowed × IsOutside t allowed boot place) }
    ensures accepted { (t : Layout) (edges : List Edge)
        → IsLawful t
        → IsAccepted t (allows edges)
        ↔ (IsClosed (allows edges) × ((boot : Machine) → IsBoot t boot → IsConfined t (allows edges) boot)) }
    ensures sharply { (t : Layout) (edges : List Edge)
        → IsLawful t
        → IsAcceptedBy rules.Sharp t (allows edges)
        ↔ (IsSharp t (allows edges) × ((boot : Machine) → IsBoot t boot → IsConfined t (allows edges) boot)) }
{}

/// A law: a table and a policy that are accepted by the rules of closed policies are accepted by the sharp
/// rules.
pub fn accepted_systems_are_sharply_accepted()
    ensures { (t : Layout) (allowed : EdgeTest)
        → IsAcceptedBy rules.Closed t allowed
        → IsAcceptedBy rules.Sharp t allowed }
{}

/// A law: a table and a policy have one verdict by each set of rules.
///
/// They aren't both accepted and denied, nor denied with two places.
pub fn a_system_has_one_verdict()
    ensures one { (t : Layout) (edges : List Edge) (verdict other : Result System Denial)
        → IsVerdict t edges verdict
        → IsVerdict t edges other
        → verdict ≡ other }
    ensures by_rules { (set : Rules) (t : Layout) (edges : List Edge) (verdict other : Result (Unit {0}) Denial)
        → IsVerdictBy set t edges verdict
        → IsVerdictBy set t edges other
        → verdict ≡ other }
{}
