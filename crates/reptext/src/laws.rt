//! The law on the reports of an upgraded table.
ghost use Rattle.std.specs.Prelude.{ℕ, ◌↔◌, ◌≡◌, List, Option};
ghost use Rattle.base.specs.declared.{edge.Edge.Edge, ids.ObjId.ObjId};
ghost use Rattle.machine.specs.{declared.object.ObjectKind.ObjectKind, Layout.{Layout, upgraded}, Machine.Machine};
ghost use Rattle.{policy.specs.Domain.EdgeTest, verdict.specs.{declared.denial.Denial.Denial, Rules.Excess, Verdict.IsOutside}};
ghost use Rattle.reptext.specs.{Places.{place_names, place_names_by}, Reports.IsCheckReport};

/// Proves that an upgraded table keeps the report of its acceptance, the names at the place of each
/// denial, and the first place outside a policy in each state of its runs, with the names there.
/// None of these depends on the version.
pub fn upgraded_tables_are_reported_alike()
    ensures report { (t : Layout) (edges : List Edge) (text : List ℕ)
        → IsCheckReport (upgraded t) edges text ↔ IsCheckReport t edges text }
    ensures places { (t : Layout) (denial : Denial) → place_names (upgraded t) denial ≡ place_names t denial }
    ensures outside { (t : Layout) (allowed : EdgeTest) (m : Machine) (place : Excess)
        → IsOutside (upgraded t) allowed m place ↔ IsOutside t allowed m place }
    ensures names { (kinds : ObjId → Option ObjectKind) (t : Layout) (denial : Denial)
        → place_names_by kinds (upgraded t) denial ≡ place_names_by kinds t denial }
{}
