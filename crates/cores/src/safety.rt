//! The headline, on all that seats have seen.
ghost use Rattle.std.specs.Prelude.{ℕ, List};
ghost use Rattle.{machine.specs.{Boot.IsBoot, Machine.Machine}, policy.specs.Policy.allows};
ghost use Rattle.verdict.specs.System.{IsAcceptedSystem, System};
ghost use Rattle.cores.specs.{declared.view.Noted.Noted as Entered, History.IsLegal, Safety.IsSafeHistory};

/// A law: a legal history from the boot state of an accepted system is safe.
///
/// Each of its states is confined, and each object of such a state has a label. Each of its steps is
/// allowed, keeps to the bounds of who may act, and changes budgets only as the policy allows. It is
/// refused, or is of a thread whose label may act.
///
/// The law holds of all that a seat has seen, and of all that a kernel's log has.
pub fn seen_histories_are_safe()
    ensures { (system : System) (boot : Machine) (cores : List ℕ) (history : List Entered)
        → IsAcceptedSystem system
        → IsBoot system.table boot
        → IsLegal boot cores history
        → IsSafeHistory system.table (allows system.policy) boot history }
{}
