//! The law that the boot state of a capability table is well formed.
ghost use Rattle.std.specs.Prelude.{◌≡◌, Some};
ghost use Rattle.base.specs.declared.ids.SlotRef.{SlotRef};
ghost use Rattle.machine.specs.{Boot.{IsBoot, IsFresh}, Layout.{Layout, initial_parent}, Machine.{Machine, parent_of}};
ghost use Rattle.{machine.specs.{Tree.IsRanked, WellFormed.IsWellFormed}, table.specs.Rules.IsLawful};

/// A law: the boot state of a lawful capability table is well formed, and obeys the boot rule.
///
/// Ranks rise along all pairs of its derivation tree, and along some of them.
pub fn boot_states_are_well_formed()
    ensures well_formed { (t : Layout) (m : Machine) → IsLawful t → IsBoot t m → IsWellFormed m }
    ensures ranked { (t : Layout) (m : Machine) → IsLawful t
        → ((slot parent : SlotRef) → parent_of m slot ≡ Some parent → initial_parent t slot ≡ Some parent)
        → IsRanked m }
    ensures fresh { (t : Layout) (m : Machine) → IsLawful t → IsBoot t m → IsFresh t m }
{}
