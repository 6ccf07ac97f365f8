//! Laws on lawful capability tables: how they are built up, and what no version changes.
ghost use Rattle.std.specs.Prelude.{◌↔◌, ◌≡◌, Contains, None};
ghost use Rattle.base.specs.declared.ids.ObjId.{ObjId};
ghost use Rattle.machine.specs.{declared.layout.Pair.Pair, Authority.label_of, Boot.IsBoot, Layout.{Layout, upgraded}, Machine.Machine};
ghost use Rattle.table.specs.{Items.IsBuiltUp, Rules.IsLawful, Tree.{tree_fault, with_originals}, UntypedPairs.IsForNoUntyped};

/// A law: the tables that keep the rules are exactly those that are built up from an empty table, item by item.
///
/// Each item comes in its order, and the table so far admits it. The capabilities are then marked
/// as the pairs say, and no pair breaks a rule.
pub fn lawful_tables_are_built_up()
    ensures tables { (t : Layout) → IsLawful t
        ↔ ((draft : Layout) × IsBuiltUp draft × (tree_fault (with_originals draft) ≡ None)
        × (t ≡ with_originals draft)) }
{}

/// A law: no pair of the derivation tree of a lawful table is for untyped memory.
pub fn no_pair_is_for_untyped_memory()
    ensures { (t : Layout) (pair : Pair) → IsLawful t → Contains t.pairs pair → IsForNoUntyped t pair }
{}

/// A law: an upgraded table keeps its boot state and the labels of objects, which don't depend on the version.
pub fn upgraded_tables_boot_alike()
    ensures boot { (t : Layout) (m : Machine) → IsBoot (upgraded t) m ↔ IsBoot t m }
    ensures labels { (t : Layout) (m : Machine) (id : ObjId) → label_of (upgraded t) m id ≡ label_of t m id }
{}
