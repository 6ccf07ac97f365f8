//! Laws on the authority that tables give.
ghost use Rattle.std.specs.Prelude.{ℕ, ◌<◌, ◌↔◌, ◌≡◌, length, true};
ghost use Rattle.base.specs.declared.{ids.SlotRef.SlotRef as Slot, kind.Kind.Kind as KindOf};
ghost use Rattle.{machine.specs.{Authority.HasAuthority, Boot.IsBoot, Layout.Layout, Machine.Machine}, table.specs.Rules.IsLawful};
ghost use Rattle.{policy.specs.Policy.allows, labels.specs.{SlotAuthority.GivesBySlot, SlotEdges.slot_edges_of}};

/// A law: the edges of a slot are the authority that the table's boot state has by that slot.
///
/// The state has the authority through the slot's capability, or as a child in the derivation tree.
#[tactic(auto, using(crate::proofs::SlotAuthority::slot_authority))]
pub fn slot_edges_are_authority()
    ensures { (t : Layout) (boot : Machine) (slot : Slot) (from : ℕ) (kind : KindOf) (to : ℕ) → IsBoot t boot
        → allows (slot_edges_of t slot) from kind to ≡ true ↔ GivesBySlot t boot slot from kind to }
{}

/// A law: the authority that a table's boot state has joins labels of the table.
#[tactic(auto, using(crate::proofs::BootLabels::authority_within))]
pub fn boot_authority_joins_labels_of_its_table()
    ensures { (t : Layout) (boot : Machine) (from : ℕ) (kind : KindOf) (to : ℕ) → IsLawful t
        → IsBoot t boot
        → HasAuthority t boot from kind to
        → (from < length t.labels) × (to < length t.labels) }
{}
