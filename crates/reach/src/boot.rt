//! Labels that hold capabilities for CNodes at boot.
ghost use Rattle.std.specs.Prelude.{ℕ, ◌↔◌, ◌≡◌, true};
ghost use Rattle.{base.specs.Labels.is_in, table.specs.Rules.IsLawful, integrity.specs.Keeping.HoldsNode};
ghost use Rattle.reach.specs.Boot.{is_node, is_node_cap, node_holder};

use base::{Label, Labels, SlotRef};
use machine::{Cap, Detail, Object};
use table::Table;

/// Returns the labels of which a CNode holds a capability for a CNode at boot.
pub fn node_holders(table: &Table) -> Labels
    ensures holders { (a : ℕ) → (is_in result a ≡ true) ↔ HoldsNode table.now a }
    ensures lawful { IsLawful table.now }
{
    let mut found = Labels::none();
    for filled in table.caps() {
        if let Some(label) = node_holder(table, filled.slot) {
            found = found.union(Labels::only(label));
        }
    }
    found
}

// The label of the CNode that has a slot, if the slot holds a capability for a CNode.
#[tactic(auto, unfolding(machine::specs::Layout::initial_of))]
fn node_holder(table: &Table, slot: SlotRef) -> Option<Label>
    ensures { result ≡ node_holder table.now slot }
{
    let held = table.cap(slot)?;
    if !is_node_cap(&held) {
        return None;
    }
    let holder = table.objects().get(slot.holder.0 as usize)?;
    if is_node(&holder.object) {
        return Some(holder.label);
    }
    None
}

fn is_node_cap(held: &Cap) -> bool
    ensures { result ≡ is_node_cap held.now }
{
    matches!(held.detail, Detail::CNode(_))
}

fn is_node(object: &Object) -> bool
    ensures { result ≡ is_node object.now }
{
    matches!(object, Object::CNode(_))
}
