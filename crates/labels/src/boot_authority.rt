//! The authority of a table's boot state.
ghost use Rattle.std.specs.Prelude.{ℕ, ◌||◌, ◌↔◌, ◌≡◌, IfErr, IfOk, OnOk, true};
ghost use Rattle.base.specs.{declared.kind.Kind.Kind as KindOf, Refusals.out_of_memory};
ghost use Rattle.machine.specs.{Authority.HasAuthority, Boot.IsBoot, Machine.Machine};
ghost use Rattle.{table.specs.Rules.IsLawful, policy.specs.Policy.{IsRising, allows}};
ghost use Rattle.labels.specs.{SlotEdges.slot_edges_of, TableEdges.{edges_of_binding, table_edges}};

use crate::edges::{edge_between, slot_edges};
use base::{Edge, Kind, Refusal, SlotRef};
use machine::Binding;
use policy::Policy;
use std::alloc::Global;
use table::Table;

/// Returns the edges of authority of the table's boot state, each once, in rising order.
///
/// # Errors
///
/// 40 if memory is refused.
#[tactic(auto, using(crate::proofs::TableAuthority::table_authority))]
pub fn authority(alloc: Global, table: &Table) -> Result<Vec<Edge>, Refusal>
    ensures edges { IfOk result (λ edges. (boot : Machine) (from : ℕ) (kind : KindOf) (to : ℕ) → IsBoot table.now boot
        → allows edges.items from kind to ≡ true ↔ HasAuthority table.now boot from kind to) }
    ensures rising { IfOk result (λ edges. IsRising edges.items) }
    ensures memory { IfErr result (λ refusal. refusal ≡ out_of_memory) }
{
    let found = collected(alloc, table)?;
    found.edges_rise();
    Ok(found.edges(alloc)?)
}

// The edges that the table declares, as a set.
fn collected(alloc: Global, table: &Table) -> Result<Policy, Refusal>
    ensures edges { IfOk result (λ found. (from : ℕ) (kind : KindOf) (to : ℕ)
        → allows found from kind to ≡ allows (table_edges table.now) from kind to) }
    ensures lawful { IsLawful table.now }
    ensures err { IfErr result (λ refusal. refusal ≡ out_of_memory) }
{
    let mut found = Policy::new(alloc);
    for filled in table.caps() {
        add_slot(&mut found, alloc, table, filled.slot)?;
    }
    for binding in table.bindings() {
        add_binding(&mut found, table, binding)?;
    }
    Ok(found)
}

// Adds the edges of a slot.
fn add_slot(found: &mut Policy, alloc: Global, table: &Table, slot: SlotRef) -> Result<(), Refusal>
    ensures ok { OnOk result ((from : ℕ) (kind : KindOf) (to : ℕ)
        → allows found.new from kind to
        ≡ (allows found.old from kind to || allows (slot_edges_of table.now slot) from kind to)) }
    ensures err { IfErr result (λ refusal. refusal ≡ out_of_memory) }
{
    let edges = slot_edges(alloc, table, slot)?;
    for edge in &edges {
        found.add(*edge)?;
    }
    Ok(())
}

// Adds the edge from a thread to the context that it is bound to.
fn add_binding(found: &mut Policy, table: &Table, binding: &Binding) -> Result<(), Refusal>
    ensures ok { OnOk result ((from : ℕ) (kind : KindOf) (to : ℕ)
        → allows found.new from kind to
        ≡ (allows found.old from kind to || allows (edges_of_binding table.now binding.now) from kind to)) }
    ensures err { IfErr result (λ refusal. refusal ≡ out_of_memory) }
{
    if let Some(edge) = edge_between(table, binding.thread, Kind::Runs, binding.context) {
        found.add(edge)?;
    }
    Ok(())
}
