//! Edges of authority that one slot gives.
ghost use Rattle.std.specs.Prelude.{[], ◌++◌, ◌≡◌, IfErr, IfOk, OnOk, Some, filter, flat_map, if◌then◌else◌, option_to_list};
ghost use Rattle.{base.specs.Refusals.out_of_memory, machine.specs.{Capabilities.gives, Layout.{declared_label, initial_parent}}};
ghost use Rattle.labels.specs.SlotEdges.{cap_edges, edge_between, edges_with, pair_edges, slot_edges_of};
ghost use Rattle.base.specs.declared.kind.TheConstants.Kind as Kinds;

use crate::label::declared_label;
use base::{Edge, Kind, ObjId, Refusal, SlotRef};
use machine::{Cap, Filled, ObjectKind};
use std::alloc::{AllocError, Global};
use table::Table;

/// Returns the edges of authority that a slot gives at boot.
///
/// First come those of its capability, by rising kinds, and then that of the pair of the derivation
/// tree whose child it is. An empty slot gives none.
///
/// # Errors
///
/// 40 if memory is refused.
pub fn slot_edges(alloc: Global, table: &Table, slot: SlotRef) -> Result<Vec<Edge>, Refusal>
    ensures edges { IfOk result (λ edges. edges.items ≡ slot_edges_of table.now slot) }
    ensures memory { IfErr result (λ refusal. refusal ≡ out_of_memory) }
{
    let mut edges = Vec::new(alloc);
    if let Some(held) = table.cap(slot) {
        push_given(&mut edges, table, slot, &held)?;
    }
    push_derived(&mut edges, table, slot)?;
    Ok(edges)
}

/// Returns the edges of authority that a filled slot gives at boot, in the order of [`slot_edges`].
pub fn filled_edges(alloc: Global, table: &Table, filled: &Filled) -> Result<Vec<Edge>, AllocError>
    ensures { IfOk result (λ edges. edges.items ≡ edges_with table.now filled.now.slot (Some filled.now.cap)) }
{
    let mut edges = Vec::new(alloc);
    push_given(&mut edges, table, filled.slot, &filled.cap)?;
    push_derived(&mut edges, table, filled.slot)?;
    Ok(edges)
}

// Adds the edges that the capability in a slot gives.
fn push_given(
    edges: &mut Vec<Edge>,
    table: &Table,
    slot: SlotRef,
    held: &Cap,
) -> Result<(), AllocError>
    ensures { OnOk result (edges.new.items ≡ edges.old.items ++ cap_edges table.now slot (Some held.now)) }
{
    match table.kind(slot.holder) {
        Some(ObjectKind::CNode) => push_kinds(edges, table, slot.holder, held),
        Some(ObjectKind::Tcb) => push_edge(edges, table, slot.holder, Kind::Space, held.object),
        _ => Ok(()),
    }
}

// Adds the edge that the pair of the derivation tree gives whose child the slot is.
fn push_derived(edges: &mut Vec<Edge>, table: &Table, slot: SlotRef) -> Result<(), AllocError>
    ensures { OnOk result
        (edges.new.items ≡ edges.old.items ++ pair_edges table.now slot (initial_parent table.now slot)) }
{
    if let Some(parent) = table.parent(slot) {
        push_edge(edges, table, parent.holder, Kind::Derive, slot.holder)?;
    }
    Ok(())
}

// Adds an edge for each kind that the capability gives.
fn push_kinds(
    edges: &mut Vec<Edge>,
    table: &Table,
    holder: ObjId,
    held: &Cap,
) -> Result<(), AllocError>
    ensures { let between = edge_between (declared_label table.now holder) (declared_label table.now held.now.object) in
        OnOk result (edges.new.items ≡ edges.old.items ++ flat_map between (filter (gives held.now.detail) Kinds.ALL)) }
{
    for kind in held.detail.possible_kinds() {
        push_kind(edges, table, holder, *kind, held)?;
    }
    Ok(())
}

// Adds the edge of a kind, if the capability gives it.
fn push_kind(
    edges: &mut Vec<Edge>,
    table: &Table,
    holder: ObjId,
    kind: Kind,
    held: &Cap,
) -> Result<(), AllocError>
    ensures { let between = edge_between (declared_label table.now holder) (declared_label table.now held.now.object) in
        OnOk result (edges.new.items ≡ edges.old.items ++ (if gives held.now.detail kind then between kind else [])) }
{
    if !held.gives(kind) {
        return Ok(());
    }
    push_edge(edges, table, holder, kind, held.object)
}

// Adds the edge between the labels of two objects, if they have labels.
fn push_edge(
    edges: &mut Vec<Edge>,
    table: &Table,
    from: ObjId,
    kind: Kind,
    to: ObjId,
) -> Result<(), AllocError>
    ensures { let between = edge_between (declared_label table.now from) (declared_label table.now to) in
        OnOk result (edges.new.items ≡ edges.old.items ++ between kind) }
{
    if let Some(edge) = edge_between(table, from, kind, to) {
        edges.push(edge)?;
    }
    Ok(())
}

// The edge between the labels of two objects, if they have labels.
pub(crate) fn edge_between(table: &Table, from: ObjId, kind: Kind, to: ObjId) -> Option<Edge>
    ensures { option_to_list result ≡ edge_between (declared_label table.now from) (declared_label table.now to) kind }
{
    Some(Edge {
        from: declared_label(table, from)?,
        kind,
        to: declared_label(table, to)?,
    })
}
