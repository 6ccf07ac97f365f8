//! The sentence on a capability that gives more than the policy has.
use base::{Edge, Kind, Label, Refusal, SlotRef};
use captext::label_name;
use explain_rules::{EdgeList, Lets, comes_by_right, separator, verb};
use labels::slot_edges;
use policy::Policy;
use std::alloc::{AllocError, Global};
use std::fmt;
use table::Table;

/// Adds what the capability in a slot gives over a label that the policy lacks, and what may be done; gives how many
/// edges are missing.
pub(crate) fn push_capability(
    alloc: Global,
    sentence: &mut String,
    table: &Table,
    policy: &Policy,
    slot: SlotRef,
    label: Label,
) -> Result<usize, Refusal> {
    let missing = missing_edges(alloc, table, policy, slot)?;
    push_missing(alloc, sentence, table, slot, label, &missing)?;
    Ok(missing.len())
}

/// Adds what the missing edges let the holder's label do, and what may be done.
fn push_missing(
    alloc: Global,
    sentence: &mut String,
    table: &Table,
    slot: SlotRef,
    label: Label,
    missing: &[Edge],
) -> Result<(), AllocError> {
    push_deeds(sentence, table, slot, label, missing)?;
    let always = edges_by(alloc, missing, false)?;
    let by_rights = edges_by(alloc, missing, true)?;
    push_ways(sentence, table, &always, &by_rights)
}

/// Returns the edges that the capability in a slot gives and the policy lacks.
fn missing_edges(
    alloc: Global,
    table: &Table,
    policy: &Policy,
    slot: SlotRef,
) -> Result<Vec<Edge>, Refusal> {
    let mut missing = Vec::new(alloc);
    for edge in slot_edges(alloc, table, slot)?.iter() {
        // That the slot is a child is no part of its capability.
        if edge.kind != Kind::Derive && !policy.has(*edge) {
            missing.push(*edge)?;
        }
    }
    Ok(missing)
}

/// Adds what the capability in a slot lets its holder's label do, by edges that the policy lacks.
fn push_deeds(
    sentence: &mut String,
    table: &Table,
    slot: SlotRef,
    label: Label,
    missing: &[Edge],
) -> Result<(), AllocError> {
    let lets = Lets { table, slot };
    let deeds = Deeds { edges: missing };
    let name = label_name(table, label);
    let edges = if missing.len() == 1 { "edge" } else { "edges" };
    write!(
        sentence,
        "{lets} {deeds} `{name}`, but the policy has no such {edges}. "
    )
}

/// What edges let a label do, before the name of another label.
#[derive(Clone, Copy)]
struct Deeds<'a> {
    edges: &'a [Edge],
}

impl fmt::Display for Deeds<'_> {
    fn fmt<W: fmt::Write>(&self, f: &mut fmt::Formatter<W>) -> fmt::Result {
        for (number, edge) in self.edges.iter().enumerate() {
            f.write_str(separator(number, self.edges.len()))?;
            f.write_str(verb(edge.kind))?;
        }
        Ok(())
    }
}

/// The edges of these that come by rights, or those that come whatever the rights.
fn edges_by(alloc: Global, missing: &[Edge], by_right: bool) -> Result<Vec<Edge>, AllocError> {
    let mut edges = Vec::new(alloc);
    for edge in missing {
        if comes_by_right(edge.kind) == by_right {
            edges.push(*edge)?;
        }
    }
    Ok(edges)
}

/// Adds what may be done about edges that the capability gives whatever its rights, and about those
/// that come by rights.
fn push_ways(
    sentence: &mut String,
    table: &Table,
    always: &[Edge],
    by_rights: &[Edge],
) -> Result<(), AllocError> {
    if !always.is_empty() {
        let edges = EdgeList {
            table,
            edges: always,
        };
        write!(sentence, "Add {edges}")?;
    }
    if !by_rights.is_empty() {
        let (before, between) = if always.is_empty() {
            ("Give", ",")
        } else {
            (", and give", "")
        };
        let edges = EdgeList {
            table,
            edges: by_rights,
        };
        write!(
            sentence,
            "{before} the capability fewer rights{between} or add {edges}"
        )?;
    }
    sentence.push_str(".")
}
