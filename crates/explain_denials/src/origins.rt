//! The sentences on where the edges of a reason come from that a policy has: a place of the table, by a rule of closed policies from other
//! edges, or the policy alone; and, for labels with no reason, why there is none.
use crate::closing::{MOST_EDGES, mending_edge};
use base::{Edge, Kind, Label, Refusal, SlotRef};
use explain_rules::{
    EdgeLine, EdgeList, PlaceWords, Sheet, Start, asked_edge, line_of_place, premises,
    push_not_allowed,
};
use labels::{authority, filled_edges};
use policy::{Broken, Policy, Why, first_broken};
use std::alloc::{AllocError, Global};
use std::thread::Threads;
use table::Table;
use verdict::Denial;

/// Returns a line for each edge of the reason why a policy allows the one label to do something to the other, and then
/// for each edge by which a rule asks for one of those before: where it comes from. It returns why nothing is allowed,
/// if that is so.
///
/// Each label counts as one whose threads make calls.
///
/// # Errors
///
/// 40 where memory is refused.
pub fn explain_why_allowed<R: Threads + Sync>(
    rt: &R,
    alloc: Global,
    sheet: Sheet<'_>,
    policy: &Policy,
    actor: &str,
    object: &str,
) -> Result<String, Refusal> {
    let table = sheet.table;
    let mut lines = String::new(alloc);
    if let (Some(actor), Some(object)) = (table.label_named(actor), table.label_named(object)) {
        push_why(rt, alloc, &mut lines, sheet, policy, actor, object)?;
    }
    Ok(lines)
}

/// Adds where the edges of the reason for an authority come from, or why there is none.
fn push_why<R: Threads + Sync>(
    rt: &R,
    alloc: Global,
    lines: &mut String,
    sheet: Sheet<'_>,
    policy: &Policy,
    actor: Label,
    object: Label,
) -> Result<(), Refusal> {
    let table = sheet.table;
    match policy.why_among(alloc, table.labels(), actor, object)? {
        Why::Full(mut edges) | Why::Take(mut edges) => {
            push_origins(rt, alloc, lines, sheet, policy, &mut edges)
        }
        Why::Nothing => push_not_allowed(alloc, lines, table, policy, actor, object),
    }
}

/// Adds a line for each of these edges: where it comes from. The edges by which a rule asks for one of them are added
/// to `edges`, and get lines too.
fn push_origins<R: Threads + Sync>(
    rt: &R,
    alloc: Global,
    lines: &mut String,
    sheet: Sheet<'_>,
    policy: &Policy,
    edges: &mut Vec<Edge>,
) -> Result<(), Refusal> {
    for number in 0..MOST_EDGES {
        match edges.get(number) {
            Some(edge) => {
                let edge = *edge;
                push_origin(rt, alloc, lines, sheet, policy, edge, edges)?;
            }
            None => break,
        }
    }
    Ok(())
}

/// Adds where an edge comes from, and to `edges` those by which a rule asks for the edge, if one does.
fn push_origin<R: Threads + Sync>(
    rt: &R,
    alloc: Global,
    lines: &mut String,
    sheet: Sheet<'_>,
    policy: &Policy,
    edge: Edge,
    edges: &mut Vec<Edge>,
) -> Result<(), Refusal> {
    match place_of(alloc, sheet.table, &edge)? {
        Some(denial) => Ok(push_place(lines, sheet, edge, &denial)?),
        None => push_rule(rt, alloc, lines, sheet.table, policy, edge, edges),
    }
}

/// Adds that an edge comes from a place of the table.
fn push_place(
    lines: &mut String,
    sheet: Sheet<'_>,
    edge: Edge,
    denial: &Denial,
) -> Result<(), AllocError> {
    let edge = EdgeLine {
        table: sheet.table,
        edge,
    };
    let line = line_of_place(sheet, denial);
    let start = Start {
        file: sheet.file,
        line,
    };
    let words = PlaceWords { sheet, denial };
    writeln!(lines, "`{edge}` comes from {start}{words}")
}

/// Adds that an edge comes from a place of the table, if one gives it, and returns whether one does.
pub(crate) fn push_place_of(
    alloc: Global,
    lines: &mut String,
    sheet: Sheet<'_>,
    edge: &Edge,
) -> Result<bool, Refusal> {
    match place_of(alloc, sheet.table, edge) {
        Ok(Some(denial)) => {
            push_place(lines, sheet, *edge, &denial)?;
            Ok(true)
        }
        Ok(None) => Ok(false),
        Err(refusal) => Err(refusal),
    }
}

/// Returns the line of the place of a table that gives an edge first, from 1.
pub(crate) fn line_of_origin(
    alloc: Global,
    sheet: Sheet<'_>,
    edge: &Edge,
) -> Result<Option<usize>, Refusal> {
    match place_of(alloc, sheet.table, edge) {
        Ok(Some(place)) => Ok(line_of_place(sheet, &place)),
        Ok(None) => Ok(None),
        Err(refusal) => Err(refusal),
    }
}

/// The place of a table that gives an edge first, as the denial of a policy that lacks the edge.
pub(crate) fn place_of(
    alloc: Global,
    table: &Table,
    edge: &Edge,
) -> Result<Option<Denial>, Refusal> {
    for filled in table.caps() {
        if filled_edges(alloc, table, filled)?.contains(edge) {
            return Ok(place_at(table, filled.slot, edge));
        }
    }
    for binding in table.bindings() {
        let denial = Denial::Binding {
            thread: binding.thread,
            context: binding.context,
        };
        if asked_edge(table, &denial) == Some(*edge) {
            return Ok(Some(denial));
        }
    }
    Ok(None)
}

/// The place by which a filled slot gives an edge: its capability, the root that it is, or the pair whose
/// child it is.
fn place_at(table: &Table, slot: SlotRef, edge: &Edge) -> Option<Denial> {
    match edge.kind {
        Kind::Space => Some(Denial::Root {
            slot,
            label: edge.to,
        }),
        Kind::Derive => Some(Denial::Pair {
            child: slot,
            parent: table.parent(slot)?,
        }),
        kind => Some(Denial::Capability {
            slot,
            kind,
            label: edge.to,
        }),
    }
}

/// Adds by which rule an edge comes, and from which others, which become part of `edges`; or that the policy alone
/// has it.
fn push_rule<R: Threads + Sync>(
    rt: &R,
    alloc: Global,
    lines: &mut String,
    table: &Table,
    policy: &Policy,
    edge: Edge,
    edges: &mut Vec<Edge>,
) -> Result<(), Refusal> {
    match asked_by(rt, alloc, table, policy, &edge)? {
        Some(asked) => push_asked(lines, table, edge, &asked, edges),
        None => {
            let edge = EdgeLine { table, edge };
            writeln!(lines, "`{edge}` comes from the policy alone")?;
            Ok(())
        }
    }
}

/// Adds by which rule an edge comes, and from which others, which become part of `edges`.
fn push_asked(
    lines: &mut String,
    table: &Table,
    edge: Edge,
    asked: &Asked,
    edges: &mut Vec<Edge>,
) -> Result<(), Refusal> {
    let rule = asked.rule;
    let edge = EdgeLine { table, edge };
    let list = EdgeList {
        table,
        edges: &asked.by,
    };
    writeln!(lines, "`{edge}` follows by {rule} from {list}")?;
    push_new(edges, &asked.by)?;
    Ok(())
}

/// Adds those edges to a list that it doesn't have.
pub(crate) fn push_new(edges: &mut Vec<Edge>, others: &[Edge]) -> Result<(), AllocError> {
    for edge in others {
        push_edge(edges, *edge)?;
    }
    Ok(())
}

/// Adds an edge to a list that doesn't have it.
pub(crate) fn push_edge(edges: &mut Vec<Edge>, edge: Edge) -> Result<(), AllocError> {
    if !edges.contains(&edge) {
        edges.push(edge)?;
    }
    Ok(())
}

/// By which rule an edge is asked for: what the table asks for comes before what the policy does.
fn asked_by<R: Threads + Sync>(
    rt: &R,
    alloc: Global,
    table: &Table,
    policy: &Policy,
    edge: &Edge,
) -> Result<Option<Asked>, Refusal> {
    match asked_by_table(rt, alloc, table, edge)? {
        Some(asked) => Ok(Some(asked)),
        None => asked_by_policy(rt, alloc, table, policy, edge),
    }
}

fn asked_by_table<R: Threads + Sync>(
    rt: &R,
    alloc: Global,
    table: &Table,
    edge: &Edge,
) -> Result<Option<Asked>, Refusal> {
    let edges = authority(alloc, table)?;
    rule_for(rt, alloc, table, &edges, edge)
}

fn asked_by_policy<R: Threads + Sync>(
    rt: &R,
    alloc: Global,
    table: &Table,
    policy: &Policy,
    edge: &Edge,
) -> Result<Option<Asked>, Refusal> {
    let edges = policy.edges(alloc)?;
    rule_for(rt, alloc, table, &edges, edge)
}

/// The rule by which an edge is asked for, and the edges by which it is.
#[derive(Drop)]
struct Asked {
    rule: &'static str,
    by: Vec<Edge>,
}

/// The rule by which closing comes to an edge, from edges without it, if it comes to it.
fn rule_for<R: Threads + Sync>(
    rt: &R,
    alloc: Global,
    table: &Table,
    edges: &[Edge],
    wanted: &Edge,
) -> Result<Option<Asked>, Refusal> {
    let mut policy = Policy::new(alloc);
    let asked = rule_of(rt, alloc, table, edges, wanted, &mut policy);
    drop(policy);
    asked
}

/// The rule by which closing comes to an edge. `policy` is empty before, and is given the other edges.
fn rule_of<R: Threads + Sync>(
    rt: &R,
    alloc: Global,
    table: &Table,
    edges: &[Edge],
    wanted: &Edge,
    policy: &mut Policy,
) -> Result<Option<Asked>, Refusal> {
    add_others(policy, edges, wanted)?;
    for _ in 0..MOST_EDGES {
        let Some(broken) = first_broken(rt, policy) else {
            return Ok(None);
        };
        match mending_edge(table, policy, &Denial::Policy(broken)) {
            Some(edge) if edge == *wanted => return Ok(Some(asked_of(alloc, policy, broken)?)),
            Some(edge) => policy.add(edge)?,
            None => return Ok(None),
        }
    }
    Ok(None)
}

/// Adds these edges to a policy, but for one.
fn add_others(policy: &mut Policy, edges: &[Edge], left_out: &Edge) -> Result<(), Refusal> {
    for edge in edges {
        if edge != left_out {
            policy.add(*edge)?;
        }
    }
    Ok(())
}

/// The rule that is broken, and the edges of the policy by which it asks for another, each once.
fn asked_of(alloc: Global, policy: &Policy, broken: Broken) -> Result<Asked, AllocError> {
    let mut by = Vec::new(alloc);
    for premise in premises(policy, broken) {
        if let Some(edge) = premise {
            push_edge(&mut by, edge)?;
        }
    }
    let rule = broken.rule();
    Ok(Asked { rule, by })
}
