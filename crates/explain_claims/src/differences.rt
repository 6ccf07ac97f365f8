//! The words on what a changed system adds: by which edges, where these come from, and runs that show it.
use crate::scripts::push_run;
use base::{Edge, Kind, Label, Refusal};
use captext::label_name;
use diff::{Change, Named, Verb, changes_text};
use explain_denials::{EdgeList, Origins};
use explain_rules::Sheet;
use policy::Why;
use reach::Reach;
use runs::Question;
use search::{edges_of, find};
use std::alloc::Global;
use table::Table;

/// How many calls a search for a run tries.
const STEPS: u64 = 1_000;

/// Returns for each change that adds authority by which edges of the new system it does, and where these come from. The
/// sheet and the reach are those of the new system.
///
/// # Errors
///
/// 40 where memory is refused.
pub fn explain_differences(
    alloc: Global,
    old: &Reach<'_>,
    sheet: Sheet<'_>,
    reach: &Reach<'_>,
    changes: &[Change],
) -> Result<String, Refusal> {
    let mut lines = String::new(alloc);
    let origins = Origins::of(alloc, sheet, reach)?;
    for change in changes {
        if change.adds() {
            push_added(alloc, &mut lines, old, reach, &origins, change)?;
        }
    }
    Ok(lines)
}

/// Returns the calls of a run that shows a change which adds authority; nothing, if none is found. The sheet and the reach
/// are those of the new system. Calls by edges that the old system lacks are tried first.
///
/// # Errors
///
/// 40 where memory is refused.
pub fn explain_difference(
    alloc: Global,
    old: &Reach<'_>,
    sheet: Sheet<'_>,
    reach: &Reach<'_>,
    change: &Change,
) -> Result<String, Refusal> {
    let mut lines = String::new(alloc);
    if let Some((actor, object)) = pair_of(change) {
        let why = reach.why(alloc, actor, object)?;
        let question = Question {
            actor,
            object,
            taking: matches!(&why, Why::Take(_)),
        };
        let mut reason = reason_of(alloc, old, reach, change)?;
        if reason.is_empty() {
            reason = edges_of(alloc, why);
        }
        let found = find(alloc, sheet.table, &question, &reason, STEPS)?;
        if let Some(script) = &found.script {
            push_change(alloc, &mut lines, old.table(), sheet.table, change)?;
            lines.push_str(": a run that shows it:\n")?;
            push_run(alloc, &mut lines, sheet, script)?;
        }
    }
    Ok(lines)
}

/// Returns whether a run may show a change: it adds that threads of one label may change or take from objects of another.
pub fn may_be_shown(change: &Change) -> bool {
    change.adds() && pair_of(change).is_some()
}

/// Adds by which edges a change adds authority, and where these come from, as far as that wasn't told before.
fn push_added(
    alloc: Global,
    lines: &mut String,
    old: &Reach<'_>,
    reach: &Reach<'_>,
    origins: &Origins<'_>,
    change: &Change,
) -> Result<(), Refusal> {
    let reason = reason_of(alloc, old, reach, change)?;
    if reason.is_empty() {
        return Ok(());
    }
    if !matches!(change, Change::Edge(..)) {
        push_change(alloc, lines, old.table(), reach.table(), change)?;
        let list = EdgeList {
            table: reach.table(),
            edges: &reason,
        };
        writeln!(lines, ": by {list}.")?;
    }
    let mut edges = reason;
    let mut told = String::new(alloc);
    origins.push_lines(alloc, &mut told, &mut edges)?;
    push_new_lines(lines, &told)
}

/// Adds those of some lines that aren't there yet.
fn push_new_lines(lines: &mut String, told: &str) -> Result<(), Refusal> {
    for line in told.lines() {
        if !lines.contains(line) {
            writeln!(lines, "{line}")?;
        }
    }
    Ok(())
}

/// Adds a change as its line has it.
fn push_change(
    alloc: Global,
    lines: &mut String,
    old: &Table,
    new: &Table,
    change: &Change,
) -> Result<(), Refusal> {
    let told = [*change];
    let line = changes_text(alloc, old, new, &told)?;
    match line.strip_suffix("\n") {
        Some(words) => lines.push_str(words)?,
        None => lines.push_str(&line)?,
    }
    Ok(())
}

/// Returns the edges by which the new system has what a change adds. Of what threads may do to objects of others these are a
/// reason with an edge that the old system lacks, or else all such edges between the two.
fn reason_of(
    alloc: Global,
    old: &Reach<'_>,
    reach: &Reach<'_>,
    change: &Change,
) -> Result<Vec<Edge>, Refusal> {
    let mut edges = Vec::new(alloc);
    match change {
        Change::Use(_, from, Verb::Reads, to) => {
            for kind in &[Kind::Read, Kind::Receive, Kind::Await] {
                push_edge(&mut edges, reach, from, *kind, to)?;
            }
        }
        Change::Edge(_, from, kind, to) => push_edge(&mut edges, reach, from, *kind, to)?,
        _ => {
            if let Some((actor, object)) = pair_of(change) {
                edges = edges_of(alloc, reach.why(alloc, actor, object)?);
                if !edges.iter().any(|edge| is_new(old, reach, edge)) {
                    edges = new_edges(alloc, old, reach, actor, object)?;
                }
            }
        }
    }
    Ok(edges)
}

/// Returns the edges from one label to another that the old system lacks.
fn new_edges(
    alloc: Global,
    old: &Reach<'_>,
    reach: &Reach<'_>,
    from: Label,
    to: Label,
) -> Result<Vec<Edge>, Refusal> {
    let mut edges = Vec::new(alloc);
    for kind in &Kind::ALL {
        let kind = *kind;
        if reach.policy().has(Edge { from, kind, to })
            && is_new(old, reach, &Edge { from, kind, to })
        {
            edges.push(Edge { from, kind, to })?;
        }
    }
    Ok(edges)
}

/// Returns whether the old system lacks an edge of the new one, by the names of its labels.
fn is_new(old: &Reach<'_>, reach: &Reach<'_>, edge: &Edge) -> bool {
    let table = reach.table();
    let from = old.table().label_named(label_name(table, edge.from));
    let to = old.table().label_named(label_name(table, edge.to));
    match (from, to) {
        (Some(from), Some(to)) => !old.policy().has(Edge {
            from,
            kind: edge.kind,
            to,
        }),
        _ => true,
    }
}

/// Adds an edge between two labels of the new system, if its reach has it.
fn push_edge(
    edges: &mut Vec<Edge>,
    reach: &Reach<'_>,
    from: &Named,
    kind: Kind,
    to: &Named,
) -> Result<(), Refusal> {
    if let (Some(from), Some(to)) = (from.new, to.new) {
        if reach.policy().has(Edge { from, kind, to }) {
            edges.push(Edge { from, kind, to })?;
        }
    }
    Ok(())
}

/// Returns the labels of the new system of which a change says that threads of the one may change or take from objects of
/// the other.
fn pair_of(change: &Change) -> Option<(Label, Label)> {
    match change {
        Change::Cell(from, to, _, _) => Some((from.new?, to.new?)),
        Change::Use(_, _, Verb::Reads, _) => None,
        Change::Use(_, from, _, to) => Some((from.new?, to.new?)),
        _ => None,
    }
}
