//! The words on where the edges come from by which labels use another.
use base::{Edge, Kind, Label, Refusal};
use explain_denials::Origins;
use explain_rules::Sheet;
use reach::Reach;
use search::edges_of;
use std::alloc::{AllocError, Global};

/// Returns for each label that may change objects of the label of this name, or take something away from them, where
/// the edges of the reason come from. The reach is that of the sheet's table.
///
/// # Errors
///
/// 40 where memory is refused.
pub fn explain_changers(
    alloc: Global,
    sheet: Sheet<'_>,
    reach: &Reach<'_>,
    object: &str,
) -> Result<String, Refusal> {
    match sheet.table.label_named(object) {
        Some(object) => {
            let edges = change_edges(alloc, reach, object)?;
            origins_of(alloc, sheet, reach, edges)
        }
        None => Ok(String::new(alloc)),
    }
}

/// Returns for each label that may read objects of the label of this name where the edges come from by which it may.
/// The reach is that of the sheet's table.
///
/// # Errors
///
/// 40 where memory is refused.
pub fn explain_readers(
    alloc: Global,
    sheet: Sheet<'_>,
    reach: &Reach<'_>,
    object: &str,
) -> Result<String, Refusal> {
    match sheet.table.label_named(object) {
        Some(object) => {
            let edges = read_edges(alloc, reach, object)?;
            origins_of(alloc, sheet, reach, edges)
        }
        None => Ok(String::new(alloc)),
    }
}

/// Returns the edges of the reasons for which other labels may change objects of a label.
fn change_edges(alloc: Global, reach: &Reach<'_>, object: Label) -> Result<Vec<Edge>, Refusal> {
    let mut edges = Vec::new(alloc);
    for actor in reach.table().labels().iter() {
        if actor != object {
            for edge in &edges_of(alloc, reach.why(alloc, actor, object)?) {
                push_edge(&mut edges, *edge)?;
            }
        }
    }
    Ok(edges)
}

/// Returns the edges by which other labels may read objects of a label.
fn read_edges(alloc: Global, reach: &Reach<'_>, object: Label) -> Result<Vec<Edge>, AllocError> {
    let mut edges = Vec::new(alloc);
    for actor in reach.table().labels().iter() {
        if actor != object {
            push_reads(&mut edges, reach, actor, object)?;
        }
    }
    Ok(edges)
}

/// Adds the edges by which one label may read objects of another.
fn push_reads(
    edges: &mut Vec<Edge>,
    reach: &Reach<'_>,
    from: Label,
    to: Label,
) -> Result<(), AllocError> {
    for kind in &[Kind::Read, Kind::Receive, Kind::Await] {
        let kind = *kind;
        if reach.policy().has(Edge { from, kind, to }) {
            edges.push(Edge { from, kind, to })?;
        }
    }
    Ok(())
}

/// Adds an edge to a list that doesn't have it.
fn push_edge(edges: &mut Vec<Edge>, edge: Edge) -> Result<(), AllocError> {
    if !edges.contains(&edge) {
        edges.push(edge)?;
    }
    Ok(())
}

/// Returns a line for each of these edges: where it comes from.
fn origins_of(
    alloc: Global,
    sheet: Sheet<'_>,
    reach: &Reach<'_>,
    edges: Vec<Edge>,
) -> Result<String, Refusal> {
    let mut edges = edges;
    let mut lines = String::new(alloc);
    let origins = Origins::of(alloc, sheet, reach)?;
    origins.push_lines(alloc, &mut lines, &mut edges)?;
    Ok(lines)
}
