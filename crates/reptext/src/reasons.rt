//! The authority of a label on another, as JSON.
ghost use Rattle.std.specs.Prelude.{◌≡◌, IfOk, map};
ghost use Rattle.{serde_json.specs.View.view, reptext.specs.{Reasons.{edge_data, reason_data, why_data}, Reports.line_of}};

use crate::reports::{extent_word, line_of};
use base::{Edge, Label};
use captext::label_name;
use policy::Why;
use reach::Extent;
use serde_json::{Value, json};
use std::alloc::{AllocError, Global};
use table::Table;

/// Returns what a label may do to another, as one JSON object on a line: how far it goes, and the
/// edges of a reason.
#[tactic(auto, using(crate::proofs::Fractions::why_has_no_float))]
pub fn why_report(
    alloc: Global,
    table: &Table,
    actor: Label,
    object: Label,
    why: &Why,
) -> Result<Vec<u8>, AllocError>
    ensures { IfOk result (λ line. line.items ≡ line_of (why_data table.now actor object why.now)) }
{
    let value = why_value(alloc, table, actor, object, why)?;
    line_of(alloc, &value)
}

fn why_value(
    alloc: Global,
    table: &Table,
    actor: Label,
    object: Label,
    why: &Why,
) -> Result<Value, AllocError>
    ensures { IfOk result (λ value. view value ≡ why_data table.now actor object why.now) }
{
    match why {
        Why::Full(edges) => reason_value(alloc, table, actor, object, Extent::Full, edges),
        Why::Take(edges) => reason_value(alloc, table, actor, object, Extent::Take, edges),
        Why::Nothing => reason_value(alloc, table, actor, object, Extent::Nothing, &[]),
    }
}

fn reason_value(
    alloc: Global,
    table: &Table,
    actor: Label,
    object: Label,
    extent: Extent,
    edges: &[Edge],
) -> Result<Value, AllocError>
    ensures { IfOk result (λ value. view value ≡ reason_data table.now actor object extent edges.now) }
{
    json!(in alloc; {
        "actor": label_name(table, actor),
        "authority": extent_word(extent),
        "edges": Value::Array(edge_values(alloc, table, edges)?),
        "object": label_name(table, object)
    })
}

fn edge_values(alloc: Global, table: &Table, edges: &[Edge]) -> Result<Vec<Value>, AllocError>
    ensures { IfOk result (λ values. map view values.items ≡ map (edge_data table.now) edges.now) }
{
    let mut values = Vec::with_capacity(alloc, edges.len())?;
    for edge in edges {
        values.push(edge_value(alloc, table, *edge)?)?;
    }
    Ok(values)
}

/// Returns the three words of an edge.
pub(crate) fn edge_value(alloc: Global, table: &Table, edge: Edge) -> Result<Value, AllocError>
    ensures { IfOk result (λ value. view value ≡ edge_data table.now edge) }
{
    json!(in alloc; [label_name(table, edge.from), edge.kind.name(), label_name(table, edge.to)])
}
