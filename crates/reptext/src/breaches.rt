//! The report of claims that don't hold.
ghost use Rattle.std.specs.{List.flat_map, Prelude.{[], ◌++◌, ◌∷◌, ◌≡◌, IfOk, OnOk, map}};
ghost use Rattle.serde_json.specs.{Data.string, View.view};
ghost use Rattle.{captext.specs.PolicyText.label_name as label_name_of, claims.specs.Text.claim_text};
ghost use Rattle.reptext.specs.Breaches.{breaches_data, excluded_data, failure_data, found_data, named_data, names_both, pair_data, plain_data, told};
ghost use Rattle.reptext.specs.Reports.{line_of, names_data};

use crate::reasons::edge_value;
use crate::reports::{extent_word, line_of};
use base::{Edge, Label};
use captext::label_name;
use claims::{Breach, Broken, Claim, ClaimLines, Failure, Kept, Who, claim_text};
use reach::Extent;
use serde_json::{Value, json};
use std::alloc::{AllocError, Global};
use table::Table;

/// Returns the report of claims that don't hold, each with its line, and of what the claims on flows that hold bound.
///
/// A claim on authority has the authority that breaks it, and the two labels if it doesn't name
/// both. A claim that excludes edges has the first edge that breaks it, if it doesn't name that one
/// itself.
pub fn breaches_report(
    alloc: Global,
    table: &Table,
    lines: &ClaimLines,
    broken: &[Broken],
    kept: Kept,
) -> Result<Vec<u8>, AllocError>
    ensures { IfOk result (λ report. report.items ≡ line_of (breaches_data table.now lines.now broken.now kept)) }
{
    let value = breaches_value(alloc, table, lines, broken, kept)?;
    line_of(alloc, &value)
}

fn breaches_value(
    alloc: Global,
    table: &Table,
    lines: &ClaimLines,
    broken: &[Broken],
    kept: Kept,
) -> Result<Value, AllocError>
    ensures { IfOk result (λ value. view value ≡ breaches_data table.now lines.now broken.now kept) }
{
    json!(in alloc; {
        "broken": Value::Array(values_of(alloc, table, lines, broken)?),
        "kept": kept.word(),
        "verdict": "broken"
    })
}

fn values_of(
    alloc: Global,
    table: &Table,
    lines: &ClaimLines,
    broken: &[Broken],
) -> Result<Vec<Value>, AllocError>
    ensures { IfOk result (λ values. map view values.items ≡ flat_map (told table.now lines.now) broken.now) }
{
    let mut values = Vec::new(alloc);
    for one in broken {
        push_value(alloc, table, lines, one, &mut values)?;
    }
    Ok(values)
}

fn push_value(
    alloc: Global,
    table: &Table,
    lines: &ClaimLines,
    broken: &Broken,
    values: &mut Vec<Value>,
) -> Result<(), AllocError>
    ensures { OnOk result (map view values.new.items
        ≡ map view values.old.items ++ told table.now lines.now broken.now) }
{
    if let Some(claim) = lines.claim_at(broken.line) {
        values.push(value_of(alloc, table, claim, broken)?)?;
    }
    Ok(())
}

fn value_of(
    alloc: Global,
    table: &Table,
    claim: &Claim,
    broken: &Broken,
) -> Result<Value, AllocError>
    ensures { IfOk result (λ value. view value ≡ failure_data table.now claim.now broken.now.line broken.now.failure) }
{
    match broken.failure {
        Failure::Pair(breach) => pair_value(alloc, table, claim, broken.line, breach),
        Failure::Chain => plain_value(alloc, table, claim, broken.line),
        Failure::Edge(edge) => excluded_value(alloc, table, claim, broken.line, edge),
    }
}

// A claim that is broken.
fn plain_value(
    alloc: Global,
    table: &Table,
    claim: &Claim,
    line: usize,
) -> Result<Value, AllocError>
    ensures { IfOk result (λ value. view value ≡ plain_data table.now claim.now line) }
{
    json!(in alloc; {"claim": text_value(alloc, table, claim)?, "line": line as u64})
}

// A claim that excludes edges and is broken, with the edge if the claim doesn't name it.
fn excluded_value(
    alloc: Global,
    table: &Table,
    claim: &Claim,
    line: usize,
    edge: Edge,
) -> Result<Value, AllocError>
    ensures { IfOk result (λ value. view value ≡ excluded_data table.now claim.now line edge) }
{
    if names_both(claim) {
        return plain_value(alloc, table, claim, line);
    }
    json!(in alloc; {
        "claim": text_value(alloc, table, claim)?,
        "edge": edge_value(alloc, table, edge)?,
        "line": line as u64
    })
}

// A claim on authority that is broken, with the authority.
fn pair_value(
    alloc: Global,
    table: &Table,
    claim: &Claim,
    line: usize,
    breach: Breach,
) -> Result<Value, AllocError>
    ensures { IfOk result (λ value. view value ≡ pair_data table.now claim.now line breach) }
{
    if names_both(claim) {
        named_value(alloc, table, claim, line, breach.extent)
    } else {
        found_value(alloc, table, claim, line, breach)
    }
}

// A claim that is broken and names the two labels, with the authority.
fn named_value(
    alloc: Global,
    table: &Table,
    claim: &Claim,
    line: usize,
    extent: Extent,
) -> Result<Value, AllocError>
    ensures { IfOk result (λ value. view value ≡ named_data table.now claim.now line extent) }
{
    json!(in alloc; {
        "authority": extent_word(extent),
        "claim": text_value(alloc, table, claim)?,
        "line": line as u64
    })
}

// Any other claim on authority that is broken, with the authority and its two labels.
fn found_value(
    alloc: Global,
    table: &Table,
    claim: &Claim,
    line: usize,
    breach: Breach,
) -> Result<Value, AllocError>
    ensures { IfOk result (λ value. view value ≡ found_data table.now claim.now line breach) }
{
    json!(in alloc; {
        "authority": extent_word(breach.extent),
        "claim": text_value(alloc, table, claim)?,
        "line": line as u64,
        "pair": labels_value(alloc, table, breach.actor, breach.object)?
    })
}

// The text of a claim.
fn text_value(alloc: Global, table: &Table, claim: &Claim) -> Result<Value, AllocError>
    ensures { IfOk result (λ value. view value ≡ string (claim_text table.now claim.now)) }
{
    Ok(Value::String(claim_text(alloc, claim, table)?))
}

// The names of two labels.
fn labels_value(
    alloc: Global,
    table: &Table,
    actor: Label,
    object: Label,
) -> Result<Value, AllocError>
    ensures { IfOk result (λ value.
        view value ≡ names_data (label_name_of table.now actor ∷ label_name_of table.now object ∷ [])) }
{
    json!(in alloc; [label_name(table, actor), label_name(table, object)])
}

// Whether a claim itself names the two labels that it bounds, or the edge that it excludes.
fn names_both(claim: &Claim) -> bool
    ensures { result ≡ names_both claim.now }
{
    match claim {
        Claim::AtMost(_, Who::One(_), Who::One(_)) => true,
        Claim::Without(Who::One(_), _, Who::One(_)) => true,
        _ => false,
    }
}
