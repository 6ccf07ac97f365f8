//! The boxes of programs, with the labels without a thread that one program alone uses.
ghost use Rattle.std.specs.{List.{flat_map, list_all}, Prelude.{◌++◌, ◌==◌, ◌||◌, ◌≡◌, IfOk, OnOk, map, not, string_bytes}};
ghost use Rattle.{base.specs.Labels.is_in, policy.specs.Policy.allows};
ghost use Rattle.diagram.specs.{Folded.{box_text, inside_text}, Programs.program_of, Regions.{inside, is_inside}};

use crate::verbs::uses;
use base::Label;
use captext::label_name;
use policy::Policy;
use std::alloc::{AllocError, Global};
use summary::{Row, write_names};
use table::Table;

/// Writes a box for each program.
#[tactic(auto, using(summary::proofs::OneMore::piece_more))]
pub(crate) fn write_boxes(
    alloc: Global,
    text: &mut String,
    table: &Table,
    policy: &Policy,
    rows: &[Row],
    others: &[Label],
) -> Result<(), AllocError>
    ensures { OnOk result (string_bytes text.new ≡ string_bytes text.old ++ flat_map (λ row. box_text table.now
        (map (program_of (allows policy.now)) rows.now) others.now (program_of (allows policy.now) row)) rows.now) }
{
    for row in rows {
        write_box(alloc, text, table, policy, rows, others, row)?;
    }
    Ok(())
}

fn write_box(
    alloc: Global,
    text: &mut String,
    table: &Table,
    policy: &Policy,
    rows: &[Row],
    others: &[Label],
    row: &Row,
) -> Result<(), AllocError>
    ensures { OnOk result (string_bytes text.new ≡ string_bytes text.old ++ box_text table.now
        (map (program_of (allows policy.now)) rows.now) others.now (program_of (allows policy.now) row.now)) }
{
    let name = label_name(table, row.label);
    let labels = inside(alloc, policy, rows, others, row)?;
    write!(text, "  \"{name}\"")?;
    write_inside(text, table, name, &labels)?;
    text.push_str("\n")
}

// Writes the names of labels inside a box.
fn write_inside(
    text: &mut String,
    table: &Table,
    name: &str,
    labels: &[Label],
) -> Result<(), AllocError>
    ensures { OnOk result (string_bytes text.new ≡ string_bytes text.old ++ inside_text table.now name.now labels.now) }
{
    match labels.first() {
        Some(_) => {
            write!(text, " [label=\"{name}\\nwith ")?;
            write_names(text, table, labels)?;
            text.push_str("\"]")
        }
        None => Ok(()),
    }
}

// The labels that a program alone uses.
#[tactic(auto, using(summary::proofs::Pieces::kept_more, summary::proofs::Pieces::kept_same))]
fn inside(
    alloc: Global,
    policy: &Policy,
    rows: &[Row],
    others: &[Label],
    row: &Row,
) -> Result<Vec<Label>, AllocError>
    ensures { IfOk result (λ labels. labels.items ≡ inside (map (program_of (allows policy.now)) rows.now) others.now
        (program_of (allows policy.now) row.now)) }
{
    let mut found = Vec::new(alloc);
    for label in others {
        if is_inside(policy, rows, row, *label) {
            found.push(*label)?;
        }
    }
    Ok(found)
}

// Whether a program uses a label, and no other does.
fn is_inside(policy: &Policy, rows: &[Row], row: &Row, label: Label) -> bool
    ensures { result ≡ is_inside (map (program_of (allows policy.now)) rows.now)
        (program_of (allows policy.now) row.now) label }
{
    let _ = policy;
    uses(row, label) && is_apart(rows, row.label, label)
}

// Whether no other program uses a label.
fn is_apart(rows: &[Row], actor: Label, label: Label) -> bool
    ensures { result ≡ list_all (λ row. row.label == actor
        || not ((is_in row.changes label || is_in row.shrinks label) || is_in row.reads label)) rows.now }
{
    rows.iter()
        .all(|row| row.label == actor || !uses(row, label))
}
