//! The summary of an accepted system, as JSON.
ghost use Rattle.std.specs.{List.flat_map, Prelude.{◌++◌, ◌≡◌, IfOk, OnOk, map, string_bytes}};
ghost use Rattle.{serde_json.specs.View.view, summary.specs.Marks.marks};
ghost use Rattle.reptext.specs.{Reports.line_of, Summaries.{IsSummaryReport, cell_data, cells_of}};
ghost use Rattle.reptext.specs.Summaries.{labels_data, region_data, summary_data, told_cell};

use crate::reports::line_of;
use base::Label;
use captext::label_name;
use reach::Reach;
use serde_json::{Value, json};
use std::alloc::{AllocError, Global};
use summary::{Row, changers, marks, others, programs, readers, rows_of, takers};
use table::Table;

/// Returns the summary of a table with this reach, as one JSON object on a line: who may change
/// whom in any run, and the labels without a thread with those who change them, read them, and may
/// only take from them.
pub fn summary_report(alloc: Global, reach: &Reach<'_>) -> Result<Vec<u8>, AllocError>
    ensures { IfOk result (λ text. IsSummaryReport reach.now text.items) }
{
    let table = reach.table();
    let rows = rows_of(alloc, table, reach.policy(), reach.actors())?;
    Ok(summary_line(alloc, table, &rows)?)
}

#[tactic(auto, using(crate::proofs::Fractions::summary_has_no_float))]
fn summary_line(alloc: Global, table: &Table, rows: &[Row]) -> Result<Vec<u8>, AllocError>
    ensures { IfOk result (λ line. line.items ≡ line_of (summary_data table.now rows.now)) }
{
    let value = summary_value(alloc, table, rows)?;
    line_of(alloc, &value)
}

fn summary_value(alloc: Global, table: &Table, rows: &[Row]) -> Result<Value, AllocError>
    ensures { IfOk result (λ value. view value ≡ summary_data table.now rows.now) }
{
    json!(in alloc; {
        "cells": Value::Array(cells(alloc, table, rows)?),
        "memory": Value::Array(regions(alloc, table, rows, &others(alloc, table)?)?),
        "programs": labels_value(alloc, table, &programs(alloc, table)?)?
    })
}

// The cells that have an entry, row by row.
fn cells(alloc: Global, table: &Table, rows: &[Row]) -> Result<Vec<Value>, AllocError>
    ensures { IfOk result (λ cells. map view cells.items ≡ flat_map (cells_of table.now rows.now) rows.now) }
{
    let mut cells = Vec::new(alloc);
    for row in rows {
        push_cells(alloc, table, rows, row, &mut cells)?;
    }
    Ok(cells)
}

// Adds the cells of a row that have an entry.
#[tactic(auto, using(crate::proofs::Pieces::piece_more))]
fn push_cells(
    alloc: Global,
    table: &Table,
    rows: &[Row],
    row: &Row,
    cells: &mut Vec<Value>,
) -> Result<(), AllocError>
    ensures { OnOk result (map view cells.new.items
        ≡ map view cells.old.items ++ cells_of table.now rows.now row.now) }
{
    for other in rows {
        push_cell(alloc, table, row, other, cells)?;
    }
    Ok(())
}

// Adds a cell, if it has an entry.
fn push_cell(
    alloc: Global,
    table: &Table,
    row: &Row,
    other: &Row,
    cells: &mut Vec<Value>,
) -> Result<(), AllocError>
    ensures { OnOk result (map view cells.new.items
        ≡ map view cells.old.items ++ told_cell table.now row.now other.now) }
{
    if row.label == other.label {
        return Ok(());
    }
    let letters = marks(alloc, row, other.label)?;
    if letters.as_str() == "." {
        return Ok(());
    }
    cells.push(cell_value(alloc, table, row, other, letters)?)?;
    Ok(())
}

// The cell of a row and a column, with these letters.
fn cell_value(
    alloc: Global,
    table: &Table,
    row: &Row,
    other: &Row,
    letters: String,
) -> Result<Value, AllocError>
    requires { string_bytes letters ≡ marks row.now other.now.label }
    ensures { IfOk result (λ value. view value ≡ cell_data table.now row.now other.now) }
{
    json!(in alloc; [
        label_name(table, row.label),
        label_name(table, other.label),
        Value::String(letters)
    ])
}

// The labels without a thread, each with those who change it, read it, and may only take from it.
fn regions(
    alloc: Global,
    table: &Table,
    rows: &[Row],
    others: &[Label],
) -> Result<Vec<Value>, AllocError>
    ensures { IfOk result (λ values. map view values.items ≡ map (region_data table.now rows.now) others.now) }
{
    let mut values = Vec::with_capacity(alloc, others.len())?;
    for label in others {
        values.push(region_value(alloc, table, rows, *label)?)?;
    }
    Ok(values)
}

fn region_value(
    alloc: Global,
    table: &Table,
    rows: &[Row],
    label: Label,
) -> Result<Value, AllocError>
    ensures { IfOk result (λ value. view value ≡ region_data table.now rows.now label) }
{
    json!(in alloc; {
        "changed_by": labels_value(alloc, table, &changers(alloc, rows, label)?)?,
        "label": label_name(table, label),
        "read_by": labels_value(alloc, table, &readers(alloc, rows, label)?)?,
        "taken_by": labels_value(alloc, table, &takers(alloc, rows, label)?)?
    })
}

fn labels_value(alloc: Global, table: &Table, labels: &[Label]) -> Result<Value, AllocError>
    ensures { IfOk result (λ value. view value ≡ labels_data table.now labels.now) }
{
    let mut names = Vec::with_capacity(alloc, labels.len())?;
    for label in labels {
        names.push(Value::try_from_str(alloc, label_name(table, *label))?)?;
    }
    Ok(Value::Array(names))
}
