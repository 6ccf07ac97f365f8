//! The text of a matrix.
ghost use Rattle.std.specs.{List.flat_map, Prelude.{◌++◌, ◌<◌, ◌≡◌, IfOk, OnOk, length, string_bytes}};
ghost use Rattle.summary.specs.Matrix.{block_from, blocks_text, cell_text, head_text, line_text, matrix_text, number_text, start_text};

use crate::matrix_rows::MatrixRow;
use crate::padding::{digits, push_at_left, push_at_right};
use crate::page::{Page, columns, page_of, shown_from};
use captext::label_name;
use std::alloc::{AllocError, Global};
use table::Table;

/// Writes the matrix of these rows.
pub fn write_matrix<R: MatrixRow>(
    alloc: Global,
    text: &mut String,
    table: &Table,
    rows: &[R],
) -> Result<(), AllocError>
    ensures { OnOk result (string_bytes text.new ≡ string_bytes text.old ++ matrix_text R.cells table.now rows.now) }
{
    let page = page_of(alloc, table, rows)?;
    write_blocks(alloc, text, table, page, rows)
}

#[tactic(auto, using(crate::proofs::OneMore::number_more))]
fn write_blocks<R: MatrixRow>(
    alloc: Global,
    text: &mut String,
    table: &Table,
    page: Page,
    rows: &[R],
) -> Result<(), AllocError>
    ensures { OnOk result (string_bytes text.new ≡ string_bytes text.old ++ blocks_text R.cells table.now page rows.now) }
{
    for first in 0..rows.len() {
        write_block_from(alloc, text, table, page, rows, first)?;
    }
    Ok(())
}

// Writes the block whose first column is this, if one begins there.
fn write_block_from<R: MatrixRow>(
    alloc: Global,
    text: &mut String,
    table: &Table,
    page: Page,
    rows: &[R],
    first: usize,
) -> Result<(), AllocError>
    requires { first < length rows.now }
    ensures { OnOk result (string_bytes text.new
        ≡ string_bytes text.old ++ block_from R.cells table.now page rows.now first) }
{
    if first % columns(page) != 0 {
        return Ok(());
    }
    let shown = shown_from(page, rows, first);
    text.push_str("\n")?;
    write_head(alloc, text, page, shown)?;
    write_lines(alloc, text, table, page, shown, rows)
}

#[tactic(auto, using(crate::proofs::OneMore::piece_more))]
fn write_lines<R: MatrixRow>(
    alloc: Global,
    text: &mut String,
    table: &Table,
    page: Page,
    shown: &[R],
    rows: &[R],
) -> Result<(), AllocError>
    ensures { OnOk result (string_bytes text.new
        ≡ string_bytes text.old ++ flat_map (line_text R.cells table.now page shown.now) rows.now) }
{
    for row in rows {
        write_line(alloc, text, table, page, shown, row)?;
    }
    Ok(())
}

// Writes the numbers of columns.
fn write_head<R: MatrixRow>(
    alloc: Global,
    text: &mut String,
    page: Page,
    shown: &[R],
) -> Result<(), AllocError>
    ensures { OnOk result (string_bytes text.new ≡ string_bytes text.old ++ head_text R.cells page shown.now) }
{
    write_start(text, page, "", "")?;
    write_numbers(alloc, text, shown)?;
    text.push_str("\n")
}

#[tactic(auto, using(crate::proofs::OneMore::piece_more))]
fn write_numbers<R: MatrixRow>(
    alloc: Global,
    text: &mut String,
    shown: &[R],
) -> Result<(), AllocError>
    ensures { OnOk result (string_bytes text.new ≡ string_bytes text.old ++ flat_map (number_text R.cells) shown.now) }
{
    for row in shown {
        write_number(alloc, text, row)?;
    }
    Ok(())
}

fn write_number<R: MatrixRow>(alloc: Global, text: &mut String, row: &R) -> Result<(), AllocError>
    ensures { OnOk result (string_bytes text.new ≡ string_bytes text.old ++ number_text R.cells row.now) }
{
    let number = digits(alloc, row.number())?;
    push_at_right(text, &number, 6)
}

// Writes the beginning of a line.
fn write_start(text: &mut String, page: Page, number: &str, name: &str) -> Result<(), AllocError>
    ensures { OnOk result (string_bytes text.new ≡ string_bytes text.old ++ start_text page number.now name.now) }
{
    push_at_right(text, number, page.numbers)?;
    text.push_str(" ")?;
    push_at_left(text, name, page.names)
}

// Writes the line of a row.
fn write_line<R: MatrixRow>(
    alloc: Global,
    text: &mut String,
    table: &Table,
    page: Page,
    shown: &[R],
    row: &R,
) -> Result<(), AllocError>
    ensures { OnOk result (string_bytes text.new
        ≡ string_bytes text.old ++ line_text R.cells table.now page shown.now row.now) }
{
    let number = digits(alloc, row.number())?;
    write_start(text, page, &number, label_name(table, row.label()))?;
    write_cells(alloc, text, row, shown)?;
    text.push_str("\n")
}

#[tactic(auto, using(crate::proofs::OneMore::piece_more))]
fn write_cells<R: MatrixRow>(
    alloc: Global,
    text: &mut String,
    row: &R,
    shown: &[R],
) -> Result<(), AllocError>
    ensures { OnOk result (string_bytes text.new
        ≡ string_bytes text.old ++ flat_map (cell_text R.cells row.now) shown.now) }
{
    for other in shown {
        write_cell(alloc, text, row, other)?;
    }
    Ok(())
}

fn write_cell<R: MatrixRow>(
    alloc: Global,
    text: &mut String,
    row: &R,
    other: &R,
) -> Result<(), AllocError>
    ensures { OnOk result (string_bytes text.new ≡ string_bytes text.old ++ cell_text R.cells row.now other.now) }
{
    if row.label() == other.label() {
        return push_at_right(text, "=", 6);
    }
    let cell = row.cell(alloc, other)?;
    push_at_right(text, &cell, 6)
}
