//! The widths of the parts of a line of a matrix, and the columns of a block.
ghost use Rattle.std.specs.{List.fold, Prelude.{ℕ, ◌≡◌, ◌<◌, IfOk, length}};
ghost use Rattle.summary.specs.Matrix.{columns, longest_name, page_of, shown_from};

use crate::matrix_rows::MatrixRow;
use crate::padding::digits;
use captext::label_name;
use std::alloc::{AllocError, Global};
use table::Table;

/// The widths of the numbers and of the names that a line begins with.
#[derive(Clone, Copy)]
pub(crate) struct Page {
    pub numbers: usize,
    pub names: usize,
}

/// Returns the widths of the numbers and of the names of these rows.
pub(crate) fn page_of<R: MatrixRow>(
    alloc: Global,
    table: &Table,
    rows: &[R],
) -> Result<Page, AllocError>
    ensures { IfOk result (λ page. page ≡ page_of R.cells table.now rows.now) }
{
    let numbers = digits(alloc, rows.len())?.len();
    let names = longest_name(table, rows);
    Ok(Page { numbers, names })
}

fn longest_name<R: MatrixRow>(table: &Table, rows: &[R]) -> usize
    ensures { result ≡ longest_name R.cells table.now rows.now }
{
    let mut longest = 0;
    for row in rows {
        longest = longest.max(label_name(table, row.label()).len());
    }
    longest
}

/// Returns the number of columns of a block: as many as a line of 140 has room for, and at least one.
pub(crate) fn columns(page: Page) -> usize
    ensures columns { result ≡ columns page }
    ensures some { 0 < result }
{
    let room = 139_usize
        .saturating_sub(page.numbers)
        .saturating_sub(page.names);
    (room / 6).max(1)
}

/// Returns the rows that are the columns of the block which begins with this one.
pub(crate) fn shown_from<R>(page: Page, rows: &[R], first: usize) -> &[R]
    requires { first < length rows.now }
    ensures { result.now ≡ shown_from page rows.now first }
{
    let rest = &rows[first..];
    let columns = columns(page);
    if rest.len() <= columns {
        return rest;
    }
    &rest[..columns]
}
