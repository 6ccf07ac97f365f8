//! The summary of a system as one text.
ghost use Rattle.std.specs.Prelude.{◌++◌, ◌≡◌, IfOk, OnOk, string_bytes};
ghost use Rattle.summary.specs.{Labelled.others_of, Whole.{IsSummary, others_text, summary_text}};

use crate::labelled::others;
use crate::matrix::write_matrix;
use crate::regions::write_regions;
use crate::rows::{Row, rows_of};
use reach::Reach;
use std::alloc::{AllocError, Global};
use table::Table;

/// The beginning of the summary.
const HEAD: &str = "\
who may change whom, in any run: C calls, A answers, S signals, F for another reason, t only takes away, \
. never; m: memory that one writes and the other has
";

/// Returns the summary of a table with this reach: a matrix of who may change whom in any run, and the labels
/// without a thread with those who change and read them.
pub fn summary(alloc: Global, reach: &Reach<'_>) -> Result<Vec<u8>, AllocError>
    ensures { IfOk result (λ text. IsSummary reach.now text.items) }
{
    let table = reach.table();
    let rows = rows_of(alloc, table, reach.policy(), reach.actors())?;
    Ok(summary_of(alloc, table, &rows)?.into_bytes())
}

fn summary_of(alloc: Global, table: &Table, rows: &[Row]) -> Result<String, AllocError>
    ensures { IfOk result (λ text. string_bytes text ≡ summary_text table.now rows.now) }
{
    if rows.is_empty() {
        return String::from_str(alloc, "no label has a thread\n");
    }
    let mut text = String::from_str(alloc, HEAD)?;
    write_matrix(alloc, &mut text, table, rows)?;
    write_others(alloc, &mut text, table, rows)?;
    Ok(text)
}

// Writes the labels without a thread, if there are any.
fn write_others(
    alloc: Global,
    text: &mut String,
    table: &Table,
    rows: &[Row],
) -> Result<(), AllocError>
    ensures { OnOk result (string_bytes text.new
        ≡ string_bytes text.old ++ others_text table.now rows.now (others_of table.now)) }
{
    let others = others(alloc, table)?;
    if others.is_empty() {
        return Ok(());
    }
    text.push_str("\n")?;
    write_regions(alloc, text, table, rows, &others)
}
