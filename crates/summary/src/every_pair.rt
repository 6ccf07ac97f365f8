//! The matrix of flows between programs.
ghost use Rattle.std.specs.Prelude.{◌≡◌, IfOk, string_bytes};
ghost use Rattle.summary.specs.FlowMatrix.{IsFlowMatrix, flow_matrix_text};

use crate::flow_sizes::{FlowRow, flow_rows};
use crate::matrix::write_matrix;
use flows::FlowGraph;
use reach::Reach;
use std::alloc::{AllocError, Global};
use table::Table;

/// What the matrix begins with.
const HEAD: &str = "\
through how many other programs all flows from one to another go, in any run:
  . nothing flows, d: directly, +: more than 5
";

/// Returns the matrix of the flows between the programs of a table: in the row of one and the column of another, the
/// number of programs in the smallest sets through which all flows from the one to the other go.
pub fn flow_matrix(alloc: Global, reach: &Reach<'_>) -> Result<Vec<u8>, AllocError>
    ensures { IfOk result (λ text. IsFlowMatrix reach.now text.items) }
{
    let table = reach.table();
    let graph = FlowGraph::of(alloc, reach)?;
    let rows = flow_rows(alloc, table, &graph)?;
    Ok(matrix_of(alloc, table, &rows)?.into_bytes())
}

fn matrix_of(alloc: Global, table: &Table, rows: &[FlowRow]) -> Result<String, AllocError>
    ensures { IfOk result (λ text. string_bytes text ≡ flow_matrix_text table.now rows.now) }
{
    if rows.is_empty() {
        return String::from_str(alloc, "no label has a thread\n");
    }
    let mut text = String::from_str(alloc, HEAD)?;
    write_matrix(alloc, &mut text, table, rows)?;
    Ok(text)
}
