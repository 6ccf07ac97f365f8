//! The cells of the matrix: the letters of the reasons, `t`, a dot, and an `m` for memory.
ghost use Rattle.std.specs.Prelude.{◌++◌, ◌≡◌, IfOk, OnOk, string_bytes};
ghost use Rattle.summary.specs.{Marks.{cells, extent_text, letters, marks}, Padding.given};

use crate::matrix_rows::MatrixRow;
use crate::rows::Row;
use base::Label;
use std::alloc::{AllocError, Global};

impl MatrixRow for Row {
    ghost cells = { cells };

    fn number(&self) -> usize {
        self.number
    }

    fn label(&self) -> Label {
        self.label
    }

    fn cell(&self, alloc: Global, other: &Row) -> Result<String, AllocError> {
        marks(alloc, self, other.label)
    }
}

/// Returns the cell of a row and another label.
pub fn marks(alloc: Global, row: &Row, label: Label) -> Result<String, AllocError>
    ensures { IfOk result (λ text. string_bytes text ≡ marks row.now label) }
{
    let mut text = String::new(alloc);
    write_extent(&mut text, row, label)?;
    push_if(&mut text, row.shares.has(label), "m")?;
    Ok(text)
}

fn write_extent(text: &mut String, row: &Row, label: Label) -> Result<(), AllocError>
    ensures { OnOk result (string_bytes text.new ≡ string_bytes text.old ++ extent_text row.now label) }
{
    if row.changes.has(label) {
        return write_letters(text, row, label);
    }
    if row.shrinks.has(label) {
        return text.push_str("t");
    }
    push_if(text, !row.shares.has(label), ".")
}

fn write_letters(text: &mut String, row: &Row, label: Label) -> Result<(), AllocError>
    ensures { OnOk result (string_bytes text.new ≡ string_bytes text.old ++ letters row.now label) }
{
    push_if(text, row.calls.has(label), "C")?;
    push_if(text, row.answers.has(label), "A")?;
    push_if(text, row.signals.has(label), "S")?;
    push_if(text, row.others.has(label), "F")
}

fn push_if(text: &mut String, there: bool, piece: &str) -> Result<(), AllocError>
    ensures { OnOk result (string_bytes text.new ≡ string_bytes text.old ++ given there piece.now) }
{
    if there {
        text.push_str(piece)?;
    }
    Ok(())
}
