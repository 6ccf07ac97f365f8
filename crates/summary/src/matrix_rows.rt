//! Rows of a matrix, as the text needs them.
ghost use Rattle.std.specs.Prelude.{◌≡◌, IfOk, string_bytes};
ghost use Rattle.summary.specs.Matrix.{Cells};

use base::Label;
use std::alloc::{AllocError, Global};

/// A row of a matrix, with what a program has to do with the programs of the other rows.
pub trait MatrixRow {
    // The number and the label of each row, and the text of its cell in the column of another row.
    ghost cells: { Cells Self };

    /// The number of the row, from 1.
    fn number(&self) -> usize
        ensures { result ≡ cells.number self.now };

    /// The label of the program.
    fn label(&self) -> Label
        ensures { result ≡ cells.label self.now };

    /// The text of the row's cell in the column of another row.
    fn cell(&self, alloc: Global, other: &Self) -> Result<String, AllocError>
        ensures { IfOk result (λ text. string_bytes text ≡ cells.cell self.now other.now) };
}
