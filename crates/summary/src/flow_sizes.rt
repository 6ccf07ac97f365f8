//! The rows of the matrix of flows: through how many programs all flows from one program to each other one go.
ghost use Rattle.std.specs.Prelude.{◌≡◌, IfOk, string_bytes};
ghost use Rattle.{reach.specs.Extents.limits_of, flows.specs.Sets.size_of, summary.specs.Labelled.programs_of};
ghost use Rattle.summary.specs.FlowMatrix.{AreToldRows, AreSizes, IsSize, cells, count_text};
ghost use Rattle.summary.specs.FlowMatrix.{first_size, size_at, size_of_smallest, size_text};

use crate::flow_lines::members;
use crate::labelled::programs;
use crate::matrix_rows::MatrixRow;
use base::{Label, Labels};
use flows::{FlowGraph, Smallest};
use std::alloc::{AllocError, Global};
use table::Table;

/// How many programs the smallest sets have through which all flows from one label to another go.
#[derive(Clone, Copy)]
pub(crate) enum Size {
    /// No set of programs is one.
    Direct,
    /// More than are looked for.
    Larger,
    /// So many; none, if nothing flows from the one label to the other.
    Programs(usize),
}

/// A program, its number in the matrix, and the sizes for what flows from it to the program of each row.
#[derive(Drop)]
pub(crate) struct FlowRow {
    pub number: usize,
    pub label: Label,
    pub sizes: Vec<Size>,
}

impl FlowRow {
    // The size in the column of a number.
    fn size_at(&self, number: usize) -> Size
        ensures { result ≡ size_at self.now number }
    {
        match self.sizes.get(number.saturating_sub(1)) {
            Some(size) => *size,
            None => Size::Direct,
        }
    }
}

impl MatrixRow for FlowRow {
    ghost cells = { cells };

    fn number(&self) -> usize {
        self.number
    }

    fn label(&self) -> Label {
        self.label
    }

    fn cell(&self, alloc: Global, other: &FlowRow) -> Result<String, AllocError> {
        size_text(alloc, self.size_at(other.number))
    }
}

// What a cell says.
fn size_text(alloc: Global, size: Size) -> Result<String, AllocError>
    ensures { IfOk result (λ text. string_bytes text ≡ size_text size) }
{
    match size {
        Size::Direct => String::from_str(alloc, "d"),
        Size::Larger => String::from_str(alloc, "+"),
        Size::Programs(count) => count_text(alloc, count),
    }
}

// What a cell says of a number of programs.
fn count_text(alloc: Global, count: usize) -> Result<String, AllocError>
    ensures { IfOk result (λ text. string_bytes text ≡ count_text count) }
{
    if count == 0 {
        return String::from_str(alloc, ".");
    }
    format!(in alloc; "{count}")
}

/// Returns the rows of the programs of a table.
pub(crate) fn flow_rows(
    alloc: Global,
    table: &Table,
    graph: &FlowGraph<'_>,
) -> Result<Vec<FlowRow>, AllocError>
    ensures { IfOk result (λ rows. AreToldRows (programs_of table.now) (limits_of graph.now) rows.items) }
{
    rows_of(alloc, graph, &programs(alloc, table)?)
}

// The rows of these labels.
fn rows_of(
    alloc: Global,
    graph: &FlowGraph<'_>,
    labels: &[Label],
) -> Result<Vec<FlowRow>, AllocError>
    ensures { IfOk result (λ rows. AreToldRows labels.now (limits_of graph.now) rows.items) }
{
    let mut rows = Vec::new(alloc);
    for (index, label) in labels.iter().enumerate() {
        let sizes = sizes_from(alloc, graph, *label, labels)?;
        rows.push(FlowRow {
            number: index + 1,
            label: *label,
            sizes,
        })?;
    }
    Ok(rows)
}

// The sizes for what flows from a label to each of some.
fn sizes_from(
    alloc: Global,
    graph: &FlowGraph<'_>,
    from: Label,
    labels: &[Label],
) -> Result<Vec<Size>, AllocError>
    ensures { IfOk result (λ sizes. AreSizes (limits_of graph.now) from labels.now sizes.items) }
{
    let mut sizes = Vec::new(alloc);
    for to in labels {
        sizes.push(size_between(alloc, graph, from, *to)?)?;
    }
    Ok(sizes)
}

// The size for what flows from one label to another.
fn size_between(
    alloc: Global,
    graph: &FlowGraph<'_>,
    from: Label,
    to: Label,
) -> Result<Size, AllocError>
    ensures { IfOk result (IsSize (limits_of graph.now) from to) }
{
    let smallest = graph.smallest_filters(alloc, from, to, 1)?;
    size_of(alloc, &smallest)
}

// The size of the smallest sets.
fn size_of(alloc: Global, smallest: &Smallest) -> Result<Size, AllocError>
    ensures { IfOk result (λ size. size ≡ size_of_smallest smallest.now) }
{
    Ok(match smallest {
        Smallest::Direct => Size::Direct,
        Smallest::Larger => Size::Larger,
        Smallest::Fewest(sets) => Size::Programs(first_size(alloc, &sets.sets)?),
    })
}

// How many programs the first of some sets has.
fn first_size(alloc: Global, sets: &[Labels]) -> Result<usize, AllocError>
    ensures { IfOk result (λ size. size ≡ first_size sets.now) }
{
    match sets.first() {
        Some(set) => count(alloc, *set),
        None => Ok(0),
    }
}

// How many labels a set has.
#[tactic(auto, using(crate::proofs::Counting::members_count))]
fn count(alloc: Global, set: Labels) -> Result<usize, AllocError>
    ensures { IfOk result (λ count. count ≡ size_of set) }
{
    Ok(members(alloc, set)?.len())
}
