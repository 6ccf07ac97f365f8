//! A system as one side of a comparison: what its labels are, and what they may do.
ghost use Rattle.std.specs.Prelude.{◌≡◌, IfOk, length, nat_lt, option_copied};
ghost use Rattle.diff.specs.Side.{cell, has_edge, has_role, marks_of, region_at, row_at, row_in, standing, use_in, uses};

use crate::change::{Marks, Role, Standing, Verb};
use base::{Edge, Kind, Label};
use reach::Reach;
use std::alloc::{AllocError, Global};
use std::marker::Model;
use summary::{Row, rows_of};
use table::Table;

/// A system as one side of a comparison.
#[derive(Drop)]
pub(crate) struct Side<'a> {
    reach: &'a Reach<'a>,
    rows: Vec<Row>,
}

impl<'a> Model for Side<'a> {
    ghost use Rattle.summary.specs.Rows.{AreRows};
    ghost use Rattle.diff.specs.Side.{SideOf};

    ghost Value = { SideOf };

    ghost view = { λ side. record { reach = side.reach.now; rows = side.rows.items } };

    ghost invariant = { λ side. AreRows side.reach.now side.rows.items };
}

impl<'a> Side<'a> {
    /// Returns the side of a system with this reach.
    pub(crate) fn of(alloc: Global, reach: &'a Reach<'a>) -> Result<Side<'a>, AllocError>
        ensures { IfOk result (λ side. side.reach ≡ reach.now) }
    {
        let rows = rows_of(alloc, reach.table(), reach.policy(), reach.actors())?;
        Ok(Side { reach, rows })
    }

    /// Returns the table.
    pub(crate) fn table(&self) -> &Table
        ensures { result.now ≡ self.now.reach.table }
    {
        self.reach.table()
    }

    /// Returns the edges of the reach.
    pub(crate) fn edges(&self, alloc: Global) -> Result<Vec<Edge>, AllocError>
        ensures { IfOk result (λ edges. edges.items ≡ self.now.reach.policy) }
    {
        self.reach.policy().edges(alloc)
    }

    /// Returns what a label is.
    pub(crate) fn standing(&self, label: Option<Label>) -> Standing
        ensures { result ≡ standing self.now label }
    {
        match label {
            Some(label) if self.is_here(label) => {
                if row_in(&self.rows, label).is_some() {
                    return Standing::Program;
                }
                Standing::Label
            }
            _ => Standing::Absent,
        }
    }

    /// Returns what threads of one program may do to objects of another.
    pub(crate) fn cell(&self, from: Option<Label>, to: Option<Label>) -> Marks
        ensures { result ≡ cell self.now from to }
    {
        match (self.row_at(from), self.row_at(to)) {
            (Some(row), Some(other)) if row.label.number() != other.label.number() => marks_of(
                row,
                other.label,
            ),
            _ => NO_MARKS,
        }
    }

    /// Returns whether a program does this to a label without a thread.
    pub(crate) fn uses(&self, verb: Verb, from: Option<Label>, to: Option<Label>) -> bool
        ensures { result ≡ uses self.now verb from to }
    {
        match (self.row_at(from), self.region_at(to)) {
            (Some(row), Some(region)) => use_in(verb, row, region),
            _ => false,
        }
    }

    /// Returns whether a label is this.
    pub(crate) fn has_role(&self, role: Role, label: Option<Label>) -> bool
        ensures { result ≡ has_role self.now role label }
    {
        match (role, label) {
            (_, None) => false,
            (Role::Keeper, Some(label)) => self.reach.keepers().has(label),
            (Role::Actor, Some(label)) => self.reach.actors().has(label),
        }
    }

    /// Returns whether the reach has an edge between two labels.
    pub(crate) fn has_edge(&self, from: Option<Label>, kind: Kind, to: Option<Label>) -> bool
        ensures { result ≡ has_edge self.now from kind to }
    {
        match (from, to) {
            (Some(from), Some(to)) => self.reach.policy().has(Edge { from, kind, to }),
            _ => false,
        }
    }

    // The row of a program.
    fn row_at(&self, label: Option<Label>) -> Option<&Row>
        ensures { option_copied result ≡ row_at self.now label }
    {
        match label {
            Some(label) if self.is_here(label) => row_in(&self.rows, label),
            _ => None,
        }
    }

    // The label itself, if it is one without a thread.
    fn region_at(&self, label: Option<Label>) -> Option<Label>
        ensures { result ≡ region_at self.now label }
    {
        let label = label?;
        if self.is_here(label) && row_in(&self.rows, label).is_none() {
            return Some(label);
        }
        None
    }

    // Whether the table has a label of this number.
    fn is_here(&self, label: Label) -> bool
        ensures { result ≡ nat_lt label (length self.now.reach.table.labels) }
    {
        (label.number() as usize) < self.reach.table().label_count()
    }
}

const NO_MARKS: Marks = Marks {
    changes: false,
    calls: false,
    answers: false,
    signals: false,
    others: false,
    takes: false,
    shares: false,
};

// The row of a label.
fn row_in(rows: &[Row], label: Label) -> Option<&Row>
    ensures { option_copied result ≡ row_in rows.now label }
{
    rows.iter().find(|row| row.label.number() == label.number())
}

// What a row says of another program.
fn marks_of(row: &Row, label: Label) -> Marks
    ensures { result ≡ marks_of row.now label }
{
    let changes = row.changes.has(label);
    Marks {
        changes,
        calls: row.calls.has(label),
        answers: row.answers.has(label),
        signals: row.signals.has(label),
        others: row.others.has(label),
        takes: row.shrinks.has(label) && !changes,
        shares: row.shares.has(label),
    }
}

// Whether a row says this of a label without a thread.
fn use_in(verb: Verb, row: &Row, label: Label) -> bool
    ensures { result ≡ use_in verb row.now label }
{
    match verb {
        Verb::Changes => row.changes.has(label),
        Verb::Takes => row.shrinks.has(label) && !row.changes.has(label),
        Verb::Reads => row.reads.has(label),
    }
}
