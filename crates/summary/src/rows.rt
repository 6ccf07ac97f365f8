//! The rows of the matrix: for each label with a thread, the labels that it may change or read, and how.
ghost use Rattle.std.specs.Prelude.{ℕ, ◌≡◌, IfOk};
ghost use Rattle.{base.specs.Labels.is_in, policy.specs.Policy.allows, reach.specs.Extents.limits_by};
ghost use Rattle.summary.specs.{Rows.{AreRowsOf, IsRowOf}, Sharing.{IsShared, reads_of}};

use crate::labelled::programs;
use crate::sharing::{shared_by, sharers};
use crate::ways::Ways;
use base::{Kind, Label, Labels};
use policy::Policy;
use std::alloc::{AllocError, Global};
use table::Table;

/// A label with a thread, its number in the matrix, and the labels that it has to do with.
#[derive(Clone, Copy)]
pub struct Row {
    pub number: usize,
    pub label: Label,
    /// The labels that it may change by a call or a send.
    pub calls: Labels,
    /// The labels that it may change by an answer, or by taking a call.
    pub answers: Labels,
    /// The labels that it may change by a signal.
    pub signals: Labels,
    /// The labels that it may change for another reason.
    pub others: Labels,
    /// The labels that it may change.
    pub changes: Labels,
    /// The labels that it may make smaller.
    pub shrinks: Labels,
    /// The labels that have memory which it may write.
    pub shares: Labels,
    /// The labels that it reads.
    pub reads: Labels,
}

/// Returns the rows of the labels with a thread in a table, where threads of the labels `actors` make calls.
pub fn rows_of(
    alloc: Global,
    table: &Table,
    policy: &Policy,
    actors: Labels,
) -> Result<Vec<Row>, AllocError>
    ensures { IfOk result (λ rows. AreRowsOf table.now (limits_by policy.now actors) rows.items) }
{
    let ways = Ways::new(alloc, policy, actors)?;
    let sharers = sharers(alloc, table, policy)?;
    let programs = programs(alloc, table)?;
    let mut rows = Vec::new(alloc);
    for (index, label) in programs.iter().enumerate() {
        let number = index + 1;
        rows.push(row_of(table, policy, actors, &ways, &sharers, number, *label))?;
    }
    Ok(rows)
}

// The labels that a label reads: words, messages or signals.
fn read_by(policy: &Policy, label: Label) -> Labels
    ensures { (l : ℕ) → is_in result l ≡ reads_of (allows policy.now) label l }
{
    let read = policy.row(label, Kind::Read);
    let receive = policy.row(label, Kind::Receive);
    let poll = policy.row(label, Kind::Await);
    let taken = read.union(receive);
    taken.union(poll)
}

fn row_of(
    table: &Table,
    policy: &Policy,
    actors: Labels,
    ways: &Ways<'_>,
    sharers: &[Labels],
    number: usize,
    label: Label,
) -> Row
    requires ways { ways.now ≡ record { edges = policy.now; actors = actors } }
    requires shared { IsShared table.now (allows policy.now) sharers.now }
    ensures label { result.label ≡ label }
    ensures number { result.number ≡ number }
    ensures row { IsRowOf table.now (limits_by policy.now actors) result }
{
    Row {
        number,
        label,
        calls: ways.calls(label),
        answers: ways.answers(label),
        signals: ways.signals(label),
        others: ways.others(label),
        changes: policy.change_labels(actors, label),
        shrinks: policy.shrink_labels(actors, label),
        shares: shared_by(table, policy, sharers, label),
        reads: read_by(policy, label),
    }
}
