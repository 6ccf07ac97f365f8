//! Sentences on what each label of a table may do to the others.
use base::{Label, Labels};
use captext::label_name;
use explain_denials::LabelNames;
use machine::ObjectKind;
use reach::Reach;
use std::alloc::{AllocError, Global};
use table::Table;

/// Returns lines on the labels of a table that have a thread: whose objects each of them may change by the reach of
/// the table, and whose it may make smaller, among those with a thread. `table_file` is the name of the table's file.
pub fn explain_changes(
    alloc: Global,
    table_file: &str,
    reach: &Reach<'_>,
) -> Result<String, AllocError> {
    let mut lines = String::new(alloc);
    let table = reach.table();
    let programs = programs_of(table);
    push_programs(&mut lines, reach, programs)?;
    let others = count(table.labels().difference(programs));
    push_others(&mut lines, table_file, others)?;
    Ok(lines)
}

/// The labels that have a thread.
fn programs_of(table: &Table) -> Labels {
    let mut programs = Labels::none();
    for initial in table.objects() {
        if initial.object.kind() == ObjectKind::Tcb {
            programs = programs.union(Labels::only(initial.label));
        }
    }
    programs
}

/// The number of labels in a set.
fn count(labels: Labels) -> usize {
    let mut count = 0usize;
    for _ in labels.iter() {
        count = count.saturating_add(1);
    }
    count
}

/// Adds a line for each label that reaches others of these, and one for those that reach none.
fn push_programs(
    lines: &mut String,
    reach: &Reach<'_>,
    programs: Labels,
) -> Result<(), AllocError> {
    let mut apart = Labels::none();
    for actor in programs.iter() {
        if !push_changes(lines, reach, programs, actor)? {
            apart = apart.union(Labels::only(actor));
        }
    }
    push_apart(lines, reach.table(), programs, apart)
}

/// Adds the line of a label that reaches others of these. Returns whether it reaches any.
fn push_changes(
    lines: &mut String,
    reach: &Reach<'_>,
    programs: Labels,
    actor: Label,
) -> Result<bool, AllocError> {
    let table = reach.table();
    let others = programs.difference(Labels::only(actor));
    let changed = reach.changed_by(actor).intersection(others);
    let taken = reach
        .shrunk_by(actor)
        .intersection(others)
        .difference(changed);
    let name = label_name(table, actor);
    let changes = LabelNames {
        table,
        labels: changed,
    };
    let takes = LabelNames {
        table,
        labels: taken,
    };
    match (changed == Labels::none(), taken == Labels::none()) {
        (true, true) => return Ok(false),
        (false, true) => writeln!(lines, "`{name}` may change {changes}")?,
        (true, false) => writeln!(lines, "`{name}` may take from {takes}")?,
        (false, false) => {
            writeln!(
                lines,
                "`{name}` may change {changes}; it may take from {takes}"
            )?
        }
    }
    Ok(true)
}

/// Adds which labels with a thread reach none of the others, if there are any.
fn push_apart(
    lines: &mut String,
    table: &Table,
    programs: Labels,
    apart: Labels,
) -> Result<(), AllocError> {
    if apart == Labels::none() {
        return Ok(());
    }
    let names = LabelNames {
        table,
        labels: apart,
    };
    let (only, what) = if count(programs) < 2 {
        ("only ", " has a thread")
    } else {
        ("", " can't reach the other labels that have a thread")
    };
    writeln!(lines, "{only}{names}{what}")
}

/// Adds the number of labels without a thread, if there are any.
fn push_others(lines: &mut String, table_file: &str, others: usize) -> Result<(), AllocError> {
    let (have, them) = match others {
        0 => return Ok(()),
        1 => ("label has", "it"),
        _ => ("labels have", "them"),
    };
    writeln!(
        lines,
        "{others} more {have} no thread. `confine summary {table_file}` prints who changes and reads {them}."
    )
}
