//! The lines on the edges that closing adds to a policy.
use base::{Edge, Kind, Label, Refusal};
use deal::Open;
use explain_rules::{EdgeLine, PlaceNames, PlaceWords, Sheet, Start, asked_edge, line_of_place};
use policy::{Broken, Policy};
use std::alloc::{AllocError, Global};
use std::thread::Threads;
use table::Table;
use verdict::{Denial, Rules, judge_by};

/// As many edges as there may be: from each label, of each kind, to each label.
pub(crate) const MOST_EDGES: usize = LABELS * Kind::ALL.len() * LABELS;

const LABELS: usize = Label::COUNT as usize;

/// Returns a line for each edge that a policy lacks by a set of rules: the rule and the place that ask for it, and the
/// edge, as `table:11: A1 space.0: edge app await bell`.
///
/// Of a description the place is an element, as in
/// ``my.system:7: A1 `app` may notify `fs` by channel 1: edge app notify fs``.
///
/// Each is what the verdict asks for first if the edges of the lines before are there. So each line costs a verdict.
///
/// # Errors
///
/// 40 where memory is refused.
pub fn explain_closing<R: Threads + Sync>(
    rt: &R,
    alloc: Global,
    rules: Rules,
    sheet: Sheet<'_>,
    policy: &Policy,
) -> Result<String, Refusal> {
    let mut closed = Policy::new(alloc);
    let lines = lines_for(rt, alloc, rules, sheet, policy, &mut closed);
    drop(closed);
    lines
}

/// The lines for the edges that an empty policy is given after those of another.
fn lines_for<R: Threads + Sync>(
    rt: &R,
    alloc: Global,
    rules: Rules,
    sheet: Sheet<'_>,
    policy: &Policy,
    closed: &mut Policy,
) -> Result<String, Refusal> {
    closed.extend(&policy.edges(alloc)?)?;
    let mut lines = String::new(alloc);
    for _ in 0..MOST_EDGES {
        if !push_line(rt, alloc, rules, sheet, closed, &mut lines)? {
            break;
        }
    }
    Ok(lines)
}

/// Adds the edge that the verdict asks for first, and the line for it, if the policy lacks one.
fn push_line<R: Threads + Sync>(
    rt: &R,
    alloc: Global,
    rules: Rules,
    sheet: Sheet<'_>,
    closed: &mut Policy,
    lines: &mut String,
) -> Result<bool, Refusal> {
    match first_denial(rt, alloc, rules, sheet.table, closed)? {
        Some(denial) => push_edge(sheet, &denial, closed, lines),
        None => Ok(false),
    }
}

/// The verdict's denial, if it denies.
fn first_denial<R: Threads + Sync>(
    rt: &R,
    alloc: Global,
    rules: Rules,
    table: &Table,
    policy: &Policy,
) -> Result<Option<Denial>, Refusal> {
    match judge_by(rt, alloc, table, policy, rules, 1, &Open)? {
        Ok(()) => Ok(None),
        Err(denial) => Ok(Some(denial)),
    }
}

/// Adds the edge that a denial asks for, and the line for it, if one edge would mend it.
fn push_edge(
    sheet: Sheet<'_>,
    denial: &Denial,
    closed: &mut Policy,
    lines: &mut String,
) -> Result<bool, Refusal> {
    match mending_edge(sheet.table, closed, denial) {
        Some(edge) => {
            push_edge_line(lines, sheet, denial, &edge)?;
            closed.add(edge)?;
            Ok(true)
        }
        None => Ok(false),
    }
}

/// Adds the line for an edge that a denial asks for. It begins with the place's line, if there is one.
fn push_edge_line(
    lines: &mut String,
    sheet: Sheet<'_>,
    denial: &Denial,
    edge: &Edge,
) -> Result<(), AllocError> {
    let Sheet { file, table, made } = sheet;
    let line = line_of_place(sheet, denial);
    let start = Start { file, line };
    let rule = denial.rule();
    let edge = EdgeLine { table, edge: *edge };
    if made.is_some() && is_in_table(denial) {
        let place = PlaceWords { sheet, denial };
        writeln!(lines, "{start}{rule} {place}: {edge}")
    } else {
        let place = PlaceNames { table, denial };
        writeln!(lines, "{start}{rule} {place}: {edge}")
    }
}

/// Whether the place of a denial is in the table, by A1 to A4, and not in the policy.
fn is_in_table(denial: &Denial) -> bool {
    matches!(
        *denial,
        Denial::Capability { .. }
            | Denial::Root { .. }
            | Denial::Pair { .. }
            | Denial::Binding { .. }
    )
}

/// The edge that a policy lacks where it is denied so: for P1 the one of two that isn't there.
pub(crate) fn mending_edge(table: &Table, policy: &Policy, denial: &Denial) -> Option<Edge> {
    match *denial {
        Denial::Policy(
            Broken::SubjectsDisagree {
                subject,
                other,
                kind,
                target,
            },
        ) => {
            let edge_from = |from| Edge {
                from,
                kind,
                to: target,
            };
            if policy.has(edge_from(subject)) {
                Some(edge_from(other))
            } else {
                Some(edge_from(subject))
            }
        }
        _ => asked_edge(table, denial),
    }
}
