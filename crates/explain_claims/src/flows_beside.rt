//! Notes on claims `none` that hold although what threads of the one label do flows to the other.
use crate::broken::Judged;
use crate::chains::{has_edge, programs_beside, push_link};
use base::{Kind, Label, Labels, Refusal};
use captext::label_name;
use claims::{Claim, ClaimLines, Most, Who, claim_text};
use explain_denials::LabelNames;
use explain_rules::Start;
use flows::{FlowGraph, Flows, Link, Smallest};
use reach::Reach;
use std::alloc::{AllocError, Global};
use table::Table;

/// How many notes are printed.
const MOST: usize = 16;

/// A claim `none` on two labels, and its line.
#[derive(Clone, Copy)]
struct Kept<'a> {
    claim: &'a Claim,
    line: usize,
    from: Label,
    to: Label,
}

/// Returns a note for each claim `none` on two labels on which there is no claim `apart` or `through`, if what threads
/// of the one do flows to the other: through which programs. Memory that the one writes and the other reads isn't told.
///
/// Such a claim holds all the same, since it speaks of changes alone. There are at most 16 notes.
///
/// # Errors
///
/// 40 where memory is refused.
pub fn explain_flows_beside(
    alloc: Global,
    reach: &Reach<'_>,
    judged: &Judged<'_>,
) -> Result<String, Refusal> {
    let mut lines = String::new(alloc);
    let flows = Flows::of(alloc, reach)?;
    let graph = FlowGraph::of(alloc, reach)?;
    let mut told: usize = 0;
    for (index, claim) in judged.lines.as_slice().iter().enumerate() {
        let line = index.saturating_add(ClaimLines::FIRST);
        if let Some(kept) = kept_by(claim.as_ref(), line) {
            if told < MOST
                && !is_claimed(judged.lines, kept.from, kept.to)
                && push_note(alloc, &mut lines, reach, judged, &flows, &graph, &kept)?
            {
                told = told.saturating_add(1);
            }
        }
    }
    Ok(lines)
}

/// The labels of a claim, if it is `none` on two labels.
fn kept_by(claim: Option<&Claim>, line: usize) -> Option<Kept<'_>> {
    match claim {
        Some(claim) => match claim {
            Claim::AtMost(Most::Nothing, Who::One(from), Who::One(to)) => Some(Kept {
                claim,
                line,
                from: *from,
                to: *to,
            }),
            _ => None,
        },
        None => None,
    }
}

/// Whether there is a claim on what flows from one label to another.
fn is_claimed(lines: &ClaimLines, from: Label, to: Label) -> bool {
    for line in lines.as_slice() {
        if let Some(Claim::Through(one, other, _)) = line {
            if *one == from && *other == to {
                return true;
            }
        }
    }
    false
}

/// Adds the note on a claim, if there is something to note. Returns whether there is.
fn push_note(
    alloc: Global,
    lines: &mut String,
    reach: &Reach<'_>,
    judged: &Judged<'_>,
    flows: &Flows<'_>,
    graph: &FlowGraph<'_>,
    kept: &Kept<'_>,
) -> Result<bool, Refusal> {
    let others = programs_beside(reach, kept.from, kept.to);
    if let Some(links) = flows.chain(alloc, kept.from, kept.to, others)? {
        return match links.first() {
            Some(link) if !is_by_memory(reach, *link) => {
                push_start(alloc, lines, reach, judged, kept)?;
                push_link(lines, reach.table(), *link)?;
                lines.push_str(".\n")?;
                Ok(true)
            }
            _ => Ok(false),
        };
    }
    match graph.smallest_filters(alloc, kept.from, kept.to, 1)? {
        Smallest::Fewest(sets) => push_sets(alloc, lines, reach, judged, kept, &sets.sets),
        Smallest::Larger => {
            push_start(alloc, lines, reach, judged, kept)?;
            push_many(lines, reach, kept)?;
            Ok(true)
        }
        // Then there is a chain beside all other programs.
        Smallest::Direct => Ok(false),
    }
}

/// Whether a flow is by memory that its first label may write: the notes on memory tell that.
fn is_by_memory(reach: &Reach<'_>, link: Link) -> bool {
    has_edge(reach, link.from, Kind::Write, link.object)
}

/// Adds what a note begins with.
fn push_start(
    alloc: Global,
    lines: &mut String,
    reach: &Reach<'_>,
    judged: &Judged<'_>,
    kept: &Kept<'_>,
) -> Result<(), AllocError> {
    let start = Start {
        file: judged.claims,
        line: Some(kept.line),
    };
    let claim = claim_text(alloc, kept.claim, reach.table())?;
    write!(
        lines,
        "{start}note: `{claim}` holds, and speaks of changes alone: "
    )
}

/// Adds through which programs all flows go, if there are flows. Returns whether there are.
fn push_sets(
    alloc: Global,
    lines: &mut String,
    reach: &Reach<'_>,
    judged: &Judged<'_>,
    kept: &Kept<'_>,
    sets: &[Labels],
) -> Result<bool, Refusal> {
    let table = reach.table();
    match sets.first() {
        Some(set) if *set != Labels::none() => {
            let from = label_name(table, kept.from);
            let to = label_name(table, kept.to);
            let names = LabelNames {
                table,
                labels: *set,
            };
            push_start(alloc, lines, reach, judged, kept)?;
            write!(
                lines,
                "what `{from}` does flows to `{to}` only through {names}. Add a claim `through {from} {to}"
            )?;
            push_names(lines, table, *set)?;
            lines.push_str("`.\n")?;
            Ok(true)
        }
        // Nothing flows through no program.
        _ => Ok(false),
    }
}

/// Adds the names of labels, each after a space.
fn push_names(lines: &mut String, table: &Table, labels: Labels) -> Result<(), AllocError> {
    for label in labels.iter() {
        let name = label_name(table, label);
        write!(lines, " {name}")?;
    }
    Ok(())
}

/// Adds that what one label does flows to the other through more programs than are looked for.
fn push_many(lines: &mut String, reach: &Reach<'_>, kept: &Kept<'_>) -> Result<(), AllocError> {
    let table = reach.table();
    let from = label_name(table, kept.from);
    let to = label_name(table, kept.to);
    writeln!(
        lines,
        "what `{from}` does flows to `{to}`, through more than 5 programs. `confine flows` prints a chain."
    )
}
