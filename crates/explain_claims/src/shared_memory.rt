//! Notes on claims that hold although the one label writes memory that the other uses.
use crate::broken::Judged;
use base::{Edge, Kind, Label, Labels};
use captext::label_name;
use claims::{Claim, ClaimLines, Who, claim_text};
use explain_denials::LabelNames;
use explain_rules::Start;
use machine::ObjectKind;
use policy::Policy;
use reach::Reach;
use std::alloc::{AllocError, Global};
use table::Table;

/// How many notes are printed.
const MOST: usize = 16;

/// Memory of a label on which there is no claim `only`.
#[derive(Clone, Copy)]
struct Memory {
    label: Label,
    /// The labels whose threads may write it.
    writers: Labels,
    /// The labels whose threads may read or write it.
    users: Labels,
}

/// The labels that the two ends of a claim name.
#[derive(Clone, Copy)]
struct Ends {
    actors: Labels,
    objects: Labels,
}

/// Returns a note for each claim `none` or `take`, and each memory that threads of the one end may write and threads
/// of the other may read or write.
///
/// Such a claim holds all the same, since memory is an object of its own label. Memory on which there is a claim
/// `only` isn't told. There are at most 16 notes.
pub fn explain_shared_memory(
    alloc: Global,
    reach: &Reach<'_>,
    judged: &Judged<'_>,
) -> Result<String, AllocError> {
    let mut lines = String::new(alloc);
    let memories = memories_of(alloc, reach, judged)?;
    let mut told = 0;
    for (index, claim) in judged.lines.as_slice().iter().enumerate() {
        if let Some(claim) = claim {
            let line = index.saturating_add(ClaimLines::FIRST);
            for memory in &memories {
                if told < MOST
                    && push_note(alloc, &mut lines, reach, judged, line, claim, memory)?
                {
                    told += 1;
                }
            }
        }
    }
    Ok(lines)
}

/// Adds the note on a claim and a memory, if there is something to note. Returns whether there is.
fn push_note(
    alloc: Global,
    lines: &mut String,
    reach: &Reach<'_>,
    judged: &Judged<'_>,
    line: usize,
    claim: &Claim,
    memory: &Memory,
) -> Result<bool, AllocError> {
    let Some(ends) = ends_of(claim) else {
        return Ok(false);
    };
    let table = reach.table();
    let writers = memory.writers.intersection(ends.actors);
    let users = memory.users.intersection(ends.objects);
    if writers == Labels::none() || users == Labels::none() {
        return Ok(false);
    }
    let start = Start {
        file: judged.claims,
        line: Some(line),
    };
    let claim = claim_text(alloc, claim, table)?;
    let region = label_name(table, memory.label);
    let writers = LabelNames {
        table,
        labels: writers,
    };
    let users = LabelNames {
        table,
        labels: users,
    };
    writeln!(
        lines,
        "{start}note: `{claim}` holds, but {writers} may write memory of `{region}`, and {users} may read or write it. \
         Add a claim `only {region}` with the labels that may write it."
    )?;
    Ok(true)
}

/// The labels that a claim `none` or `take` keeps apart.
fn ends_of(claim: &Claim) -> Option<Ends> {
    match claim {
        Claim::AtMost(_, actor, object) => Some(Ends {
            actors: named(*actor, *object),
            objects: named(*object, *actor),
        }),
        _ => None,
    }
}

/// The labels that an end of a claim names, beside the other end.
fn named(end: Who, other: Who) -> Labels {
    match (end, other) {
        (Who::One(label), _) => Labels::only(label),
        (Who::Others, Who::One(label)) => Labels::all().difference(Labels::only(label)),
        (Who::Others, Who::Others) => Labels::all(),
    }
}

/// The memories on which there is no claim `only`, with those who use them.
fn memories_of(
    alloc: Global,
    reach: &Reach<'_>,
    judged: &Judged<'_>,
) -> Result<Vec<Memory>, AllocError> {
    let (policy, actors) = (reach.policy(), reach.actors());
    let mut memories = Vec::new(alloc);
    for label in with_memory(reach.table())
        .difference(guarded(judged.lines))
        .iter()
    {
        let writers = sources(policy, actors, Kind::Write, label);
        let readers = sources(policy, actors, Kind::Read, label);
        memories.push(Memory {
            label,
            writers,
            users: writers.union(readers),
        })?;
    }
    Ok(memories)
}

/// The labels with frames, or with untyped memory, of which frames may be made.
fn with_memory(table: &Table) -> Labels {
    let mut labels = Labels::none();
    for initial in table.objects() {
        if let ObjectKind::Frame | ObjectKind::Untyped = initial.object.kind() {
            labels = labels.union(Labels::only(initial.label));
        }
    }
    labels
}

/// The labels on which there is a claim `only`.
fn guarded(lines: &ClaimLines) -> Labels {
    let mut labels = Labels::none();
    for line in lines.as_slice() {
        if let Some(Claim::Only(label, _)) = line {
            labels = labels.union(Labels::only(*label));
        }
    }
    labels
}

/// The labels among these from which the policy has an edge of a kind to a label.
fn sources(policy: &Policy, among: Labels, kind: Kind, to: Label) -> Labels {
    let mut labels = Labels::none();
    for from in among.iter() {
        if policy.has(Edge { from, kind, to }) {
            labels = labels.union(Labels::only(from));
        }
    }
    labels
}
