//! The lines on claims that don't hold.
use crate::chains::push_chain;
use crate::scripts::push_run;
use base::{Edge, Label, Refusal};
use captext::label_name;
use claims::{Breach, Broken, Claim, ClaimLines, Failure, claim_text};
use explain_denials::{EdgeLine, EdgeList, Origins, OtherWays};
use explain_rules::{Sheet, Start};
use policy::Why;
use reach::{Extent, Reach};
use runs::Question;
use search::{edges_of, find};
use std::alloc::{AllocError, Global};
use table::Table;

/// How many calls a search for a run tries.
const STEPS: u64 = 1_000;

/// A system of which claims were judged, and the claims.
#[derive(Clone, Copy)]
pub struct Judged<'a> {
    pub sheet: Sheet<'a>,
    /// The name of the file of the claims.
    pub claims: &'a str,
    pub lines: &'a ClaimLines,
}

/// What the lines on a broken claim begin with.
#[derive(Clone, Copy)]
pub enum Lead {
    /// The sentence on the claim, as [`breach_lines`] has it.
    Sentence,
    /// The place of the claim: its sentence is told elsewhere.
    Place,
}

/// Returns why claims don't hold, and what may be done: for each its sentence or its place, and where each edge of the
/// reason comes from.
///
/// # Errors
///
/// 40 where memory is refused.
pub fn explain_breaches(
    alloc: Global,
    reach: &Reach<'_>,
    judged: &Judged<'_>,
    broken: &[Broken],
    lead: Lead,
) -> Result<String, Refusal> {
    let mut lines = String::new(alloc);
    let origins = Origins::of(alloc, judged.sheet, reach)?;
    for one in broken {
        push_claim(alloc, &mut lines, reach, judged, &origins, one, lead)?;
    }
    Ok(lines)
}

/// Returns the sentence on each claim that doesn't hold, a line each.
///
/// # Errors
///
/// 40 where memory is refused.
pub fn breach_lines(
    alloc: Global,
    reach: &Reach<'_>,
    judged: &Judged<'_>,
    broken: &[Broken],
) -> Result<String, Refusal> {
    let mut lines = String::new(alloc);
    let origins = Origins::of(alloc, judged.sheet, reach)?;
    for one in broken {
        push_line(alloc, &mut lines, reach, judged, &origins, one)?;
    }
    Ok(lines)
}

/// Returns the calls of a run that shows that a claim on a pair of labels doesn't hold, or that no such run was found.
///
/// # Errors
///
/// 40 where memory is refused.
pub fn explain_breach(
    alloc: Global,
    reach: &Reach<'_>,
    judged: &Judged<'_>,
    line: usize,
    breach: Breach,
) -> Result<String, Refusal> {
    let mut lines = String::new(alloc);
    let question = Question {
        actor: breach.actor,
        object: breach.object,
        taking: breach.extent == Extent::Take,
    };
    let reason = edges_of(alloc, reach.why(alloc, breach.actor, breach.object)?);
    let found = find(alloc, judged.sheet.table, &question, &reason, STEPS)?;
    push_place(&mut lines, judged, line)?;
    match &found.script {
        Some(script) => {
            lines.push_str("a run that shows it:\n")?;
            push_run(alloc, &mut lines, judged.sheet, script)?;
        }
        None => {
            let steps = found.steps;
            writeln!(
                lines,
                "no run that shows it was found ({steps} calls tried). The claim is broken all the same: the \
                 table's bound doesn't exclude such a run."
            )?;
        }
    }
    Ok(lines)
}

/// Adds all lines on a broken claim but those on a run.
fn push_claim(
    alloc: Global,
    lines: &mut String,
    reach: &Reach<'_>,
    judged: &Judged<'_>,
    origins: &Origins<'_>,
    broken: &Broken,
    lead: Lead,
) -> Result<(), Refusal> {
    let mut sentence = String::new(alloc);
    let mut edges = push_line(alloc, &mut sentence, reach, judged, origins, broken)?;
    match lead {
        Lead::Sentence => lines.push_str(&sentence)?,
        Lead::Place if edges.is_empty() => {}
        Lead::Place => {
            push_place(lines, judged, broken.line)?;
            lines.push_str("the reason:\n")?;
        }
    }
    origins.push_lines(alloc, lines, &mut edges)
}

/// Adds the place of a claim, before what is said of it.
fn push_place(lines: &mut String, judged: &Judged<'_>, line: usize) -> Result<(), AllocError> {
    let file = judged.claims;
    write!(lines, "{file}:{line}: ")
}

/// Adds the line on a broken claim, and gives the edges of the reason.
fn push_line(
    alloc: Global,
    lines: &mut String,
    reach: &Reach<'_>,
    judged: &Judged<'_>,
    origins: &Origins<'_>,
    broken: &Broken,
) -> Result<Vec<Edge>, Refusal> {
    match judged.lines.claim_at(broken.line) {
        Some(claim) => {
            push_start(alloc, lines, reach, judged, claim, broken.line)?;
            push_failure(alloc, lines, reach, judged, origins, claim, broken.failure)
        }
        None => Ok(Vec::new(alloc)),
    }
}

/// Adds which claim it is, by its line.
fn push_start(
    alloc: Global,
    lines: &mut String,
    reach: &Reach<'_>,
    judged: &Judged<'_>,
    claim: &Claim,
    line: usize,
) -> Result<(), AllocError> {
    let text = claim_text(alloc, claim, reach.table())?;
    push_place(lines, judged, line)?;
    write!(lines, "`{text}` doesn't hold: ")
}

/// Adds why a claim doesn't hold, and gives the edges of the reason.
fn push_failure(
    alloc: Global,
    lines: &mut String,
    reach: &Reach<'_>,
    judged: &Judged<'_>,
    origins: &Origins<'_>,
    claim: &Claim,
    failure: Failure,
) -> Result<Vec<Edge>, Refusal> {
    match (failure, claim) {
        (Failure::Pair(breach), _) => push_breach(alloc, lines, reach, judged, origins, breach),
        (Failure::Chain, Claim::Through(from, to, filters)) => {
            push_chain(alloc, lines, reach, *from, *to, filters.set())?;
            Ok(Vec::new(alloc))
        }
        (Failure::Edge(edge), _) => push_edge(alloc, lines, reach, judged, origins, &edge),
        _ => {
            lines.push('\n')?;
            Ok(Vec::new(alloc))
        }
    }
}

/// Adds what a label may do to another, and gives the edges by which it may.
fn push_breach(
    alloc: Global,
    lines: &mut String,
    reach: &Reach<'_>,
    judged: &Judged<'_>,
    origins: &Origins<'_>,
    breach: Breach,
) -> Result<Vec<Edge>, Refusal> {
    let why = reach.why(alloc, breach.actor, breach.object)?;
    push_deed(lines, reach.table(), breach, &why)?;
    let edges = edges_of(alloc, why);
    push_reason(alloc, lines, judged, origins, &edges)?;
    Ok(edges)
}

/// Adds what a label may do to another.
fn push_deed(
    lines: &mut String,
    table: &Table,
    breach: Breach,
    why: &Why,
) -> Result<(), AllocError> {
    let does = match why {
        Why::Full(_) => "may change objects of",
        Why::Take(_) => "may take from",
        Why::Nothing => "has no authority on",
    };
    let actor = label_name(table, breach.actor);
    let object = label_name(table, breach.object);
    write!(lines, "`{actor}` {does} `{object}`")
}

/// Adds the edges by which a label may do something, and what may be changed.
fn push_reason(
    alloc: Global,
    lines: &mut String,
    judged: &Judged<'_>,
    origins: &Origins<'_>,
    edges: &[Edge],
) -> Result<(), Refusal> {
    let places = origins.places(alloc, edges)?;
    let list = EdgeList {
        table: judged.sheet.table,
        edges,
    };
    let ways = OtherWays {
        sheet: judged.sheet,
        places: &places,
    };
    Ok(writeln!(lines, ", by {list}. Change the claim{ways}.")?)
}

/// Adds that the reach has an edge, and gives it.
fn push_edge(
    alloc: Global,
    lines: &mut String,
    reach: &Reach<'_>,
    judged: &Judged<'_>,
    origins: &Origins<'_>,
    edge: &Edge,
) -> Result<Vec<Edge>, Refusal> {
    let edges = vec![in alloc; *edge]?;
    let given_at = origins.line_of(alloc, *edge)?;
    let places = origins.places(alloc, &edges)?;
    let ways = OtherWays {
        sheet: judged.sheet,
        places: &places,
    };
    push_had(lines, reach, judged, given_at, *edge, &ways)?;
    Ok(edges)
}

/// Adds that a label has an edge, which this line of the table or of its description gives, or comes to have it.
fn push_had(
    lines: &mut String,
    reach: &Reach<'_>,
    judged: &Judged<'_>,
    given_at: Option<usize>,
    edge: Edge,
    ways: &OtherWays<'_>,
) -> Result<(), AllocError> {
    let table = reach.table();
    let start = Start {
        file: judged.sheet.file,
        line: given_at,
    };
    let has = if given_at.is_some() {
        "has"
    } else {
        "may come to have"
    };
    let from = label_name(table, edge.from);
    let edge = EdgeLine { table, edge };
    writeln!(
        lines,
        "{start}`{from}` {has} `{edge}`. Change the claim{ways}."
    )
}
