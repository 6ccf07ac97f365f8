//! The sentences on denials: where a table and a policy, or the end of a log, break a rule, and what may be done.
use crate::capability::push_capability;
use crate::closing::mending_edge;
use crate::sharp_denials::push_sharp;
use base::{Edge, Refusal};
use explain_rules::{
    EdgeAfter, EdgeLine, OtherWay, Reason, ReasonIn, Sheet, Start, asked_edge, first_premise,
    line_of_edge, line_of_place, premises,
};
use policy::{Broken, Policy};
use std::alloc::{AllocError, Global};
use std::fmt;
use table::Table;
use verdict::{Denial, Rules};

/// The names of the files that a denial is on, beside the table's. One that isn't read has an empty name.
#[derive(Clone, Copy)]
pub struct Names<'a> {
    pub policy: &'a str,
    pub certificate: &'a str,
}

/// Returns a sentence on a denial: the line of its place, why the rule is broken there, and what may be done.
///
/// For A1 it names all edges that the policy lacks for the capability. The place of a rule on the policy alone is the
/// first edge by which the rule asks for another. The system was judged by these rules.
///
/// # Errors
///
/// 40 where memory is refused.
pub fn explain_denial(
    alloc: Global,
    names: &Names<'_>,
    sheet: Sheet<'_>,
    policy: &Policy,
    rules: Rules,
    denial: &Denial,
) -> Result<String, Refusal> {
    let mut sentence = String::new(alloc);
    let missing = push_denial(alloc, &mut sentence, names, sheet, policy, denial)?;
    push_command(&mut sentence, sheet.file, names.policy, rules, missing)?;
    Ok(sentence)
}

/// Adds the sentence on a denial, but for a command; gives how many edges are missing.
fn push_denial(
    alloc: Global,
    sentence: &mut String,
    names: &Names<'_>,
    sheet: Sheet<'_>,
    policy: &Policy,
    denial: &Denial,
) -> Result<usize, Refusal> {
    let table = sheet.table;
    push_start(alloc, sentence, names, sheet, policy, denial)?;
    match *denial {
        Denial::Capability { slot, label, .. } => {
            push_capability(alloc, sentence, table, policy, slot, label)
        }
        Denial::Sharp(broken) => {
            push_sharp(alloc, sentence, table, policy, &broken)?;
            Ok(1)
        }
        _ => Ok(push_place(sentence, table, policy, denial)?),
    }
}

/// Adds the line of the place of a denial, of the file that it is in, and the rule.
fn push_start(
    alloc: Global,
    sentence: &mut String,
    names: &Names<'_>,
    sheet: Sheet<'_>,
    policy: &Policy,
    denial: &Denial,
) -> Result<(), Refusal> {
    let (file, line) = match *denial {
        Denial::Policy(broken) => {
            let [first, _, _, _] = premises(policy, broken);
            (names.policy, line_of_premise(alloc, policy, first)?)
        }
        Denial::Sharp(broken) => {
            let first = first_premise(sheet.table, policy, &broken);
            (names.policy, line_of_premise(alloc, policy, first)?)
        }
        // The report counts lines after the header.
        Denial::Certificate { line } => (names.certificate, Some(line.saturating_add(1))),
        _ => (sheet.file, line_of_place(sheet, denial)),
    };
    let start = Start { file, line };
    let rule = denial.rule();
    write!(sentence, "{start}denied by {rule}: ")?;
    Ok(())
}

/// Returns the line of the first edge by which a rule asks for another, if there is one.
fn line_of_premise(
    alloc: Global,
    policy: &Policy,
    first: Option<Edge>,
) -> Result<Option<usize>, Refusal> {
    match first {
        Some(edge) => line_of_edge(alloc, policy, edge),
        None => Ok(None),
    }
}

/// Adds why a rule is broken, and what may be done, but by A1; gives how many edges are missing.
fn push_place(
    sentence: &mut String,
    table: &Table,
    policy: &Policy,
    denial: &Denial,
) -> Result<usize, AllocError> {
    let reason = ReasonIn {
        table,
        policy,
        denial,
    };
    let other = OtherWay {
        table,
        policy,
        denial,
    };
    let edge = mending_edge(table, policy, denial);
    let (lacks, missing) = match (*denial, edge) {
        (_, None) => ("", 0),
        // P1 asks for one of two edges, and its reason says that only one is there.
        (Denial::Policy(Broken::SubjectsDisagree { .. }), _) => ("", 1),
        _ => (", but the policy has no such edge", 1),
    };
    let added = EdgeAfter {
        words: ", or add ",
        table,
        edge,
    };
    write!(sentence, "{reason}{lacks}. {other}{added}.")?;
    Ok(missing)
}

/// Adds the command that adds the missing edges, if there are any.
fn push_command(
    sentence: &mut String,
    table: &str,
    policy: &str,
    rules: Rules,
    missing: usize,
) -> Result<(), AllocError> {
    let (table, policy) = (Pasted(table), Pasted(policy));
    let edges = match missing {
        0 => return Ok(()),
        1 => "edge",
        _ => "edges",
    };
    let by = match rules {
        Rules::Closed => "",
        Rules::Sharp => "--rules sharp ",
    };
    write!(
        sentence,
        " `confine close {by}{table} {policy}` adds the {edges} for you."
    )
}

/// A name of a file as a shell takes it: in quotes, where it has other characters than names mostly have.
#[derive(Clone, Copy)]
pub struct Pasted<'a>(pub &'a str);

impl fmt::Display for Pasted<'_> {
    fn fmt<W: fmt::Write>(&self, f: &mut fmt::Formatter<W>) -> fmt::Result {
        let name = self.0;
        let is_plain = name.as_bytes().iter().all(|byte| {
            matches!(*byte, b'a'..=b'z' | b'A'..=b'Z' | b'0'..=b'9' | b'.' | b'_' | b'/' | b'-')
        });
        if is_plain {
            f.write_str(name)
        } else {
            write!(f, "'{name}'")
        }
    }
}

/// Returns a sentence on the last state of a log, which lies outside a policy: the log's last line,
/// and which edge it would take.
pub fn explain_outside(
    alloc: Global,
    log: &str,
    entries: usize,
    table: &Table,
    denial: &Denial,
) -> Result<String, AllocError> {
    let rule = denial.rule();
    // The header is a line too.
    let line = entries.saturating_add(1);
    let excess = Excess { table, denial };
    format!(in alloc; "{log}:{line}: outside by {rule}: after the last entry, {excess}")
}

/// What lies outside a policy at a place.
#[derive(Clone, Copy)]
struct Excess<'a> {
    table: &'a Table,
    denial: &'a Denial,
}

impl fmt::Display for Excess<'_> {
    fn fmt<W: fmt::Write>(&self, f: &mut fmt::Formatter<W>) -> fmt::Result {
        let (table, denial) = (self.table, self.denial);
        match asked_edge(table, denial) {
            Some(edge) => {
                let reason = Reason { table, denial };
                let edge = EdgeLine { table, edge };
                write!(f, "{reason}, but the policy has no `{edge}`")
            }
            None => f.write_str(
                "an object that the log made gives authority that the policy lacks, or is under such authority. The \
                 report has the object's number, after `#`.",
            ),
        }
    }
}
