//! The arrows between programs: what one may do to objects of the other, and to labels without a thread that it uses.
ghost use Rattle.std.specs.{List.flat_map, Prelude.{◌++◌, ◌≡◌, IfOk, OnOk, string_bytes}};
ghost use Rattle.{base.specs.Labels.is_in, policy.specs.Policy.allows, summary.specs.Padding.given};
ghost use Rattle.diagram.specs.Folded.{arrow_text, between_text, more_text, phrase_text, reasons_text};
ghost use Rattle.diagram.specs.{Folded.{style_text, worded_text, words_text}, Programs.program_of};

use crate::verbs::{Verb, between, does, verb_word};
use base::Label;
use captext::label_name;
use policy::Policy;
use std::alloc::{AllocError, Global};
use summary::Row;
use table::Table;

/// Writes the arrows from each program.
#[tactic(auto, using(summary::proofs::OneMore::piece_more))]
pub(crate) fn write_arrows(
    alloc: Global,
    text: &mut String,
    table: &Table,
    policy: &Policy,
    rows: &[Row],
    others: &[Label],
) -> Result<(), AllocError>
    ensures { OnOk result (string_bytes text.new
        ≡ string_bytes text.old ++ flat_map (λ row. flat_map (λ other. arrow_text table.now others.now
        (program_of (allows policy.now) row) (program_of (allows policy.now) other)) rows.now) rows.now) }
{
    for row in rows {
        write_arrows_from(alloc, text, table, policy, rows, others, row)?;
    }
    Ok(())
}

#[tactic(auto, using(summary::proofs::OneMore::piece_more))]
fn write_arrows_from(
    alloc: Global,
    text: &mut String,
    table: &Table,
    policy: &Policy,
    rows: &[Row],
    others: &[Label],
    row: &Row,
) -> Result<(), AllocError>
    ensures { OnOk result (string_bytes text.new
        ≡ string_bytes text.old ++ flat_map (λ other. arrow_text table.now others.now
        (program_of (allows policy.now) row.now) (program_of (allows policy.now) other)) rows.now) }
{
    for other in rows {
        write_arrow(alloc, text, table, policy, others, row, other)?;
    }
    Ok(())
}

fn write_arrow(
    alloc: Global,
    text: &mut String,
    table: &Table,
    policy: &Policy,
    others: &[Label],
    row: &Row,
    other: &Row,
) -> Result<(), AllocError>
    ensures { OnOk result (string_bytes text.new ≡ string_bytes text.old ++ arrow_text table.now others.now
        (program_of (allows policy.now) row.now) (program_of (allows policy.now) other.now)) }
{
    if row.label == other.label {
        return Ok(());
    }
    let words = words_of(alloc, table, policy, others, row, other)?;
    write_worded(text, table, policy, row, other.label, &words)
}

// Writes the arrow that has these words, if there are any.
fn write_worded(
    text: &mut String,
    table: &Table,
    policy: &Policy,
    row: &Row,
    object: Label,
    words: &str,
) -> Result<(), AllocError>
    ensures { OnOk result (string_bytes text.new
        ≡ string_bytes text.old ++ worded_text table.now (program_of (allows policy.now) row.now)
        object words.now) }
{
    let _ = policy;
    if words.is_empty() {
        return Ok(());
    }
    let style = style(row.changes.has(object), row.shrinks.has(object));
    let actor = label_name(table, row.label);
    let object = label_name(table, object);
    writeln!(
        text,
        "  \"{actor}\" -> \"{object}\" [{style}label=\"{words}\"]"
    )
}

// How an arrow is drawn.
fn style(changes: bool, shrinks: bool) -> &'static str
    ensures { result.now ≡ style_text changes shrinks }
{
    if changes {
        return "";
    }
    if shrinks {
        return "style=dashed, ";
    }
    "style=dotted, "
}

// The words of an arrow, each in a line of its own.
fn words_of(
    alloc: Global,
    table: &Table,
    policy: &Policy,
    others: &[Label],
    row: &Row,
    other: &Row,
) -> Result<String, AllocError>
    ensures { IfOk result (λ text. string_bytes text ≡ words_text table.now others.now
        (program_of (allows policy.now) row.now) (program_of (allows policy.now) other.now)) }
{
    let mut text = String::new(alloc);
    write_reasons(&mut text, policy, row, other.label)?;
    write_between(
        alloc,
        &mut text,
        table,
        policy,
        others,
        row,
        other,
        Verb::Writes,
    )?;
    write_between(
        alloc,
        &mut text,
        table,
        policy,
        others,
        row,
        other,
        Verb::Changes,
    )?;
    write_between(
        alloc,
        &mut text,
        table,
        policy,
        others,
        row,
        other,
        Verb::Takes,
    )?;
    Ok(text)
}

// Writes by which kinds of reasons a program may change objects of a label, or that it may only make them smaller.
fn write_reasons(
    text: &mut String,
    policy: &Policy,
    row: &Row,
    label: Label,
) -> Result<(), AllocError>
    ensures { OnOk result (string_bytes text.new
        ≡ string_bytes text.old ++ reasons_text (program_of (allows policy.now) row.now) label) }
{
    push_if(text, row.calls.has(label), "calls\\n")?;
    push_if(text, row.answers.has(label), "answers\\n")?;
    push_if(text, row.signals.has(label), "signals\\n")?;
    push_if(text, row.others.has(label), "changes\\n")?;
    push_if(text, does(policy, row, Verb::Takes, label), "takes\\n")
}

fn push_if(text: &mut String, there: bool, piece: &str) -> Result<(), AllocError>
    ensures { OnOk result (string_bytes text.new ≡ string_bytes text.old ++ given there piece.now) }
{
    if there {
        text.push_str(piece)?;
    }
    Ok(())
}

// Writes what a program does to labels without a thread that another uses.
fn write_between(
    alloc: Global,
    text: &mut String,
    table: &Table,
    policy: &Policy,
    others: &[Label],
    row: &Row,
    other: &Row,
    verb: Verb,
) -> Result<(), AllocError>
    ensures { OnOk result (string_bytes text.new ≡ string_bytes text.old ++ between_text table.now others.now
        (program_of (allows policy.now) row.now) (program_of (allows policy.now) other.now) verb) }
{
    let labels = between(alloc, policy, others, row, other, verb)?;
    write_phrase(text, table, verb_word(verb), &labels)
}

// Writes the name of the first of some labels, with the number of the others.
fn write_phrase(
    text: &mut String,
    table: &Table,
    word: &str,
    labels: &[Label],
) -> Result<(), AllocError>
    ensures { OnOk result (string_bytes text.new ≡ string_bytes text.old ++ phrase_text table.now word.now labels.now) }
{
    match labels.first() {
        Some(first) => {
            text.push_str(word)?;
            text.push_str(label_name(table, *first))?;
            write_more(text, labels.len() - 1)?;
            text.push_str("\\n")
        }
        None => Ok(()),
    }
}

fn write_more(text: &mut String, count: usize) -> Result<(), AllocError>
    ensures { OnOk result (string_bytes text.new ≡ string_bytes text.old ++ more_text count) }
{
    if count != 0 {
        write!(text, " and {count} more")?;
    }
    Ok(())
}
