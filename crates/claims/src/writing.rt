//! The writing of claims.
ghost use Rattle.std.specs.{List.join_with_byte, Prelude.{[], ℕ, ◌++◌, ◌∷◌, ◌≡◌, IfOk, List, OnOk, codes, map, string_bytes}};
ghost use Rattle.{words.specs.Text.line_text, captext.specs.PolicyText.label_name};
ghost use Rattle.claims.specs.Text.{claim_text, end_word, entry_words, lines_text, through_words};

use crate::claim::{Claim, LabelList, Who};
use crate::lines::ClaimLines;
use base::Label;
use captext::label_name;
use std::alloc::{AllocError, Global};
use table::Table;

/// The word of an end of a claim.
fn end_word(table: &Table, who: Who) -> &str
    ensures { result.now ≡ end_word table.now who }
{
    match who {
        Who::One(label) => label_name(table, label),
        Who::Others => "*",
    }
}

/// Adds the names of labels to words.
fn push_names(text: &mut String, table: &Table, labels: &LabelList) -> Result<(), AllocError>
    ensures { OnOk result ((word : List ℕ) (words : List (List ℕ)) → string_bytes text.old ≡ join_with_byte 32 (word ∷ words)
        → string_bytes text.new ≡ join_with_byte 32 (word ∷ (words ++ map (label_name table.now) labels.now))) }
{
    for label in labels.as_slice() {
        let name = label_name(table, *label);
        write!(text, " {name}")?;
    }
    Ok(())
}

/// The text of a claim that has a label and others behind its first word.
fn list_text(
    alloc: Global,
    table: &Table,
    word: &str,
    label: Label,
    others: &LabelList,
) -> Result<String, AllocError>
    ensures { IfOk result (λ text. string_bytes text
        ≡ join_with_byte 32 (word.now ∷ label_name table.now label ∷ map (label_name table.now) others.now)) }
{
    let name = label_name(table, label);
    let mut text = format!(in alloc; "{word} {name}")?;
    push_names(&mut text, table, others)?;
    Ok(text)
}

/// The text of `through`, or of `apart` where there are no filters.
fn through_text(
    alloc: Global,
    table: &Table,
    from: Label,
    to: Label,
    filters: &LabelList,
) -> Result<String, AllocError>
    ensures { IfOk result (λ text. string_bytes text ≡ join_with_byte 32 (through_words table.now from to filters.now)) }
{
    let from = label_name(table, from);
    let to = label_name(table, to);
    if filters.as_slice().is_empty() {
        return format!(in alloc; "apart {from} {to}");
    }
    let mut text = format!(in alloc; "through {from} {to}")?;
    push_names(&mut text, table, filters)?;
    Ok(text)
}

/// Returns a claim as it is told, with the names that its labels have in the table.
pub fn claim_text(alloc: Global, claim: &Claim, table: &Table) -> Result<String, AllocError>
    ensures { IfOk result (λ text. string_bytes text ≡ claim_text table.now claim.now) }
{
    match claim {
        Claim::AtMost(most, actor, object) => {
            let word = most.word();
            let actor = end_word(table, *actor);
            let object = end_word(table, *object);
            format!(in alloc; "{word} {actor} {object}")
        }
        Claim::Only(object, actors) => list_text(alloc, table, "only", *object, actors),
        Claim::Within(actor, objects) => list_text(alloc, table, "within", *actor, objects),
        Claim::Readers(object, readers) => list_text(alloc, table, "readers", *object, readers),
        Claim::Through(from, to, filters) => through_text(alloc, table, *from, *to, filters),
        Claim::Without(actor, kind, object) => {
            let actor = end_word(table, *actor);
            let kind = kind.name();
            let object = end_word(table, *object);
            format!(in alloc; "without {actor} {kind} {object}")
        }
    }
}

/// Returns the text of lines, with the names that the labels of their claims have in the table.
///
/// A line that says nothing is empty.
pub fn write(alloc: Global, lines: &ClaimLines, table: &Table) -> Result<Vec<u8>, AllocError>
    ensures { IfOk result (λ text. text.items ≡ lines_text table.now lines.now) }
{
    Ok(lines_string(alloc, lines.as_slice(), table)?.into_bytes())
}

#[tactic(auto, using(captext::proofs::Written::line_more))]
fn lines_string(alloc: Global, lines: &[Option<Claim>], table: &Table) -> Result<String, AllocError>
    ensures { IfOk result (λ text. string_bytes text ≡ lines_text table.now lines.now) }
{
    let mut text = String::from_str(alloc, "confine-claims 2\n")?;
    for line in lines {
        write_line(alloc, &mut text, line, table)?;
    }
    text.push_str("end\n")?;
    Ok(text)
}

/// Writes a line.
fn write_line(
    alloc: Global,
    text: &mut String,
    line: &Option<Claim>,
    table: &Table,
) -> Result<(), AllocError>
    ensures { OnOk result (string_bytes text.new ≡ string_bytes text.old ++ line_text (entry_words table.now line.now)) }
{
    if let Some(claim) = line {
        let claim = claim_text(alloc, claim, table)?;
        text.push_str(&claim)?;
    }
    text.push_str("\n")
}
