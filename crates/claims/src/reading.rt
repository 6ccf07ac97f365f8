//! The reading of the text of claims.
ghost use Rattle.std.specs.Prelude.{[], ℕ, ◌≡◌, ◌≢◌, Err, IfErr, List, Option, bytes_eq, codes, if◌then◌else◌, map, option_map};
ghost use Rattle.words.specs.{declared.faults.Wrong.{TheVariants.Syntax, Wrong}, Fault.{fault_at, no_memory}};
ghost use Rattle.words.specs.{FirstFault.{IsFirstFault, TellsFirst}, Reading.{Gives, GivesOrStops, Reads}, Text.lines_of};
ghost use Rattle.{machine.specs.Layout.Layout, captext.specs.Policies.kind_at};
ghost use Rattle.claims.specs.{declared.claim.Claim.Claim as ClaimOf, Claims.is_one_of};
ghost use Rattle.claims.specs.Reading as reading;

use crate::claim::{Claim, LabelList, Most, Who};
use crate::lines::ClaimLines;
use base::{Kind, Label, Labels};
use captext::Fault;
use std::alloc::Global;
use table::Table;
use words::{LineError, Reader, Words, Wrong, name_of, read_text};

/// The next word as a name, or `None` where it is `*`.
#[tactic(auto, unfolding(crate::specs::Reading::end_at, crate::specs::Reading::end_named, words::specs::Reading::word_at, words::specs::Reading::or_syntax, words::specs::Reading::bind))]
fn end<'a>(words: &mut Words<'a>) -> Result<Option<&'a str>, Wrong>
    ensures { Gives (λ end. (option_map (λ name. name.now) end, words.new)) result (reading.end_at words.old) }
{
    let word = words.word()?;
    if word == b"*".as_slice() {
        return Ok(None);
    }
    let Some(name) = name_of(word) else {
        return Err(Wrong::Syntax);
    };
    Ok(Some(name))
}

/// The next word as a kind of authority.
#[tactic(auto, unfolding(captext::specs::Policies::kind_at, words::specs::Reading::word_at, words::specs::Reading::or_syntax, words::specs::Reading::bind))]
fn kind(words: &mut Words<'_>) -> Result<Kind, Wrong>
    ensures { Gives (λ kind. (kind, words.new)) result (kind_at words.old) }
{
    let word = words.word()?;
    Kind::from_name(word).ok_or(Wrong::Syntax)
}

/// The label of this name.
#[tactic(auto, unfolding(crate::specs::Reading::label_at))]
fn label(table: &Table, name: &str) -> Result<Label, Wrong>
    ensures { result ≡ reading.label_at table.now name.now }
{
    table.label_named(name).ok_or(Wrong::UnknownName)
}

/// The labels that an end of a claim names.
#[tactic(auto, unfolding(crate::specs::Reading::who_named, words::specs::Reading::bind))]
fn who(table: &Table, end: Option<&str>) -> Result<Who, Wrong>
    ensures { result ≡ reading.who_named table.now (option_map (λ name. name.now) end.entry) }
{
    match end {
        None => Ok(Who::Others),
        Some(name) => Ok(Who::One(label(table, name)?)),
    }
}

/// Whether the two ends of a claim may stand in one.
fn may_meet(actor: &Who, object: &Who) -> bool
    ensures { result ≡ reading.may_meet actor.now object.now }
{
    match actor {
        Who::One(actor) => match object {
            Who::One(object) => actor.number() != object.number(),
            Who::Others => true,
        },
        Who::Others => match object {
            Who::One(_) => true,
            Who::Others => false,
        },
    }
}

/// Reads what follows `none` or `take`: two ends.
#[tactic(auto, unfolding(crate::specs::Reading::at_most_claim, words::specs::Reading::bind))]
fn at_most(table: &Table, most: Most, words: &mut Words<'_>) -> Result<Claim, Wrong>
    ensures { result ≡ reading.at_most_claim table.now most words.old }
{
    let actor = end(words)?;
    let object = end(words)?;
    words.end()?;
    let actor = who(table, actor)?;
    let object = who(table, object)?;
    if !may_meet(&actor, &object) {
        return Err(Wrong::Syntax);
    }
    Ok(Claim::AtMost(most, actor, object))
}

/// The words that are left, as names.
#[tactic(auto, unfolding(crate::specs::Reading::names_after, words::specs::Reading::or_syntax, words::specs::Reading::bind))]
fn names<'a>(alloc: Global, words: &mut Words<'a>) -> Result<Vec<&'a str>, LineError>
    ensures { GivesOrStops (λ names. map (λ name. name.now) names.items) result (reading.names_after [] words.old) }
{
    let mut names = Vec::new(alloc);
    while let Some(word) = words.next_word() {
        let Some(name) = name_of(word) else {
            return Err(LineError::Text(Wrong::Syntax));
        };
        names.push(name)?;
    }
    Ok(names)
}

/// The labels of these names.
#[tactic(auto, unfolding(crate::specs::Reading::labels_named, words::specs::Reading::bind))]
fn labels(alloc: Global, table: &Table, names: &[&str]) -> Result<LabelList, LineError>
    ensures { GivesOrStops (λ labels. labels) result
        (reading.labels_named table.now [] (map (λ name. name.now) names.now)) }
{
    let mut labels = LabelList::new(alloc);
    for name in names {
        let label = label(table, name)?;
        labels.push(label)?;
    }
    Ok(labels)
}

/// Whether the label is one of these.
fn is_one_of(labels: &LabelList, label: Label) -> bool
    ensures { result ≡ is_one_of labels.now label }
{
    labels
        .as_slice()
        .iter()
        .any(|other| other.number() == label.number())
}

/// Whether no label comes twice.
fn are_distinct(labels: &LabelList) -> bool
    ensures { result ≡ reading.are_distinct [] labels.now }
{
    let mut before = Labels::none();
    for label in labels.as_slice() {
        if before.has(*label) {
            return false;
        }
        before = before.union(Labels::only(*label));
    }
    true
}

/// The label of a name, and those of others, of which none is the first or comes twice.
#[tactic(auto, unfolding(crate::specs::Reading::label_and_others, words::specs::Reading::bind))]
fn label_and_others(
    alloc: Global,
    table: &Table,
    name: &str,
    names: &[&str],
) -> Result<(Label, LabelList), LineError>
    ensures { GivesOrStops (λ labels. labels) result
        (reading.label_and_others table.now name.now (map (λ name. name.now) names.now)) }
{
    let label = label(table, name)?;
    let others = labels(alloc, table, names)?;
    if is_one_of(&others, label) {
        return Err(LineError::Text(Wrong::Syntax));
    }
    if !are_distinct(&others) {
        return Err(LineError::Text(Wrong::Double));
    }
    Ok((label, others))
}

/// Reads a label, and one or more others.
#[tactic(auto, unfolding(crate::specs::Reading::one_and_more, words::specs::Reading::bind))]
fn one_and_more(
    alloc: Global,
    table: &Table,
    words: &mut Words<'_>,
) -> Result<(Label, LabelList), LineError>
    ensures { GivesOrStops (λ labels. labels) result (reading.one_and_more table.now words.old) }
{
    let name = words.name()?;
    let names = names(alloc, words)?;
    if names.is_empty() {
        return Err(LineError::Text(Wrong::Syntax));
    }
    label_and_others(alloc, table, name, &names)
}

/// Reads what follows `only`: a label, and one or more others.
#[tactic(auto, unfolding(crate::specs::Reading::only_claim, words::specs::Reading::bind))]
fn only(alloc: Global, table: &Table, words: &mut Words<'_>) -> Result<Claim, LineError>
    ensures { GivesOrStops (λ claim. claim) result (reading.only_claim table.now words.old) }
{
    let (object, actors) = one_and_more(alloc, table, words)?;
    Ok(Claim::Only(object, actors))
}

/// Reads what follows `within`: a label, and one or more others.
#[tactic(auto, unfolding(crate::specs::Reading::within_claim, words::specs::Reading::bind))]
fn within(alloc: Global, table: &Table, words: &mut Words<'_>) -> Result<Claim, LineError>
    ensures { GivesOrStops (λ claim. claim) result (reading.within_claim table.now words.old) }
{
    let (actor, objects) = one_and_more(alloc, table, words)?;
    Ok(Claim::Within(actor, objects))
}

/// Reads what follows `readers`: a label, and others.
#[tactic(auto, unfolding(crate::specs::Reading::readers_claim, words::specs::Reading::bind))]
fn readers(alloc: Global, table: &Table, words: &mut Words<'_>) -> Result<Claim, LineError>
    ensures { GivesOrStops (λ claim. claim) result (reading.readers_claim table.now words.old) }
{
    let name = words.name()?;
    let names = names(alloc, words)?;
    let (object, readers) = label_and_others(alloc, table, name, &names)?;
    Ok(Claim::Readers(object, readers))
}

/// Reads what follows `apart`: two labels.
#[tactic(auto, unfolding(crate::specs::Reading::apart_claim, words::specs::Reading::bind))]
fn apart(alloc: Global, table: &Table, words: &mut Words<'_>) -> Result<Claim, Wrong>
    ensures { result ≡ reading.apart_claim table.now words.old }
{
    let from = words.name()?;
    let to = words.name()?;
    words.end()?;
    let from = label(table, from)?;
    let to = label(table, to)?;
    if from.number() == to.number() {
        return Err(Wrong::Syntax);
    }
    Ok(Claim::Through(from, to, LabelList::new(alloc)))
}

/// Reads what follows `through`: two labels, and others.
#[tactic(auto, unfolding(crate::specs::Reading::through_claim, words::specs::Reading::bind))]
fn through(alloc: Global, table: &Table, words: &mut Words<'_>) -> Result<Claim, LineError>
    ensures { GivesOrStops (λ claim. claim) result (reading.through_claim table.now words.old) }
{
    let from = words.name()?;
    let to = words.name()?;
    let names = names(alloc, words)?;
    let from = label(table, from)?;
    let to = label(table, to)?;
    let filters = labels(alloc, table, &names)?;
    if from.number() == to.number() {
        return Err(LineError::Text(Wrong::Syntax));
    }
    if is_one_of(&filters, from) || is_one_of(&filters, to) {
        return Err(LineError::Text(Wrong::Syntax));
    }
    if !are_distinct(&filters) {
        return Err(LineError::Text(Wrong::Double));
    }
    Ok(Claim::Through(from, to, filters))
}

/// Whether both ends of a claim stand for all others.
fn are_others(actor: &Who, object: &Who) -> bool
    ensures { result ≡ reading.are_others actor.now object.now }
{
    matches!((actor, object), (Who::Others, Who::Others))
}

/// Reads what follows `without`: an end, a kind of authority, and an end.
#[tactic(auto, unfolding(crate::specs::Reading::without_claim, words::specs::Reading::bind))]
fn without(table: &Table, words: &mut Words<'_>) -> Result<Claim, Wrong>
    ensures { result ≡ reading.without_claim table.now words.old }
{
    let actor = end(words)?;
    let kind = kind(words)?;
    let object = end(words)?;
    words.end()?;
    let actor = who(table, actor)?;
    let object = who(table, object)?;
    if are_others(&actor, &object) {
        return Err(Wrong::Syntax);
    }
    Ok(Claim::Without(actor, kind, object))
}

/// Reads the claim of a line that begins with this word.
#[tactic(auto, unfolding(crate::specs::Reading::claim_by))]
fn claim_by(
    alloc: Global,
    table: &Table,
    word: &[u8],
    words: &mut Words<'_>,
) -> Result<Claim, LineError>
    ensures { GivesOrStops (λ claim. claim) result (reading.claim_by table.now word.now words.old) }
{
    if word == b"none".as_slice() {
        return Ok(at_most(table, Most::Nothing, words)?);
    }
    if word == b"take".as_slice() {
        return Ok(at_most(table, Most::Take, words)?);
    }
    if word == b"only".as_slice() {
        return only(alloc, table, words);
    }
    if word == b"within".as_slice() {
        return within(alloc, table, words);
    }
    other_claim_by(alloc, table, word, words)
}

/// Reads the claim of a line that begins with this word, if it isn't a claim on pairs.
fn other_claim_by(
    alloc: Global,
    table: &Table,
    word: &[u8],
    words: &mut Words<'_>,
) -> Result<Claim, LineError>
    ensures { GivesOrStops (λ claim. claim) result
        (if bytes_eq word.now (codes "readers") then reading.readers_claim table.now words.old else
        (if bytes_eq word.now (codes "apart") then reading.apart_claim table.now words.old else
        (if bytes_eq word.now (codes "through") then reading.through_claim table.now words.old else
        (if bytes_eq word.now (codes "without") then reading.without_claim table.now words.old else
        Err Syntax)))) }
{
    if word == b"readers".as_slice() {
        return readers(alloc, table, words);
    }
    if word == b"apart".as_slice() {
        return Ok(apart(alloc, table, words)?);
    }
    if word == b"through".as_slice() {
        return through(alloc, table, words);
    }
    if word == b"without".as_slice() {
        return Ok(without(table, words)?);
    }
    Err(LineError::Text(Wrong::Syntax))
}

/// Whether a line with this first word is a comment.
fn begins_comment(word: &[u8]) -> bool
    ensures { result ≡ reading.begins_comment word.now }
{
    match word {
        [] => false,
        [first, ..] => *first == b'#',
    }
}

/// Reads what a line says.
#[tactic(auto, unfolding(crate::specs::Reading::entry_at, crate::specs::Reading::said_by, words::specs::Reading::word_at, words::specs::Reading::bind))]
fn entry(alloc: Global, table: &Table, words: &mut Words<'_>) -> Result<Option<Claim>, LineError>
    ensures { GivesOrStops (λ entry. entry) result (reading.entry_at table.now words.old) }
{
    if words.is(b"") {
        return Ok(None);
    }
    let word = words.word()?;
    if begins_comment(word) {
        return Ok(None);
    }
    let claim = claim_by(alloc, table, word, words)?;
    Ok(Some(claim))
}

/// Adds what a line says, if none of the lines before says the same claim.
#[tactic(auto, unfolding(crate::specs::Reading::with_entry, words::specs::Reading::bind))]
fn add_entry(lines: &mut ClaimLines, entry: Option<Claim>) -> Result<(), LineError>
    ensures { GivesOrStops (λ _. lines.new) result (reading.with_entry lines.old entry) }
{
    if !may_follow(lines, &entry) {
        return Err(LineError::Text(Wrong::Double));
    }
    lines.push(entry)?;
    Ok(())
}

/// Whether a line may follow these.
fn may_follow(lines: &ClaimLines, entry: &Option<Claim>) -> bool
    ensures { result ≡ reading.may_follow lines.now entry.now }
{
    match entry {
        None => true,
        Some(claim) => !lines.say(claim),
    }
}

/// Reads a line, and adds what it says.
#[tactic(auto, unfolding(crate::specs::Reading::entry_line, words::specs::Reading::bind))]
fn entry_line(
    alloc: Global,
    table: &Table,
    lines: &mut ClaimLines,
    words: &mut Words<'_>,
) -> Result<(), LineError>
    ensures { GivesOrStops (λ _. lines.new) result (reading.entry_line table.now lines.old words.old) }
{
    let entry = entry(alloc, table, words)?;
    add_entry(lines, entry)
}

/// Reads the text of claims, whose labels are those of the table.
///
/// # Errors
///
/// The fault of the first faulty line, or 40 where memory is refused.
pub fn read(alloc: Global, text: &[u8], table: &Table) -> Result<ClaimLines, Fault>
    ensures exact { Reads (λ lines. lines) result (reading.read_claims_of table.now text.now) }

    // A text that isn't read is refused for its first fault, unless memory was refused.
    ensures faults { IfErr result (λ fault. fault ≢ no_memory
        → TellsFirst (reading.claims_format table.now) (lines_of text.now) fault) }
    ensures refused { (line : ℕ) (wrong : Wrong)
        → IsFirstFault (reading.claims_format table.now) (lines_of text.now) line wrong
        → Reads (λ lines. lines) result (Err (fault_at line wrong)) }
{
    body_of(alloc, text, table)
}

/// Reads the text of claims, by the definition alone.
#[tactic(auto, unfolding(crate::specs::Reading::read_claims_of))]
fn body_of(alloc: Global, text: &[u8], table: &Table) -> Result<ClaimLines, Fault>
    ensures { Reads (λ lines. lines) result (reading.read_claims_of table.now text.now) }
{
    let mut body = Body {
        alloc,
        table,
        lines: ClaimLines::new(alloc),
    };
    match read_text(&mut body, b"confine-claims 2", text) {
        Ok(()) => Ok(body.lines),
        Err(fault) => Err(fault),
    }
}

/// The lines so far.
#[derive(Drop)]
struct Body<'a> {
    alloc: Global,
    table: &'a Table,
    lines: ClaimLines,
}

impl<'a> Reader for Body<'a> {
    ghost Seen = { List (Option ClaimOf) };

    ghost seen = { λ body. body.lines };

    ghost step = { λ body. reading.entry_line body.table.now };

    fn take_line(&mut self, words: &mut Words<'_>) -> Result<(), LineError> {
        entry_line(self.alloc, self.table, &mut self.lines, words)
    }
}
