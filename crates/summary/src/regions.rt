//! The text on labels without a thread, with those who change them, take from them and read them.
ghost use Rattle.std.specs.{List.{flat_map, list_any}, Prelude.{◌++◌, ◌≡◌, IfOk, OnOk, string_bytes}};
ghost use Rattle.summary.specs.Regions.{changers, group_of, group_text, has_same_users, is_leader, is_nil, leads, listed_text, lists_text};
ghost use Rattle.summary.specs.Regions.{more_name, names_text, readers, regions_text, separator, takers, takes_from, users_text, uses_alike};
ghost use Rattle.summary.specs.Regions.{who_text};

use crate::rows::Row;
use base::Label;
use captext::label_name;
use std::alloc::{AllocError, Global};
use table::Table;

/// Writes the labels without a thread: one line for those with the same users, and who these users are.
#[tactic(auto, using(crate::proofs::OneMore::piece_more))]
pub(crate) fn write_regions(
    alloc: Global,
    text: &mut String,
    table: &Table,
    rows: &[Row],
    others: &[Label],
) -> Result<(), AllocError>
    ensures { OnOk result (string_bytes text.new
        ≡ string_bytes text.old ++ regions_text table.now rows.now others.now) }
{
    for label in others {
        write_group(alloc, text, table, rows, others, *label)?;
    }
    Ok(())
}

// Writes the labels with the same users as this one, if it is the first of them.
fn write_group(
    alloc: Global,
    text: &mut String,
    table: &Table,
    rows: &[Row],
    others: &[Label],
    label: Label,
) -> Result<(), AllocError>
    ensures { OnOk result (string_bytes text.new
        ≡ string_bytes text.old ++ group_text table.now rows.now others.now label) }
{
    if !leads(rows, others, label) {
        return Ok(());
    }
    let group = group_of(alloc, rows, others, label)?;
    write_names(text, table, &group)?;
    let changers = changers(alloc, rows, label)?;
    let takers = takers(alloc, rows, label)?;
    let readers = readers(alloc, rows, label)?;
    write_users(text, table, &changers, &takers, &readers)
}

// Whether a label is the first of those with the same users.
fn leads(rows: &[Row], others: &[Label], label: Label) -> bool
    ensures { result ≡ leads rows.now others.now label }
{
    !is_led(rows, others, label)
}

// Whether a label before this one has the same users.
fn is_led(rows: &[Row], others: &[Label], label: Label) -> bool
    ensures { result ≡ list_any (λ k. is_leader rows.now label k) others.now }
{
    others.iter().any(|other| is_leader(rows, label, *other))
}

// Whether a label comes before another and has the same users.
fn is_leader(rows: &[Row], label: Label, other: Label) -> bool
    ensures { result ≡ is_leader rows.now label other }
{
    other.number() < label.number() && has_same_users(rows, other, label)
}

// Whether two labels are changed, taken from and read by the same labels with a thread.
fn has_same_users(rows: &[Row], one: Label, other: Label) -> bool
    ensures { result ≡ has_same_users rows.now one other }
{
    rows.iter().all(|row| uses_alike(row, one, other))
}

// Whether the row's label uses two labels in the same ways.
fn uses_alike(row: &Row, one: Label, other: Label) -> bool
    ensures { result ≡ uses_alike one other row.now }
{
    row.changes.has(one) == row.changes.has(other)
        && takes_from(row, one) == takes_from(row, other)
        && row.reads.has(one) == row.reads.has(other)
}

// Whether the row's label may take from a label and not change it otherwise.
fn takes_from(row: &Row, label: Label) -> bool
    ensures { result ≡ takes_from row.now label }
{
    row.shrinks.has(label) && !row.changes.has(label)
}

// The labels with the same users as this one.
#[tactic(auto, using(crate::proofs::Pieces::kept_more, crate::proofs::Pieces::kept_same))]
fn group_of(
    alloc: Global,
    rows: &[Row],
    others: &[Label],
    label: Label,
) -> Result<Vec<Label>, AllocError>
    ensures { IfOk result (λ labels. labels.items ≡ group_of rows.now others.now label) }
{
    let mut group = Vec::new(alloc);
    for other in others {
        if has_same_users(rows, *other, label) {
            group.push(*other)?;
        }
    }
    Ok(group)
}

/// Returns the labels with a thread that may change a label.
#[tactic(auto, using(crate::proofs::Pieces::item_passes, crate::proofs::Pieces::item_fails))]
pub fn changers(alloc: Global, rows: &[Row], label: Label) -> Result<Vec<Label>, AllocError>
    ensures { IfOk result (λ labels. labels.items ≡ changers rows.now label) }
{
    let mut found = Vec::new(alloc);
    for row in rows {
        if row.changes.has(label) {
            found.push(row.label)?;
        }
    }
    Ok(found)
}

/// Returns the labels with a thread that read a label.
#[tactic(auto, using(crate::proofs::Pieces::item_passes, crate::proofs::Pieces::item_fails))]
pub fn readers(alloc: Global, rows: &[Row], label: Label) -> Result<Vec<Label>, AllocError>
    ensures { IfOk result (λ labels. labels.items ≡ readers rows.now label) }
{
    let mut found = Vec::new(alloc);
    for row in rows {
        if row.reads.has(label) {
            found.push(row.label)?;
        }
    }
    Ok(found)
}

/// Returns the labels with a thread that may take from a label, and not change it otherwise.
#[tactic(auto, using(crate::proofs::Pieces::item_passes, crate::proofs::Pieces::item_fails))]
pub fn takers(alloc: Global, rows: &[Row], label: Label) -> Result<Vec<Label>, AllocError>
    ensures { IfOk result (λ labels. labels.items ≡ takers rows.now label) }
{
    let mut found = Vec::new(alloc);
    for row in rows {
        if takes_from(row, label) {
            found.push(row.label)?;
        }
    }
    Ok(found)
}

// Writes who uses labels.
fn write_users(
    text: &mut String,
    table: &Table,
    changers: &[Label],
    takers: &[Label],
    readers: &[Label],
) -> Result<(), AllocError>
    ensures { OnOk result (string_bytes text.new
        ≡ string_bytes text.old ++ users_text table.now changers.now takers.now readers.now) }
{
    text.push_str("\n    ")?;
    write_who(text, table, changers, takers, readers)?;
    text.push_str("\n")
}

fn write_who(
    text: &mut String,
    table: &Table,
    changers: &[Label],
    takers: &[Label],
    readers: &[Label],
) -> Result<(), AllocError>
    ensures { OnOk result (string_bytes text.new
        ≡ string_bytes text.old ++ who_text table.now changers.now takers.now readers.now) }
{
    if is_nil(changers) && is_nil(takers) && is_nil(readers) {
        return text.push_str("changed and read by nobody");
    }
    write_lists(text, table, changers, takers, readers)
}

// Writes the lists that aren't empty.
fn write_lists(
    text: &mut String,
    table: &Table,
    changers: &[Label],
    takers: &[Label],
    readers: &[Label],
) -> Result<(), AllocError>
    ensures { OnOk result (string_bytes text.new
        ≡ string_bytes text.old ++ lists_text table.now changers.now takers.now readers.now) }
{
    let unchanged = is_nil(changers);
    let untaken = unchanged && is_nil(takers);
    write_listed(text, table, true, "changed by ", changers)?;
    write_listed(text, table, unchanged, "taken away by ", takers)?;
    write_listed(text, table, untaken, "read by ", readers)
}

// Writes a word and names, if there are any names; a separator comes before them if they aren't the first.
fn write_listed(
    text: &mut String,
    table: &Table,
    is_first: bool,
    word: &str,
    labels: &[Label],
) -> Result<(), AllocError>
    ensures { OnOk result (string_bytes text.new
        ≡ string_bytes text.old ++ listed_text table.now is_first word.now labels.now) }
{
    if is_nil(labels) {
        return Ok(());
    }
    text.push_str(separator(is_first))?;
    text.push_str(word)?;
    write_names(text, table, labels)
}

// The text between two lists.
fn separator(is_first: bool) -> &'static str
    ensures { result.now ≡ separator is_first }
{
    if is_first { "" } else { "; " }
}

fn is_nil(labels: &[Label]) -> bool
    ensures { result ≡ is_nil labels.now }
{
    match labels.first() {
        Some(_) => false,
        None => true,
    }
}

/// Writes the names of labels with commas between them.
pub fn write_names(text: &mut String, table: &Table, labels: &[Label]) -> Result<(), AllocError>
    ensures { OnOk result (string_bytes text.new ≡ string_bytes text.old ++ names_text table.now labels.now) }
{
    match labels.first() {
        Some(first) => {
            text.push_str(label_name(table, *first))?;
            write_more_names(text, table, &labels[1..])
        }
        None => Ok(()),
    }
}

#[tactic(auto, using(crate::proofs::OneMore::piece_more))]
fn write_more_names(text: &mut String, table: &Table, labels: &[Label]) -> Result<(), AllocError>
    ensures { OnOk result (string_bytes text.new ≡ string_bytes text.old ++ flat_map (more_name table.now) labels.now) }
{
    for label in labels {
        let name = label_name(table, *label);
        write!(text, ", {name}")?;
    }
    Ok(())
}
