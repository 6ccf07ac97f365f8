//! The test whether the edges of a policy rise (fault 50).
use crate::declared::Row;
use forms::kind_number;
use table::Table;

/// An edge that doesn't come after the one before.
#[derive(Clone, Copy)]
pub(crate) enum EdgeFlaw<'a> {
    /// The same edge.
    Twice(u64),
    /// What is compared, the words with their numbers, and the line before.
    Falls(&'static str, Numbered<'a>, Numbered<'a>, u64),
}

/// A word with its number.
#[derive(Clone, Copy)]
pub(crate) struct Numbered<'a> {
    pub word: &'a str,
    pub number: u64,
}

/// The flaw of an edge that doesn't come after the one before.
pub(crate) fn edge_flaw<'a>(table: &Table, row: Row<'a>, before: Row<'a>) -> Option<EdgeFlaw<'a>> {
    for at in 1..4 {
        let here = number_at(table, row, at)?;
        let last = number_at(table, before, at)?;
        if here.number > last.number {
            return None;
        }
        if here.number < last.number {
            let what = if at == 2 { "kind" } else { "label" };
            return Some(EdgeFlaw::Falls(what, here, last, before.line));
        }
    }
    Some(EdgeFlaw::Twice(before.line))
}

// A word of an edge by its place: the kind is between the labels.
fn number_at<'a>(table: &Table, row: Row<'a>, at: u64) -> Option<Numbered<'a>> {
    let word = row.word(at);
    let number = match at {
        2 => kind_number(word)? as u64,
        _ => u64::from(table.label_named(word)?.number()),
    };
    Some(Numbered { word, number })
}
