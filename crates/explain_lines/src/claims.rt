//! The condition that a line of claims doesn't meet.
use crate::declared::Row;
use forms::{Form, Lines, text_of};

/// The flaw of a line that begins with the word of a claim.
#[derive(Clone, Copy)]
pub(crate) enum ClaimFlaw<'a> {
    /// A label in both places.
    Itself(&'a str),
    /// `*` in place of a label.
    Others,
    /// `*` in place of both ends.
    OthersTwice,
    /// The first label of `only`, `within` or `readers`, which is also among the others.
    Among(&'a str),
    /// An end of `through`, which is also among the labels that follow.
    End(&'a str),
    /// A label that is twice in `only`, `within`, `readers` or `through`.
    LabelTwice(&'a str),
    /// The line that has the same claim.
    Twice(u64),
}

/// Which labels of a claim are equal.
pub(crate) fn equal_labels<'a>(form: Form, row: Row<'a>) -> ClaimFlaw<'a> {
    let first = row.word(1);
    match form {
        Form::ClaimOnly | Form::ClaimWithin | Form::ClaimReaders => ClaimFlaw::Among(first),
        Form::ClaimThrough if first != row.word(2) => ClaimFlaw::End(end_among(row)),
        _ if first == "*" => ClaimFlaw::OthersTwice,
        _ => ClaimFlaw::Itself(first),
    }
}

// The end of a line of `through` that is also among the labels that follow.
fn end_among<'a>(row: Row<'a>) -> &'a str {
    let first = row.word(1);
    if has_label(row.text, 3, usize::MAX, first) {
        first
    } else {
        row.word(2)
    }
}

/// The repetition in a line of a claim: fault 52.
pub(crate) fn claim_twice<'a>(text: &[u8], form: Form, row: Row<'a>) -> Option<ClaimFlaw<'a>> {
    if has_list(form) {
        if let Some(label) = label_twice(row.text) {
            return Some(ClaimFlaw::LabelTwice(label));
        }
    }
    Some(ClaimFlaw::Twice(same_line(text, row)?))
}

/// Whether lines of this form have any number of labels.
pub(crate) fn has_list(form: Form) -> bool {
    matches!(
        form,
        Form::ClaimOnly | Form::ClaimWithin | Form::ClaimReaders | Form::ClaimThrough
    )
}

// The first label of a line that was in it before.
fn label_twice(line: &str) -> Option<&str> {
    let mut before = 0usize;
    for label in line.split(' ').skip(1) {
        if has_label(line, 1, before, label) {
            return Some(label);
        }
        before = before.saturating_add(1);
    }
    None
}

// Whether a label is one of `count` words of a line, from the word of this number on.
fn has_label(line: &str, first: usize, count: usize, label: &str) -> bool {
    for word in line.split(' ').skip(first).take(count) {
        if word == label {
            return true;
        }
    }
    false
}

// The first line with the same claim. It is spelled the same; only `apart` equals `through` without
// other labels.
fn same_line(text: &[u8], row: Row<'_>) -> Option<u64> {
    let mut lines = Lines::new(text);
    for number in 1..row.line {
        if is_same(text_of(lines.next_line()?), row.text) {
            return Some(number);
        }
    }
    None
}

fn is_same(one: &str, other: &str) -> bool {
    match (kept_apart(one), kept_apart(other)) {
        (Some(one), Some(other)) => one == other,
        _ => one == other,
    }
}

// The labels of a line of `apart` or `through`.
fn kept_apart(line: &str) -> Option<&str> {
    match line.strip_prefix("apart ") {
        Some(labels) => Some(labels),
        None => line.strip_prefix("through "),
    }
}
