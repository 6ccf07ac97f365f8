//! The test whether a pair of the derivation tree keeps its rules (fault 56).
use crate::declared::{Row, Rows, Sought};
use forms::{Form, decimal, right_number};

/// The rule that a pair of the derivation tree breaks.
#[derive(Clone, Copy)]
pub(crate) enum TreeFlaw<'a> {
    Empty(&'a str),
    /// The objects of the parent and of the child.
    Objects(&'a str, &'a str),
    /// The capability for untyped memory, as parent or child.
    Untyped(&'a str),
    /// The parent, its own parent, and the line of that pair.
    Copied(&'a str, &'a str, u64),
    /// The badges of the parent and of the child.
    Badges(u64, u64),
    /// A right that the parent lacks.
    Right(char),
}

/// The rule that a `child` line of a whole table breaks.
pub(crate) fn tree_flaw<'a>(rows: Rows<'a>, row: Row<'a>) -> Option<TreeFlaw<'a>> {
    let (one, two) = (row.word(1), row.word(2));
    let Some(parent) = rows.row(Sought::Cap(one)) else {
        return Some(TreeFlaw::Empty(one));
    };
    let Some(child) = rows.row(Sought::Cap(two)) else {
        return Some(TreeFlaw::Empty(two));
    };
    if parent.word(2) != child.word(2) {
        return Some(TreeFlaw::Objects(parent.word(2), child.word(2)));
    }
    if rows.object(parent.word(2))?.form == Form::Untyped {
        return Some(TreeFlaw::Untyped(parent.word(2)));
    }
    if let Some(flaw) = copied_flaw(rows, parent) {
        return Some(flaw);
    }
    let (above, below) = (badge_of(rows, parent), badge_of(rows, child));
    if above != 0 && above != below {
        return Some(TreeFlaw::Badges(above, below));
    }
    right_flaw(rows, parent, child)
}

// The flaw of a parent that isn't original: its badge is that of its own parent.
fn copied_flaw<'a>(rows: Rows<'a>, parent: Row<'a>) -> Option<TreeFlaw<'a>> {
    let pair = rows.row(Sought::Child(parent.word(1)))?;
    let source = rows.row(Sought::Cap(pair.word(1)))?;
    if badge_of(rows, source) != badge_of(rows, parent) {
        return None;
    }
    Some(TreeFlaw::Copied(parent.word(1), pair.word(1), pair.line))
}

// The badge of a capability; 0 for a kind without badges.
fn badge_of(rows: Rows<'_>, cap: Row<'_>) -> u64 {
    match rows.object(cap.word(2)) {
        Some(object) if matches!(object.form, Form::Endpoint | Form::Notification) => {
            match decimal(cap.word(4)) {
                Some(badge) => badge,
                None => 0,
            }
        }
        _ => 0,
    }
}

// The first right of a child that the parent lacks.
fn right_flaw<'a>(rows: Rows<'_>, parent: Row<'_>, child: Row<'_>) -> Option<TreeFlaw<'a>> {
    match rows.object(parent.word(2))?.form {
        Form::Endpoint | Form::Notification | Form::Frame => {}
        _ => return None,
    }
    let has = parent.word(3).as_bytes();
    for letter in child.word(3).as_bytes() {
        if right_number(*letter).is_some() && !has.contains(letter) {
            return Some(TreeFlaw::Right(*letter as char));
        }
    }
    None
}
