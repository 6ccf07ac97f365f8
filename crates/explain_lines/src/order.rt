//! The test whether lines rise (fault 50).
use crate::declared::{Row, Rows};
use forms::{File, Form, Lines, decimal, form_of, text_of};

/// A line that doesn't come after an earlier one: what is compared, and the number of the earlier line.
#[derive(Clone, Copy)]
pub(crate) struct OrderFlaw<'a> {
    pub what: &'static str,
    pub here: Ranked<'a>,
    pub before: Ranked<'a>,
    pub line: u64,
}

/// A word with the number and the index by which it is compared.
#[derive(Clone, Copy)]
pub(crate) struct Ranked<'a> {
    pub word: &'a str,
    /// The object's name.
    pub name: &'a str,
    pub number: u64,
    pub index: u64,
}

/// The flaw of a line of a table that isn't above the last one of its form.
pub(crate) fn order_flaw<'a>(rows: Rows<'a>, form: Form, row: Row<'a>) -> Option<OrderFlaw<'a>> {
    let at = match form {
        Form::Cap | Form::Bind => 1,
        Form::Child => 2,
        _ => return None,
    };
    let last = last_row(rows, form)?;
    let here = rank_of(rows, row.word(at))?;
    let before = rank_of(rows, last.word(at))?;
    if (here.number, here.index) > (before.number, before.index) {
        return None;
    }
    Some(OrderFlaw {
        what: what_rises(form),
        here,
        before,
        line: last.line,
    })
}

// The word for that by which lines of the form rise.
fn what_rises(form: Form) -> &'static str {
    match form {
        Form::Bind => "threads",
        _ => "slots",
    }
}

// The last line of the form.
fn last_row<'a>(rows: Rows<'a>, form: Form) -> Option<Row<'a>> {
    let mut last = None;
    let mut lines = Lines::new(rows.text);
    for line in 1..rows.end {
        let text = text_of(lines.next_line()?);
        if form_of(File::Table, text) == Some(form) {
            last = Some(Row { line, text });
        }
    }
    last
}

// The rank of a slot or an object.
fn rank_of<'a>(rows: Rows<'_>, word: &'a str) -> Option<Ranked<'a>> {
    let (name, index) = match word.split_once('.') {
        Some((name, "root")) => (name, 0),
        Some((name, index)) => (name, decimal(index)?),
        None => (word, 0),
    };
    Some(Ranked {
        word,
        name,
        number: rows.number_of(name)?,
        index,
    })
}
