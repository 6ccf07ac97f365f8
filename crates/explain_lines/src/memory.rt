//! The test whether an object may lie at its address (fault 53).
use crate::declared::{Row, Rows, address_of, power, radix_of};
use forms::{File, Form, Lines, form_of, text_of};

/// An object that may not lie at its address.
#[derive(Clone, Copy)]
pub(crate) enum PlacedFlaw<'a> {
    /// The address, and the number of which it is no multiple.
    Misaligned(u64, u64),
    /// It shares bytes with an earlier object: its name, line and range.
    Meets(Row<'a>, Range),
}

/// The bytes of an object.
#[derive(Clone, Copy)]
pub(crate) struct Range {
    pub first: u64,
    pub last: u64,
}

/// The reason why an object may not lie at its address.
pub(crate) fn placed_flaw<'a>(rows: Rows<'a>, form: Form, row: Row<'_>) -> Option<PlacedFlaw<'a>> {
    let range = range_of(form, row.text)?;
    let size = size_of(form, row.text)?;
    if range.first.checked_rem(size) != Some(0) {
        return Some(PlacedFlaw::Misaligned(range.first, size));
    }
    meeting(rows, range)
}

// The first object that shares bytes with this range.
fn meeting<'a>(rows: Rows<'a>, range: Range) -> Option<PlacedFlaw<'a>> {
    let mut lines = Lines::new(rows.text);
    for line in 1..rows.end {
        let text = text_of(lines.next_line()?);
        if let Some(other) = range_of_line(text) {
            if other.first <= range.last && range.first <= other.last {
                return Some(PlacedFlaw::Meets(Row { line, text }, other));
            }
        }
    }
    None
}

fn range_of_line(line: &str) -> Option<Range> {
    range_of(form_of(File::Table, line)?, line)
}

fn range_of(form: Form, line: &str) -> Option<Range> {
    let first = address_of_object(form, line)?;
    let size = size_of(form, line)?;
    Some(Range {
        first,
        last: first.saturating_add(size.saturating_sub(1)),
    })
}

fn address_of_object(form: Form, line: &str) -> Option<u64> {
    match form.section() {
        1 if form != Form::Control => address_of(line),
        _ => None,
    }
}

/// The size of an object in bytes.
pub(crate) fn size_of(form: Form, line: &str) -> Option<u64> {
    Some(match form {
        Form::Untyped => power(radix_of(line)?),
        Form::CNode => power(radix_of(line)?).saturating_mul(32),
        Form::Tcb => 0x400,
        Form::Endpoint => 0x10,
        Form::Notification | Form::Reply => 0x20,
        Form::Context => 0x100,
        Form::Frame => 0x1000,
        _ => return None,
    })
}
