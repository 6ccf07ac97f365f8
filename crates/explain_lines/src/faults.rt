//! The sentence on a fault of a file: the line that has it, and the condition that this line doesn't meet.
use crate::caps::{kind_flaw, slot_flaw};
use crate::claims::{ClaimFlaw, claim_twice, equal_labels};
use crate::declared::{Declared, Row, Rows};
use crate::edges::edge_flaw;
use crate::flaws::{push, push_layout, push_other, push_word};
use crate::limits::{event_flaw, limit_flaw};
use crate::memory::placed_flaw;
use crate::mending::push_mending;
use crate::names::{known_flaw, twice_flaw};
use crate::numbers::{EventFlaw, number_flaw};
use crate::order::order_flaw;
use crate::tree::tree_flaw;
use crate::unknown::push_known;
use forms::{
    File, Form, LayoutFlaw, Line, NumberFlaw, OfLayout, Shown, WordFlaw, before_of, bytes_flaw,
    form_of, formless_flaw, header_flaw, line_at, outcome_flaw, section_flaw, shape_flaw, text_of,
};
use std::alloc::{AllocError, Global};
use table::Table;
use words::Fault;

/// A line with a fault.
#[derive(Clone, Copy)]
struct Faulty<'a> {
    file: File,
    /// The names of the file and of the system's file.
    name: &'a str,
    system: &'a str,
    /// The whole text of the file.
    text: &'a [u8],
    /// The source of the names of the line.
    declared: Option<Declared<'a>>,
    /// The number of the fault.
    number: u64,
    line: Line<'a>,
    row: Row<'a>,
    /// The line before.
    before: &'a str,
}

/// Says which line of a file has a fault, and which condition the line doesn't meet.
///
/// `text` is the whole text of the file called `name`, and `system` the name of the system's file. `table` is the table by which
/// any other file was read; it isn't used for a table. The faults of a description, which is XML, are explained by the crate
/// `explain_descriptions`: no condition of its lines is known here.
///
/// If memory was refused, the sentence says so and names no line.
pub fn explain_fault(
    alloc: Global,
    file: File,
    name: &str,
    system: &str,
    text: &[u8],
    table: Option<&Table>,
    fault: Fault,
) -> Result<String, AllocError> {
    if fault == Fault::MEMORY {
        return format!(in alloc; "{name}: no memory");
    }
    let number = fault.line;
    let mut lines = format!(in alloc; "{name}:{number}: ")?;
    match line_at(text, number) {
        Some(line) => {
            let faulty = Faulty {
                file,
                name,
                system,
                text,
                declared: declared(file, text, table, fault),
                number: fault.number,
                line,
                row: Row {
                    line: number,
                    text: text_of(line.bytes),
                },
                before: before_of(line_at(text, number.saturating_sub(1))),
            };
            push_line(alloc, &mut lines, &faulty)?;
        }
        None => push_missing(&mut lines, file, number)?,
    }
    Ok(lines)
}

// The source of the names of a line: for a table the lines above it, or all lines once the text has ended.
fn declared<'a>(
    file: File,
    text: &'a [u8],
    table: Option<&'a Table>,
    fault: Fault,
) -> Option<Declared<'a>> {
    match file {
        File::Table => {
            let end = match fault.number {
                56 => u64::MAX,
                _ => fault.line,
            };
            Some(Declared::Rows(Rows { text, end }))
        }
        File::Policy | File::Certificate | File::Claims | File::Script | File::Log => {
            Some(Declared::Table(table?))
        }
        File::Description | File::New => None,
    }
}

// Adds that the text ends before a line.
fn push_missing(lines: &mut String, file: File, number: u64) -> Result<(), AllocError> {
    if number == 1 {
        let flaw = LayoutFlaw::Empty;
        let flaw = OfLayout { file, flaw };
        return write!(lines, "{flaw}");
    }
    lines.push_str("the line is missing: the text ends without the line `end`")
}

// Adds a line, and the condition that it doesn't meet.
fn push_line(alloc: Global, lines: &mut String, faulty: &Faulty<'_>) -> Result<(), AllocError> {
    let shown = Shown {
        bytes: faulty.line.bytes,
    };
    write!(lines, "`{shown}`: ")?;
    if let Some(flaw) = bare_flaw(faulty) {
        return push_layout(alloc, lines, faulty.file, flaw);
    }
    match form_of(faulty.file, faulty.row.text) {
        Some(form) => push_flaw(alloc, lines, faulty, form),
        None => {
            let flaw = formless_flaw(faulty.file, faulty.row.text, faulty.before);
            push_layout(alloc, lines, faulty.file, flaw)
        }
    }
}

// The flaw of a header, or of the bytes of a line.
fn bare_flaw<'a>(faulty: &Faulty<'a>) -> Option<LayoutFlaw<'a>> {
    if faulty.row.line == 1 {
        return Some(header_flaw(faulty.file, faulty.line.bytes));
    }
    if faulty.number != 50 {
        return None;
    }
    bytes_flaw(faulty.file, faulty.line, faulty.before)
}

// Adds the condition that a line of a form doesn't meet.
fn push_flaw(
    alloc: Global,
    lines: &mut String,
    faulty: &Faulty<'_>,
    form: Form,
) -> Result<(), AllocError> {
    match (faulty.file, faulty.number) {
        (File::Claims, 50) => push_claim_words(alloc, lines, faulty.row, form),
        (_, 50) => push_syntax(alloc, lines, faulty, form),
        (File::Script | File::Log, _) => push(lines, form, event_flaw(faulty.row)),
        (_, 51) => push_unknown(alloc, lines, faulty, form),
        (File::Claims, _) => push(lines, form, claim_twice(faulty.text, form, faulty.row)),
        _ => push_meaning(lines, faulty, form),
    }
}

// Adds the flaw of a word of a claim, or which labels are equal that must differ: fault 50.
fn push_claim_words(
    alloc: Global,
    lines: &mut String,
    row: Row<'_>,
    form: Form,
) -> Result<(), AllocError> {
    match shape_flaw(form, row.text) {
        Some(WordFlaw::Name("*", _)) => push(lines, form, Some(ClaimFlaw::Others)),
        Some(flaw) => push_word(alloc, lines, form, flaw),
        None => push(lines, form, Some(equal_labels(form, row))),
    }
}

// Adds the flaw of the words of a line, or of the order of lines: fault 50.
fn push_syntax(
    alloc: Global,
    lines: &mut String,
    faulty: &Faulty<'_>,
    form: Form,
) -> Result<(), AllocError> {
    if let Some(flaw) = place_flaw(faulty, form) {
        return push_layout(alloc, lines, faulty.file, flaw);
    }
    match shape_flaw(form, event_of(faulty)) {
        Some(flaw) => push_shape(alloc, lines, faulty, form, flaw),
        None => push_order(lines, faulty, form),
    }
}

// The flaw of an entry without its outcome, or of a line below one of a later section.
fn place_flaw<'a>(faulty: &Faulty<'a>, form: Form) -> Option<LayoutFlaw<'a>> {
    if faulty.file == File::Log && faulty.row.text.split_once(" = ").is_none() {
        return Some(LayoutFlaw::NoEntry);
    }
    section_flaw(faulty.file, form, faulty.before)
}

// The words of a line that have its form: for an entry of a log those of its event.
fn event_of<'a>(faulty: &Faulty<'a>) -> &'a str {
    match (faulty.file, faulty.row.text.split_once(" = ")) {
        (File::Log, Some((event, _))) => event,
        _ => faulty.row.text,
    }
}

// Adds the flaw of a word, with more detail if it is in place of a number of an event.
fn push_shape(
    alloc: Global,
    lines: &mut String,
    faulty: &Faulty<'_>,
    form: Form,
    flaw: WordFlaw<'_>,
) -> Result<(), AllocError> {
    match event_word(faulty, form, &flaw) {
        Some(flaw) => push(lines, form, Some(flaw)),
        None => push_word(alloc, lines, form, flaw),
    }
}

// The flaw of a word in place of a number of an event, if more can be said of it.
fn event_word<'a>(faulty: &Faulty<'a>, form: Form, flaw: &WordFlaw<'a>) -> Option<EventFlaw<'a>> {
    match flaw {
        WordFlaw::Number(word, NumberFlaw::NoDecimal) if form.file() == File::Script => {
            number_flaw(faulty.file, faulty.declared, faulty.row, word)
        }
        _ => None,
    }
}

// Adds the flaw of an outcome, or of the order of lines.
fn push_order(lines: &mut String, faulty: &Faulty<'_>, form: Form) -> Result<(), AllocError> {
    match (faulty.file, faulty.declared) {
        (File::Log, _) => push(lines, form, outcome_flaw(outcome_of(faulty.row.text))),
        (File::Policy, Some(Declared::Table(table))) => push_edge(lines, faulty, form, table),
        (_, Some(Declared::Rows(rows))) => push(lines, form, order_flaw(rows, form, faulty.row)),
        _ => push_other(lines, form),
    }
}

// The words of an entry's outcome.
fn outcome_of(entry: &str) -> &str {
    match entry.split_once(" = ") {
        Some((_, outcome)) => outcome,
        None => "",
    }
}

// Adds why an edge doesn't come after the one before, which `confine close` mends.
fn push_edge(
    lines: &mut String,
    faulty: &Faulty<'_>,
    form: Form,
    table: &Table,
) -> Result<(), AllocError> {
    let above = Row {
        line: faulty.row.line.saturating_sub(1),
        text: faulty.before,
    };
    let Some(flaw) = edge_flaw(table, faulty.row, above) else {
        return push_other(lines, form);
    };
    write!(lines, "{flaw}")?;
    push_mending(lines, faulty.system, faulty.name, "mends it")
}

// Adds which name of a line isn't known: fault 51. Without a table nothing is said of names. `confine close` drops such a
// line of a policy.
fn push_unknown(
    alloc: Global,
    lines: &mut String,
    faulty: &Faulty<'_>,
    form: Form,
) -> Result<(), AllocError> {
    let Some(declared) = faulty.declared else {
        return push_other(lines, form);
    };
    let Some(flaw) = known_flaw(declared, form, faulty.row) else {
        return push_other(lines, form);
    };
    push_known(alloc, lines, declared, &flaw)?;
    match faulty.file {
        File::Policy => push_mending(lines, faulty.system, faulty.name, "drops the line"),
        _ => Ok(()),
    }
}

// Adds the flaw of what a line's words mean: faults 52 to 56.
fn push_meaning(lines: &mut String, faulty: &Faulty<'_>, form: Form) -> Result<(), AllocError> {
    let row = faulty.row;
    match (faulty.number, faulty.declared) {
        (54, Some(declared)) if has_slots(form) => {
            push(lines, form, slot_flaw(declared, form, row))
        }
        (55, Some(declared)) => push(lines, form, kind_flaw(declared, form, row)),
        (number, Some(Declared::Rows(rows))) => push_of_table(lines, number, rows, form, row),
        _ => push_other(lines, form),
    }
}

// Adds the flaw of a line of a table that only the other lines show.
fn push_of_table(
    lines: &mut String,
    number: u64,
    rows: Rows<'_>,
    form: Form,
    row: Row<'_>,
) -> Result<(), AllocError> {
    match number {
        52 => push(lines, form, twice_flaw(rows, form, row)),
        53 => push(lines, form, placed_flaw(rows, form, row)),
        54 => push(lines, form, limit_flaw(rows, form, row)),
        56 => push(lines, form, tree_flaw(rows, row)),
        _ => push_other(lines, form),
    }
}

fn has_slots(form: Form) -> bool {
    matches!(
        form,
        Form::Cap | Form::Child | Form::CertifiedCap | Form::CertifiedDerive
    )
}
