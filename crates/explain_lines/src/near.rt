//! The nearest known name to an unknown one.
use crate::declared::{Declared, Row, Rows};
use base::ObjId;
use forms::{File, Form, Lines, form_of, nearest_name, text_of};
use std::alloc::{AllocError, Global};
use table::Table;

/// Returns the label's name that is nearest to an unknown one, if one is near.
pub(crate) fn near_label<'a>(
    alloc: Global,
    declared: Declared<'a>,
    name: &str,
) -> Result<Option<&'a str>, AllocError> {
    let labels = match declared {
        Declared::Rows(rows) => names_of_rows(alloc, rows, Form::Label.section())?,
        Declared::Table(table) => labels_of(alloc, table)?,
    };
    nearest_name(alloc, name, &labels)
}

/// Returns the object's name that is nearest to an unknown one, if one is near.
pub(crate) fn near_object<'a>(
    alloc: Global,
    declared: Declared<'a>,
    name: &str,
) -> Result<Option<&'a str>, AllocError> {
    let objects = match declared {
        Declared::Rows(rows) => names_of_rows(alloc, rows, Form::Tcb.section())?,
        Declared::Table(table) => objects_of(alloc, table)?,
    };
    nearest_name(alloc, name, &objects)
}

// The names in the lines of a section.
fn names_of_rows<'a>(
    alloc: Global,
    rows: Rows<'a>,
    section: u8,
) -> Result<Vec<&'a str>, AllocError> {
    let mut names = Vec::new(alloc);
    let mut lines = Lines::new(rows.text);
    for line in 1..rows.end {
        let Some(bytes) = lines.next_line() else {
            break;
        };
        let text = text_of(bytes);
        if let Some(form) = form_of(File::Table, text) {
            if form.section() == section {
                names.push(Row { line, text }.word(1))?;
            }
        }
    }
    Ok(names)
}

fn labels_of(alloc: Global, table: &Table) -> Result<Vec<&str>, AllocError> {
    let mut names = Vec::new(alloc);
    for label in table.labels().iter() {
        if let Some(name) = table.label_name(label) {
            names.push(name)?;
        }
    }
    Ok(names)
}

fn objects_of(alloc: Global, table: &Table) -> Result<Vec<&str>, AllocError> {
    let mut names = Vec::new(alloc);
    for number in 0..table.object_count() {
        if let Some(name) = table.object_name(ObjId(number as u64)) {
            names.push(name)?;
        }
    }
    Ok(names)
}
