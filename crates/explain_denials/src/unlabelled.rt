//! The sentence on a word that is no label.
use captext::label_name;
use forms::{LISTED, Shown, nearest_name, write_more};
use std::alloc::{AllocError, Global};
use std::fmt;
use table::Table;

/// Returns the sentence that a word is no label of a system, with the nearest label, or the first labels.
///
/// `table` is the table of the system, which the file called `file` gives.
pub fn explain_unlabelled(
    alloc: Global,
    file: &str,
    table: &Table,
    word: &str,
) -> Result<String, AllocError> {
    let shown = Shown {
        bytes: word.as_bytes(),
    };
    if let Some(near) = near_label(alloc, table, word)? {
        return format!(in alloc; "`{file}` has no label `{shown}`: did you mean `{near}`?");
    }
    if table.label_count() == 0 {
        return format!(in alloc; "`{file}` has no label `{shown}`, nor any other label");
    }
    let labels = FirstLabels { table };
    format!(in alloc; "`{file}` has no label `{shown}`: its labels are {labels}")
}

// The label that a word becomes, spelled as labels of descriptions are; else the one that is nearest to the word.
fn near_label<'a>(
    alloc: Global,
    table: &'a Table,
    word: &str,
) -> Result<Option<&'a str>, AllocError> {
    let mut names = Vec::new(alloc);
    for label in table.labels().iter() {
        let name = label_name(table, label);
        if is_respelled(word, name) {
            return Ok(Some(name));
        }
        names.push(name)?;
    }
    nearest_name(alloc, word, &names)
}

// Whether a label is a word in small letters, with `_` for each character but letters and digits.
fn is_respelled(word: &str, label: &str) -> bool {
    if word.len() != label.len() {
        return false;
    }
    for (byte, wanted) in word.as_bytes().iter().zip(label.as_bytes()) {
        if respelled(*byte) != *wanted {
            return false;
        }
    }
    true
}

// The character that a character of a name becomes in a label.
fn respelled(byte: u8) -> u8 {
    if byte.is_ascii_alphanumeric() {
        byte.to_ascii_lowercase()
    } else {
        b'_'
    }
}

/// The names of the first labels, in quotes, with commas between them, and how many more there are.
#[derive(Clone, Copy)]
struct FirstLabels<'a> {
    table: &'a Table,
}

impl fmt::Display for FirstLabels<'_> {
    fn fmt<W: fmt::Write>(&self, f: &mut fmt::Formatter<W>) -> fmt::Result {
        let mut count = 0usize;
        for label in self.table.labels().iter() {
            if count < LISTED {
                let separator = if count == 0 { "" } else { ", " };
                let name = label_name(self.table, label);
                write!(f, "{separator}`{name}`")?;
            }
            count = count.saturating_add(1);
        }
        write_more(f, count)
    }
}
