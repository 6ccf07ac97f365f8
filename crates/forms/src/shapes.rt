//! Shapes of lines: whether the words of a line are those of its form (fault 50).
use crate::form::Form;
use crate::lines::{part, word};
use crate::wanted::{MOST, Wanted, WordFlaw, word_flaw};

/// Returns what is wrong with the words of a line, if anything is.
pub fn shape_flaw(form: Form, line: &str) -> Option<WordFlaw<'_>> {
    pattern_flaw(form.pattern(line), line)
}

/// Returns the first word that isn't as the pattern has it, is missing or is too many, if there is one.
///
/// In a pattern `..` stands for any number of names.
pub fn pattern_flaw<'a>(pattern: &str, line: &'a str) -> Option<WordFlaw<'a>> {
    for index in 0..MOST {
        match (part(pattern, ' ', index), word(line, index)) {
            (Some(".."), _) => return names_flaw(line, index),
            (Some(keyword), Some(found)) => {
                if let Some(flaw) = word_flaw(Wanted::of(keyword), found) {
                    return Some(flaw);
                }
            }
            (Some(keyword), None) => return Some(WordFlaw::Missing(Wanted::of(keyword))),
            (None, Some(found)) => return Some(WordFlaw::TooMany(found)),
            (None, None) => return None,
        }
    }
    None
}

// The first of the words from this one on that is no name, if there is one.
fn names_flaw(line: &str, first: u64) -> Option<WordFlaw<'_>> {
    for name in line.split(' ').skip(first as usize) {
        let flaw = word_flaw(Wanted::Name, name);
        if flaw.is_some() {
            return flaw;
        }
    }
    None
}
