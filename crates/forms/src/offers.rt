//! The nearest word in place of one that isn't right.
use crate::file::File;
use crate::form::Form;
use crate::layout::LayoutFlaw;
use crate::nearest::nearest_name;
use crate::wanted::{KINDS, MATERIALS, WordFlaw};
use std::alloc::{AllocError, Global};

/// Returns the flaw of a layout with the word that is nearest to an unknown one, if one is near.
pub fn near_layout<'a>(
    alloc: Global,
    file: File,
    flaw: LayoutFlaw<'a>,
) -> Result<LayoutFlaw<'a>, AllocError> {
    let near = match flaw {
        LayoutFlaw::UnknownCall(word) => {
            near_call(alloc, word)?.map(|near| LayoutFlaw::NearCall(word, near))
        }
        LayoutFlaw::Unknown(word, before) => {
            near_line(alloc, file, before, word)?.map(|near| LayoutFlaw::NearLine(word, near))
        }
        _ => None,
    };
    Ok(near.unwrap_or(flaw))
}

/// Returns the flaw of a word with the kind that is nearest to an unknown one, if one is near.
pub fn near_word<'a>(alloc: Global, flaw: WordFlaw<'a>) -> Result<WordFlaw<'a>, AllocError> {
    let near = match flaw {
        WordFlaw::NoKind(word) => {
            nearest_name(alloc, word, &KINDS)?.map(|near| WordFlaw::NearKind(word, near))
        }
        WordFlaw::NoMaterial(word) => {
            nearest_name(alloc, word, &MATERIALS)?.map(|near| WordFlaw::NearMaterial(word, near))
        }
        _ => None,
    };
    Ok(near.unwrap_or(flaw))
}

// The call that is nearest to a word.
fn near_call(alloc: Global, word: &str) -> Result<Option<&'static str>, AllocError> {
    let mut calls = Vec::new(alloc);
    for form in &Form::ALL {
        if form.file() == File::Script {
            calls.push(form.word())?;
        }
    }
    nearest_name(alloc, word, &calls)
}

// The word, nearest to another, of a line that may stand below one of a form.
fn near_line(
    alloc: Global,
    file: File,
    before: Option<Form>,
    word: &str,
) -> Result<Option<&'static str>, AllocError> {
    let section = match before {
        Some(form) => form.section(),
        None => 0,
    };
    let mut words = Vec::new(alloc);
    for form in &Form::ALL {
        if file.has(*form) && form.section() >= section {
            words.push(form.word())?;
        }
    }
    words.push("end")?;
    nearest_name(alloc, word, &words)
}
