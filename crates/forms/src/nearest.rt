//! The nearest of some names to a word that is none of them.
ghost use Rattle.std.specs.{Option.{option_copied}, Prelude.{◌≡◌, IfOk, find, map}};
ghost use Rattle.forms.specs.Nearest.{is_at, is_offered, nearest_of};

use std::alloc::{AllocError, Global};
use std::fmt;
use strsim::osa_distance;

/// The number of names that a sentence lists. Of the others it says how many there are.
pub const LISTED: usize = 12;

/// Writes how many names a list has beyond those that are listed, if it has more.
pub fn write_more<W: fmt::Write>(f: &mut fmt::Formatter<W>, count: usize) -> fmt::Result {
    if count > LISTED {
        let more = count - LISTED;
        write!(f, " and {more} more")?;
    }
    Ok(())
}

/// The number of bytes that a word, or a name that is offered in its place, may have.
const LONGEST: usize = 64;

/// Returns the first of the nearest names to a word: one edit away, or else two.
///
/// An edit puts in, leaves out or changes a letter, or swaps two neighbours. The word must have
/// more bytes than there are edits. No name is near if it or the word has more than 64 bytes.
pub fn nearest_name<'a>(
    alloc: Global,
    word: &str,
    names: &[&'a str],
) -> Result<Option<&'a str>, AllocError>
    ensures { IfOk result (λ found. option_copied found ≡ nearest_of word.now (map (λ name. name.now) names.now)) }
{
    match first_at(alloc, word, names, 1)? {
        Some(name) => Ok(Some(name)),
        None => first_at(alloc, word, names, 2),
    }
}

// The first name that is this number of edits away.
fn first_at<'a>(
    alloc: Global,
    word: &str,
    names: &[&'a str],
    edits: usize,
) -> Result<Option<&'a str>, AllocError>
    ensures { IfOk result (λ found. option_copied found ≡ find (is_at word.now edits) (map (λ name. name.now) names.now)) }
{
    for name in names {
        if is_at(alloc, word, edits, name)? {
            return Ok(Some(name));
        }
    }
    Ok(None)
}

// Whether a name is this number of edits away, and may be offered.
fn is_at(alloc: Global, word: &str, edits: usize, name: &str) -> Result<bool, AllocError>
    ensures { IfOk result (λ is_so. is_so ≡ is_at word.now edits name.now) }
{
    if !is_offered(word, edits, name) {
        return Ok(false);
    }
    let distance = osa_distance(alloc, word, name)?;
    Ok(distance == edits)
}

// Whether a name may be offered, if it is this number of edits away.
fn is_offered(word: &str, edits: usize, name: &str) -> bool
    ensures { result ≡ is_offered word.now edits name.now }
{
    edits < word.len() && word.len() <= LONGEST && name.len() <= LONGEST
}
