//! The words of slots and rights, and how they are read.
ghost use Rattle.std.specs.Prelude.{◌==◌, ◌≡◌, IfOk, option_map, position, true};
ghost use Rattle.words.specs.{Name.is_name, Reading.Gives};
ghost use Rattle.captext.specs.Shapes as shape;

use base::Rights;
use words::{Words, Wrong, decimal_of, hexadecimal_of, name_of};

/// A slot of an object.
#[derive(Clone, Copy, PartialEq, Eq)]
pub enum Place {
    /// A slot of a CNode.
    Index(u64),
    /// The root slot of a TCB.
    Root,
}

/// A word after the object in a line for a capability.
#[derive(Clone, Copy)]
pub enum Term {
    Rights(Rights),
    Decimal(u64),
    Hexadecimal(u64),
}

/// A place as it is spelled: an index in decimal, or `root`.
#[tactic(auto, unfolding(crate::specs::Shapes::place_of))]
fn place_of(word: &[u8]) -> Option<Place>
    ensures { result ≡ shape.place_of word.now }
{
    if word == b"root".as_slice() {
        Some(Place::Root)
    } else {
        decimal_of(word).map(Place::Index)
    }
}

/// Where the first dot is.
fn dot_of(word: &[u8]) -> Option<usize>
    ensures { result ≡ position (λ b. b == 46) word.now }
{
    word.iter().position(|byte| *byte == b'.')
}

/// A slot as it is spelled: its holder's name, a dot, and its place there.
#[tactic(auto, unfolding(crate::specs::Shapes::slot_of))]
fn slot_of(word: &[u8]) -> Option<(&str, Place)>
    ensures { option_map (λ slot. (slot.0.now, slot.1)) result ≡ shape.slot_of word.now }
{
    let dot = dot_of(word)?;
    let name = name_of(&word[..dot])?;
    let place = place_of(&word[dot + 1..])?;
    Some((name, place))
}

/// Takes the next two words as names.
///
/// # Errors
///
/// [`Wrong::Syntax`] where one of them is missing or isn't a name.
#[tactic(auto, unfolding(crate::specs::Shapes::names_at, words::specs::Parts::in_turn, words::specs::Reading::bind))]
pub fn names<'a>(words: &mut Words<'a>) -> Result<(&'a str, &'a str), Wrong>
    ensures exact { Gives (λ names. ((names.0.now, names.1.now), words.new)) result (shape.names_at words.old) }
    ensures spelled { IfOk result (λ names. is_name names.0.now ≡ true) }
{
    let first = words.name()?;
    let second = words.name()?;
    Ok((first, second))
}

/// Takes the next word as a slot.
///
/// # Errors
///
/// [`Wrong::Syntax`] where no word is left, or the next one isn't a slot.
#[tactic(auto, unfolding(crate::specs::Shapes::slot_at, words::specs::Reading::word_at, words::specs::Reading::or_syntax, words::specs::Reading::bind))]
pub fn slot<'a>(words: &mut Words<'a>) -> Result<(&'a str, Place), Wrong>
    ensures { Gives (λ slot. ((slot.0.now, slot.1), words.new)) result (shape.slot_at words.old) }
{
    let word = words.word()?;
    slot_of(word).ok_or(Wrong::Syntax)
}

/// A word as rights, or as a number.
#[tactic(auto, unfolding(crate::specs::Shapes::term_of))]
fn term_of(word: &[u8]) -> Option<Term>
    ensures { result ≡ shape.term_of word.now }
{
    if let Some(rights) = Rights::from_word(word) {
        return Some(Term::Rights(rights));
    }
    if let Some(number) = decimal_of(word) {
        return Some(Term::Decimal(number));
    }
    hexadecimal_of(word).map(Term::Hexadecimal)
}

/// The next word as a term, if a word is left.
#[tactic(auto, unfolding(crate::specs::Shapes::term_at, words::specs::Reading::or_syntax, words::specs::Reading::bind))]
fn next_term(words: &mut Words<'_>) -> Result<Option<Term>, Wrong>
    ensures { Gives (λ term. (term, words.new)) result (shape.term_at words.old) }
{
    match words.next_word() {
        None => Ok(None),
        Some(word) => Ok(Some(term_of(word).ok_or(Wrong::Syntax)?)),
    }
}

/// Takes at most two words as terms.
///
/// # Errors
///
/// [`Wrong::Syntax`] where one of them isn't a term.
#[tactic(auto, unfolding(crate::specs::Shapes::terms_at, words::specs::Parts::in_turn, words::specs::Reading::bind))]
pub fn terms(words: &mut Words<'_>) -> Result<(Option<Term>, Option<Term>), Wrong>
    ensures { Gives (λ terms. (terms, words.new)) result (shape.terms_at words.old) }
{
    let first = next_term(words)?;
    let second = next_term(words)?;
    Ok((first, second))
}
