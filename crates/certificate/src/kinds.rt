//! Sets of kinds of authority, as the lines of a certificate have them.
ghost use Rattle.std.specs.{List.slice_split, Prelude.{◌==◌, ◌≡◌, IfOk, position, string_bytes}};
ghost use Rattle.words.specs.Reading.{Gives};
ghost use Rattle.certificate.specs.Kinds as spelled;

use base::{Kind, Kinds};
use bitflags::Flags;
use std::alloc::{AllocError, Global};
use words::{Words, Wrong};

/// A set and the kind of this name, which has to rise above those of the set.
#[tactic(auto, unfolding(crate::specs::Kinds::with_name, words::specs::Reading::or_syntax, words::specs::Reading::bind))]
fn with_name(kinds: Kinds, name: &[u8]) -> Result<Kinds, Wrong>
    ensures { result ≡ spelled.with_name kinds name.now }
{
    let kind = Kind::from_name(name).ok_or(Wrong::Syntax)?;
    let kind = Kinds::from(kind);
    if kinds.bits() >= kind.bits() {
        return Err(Wrong::Syntax);
    }
    let mut more = kinds;
    more.insert(kind);
    Ok(more)
}

/// Where the first comma is.
fn comma_of(names: &[u8]) -> Option<usize>
    ensures { result ≡ position (λ b. b == 44) names.now }
{
    names.iter().position(|byte| *byte == b',')
}

/// A set and the kinds of these names, between which commas stand.
#[tactic(auto, using(crate::proofs::KindWords::name_alone, crate::proofs::KindWords::name_fails, crate::proofs::KindWords::name_goes_on))]
fn with_names(kinds: Kinds, names: &[u8]) -> Result<Kinds, Wrong>
    ensures { result ≡ spelled.with_names kinds (slice_split (λ b. b == 44) names.now) }
{
    let Some(comma) = comma_of(names) else {
        return with_name(kinds, names);
    };
    let kinds = with_name(kinds, &names[..comma])?;
    with_names(kinds, &names[comma + 1..])
}

/// The next word as a set of kinds: their names, rising by number, with commas between them.
#[tactic(auto, unfolding(crate::specs::Kinds::kinds_at, crate::specs::Kinds::kinds_of, words::specs::Reading::word_at, words::specs::Reading::bind))]
pub(crate) fn kinds(words: &mut Words<'_>) -> Result<Kinds, Wrong>
    ensures { Gives (λ kinds. (kinds, words.new)) result (spelled.kinds_at words.old) }
{
    let word = words.word()?;
    with_names(Kinds::empty(), word)
}

/// The names of the kinds, rising by number, with commas between them.
#[tactic(auto, unfolding(crate::specs::Kinds::kinds_word))]
pub(crate) fn kinds_string(alloc: Global, kinds: Kinds) -> Result<String, AllocError>
    ensures { IfOk result (λ text. string_bytes text ≡ spelled.kinds_word kinds) }
{
    let mut text = String::new(alloc);
    let mut separator = "";
    for kind in &Kind::ALL {
        if kinds.has(*kind) {
            write!(text, "{separator}{kind}")?;
            separator = ",";
        }
    }
    Ok(text)
}
