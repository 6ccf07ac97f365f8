//! The spelling of names in texts.
ghost use Rattle.std.specs.{List.list_all, Option.option_copied, Prelude.{ℕ, ◌↔◌, ◌≡◌, IfSome, List, Some, true}};
ghost use Rattle.words.specs.Name.{is_name, is_name_byte, name_of, starts_with_letter};

use std::str;

/// The number of letters, digits and `_` that a name may have.
pub const MAX_NAME_LENGTH: usize = 31;

/// Whether a word is a name: 1 to [`MAX_NAME_LENGTH`] of `a-z`, `0-9` and `_`, the first a letter.
fn is_name(word: &[u8]) -> bool
    ensures { result ≡ is_name word.now }
{
    starts_with_letter(word) && word.len() <= MAX_NAME_LENGTH && has_name_bytes(word)
}

/// Returns the word as a name, if it is one.
#[tactic(auto, using(crate::proofs::NameText::name_is_text), unfolding(crate::specs::Name::name_of))]
pub fn name_of(word: &[u8]) -> Option<&str>
    ensures exact { option_copied result ≡ name_of word.now }
    ensures spelled { IfSome result (λ name. is_name name.now ≡ true) }
{
    if !is_name(word) {
        return None;
    }
    str::from_utf8(word).ok()
}

/// A law about names: a word is read as a name exactly if it is that name, and a name is read by its bytes.
pub fn names_are_read_back()
    ensures { (word name : List ℕ)
        → (name_of word ≡ Some name) ↔ ((word ≡ name) × (is_name name ≡ true)) }
{}

fn starts_with_letter(word: &[u8]) -> bool
    ensures { result ≡ starts_with_letter word.now }
{
    match word {
        [] => false,
        [first, ..] => first.is_ascii_lowercase(),
    }
}

fn has_name_bytes(word: &[u8]) -> bool
    ensures { result ≡ list_all is_name_byte word.now }
{
    word.iter().all(|byte| byte.is_ascii_lowercase() || byte.is_ascii_digit() || *byte == b'_')
}
