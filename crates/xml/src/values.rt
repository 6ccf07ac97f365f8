//! Values of attributes, and the characters that their references name.
ghost use Rattle.std.specs.{Char.{digit_value, is_digit}, Option.option_map};
ghost use Rattle.std.specs.Prelude.{[], ℕ, ◌<◌, ◌≡◌, ◌≤◌, IfOk, MatchOption, None, false, true};
ghost use Rattle.words.specs.Reading.{Gives, Reads};
ghost use Rattle.xml.specs.Value.{character_of, code_of, equals_at, quote_at, quoted_at, text_of, value_at, value_of};

use crate::characters::{begins_with, is_printable, value_length};
use crate::cursor::Cursor;
use std::alloc::{AllocError, Global};
use words::{Fault, Wrong};

/// The number of bytes that a value may have.
pub const MAX_VALUE_LENGTH: usize = 4096;

impl<'a> Cursor<'a> {
    /// Takes `=`, with white space round it.
    #[tactic(auto, unfolding(crate::specs::Value::equals_at, words::specs::Reading::bind))]
    pub(crate) fn equals(&mut self) -> Result<(), Fault>
        ensures { Gives (λ _. self.new) result (equals_at self.old) }
    {
        self.spaces();
        self.expect(b"=")?;
        self.spaces();
        Ok(())
    }

    // Takes a quote.
    #[tactic(auto, unfolding(crate::specs::Value::quote_at))]
    fn quote(&mut self) -> Result<u8, Fault>
        ensures { Gives (λ quote. (quote, self.new)) result (quote_at self.old) }
    {
        match self.rest() {
            [quote, ..] if *quote == b'"' || *quote == b'\'' => {
                let quote = *quote;
                self.advance(1);
                Ok(quote)
            }
            _ => Err(self.fault(Wrong::Syntax)),
        }
    }

    /// Takes what stands between two quotes, and returns it as it is spelled.
    #[tactic(auto, unfolding(crate::specs::Value::quoted_at, words::specs::Reading::bind))]
    pub(crate) fn quoted(&mut self) -> Result<&'a [u8], Fault>
        ensures { Gives (λ text. (text.now, self.new)) result (quoted_at self.old) }
    {
        let quote = self.quote()?;
        let count = value_length(quote, self.rest());
        let text = self.advance(count);
        self.expect(&[quote])?;
        Ok(text)
    }

    /// Takes a value between two quotes.
    ///
    /// # Errors
    ///
    /// 50 where it isn't spelled so, 54 where it has too many bytes, and 40 where memory is refused.
    #[tactic(auto, unfolding(crate::specs::Value::value_at, crate::specs::Value::value_of, words::specs::Reading::bind))]
    pub(crate) fn value(&mut self, alloc: Global) -> Result<Vec<u8>, Fault>
        ensures { Reads (λ value. (value.items, self.new)) result (value_at self.old) }
    {
        let spelled = self.quoted()?;
        match text_of(alloc, spelled)? {
            None => Err(self.fault(Wrong::Syntax)),
            Some(text) if text.len() > MAX_VALUE_LENGTH => Err(self.fault(Wrong::Limit)),
            Some(text) => Ok(text),
        }
    }
}

// The text with each reference replaced by the character that it names, unless a reference is wrong.
#[tactic(auto, using(crate::proofs::ValueBytes::plain_byte, crate::proofs::ValueBytes::reference_begins, crate::proofs::ValueBytes::name_byte, crate::proofs::ValueBytes::reference_ends, crate::proofs::ValueBytes::reference_unknown))]
fn text_of(alloc: Global, spelled: &[u8]) -> Result<Option<Vec<u8>>, AllocError>
    ensures { IfOk result (λ text. option_map (λ text. text.items) text ≡ text_of [] None spelled.now) }
{
    let mut text = Vec::new(alloc);
    let mut pending: Option<Vec<u8>> = None;
    for byte in spelled {
        match pending.take() {
            None if *byte == b'&' => pending = Some(Vec::new(alloc)),
            None => text.push(*byte)?,
            Some(name) if *byte == b';' => match character_of(&name) {
                Some(character) => text.push(character)?,
                None => return Ok(None),
            },
            Some(mut name) => {
                name.push(*byte)?;
                pending = Some(name);
            }
        }
    }
    match pending {
        None => Ok(Some(text)),
        Some(_) => Ok(None),
    }
}

// The character that a reference names, which stands between `&` and `;`.
#[tactic(auto, unfolding(crate::specs::Value::character_of))]
fn character_of(name: &[u8]) -> Option<u8>
    ensures { result ≡ character_of name.now }
{
    if name == b"lt".as_slice() {
        return Some(b'<');
    }
    if name == b"gt".as_slice() {
        return Some(b'>');
    }
    if name == b"amp".as_slice() {
        return Some(b'&');
    }
    if name == b"quot".as_slice() {
        return Some(b'"');
    }
    if name == b"apos".as_slice() {
        return Some(b'\'');
    }
    if begins_with(name, b"#x") {
        return code_of(16, &name[2..]);
    }
    if begins_with(name, b"#") {
        return code_of(10, &name[1..]);
    }
    None
}

// The printable ASCII character whose code these digits spell.
#[tactic(auto, using(crate::proofs::Digits::digit_more, crate::proofs::Digits::stray, crate::proofs::Digits::over, crate::proofs::Digits::spelled))]
fn code_of(base: u32, digits: &[u8]) -> Option<u8>
    requires low { 2 ≤ base }
    requires high { base ≤ 16 }
    ensures { result ≡ code_of base digits.now }
{
    let mut number = 0;
    for byte in digits {
        number = number * base + digit_of(base, *byte)?;
        if number > 126 {
            return None;
        }
    }
    let number = number as u8;
    is_printable(number).then_some(number)
}

fn digit_of(base: u32, byte: u8) -> Option<u32>
    requires low { 2 ≤ base }
    requires high { base ≤ 16 }
    ensures { MatchOption result
        (is_digit byte base ≡ false)
        (λ digit. (is_digit byte base ≡ true) × (digit ≡ digit_value byte) × (digit < base)) }
{
    (byte as char).to_digit(base)
}
