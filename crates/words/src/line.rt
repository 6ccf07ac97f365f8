//! A reader of the words of a line.
ghost use Rattle.std.specs.Prelude.{[], ◌∷◌, ◌≡◌, IfOk, IfSome, MatchOption, Ok, drop, true};
ghost use Rattle.words.specs.{Name.{is_name, name_at}, Number.{hex_at, number_at}, Reading.{Gives, ended_at, word_at}};
ghost use Rattle.words.specs.Text.{line_is, words_of};

use crate::faults::Wrong;
use crate::names::name_of;
use crate::numbers::{decimal_of, hexadecimal_of};
use crate::split::split_first_at;
use std::marker::Model;

/// The words of a line, taken one after another.
///
/// It takes no memory.
///
/// It takes a word even if the word isn't what was asked for.
#[derive(Drop)]
pub struct Words<'a> {
    rest: Option<&'a [u8]>,
}

impl<'a> Model for Words<'a> {
    ghost use Rattle.std.specs.{Option.option_map_or, Prelude.{[], ℕ, List}};
    ghost use Rattle.words.specs.Text.{words_of};

    ghost Value = { List (List ℕ) };

    ghost view = { λ w. option_map_or (λ rest. words_of rest.now) w.rest [] };
}

impl<'a> Words<'a> {
    /// The words of `line`, none of them taken.
    pub(crate) fn new(line: &'a [u8]) -> Words<'a>
        ensures { result ≡ words_of line.now }
    {
        Words { rest: Some(line) }
    }

    /// Takes the next word, if there is one.
    ///
    /// The word is empty before a space that follows no word.
    pub fn next_word(&mut self) -> Option<&'a [u8]>
        ensures { MatchOption result
            ((self.old ≡ []) × (self.new ≡ []))
            (λ word. self.old ≡ word.now ∷ self.new) }
    {
        let rest = self.rest?;
        match split_first_at(b' ', rest) {
            Some((word, later)) => {
                self.rest = Some(later);
                Some(word)
            }
            None => {
                self.rest = None;
                Some(rest)
            }
        }
    }

    /// Returns whether the words left are exactly those of `line`.
    #[tactic(auto, using(crate::proofs::Splits::same_words, crate::proofs::Splits::never_no_words))]
    pub fn is(&self, line: &[u8]) -> bool
        ensures { result ≡ line_is self.now (words_of line.now) }
    {
        match self.rest {
            Some(rest) => rest == line,
            None => false,
        }
    }

    /// Takes the next word.
    ///
    /// # Errors
    ///
    /// [`Wrong::Syntax`] where no word is left.
    #[tactic(auto, unfolding(crate::specs::Reading::word_at))]
    pub fn word(&mut self) -> Result<&'a [u8], Wrong>
        ensures exact { Gives (λ word. (word.now, self.new)) result (word_at self.old) }
        ensures taken { self.new ≡ drop 1 self.old }
    {
        self.next_word().ok_or(Wrong::Syntax)
    }

    /// Checks that no word is left.
    ///
    /// # Errors
    ///
    /// [`Wrong::Syntax`] where a word is left.
    #[tactic(auto, using(crate::proofs::Splits::never_ended), unfolding(crate::specs::Reading::ended_at))]
    pub fn end(&self) -> Result<(), Wrong>
        ensures { result ≡ ended_at self.now }
    {
        match self.rest {
            Some(_) => Err(Wrong::Syntax),
            None => Ok(()),
        }
    }

    /// Takes the next word as a decimal number.
    ///
    /// # Errors
    ///
    /// [`Wrong::Syntax`] where no word is left, or the next one isn't such a number.
    pub fn number(&mut self) -> Result<u64, Wrong>
        ensures exact { Gives (λ number. (number, self.new)) result (number_at self.old) }
        ensures taken { self.new ≡ drop 1 self.old }
    {
        match self.one_digit() {
            Some(number) => Ok(number),
            None => self.some_digits(),
        }
    }

    // The next word, if it is one digit before a space, as most numbers are. No other word is taken.
    fn one_digit(&mut self) -> Option<u64>
        ensures { MatchOption result
            (self.new ≡ self.old)
            (λ number. (number_at self.old ≡ Ok (number, self.new)) × (self.new ≡ drop 1 self.old)) }
    {
        let (number, later) = digit_before_space(self.rest?)?;
        self.rest = Some(later);
        Some(number)
    }

    // The next word as a decimal number of any length.
    #[tactic(auto, unfolding(crate::specs::Number::number_at, crate::specs::Reading::word_at, crate::specs::Reading::or_syntax, crate::specs::Reading::bind))]
    fn some_digits(&mut self) -> Result<u64, Wrong>
        ensures exact { Gives (λ number. (number, self.new)) result (number_at self.old) }
        ensures taken { self.new ≡ drop 1 self.old }
    {
        let word = self.word()?;
        decimal_of(word).ok_or(Wrong::Syntax)
    }

    /// Takes the next word as a hexadecimal number, `0x` and lower-case digits.
    ///
    /// # Errors
    ///
    /// [`Wrong::Syntax`] where no word is left, or the next one isn't such a number.
    #[tactic(auto, unfolding(crate::specs::Number::hex_at, crate::specs::Reading::word_at, crate::specs::Reading::or_syntax, crate::specs::Reading::bind))]
    pub fn hex(&mut self) -> Result<u64, Wrong>
        ensures exact { Gives (λ number. (number, self.new)) result (hex_at self.old) }
        ensures taken { self.new ≡ drop 1 self.old }
    {
        let word = self.word()?;
        hexadecimal_of(word).ok_or(Wrong::Syntax)
    }

    /// Takes the next word as a name.
    ///
    /// # Errors
    ///
    /// [`Wrong::Syntax`] where no word is left, or the next one isn't a name.
    #[tactic(auto, unfolding(crate::specs::Name::name_at, crate::specs::Reading::word_at, crate::specs::Reading::or_syntax, crate::specs::Reading::bind))]
    pub fn name(&mut self) -> Result<&'a str, Wrong>
        ensures exact { Gives (λ name. (name.now, self.new)) result (name_at self.old) }
        ensures spelled { IfOk result (λ name. is_name name.now ≡ true) }
        ensures taken { self.new ≡ drop 1 self.old }
    {
        let word = self.word()?;
        name_of(word).ok_or(Wrong::Syntax)
    }
}

// The digit before a space at the beginning of a line, and what follows the space.
#[tactic(auto, using(crate::proofs::OneDigit::one_digit, crate::proofs::OneDigit::one_word))]
fn digit_before_space(bytes: &[u8]) -> Option<(u64, &[u8])>
    ensures number { IfSome result (λ taken. number_at (words_of bytes.now) ≡ Ok (taken.0, words_of taken.1.now)) }
    ensures rest { IfSome result (λ taken. words_of taken.1.now ≡ drop 1 (words_of bytes.now)) }
{
    if bytes.len() < 2 || bytes[1] != b' ' || !bytes[0].is_ascii_digit() {
        return None;
    }
    Some(((bytes[0] - b'0') as u64, &bytes[2..]))
}
