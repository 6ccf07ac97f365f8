//! A reader of the lines of a text.
ghost use Rattle.std.specs.{List.AllByRecursion, Prelude.{ℕ, ◌+◌, ◌∷◌, ◌≡◌, List, MatchOption, map}};
ghost use Rattle.words.specs.{Fault.{fault_at, fault_of}, Reading.{Gives, after_line, end_at, header_at}};
ghost use Rattle.words.specs.Text.{IsOver, IsPlainLine, lines_of, text_of, words_of};

use crate::faults::{Fault, LineError, Wrong};
use crate::line::Words;
use crate::split::split_line;
use std::marker::Model;

/// The lines of a text, taken one after another.
///
/// It takes no memory.
#[derive(Drop)]
pub struct Lines<'a> {
    rest: &'a [u8],
    taken: u64,
}

impl<'a> Model for Lines<'a> {
    ghost use Rattle.std.specs.Prelude.{◌+◌, ◌<◌, ◌^◌, length};
    ghost use Rattle.words.specs.Text.{Progress, lines_of};

    ghost Value = { Progress };

    ghost view = { λ l. record { taken = l.taken; lines = lines_of l.rest.now } };

    ghost invariant = { λ l. l.taken + length l.rest.now < 2 ^ 63 };
}

impl<'a> Lines<'a> {
    /// Returns the lines of `text`, none of them taken.
    #[tactic(auto, using(crate::proofs::TextLaws::spelled, crate::proofs::TextLaws::text_lines))]
    pub fn new(text: &'a [u8]) -> Lines<'a>
        ensures exact { result ≡ record { taken = 0; lines = lines_of text.now } }
        ensures found { (lines : List (List (List ℕ)))
            → result.lines ≡ map (λ line. Some line) lines → text.now ≡ text_of lines }
        ensures only { (lines : List (List (List ℕ))) → AllByRecursion IsPlainLine lines
            → text.now ≡ text_of lines → result.lines ≡ map (λ line. Some line) lines }
    {
        Lines {
            rest: text,
            taken: 0,
        }
    }

    /// Takes the next line, and returns its words.
    ///
    /// Returns `None` if no ended line follows.
    #[tactic(auto, using(crate::proofs::Splits::line_first, crate::proofs::Splits::over_nowhere))]
    pub fn next_line(&mut self) -> Option<Words<'a>>
        ensures { MatchOption result
            (IsOver self.old.lines × (self.new ≡ self.old))
            (λ words. (self.old.lines ≡ Some words ∷ self.new.lines) × (self.new.taken ≡ self.old.taken + 1)) }
    {
        let (line, later) = split_line(self.rest)?;
        self.rest = later;
        self.taken += 1;
        Some(Words::new(line))
    }

    /// Takes the header, whose words must be those of `expected`.
    ///
    /// A line that has other words is taken too.
    ///
    /// # Errors
    ///
    /// The fault 50 of that line, where it has other words or is missing.
    #[tactic(auto, using(crate::proofs::Splits::stays, crate::proofs::Splits::moves), unfolding(crate::specs::Reading::header_at))]
    pub fn header(&mut self, expected: &[u8]) -> Result<(), Fault>
        ensures exact { Gives (λ _. self.new) result (header_at (words_of expected.now) self.old) }
        ensures taken { self.new ≡ after_line self.old }
    {
        match self.next_line() {
            Some(words) if words.is(expected) => Ok(()),
            Some(_) => Err(self.here(Wrong::Syntax)),
            None => Err(self.after(Wrong::Syntax)),
        }
    }

    /// Checks that nothing follows the lines that were taken.
    ///
    /// # Errors
    ///
    /// The fault 50 of the line that follows.
    #[tactic(auto, using(crate::proofs::Splits::end_some, crate::proofs::Splits::end_none))]
    pub fn end(&self) -> Result<(), Fault>
        ensures { result ≡ end_at self.now }
    {
        if self.rest.is_empty() {
            Ok(())
        } else {
            Err(self.after(Wrong::Syntax))
        }
    }

    /// Returns a fault of the line that was taken last.
    pub fn here(&self, wrong: Wrong) -> Fault
        ensures { result ≡ fault_at self.now.taken wrong }
    {
        Fault::at(wrong, self.taken)
    }

    /// Returns a fault of the line that comes next, or is missing.
    pub fn after(&self, wrong: Wrong) -> Fault
        ensures { result ≡ fault_at (self.now.taken + 1) wrong }
    {
        Fault::at(wrong, self.taken + 1)
    }

    /// Returns what stopped the line that was taken last, as a fault of the text.
    #[tactic(auto, unfolding(crate::specs::Fault::fault_of))]
    pub fn stopped(&self, error: LineError) -> Fault
        ensures { result ≡ fault_of self.now.taken error }
    {
        match error {
            LineError::Memory => Fault::MEMORY,
            LineError::Text(wrong) => self.here(wrong),
        }
    }
}
