//! The reading of a whole text, a line at a time.
ghost use Rattle.std.specs.Prelude.{ℕ, ◌≡◌, List, OnOk, Result};
ghost use Rattle.words.specs.{declared.faults.Wrong.Wrong, Reading.{GivesOrStops, Reads, as_read, judged, read_text}};
ghost use Rattle.words.specs.Text.{lines_of, words_of};

use crate::faults::{Fault, LineError, Wrong};
use crate::line::Words;
use crate::text::Lines;

/// A value that a text is read into, a line at a time.
pub trait Reader {
    // The value as contracts see it, and the step of a line.
    ghost Seen: { Type 0 };

    ghost seen: { Self → Seen };

    ghost step: { Self → Seen → List (List ℕ) → Result Seen Wrong };

    /// Takes a line between the header and `end`.
    ///
    /// # Errors
    ///
    /// [`LineError::Text`] with the fault of the line, or [`LineError::Memory`] where memory is
    /// refused.
    fn take_line(&mut self, words: &mut Words<'_>) -> Result<(), LineError>
        ensures exact { GivesOrStops (λ _. seen self.new) result (step self.old (seen self.old) words.old) }
        ensures same { OnOk result (step self.new ≡ step self.old) };
}

/// Reads a whole text: its header, its lines, and `end`.
///
/// # Errors
///
/// The fault of the first faulty line, 50 to 56, or 40 at line 0 where memory is refused.
#[tactic(auto, using(crate::proofs::ReadingLaws::loop_laws), unfolding(crate::specs::Reading::bind))]
pub fn read_text<R: Reader>(reader: &mut R, header: &[u8], text: &[u8]) -> Result<(), Fault>
    ensures { Reads (λ _. R.seen reader.new) result
        (read_text (words_of header.now) (R.step reader.old) (judged as_read) (R.seen reader.old) (lines_of text.now)) }
{
    let mut lines = Lines::new(text);
    lines.header(header)?;
    while let Some(mut words) = lines.next_line() {
        if words.is(b"end") {
            return lines.end();
        }
        if let Err(error) = reader.take_line(&mut words) {
            return Err(lines.stopped(error));
        }
    }
    Err(lines.after(Wrong::Syntax))
}
