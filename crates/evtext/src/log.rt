//! The reading and the writing of logs.
ghost use Rattle.std.specs.{List.zip, Prelude.{ℕ, ◌++◌, ◌≡◌, ◌≢◌, Err, IfErr, IfOk, List, Ok, OnOk}};
ghost use Rattle.base.specs.Refusals.{out_of_memory};
ghost use Rattle.machine.specs.declared.call.{Event.Event as EventOf, Outcome.Outcome as OutcomeOf};
ghost use Rattle.words.specs.{declared.faults.Wrong.Wrong, Fault.{fault_at, no_memory}, FirstFault.{IsFirstFault, TellsFirst}};
ghost use Rattle.words.specs.{Reading.Reads, Text.{line_text, lines_of}};
ghost use Rattle.evtext.specs.Log.{IsLog, entry_words, log_format, log_line, log_step, log_text, read_log_of};

use crate::line::next_event;
use crate::outcome::next_result;
use crate::writing::{write_bytes, write_event, write_outcome};
use base::Refusal;
use machine::{Event, Log, Outcome};
use std::alloc::{AllocError, Global};
use words::{Fault, LineError, Reader, Words, Wrong, read_text};

/// Reads the text of a log, whichever outcomes its events have.
///
/// # Errors
///
/// The first fault of the text: 50 for a line that isn't a line of a log, and 54 for a core that is
/// none or an event too many. It is 40, at line 0, where memory is refused.
pub fn read_log(alloc: Global, text: &[u8]) -> Result<Log, Fault>
    ensures exact { Reads (λ log. log.items) result (read_log_of text.now) }

    // A text that is read is a log's, and each log's text is read as that log.
    ensures found { IfOk result (λ log. IsLog log.items × (text.now ≡ log_text log.items)) }
    ensures only { (log : List (EventOf × OutcomeOf)) → IsLog log → text.now ≡ log_text log
        → Reads (λ log. log.items) result (Ok log) }

    // One that isn't read is refused for its first fault, unless memory was refused.
    ensures faults { IfErr result (λ fault. fault ≢ no_memory
        → TellsFirst log_format (lines_of text.now) fault) }
    ensures refused { (line : ℕ) (wrong : Wrong)
        → IsFirstFault log_format (lines_of text.now) line wrong
        → Reads (λ log. log.items) result (Err (fault_at line wrong)) }
{
    entries_of(alloc, text)
}

#[tactic(auto, unfolding(crate::specs::Log::read_log_of))]
fn entries_of(alloc: Global, text: &[u8]) -> Result<Log, Fault>
    ensures exact { Reads (λ log. log.items) result (read_log_of text.now) }
{
    let mut entries = Entries {
        log: Vec::new(alloc),
    };
    read_text(&mut entries, b"confine-log 1", text)?;
    Ok(entries.log)
}

/// The entries of the lines so far.
#[derive(Drop)]
struct Entries {
    log: Log,
}

impl Reader for Entries {
    ghost Seen = { List (EventOf × OutcomeOf) };

    ghost seen = { λ entries. entries.log.items };

    ghost step = { λ entries. log_step };

    #[tactic(auto, unfolding(words::specs::Reading::bind))]
    fn take_line(&mut self, words: &mut Words<'_>) -> Result<(), LineError> {
        let entry = log_line(words, self.log.len())?;
        self.log.push(entry)?;
        Ok(())
    }
}

/// A line as an event and its outcome, which come after as many as `before`.
#[tactic(auto, unfolding(crate::specs::Log::log_line, crate::specs::Log::entry_at, words::specs::Parts::in_turn, words::specs::Reading::bind))]
fn log_line(words: &mut Words<'_>, before: usize) -> Result<(Event, Outcome), Wrong>
    ensures { result ≡ log_line before words.old }
{
    let claimed = next_event(words)?;
    let outcome = next_result(words)?;
    words.end()?;
    let event = Event {
        core: claimed.core_within(before)?,
        thread: claimed.thread,
        call: claimed.call,
    };
    Ok((event, outcome))
}

/// Returns the text of the log.
///
/// # Errors
///
/// 40 where memory is refused.
#[tactic(auto, using(crate::proofs::LogTexts::log_is_read))]
pub fn write_log(alloc: Global, log: &Log) -> Result<Vec<u8>, Refusal>
    ensures text { IfOk result (λ text. text.items ≡ log_text log.now.items) }
    ensures memory { IfErr result (λ refusal. refusal ≡ out_of_memory) }

    // What is written is read as the log.
    ensures read_back { IsLog log.now.items → IfOk result (λ text. read_log_of text.items ≡ Ok log.now.items) }
{
    Ok(log_bytes(alloc, log)?)
}

/// Returns the text of the log of these events with these outcomes.
///
/// The first event has the first outcome and so on, as far as there are both. No list of pairs is
/// made for it.
pub fn write_run(
    alloc: Global,
    events: &[Event],
    outcomes: &[Outcome],
) -> Result<Vec<u8>, AllocError>
    ensures { IfOk result (λ text. text.items ≡ log_text (zip events.now outcomes.now)) }
{
    let mut text = Vec::new(alloc);
    text.extend_from_slice(b"confine-log 1\n")?;
    for (event, outcome) in events.iter().zip(outcomes) {
        write_entry(&mut text, event, outcome)?;
    }
    text.extend_from_slice(b"end\n")?;
    Ok(text)
}

/// Returns the line of a log that has the event and its outcome.
pub fn entry_line(alloc: Global, event: &Event, outcome: &Outcome) -> Result<Vec<u8>, AllocError>
    ensures { IfOk result (λ line. line.items ≡ line_text (entry_words (event.now, outcome.now))) }
{
    let mut line = Vec::new(alloc);
    write_entry(&mut line, event, outcome)?;
    Ok(line)
}

fn log_bytes(alloc: Global, log: &[(Event, Outcome)]) -> Result<Vec<u8>, AllocError>
    ensures { IfOk result (λ text. text.items ≡ log_text log.now) }
{
    let mut text = Vec::new(alloc);
    text.extend_from_slice(b"confine-log 1\n")?;
    for (event, outcome) in log {
        write_entry(&mut text, event, outcome)?;
    }
    text.extend_from_slice(b"end\n")?;
    Ok(text)
}

#[tactic(auto, using(crate::proofs::Logs::entry_written))]
fn write_entry(text: &mut Vec<u8>, event: &Event, outcome: &Outcome) -> Result<(), AllocError>
    ensures { OnOk result (text.new.items
        ≡ text.old.items ++ line_text (entry_words (event.now, outcome.now))) }
{
    write_event(text, event)?;
    write_bytes(text, b" =")?;
    write_outcome(text, outcome)?;
    write_bytes(text, b"\n")
}
