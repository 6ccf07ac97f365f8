//! The reading and the writing of scripts.
ghost use Rattle.std.specs.Prelude.{ℕ, ◌++◌, ◌≡◌, ◌≢◌, IfErr, IfOk, List, Ok, OnOk};
ghost use Rattle.base.specs.Refusals.{out_of_memory};
ghost use Rattle.words.specs.{declared.faults.Wrong.Wrong, Fault.{fault_at, no_memory}, FirstFault.{IsFirstFault, TellsFirst}};
ghost use Rattle.{words.specs.{Reading.Reads, Text.{line_text, lines_of}}, machine.specs.declared.call.Event.Event as EventOf};
ghost use Rattle.evtext.specs.{Event.event_words, Script.{IsScript, read_script_of, script_format, script_line, script_step, script_text}};

use crate::line::next_event;
use crate::writing::write_event;
use base::Refusal;
use machine::Event;
use std::alloc::{AllocError, Global};
use words::{Fault, LineError, Reader, Words, Wrong, read_text};

/// Reads the text of a script.
///
/// # Errors
///
/// The first fault of the text: 50 for a line that isn't a line of a script, and 54 for a core that
/// is none or an event too many. It is 40, at line 0, where memory is refused.
pub fn read_script(alloc: Global, text: &[u8]) -> Result<Vec<Event>, Fault>
    ensures exact { Reads (λ events. events.items) result (read_script_of text.now) }

    // A text that is read is a script's, and each script's text is read as that script.
    ensures found { IfOk result
        (λ events. IsScript events.items × (text.now ≡ script_text events.items)) }
    ensures only { (script : List EventOf) → IsScript script → text.now ≡ script_text script
        → Reads (λ events. events.items) result (Ok script) }

    // One that isn't read is refused for its first fault, unless memory was refused.
    ensures faults { IfErr result (λ fault. fault ≢ no_memory
        → TellsFirst script_format (lines_of text.now) fault) }
    ensures refused { (line : ℕ) (wrong : Wrong)
        → IsFirstFault script_format (lines_of text.now) line wrong
        → Reads (λ events. events.items) result (Err (fault_at line wrong)) }
{
    events_of(alloc, text)
}

#[tactic(auto, unfolding(crate::specs::Script::read_script_of))]
fn events_of(alloc: Global, text: &[u8]) -> Result<Vec<Event>, Fault>
    ensures exact { Reads (λ events. events.items) result (read_script_of text.now) }
{
    let mut script = Script {
        events: Vec::new(alloc),
    };
    read_text(&mut script, b"confine-script 1", text)?;
    Ok(script.events)
}

/// The events of the lines so far.
#[derive(Drop)]
struct Script {
    events: Vec<Event>,
}

impl Reader for Script {
    ghost Seen = { List EventOf };

    ghost seen = { λ script. script.events.items };

    ghost step = { λ script. script_step };

    #[tactic(auto, unfolding(words::specs::Reading::bind))]
    fn take_line(&mut self, words: &mut Words<'_>) -> Result<(), LineError> {
        let event = script_line(words, self.events.len())?;
        self.events.push(event)?;
        Ok(())
    }
}

/// A line as an event, which comes after as many as `before`.
#[tactic(auto, unfolding(crate::specs::Script::script_line, words::specs::Reading::bind))]
fn script_line(words: &mut Words<'_>, before: usize) -> Result<Event, Wrong>
    ensures { result ≡ script_line before words.old }
{
    let claimed = next_event(words)?;
    words.end()?;
    Ok(Event {
        core: claimed.core_within(before)?,
        thread: claimed.thread,
        call: claimed.call,
    })
}

/// Returns the text of a script, which has at most 1,000,000 events.
///
/// A text that was read as these events is this one.
///
/// # Errors
///
/// 40 where memory is refused.
#[tactic(auto, using(crate::proofs::Scripts::script_is_read))]
pub fn write_script(alloc: Global, events: &[Event]) -> Result<Vec<u8>, Refusal>
    ensures text { IfOk result (λ text. text.items ≡ script_text events.now) }
    ensures memory { IfErr result (λ refusal. refusal ≡ out_of_memory) }

    // What is written is read as the events.
    ensures read_back { IsScript events.now → IfOk result (λ text. read_script_of text.items ≡ Ok events.now) }
{
    Ok(script_bytes(alloc, events)?)
}

fn script_bytes(alloc: Global, events: &[Event]) -> Result<Vec<u8>, AllocError>
    ensures { IfOk result (λ text. text.items ≡ script_text events.now) }
{
    let mut text = Vec::new(alloc);
    text.extend_from_slice(b"confine-script 1\n")?;
    for event in events {
        write_line(&mut text, event)?;
    }
    text.extend_from_slice(b"end\n")?;
    Ok(text)
}

fn write_line(text: &mut Vec<u8>, event: &Event) -> Result<(), AllocError>
    ensures { OnOk result (text.new.items ≡ text.old.items ++ line_text (event_words event.now)) }
{
    write_event(text, event)?;
    text.push(b'\n')?;
    Ok(())
}
