//! The sentences on the entries of a log: on calls that are refused, and on an entry that is not a step.
use crate::refused::Refused;
use base::{ObjId, Refusal};
use evtext::entry_line;
use machine::{Event, ObjectKind, Outcome};
use std::alloc::{AllocError, Global};
use std::fmt;

/// The object that makes the call of an event, which should be a thread.
#[derive(Clone, Copy)]
pub struct Caller<'a> {
    pub id: ObjId,
    /// Its name, which is empty where the table lacks it.
    pub name: &'a str,
    /// Its kind, if the table has it.
    pub kind: Option<ObjectKind>,
}

impl fmt::Display for Caller<'_> {
    fn fmt<W: fmt::Write>(&self, f: &mut fmt::Formatter<W>) -> fmt::Result {
        let name = self.name;
        if name.is_empty() {
            let number = self.id.0;
            write!(f, "thread {number}")
        } else {
            write!(f, "`{name}`")
        }
    }
}

/// Returns a sentence that says why a call is refused.
///
/// The call is that of the line of this number in the text `name`.
pub fn explain_refusal(
    alloc: Global,
    caller: Caller<'_>,
    name: &str,
    line: usize,
    event: &Event,
    refusal: Refusal,
) -> Result<String, AllocError> {
    let entry = entry_line(alloc, event, &Outcome::Refused(refusal))?;
    let (call, _) = parts_of(&entry);
    let Refusal { code, detail } = refusal;
    let why = Refused {
        caller,
        event,
        refusal,
    };
    format!(in alloc; "{name}:{line}: `{call}` is refused {code} {detail}: {why}")
}

/// Returns a sentence that says what the kernel answers to an entry that is not a step of the system.
///
/// The entry is that of the number `entry`, from 1, in the log `name`, whose outcome is `told`
/// there; `came` is what the kernel answers.
pub fn explain_illegal(
    alloc: Global,
    caller: Caller<'_>,
    name: &str,
    entry: usize,
    event: &Event,
    told: &Outcome,
    came: &Outcome,
) -> Result<String, AllocError> {
    // The header is a line too.
    let line = entry.wrapping_add(1);
    let answered = entry_line(alloc, event, came)?;
    let logged = entry_line(alloc, event, told)?;
    let (call, answer) = parts_of(&answered);
    let (_, claim) = parts_of(&logged);
    let mut sentence = format!(in alloc;
        "{name}:{line}: entry {entry} is not a step of the system: the kernel answers `{answer}` to `{call}` there, \
         not `{claim}`"
    )?;
    if let Outcome::Refused(refusal) = came {
        let why = Refused {
            caller,
            event,
            refusal: *refusal,
        };
        write!(sentence, ": {why}")?;
    }
    Ok(sentence)
}

/// The event and the outcome of a log's line.
fn parts_of(line: &[u8]) -> (&str, &str) {
    let text = str::from_utf8(line).unwrap_or_default();
    text.trim_end().split_once(" = ").unwrap_or_default()
}
