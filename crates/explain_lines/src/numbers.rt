//! Words of an event in place of numbers (fault 50).
use crate::declared::{Declared, Row};
use forms::{File, Form, call_named};

/// The word of an event in place of a number.
#[derive(Clone, Copy)]
pub(crate) enum EventFlaw<'a> {
    /// A call that stands before its place.
    Misplaced(File, Form),
    /// No number of a core.
    NoCore(&'a str),
    /// A thread's name in place of its number.
    Thread(File, &'a str, u64),
    /// The name of another object in place of a thread's number.
    NoThread(&'a str, Form),
    /// Any other word in place of a thread's number.
    NoNumber(&'a str),
    /// An object's name in place of an operand.
    Operand(&'a str),
}

/// The flaw of the first word that isn't a number, by its place, if more can be said of it.
pub(crate) fn number_flaw<'a>(
    file: File,
    declared: Option<Declared<'_>>,
    row: Row<'a>,
    word: &'a str,
) -> Option<EventFlaw<'a>> {
    if word == row.word(0) {
        Some(match call_named(word) {
            Some(call) => EventFlaw::Misplaced(file, call),
            None => EventFlaw::NoCore(word),
        })
    } else if word == row.word(1) {
        Some(match call_named(word) {
            Some(call) => EventFlaw::Misplaced(file, call),
            None => thread_flaw(file, declared, word),
        })
    } else {
        declared?.object(word)?;
        Some(EventFlaw::Operand(word))
    }
}

// A word in place of a thread's number.
fn thread_flaw<'a>(file: File, declared: Option<Declared<'_>>, word: &'a str) -> EventFlaw<'a> {
    match declared {
        Some(declared) => match (declared.object(word), declared.number_of(word)) {
            (Some(object), Some(number)) if object.form == Form::Tcb => {
                EventFlaw::Thread(file, word, number)
            }
            (Some(object), _) => EventFlaw::NoThread(word, object.form),
            _ => EventFlaw::NoNumber(word),
        },
        None => EventFlaw::NoNumber(word),
    }
}
