//! Words of events and of what they answer, each written after a space at the end of a text. No word is made by itself.
ghost use Rattle.std.specs.{Fmt.decimal, Int.RustNames.bit_and, Prelude.{[], ◌++◌, ◌+◌, ◌==◌, ◌∷◌, ◌≡◌, ◌≤◌, OnOk, length, map}};
ghost use Rattle.std.specs.Prelude.{vec_capacity, vec_len};
ghost use Rattle.base.specs.Rights.{letter_of, rights_word};
ghost use Rattle.evtext.specs.{Event.call_words, Operands.{data_words, four_words, optional_slot_words, optional_word, slot_address_words}};
ghost use Rattle.evtext.specs.{Outcome.{answer_words, message_words, outcome_words}, Written.written};

use crate::call::write_call;
use base::Rights;
use bitflags::Flags;
use machine::{Answer, CapData, Event, Message, Outcome, SlotAddress};
use std::alloc::AllocError;

// The four rights.
const SPELLED_RIGHTS: u8 = 0b1111;

// A number below 2^64 has so many digits at most.
const MOST_DIGITS: usize = 20;

// Makes room for so many more bytes, which mostly is there.
fn make_room(text: &mut Vec<u8>, count: usize) -> Result<(), AllocError>
    ensures items { text.new.items ≡ text.old.items }
    ensures len { vec_len text.new ≡ vec_len text.old }
    ensures room { OnOk result (vec_len text.new + count ≤ vec_capacity text.new) }
{
    if text.capacity() - text.len() < count {
        text.reserve(count)?;
    }
    Ok(())
}

// Puts the bytes, which are few, at the end of the text, which has room for them.
fn put_bytes(text: &mut Vec<u8>, bytes: &[u8])
    requires { vec_len text.old + length bytes.now ≤ vec_capacity text.old }
    ensures { text.new.items ≡ text.old.items ++ bytes.now }
{
    for byte in bytes {
        text.push_reserved(*byte);
    }
}

// Puts the number in decimal at the end of the text, which has room for it, two digits at a time.
fn put_digits(text: &mut Vec<u8>, number: u64)
    requires { vec_len text.old + length (decimal number) ≤ vec_capacity text.old }
    ensures items { text.new.items ≡ text.old.items ++ decimal number }
    ensures len { vec_len text.new ≡ vec_len text.old + length (decimal number) }
    ensures capacity { vec_capacity text.new ≡ vec_capacity text.old }
{
    if number < 10 {
        text.push_reserved(b'0' + number as u8);
        return;
    }
    if number >= 100 {
        put_digits(text, number / 100);
    }
    let pair = (number % 100) as u8;
    text.push_reserved(b'0' + pair / 10);
    text.push_reserved(b'0' + pair % 10);
}

// Puts the number in decimal at the end of the text, which has room for it. Numbers of one digit are the most.
fn put_decimal(text: &mut Vec<u8>, number: u64)
    requires { vec_len text.old + length (decimal number) ≤ vec_capacity text.old }
    ensures { text.new.items ≡ text.old.items ++ decimal number }
{
    if number < 10 {
        text.push_reserved(b'0' + number as u8);
    } else {
        put_digits(text, number);
    }
}

// Writes the bytes, which are few.
pub(crate) fn write_bytes(text: &mut Vec<u8>, bytes: &[u8]) -> Result<(), AllocError>
    ensures { OnOk result (text.new.items ≡ text.old.items ++ bytes.now) }
{
    make_room(text, bytes.len())?;
    put_bytes(text, bytes);
    Ok(())
}

// Writes the number in decimal, and no space before it.
pub(crate) fn write_decimal(text: &mut Vec<u8>, number: u64) -> Result<(), AllocError>
    ensures { OnOk result (text.new.items ≡ text.old.items ++ decimal number) }
{
    make_room(text, MOST_DIGITS)?;
    put_decimal(text, number);
    Ok(())
}

// Writes the number in decimal.
pub(crate) fn write_number(text: &mut Vec<u8>, number: u64) -> Result<(), AllocError>
    ensures { OnOk result (text.new.items ≡ written text.old.items (decimal number ∷ [])) }
{
    make_room(text, 1 + MOST_DIGITS)?;
    text.push_reserved(b' ');
    put_decimal(text, number);
    Ok(())
}

pub(crate) fn write_word(text: &mut Vec<u8>, word: &str) -> Result<(), AllocError>
    ensures { OnOk result (text.new.items ≡ written text.old.items (word.now ∷ [])) }
{
    make_room(text, 1 + word.len())?;
    text.push_reserved(b' ');
    put_bytes(text, word.as_bytes());
    Ok(())
}

// Writes the numbers in decimal, each after a space.
pub(crate) fn write_each(text: &mut Vec<u8>, numbers: &[u64]) -> Result<(), AllocError>
    ensures { OnOk result (text.new.items ≡ written text.old.items (map decimal numbers.now)) }
{
    for number in numbers {
        write_number(text, *number)?;
    }
    Ok(())
}

// Writes a name and numbers after it.
pub(crate) fn write_numbers(
    text: &mut Vec<u8>,
    name: &str,
    numbers: &[u64],
) -> Result<(), AllocError>
    ensures { OnOk result (text.new.items ≡ written text.old.items (name.now ∷ map decimal numbers.now)) }
{
    write_word(text, name)?;
    write_each(text, numbers)
}

pub(crate) fn write_optional(text: &mut Vec<u8>, number: Option<u64>) -> Result<(), AllocError>
    ensures { OnOk result (text.new.items ≡ written text.old.items (optional_word number ∷ [])) }
{
    match number {
        Some(number) => write_number(text, number),
        None => write_bytes(text, b" -"),
    }
}

pub(crate) fn write_slot(text: &mut Vec<u8>, slot: &SlotAddress) -> Result<(), AllocError>
    ensures { OnOk result (text.new.items ≡ written text.old.items (slot_address_words slot.now)) }
{
    write_number(text, slot.root)?;
    write_number(text, slot.index)?;
    write_number(text, slot.depth)
}

pub(crate) fn write_optional_slot(
    text: &mut Vec<u8>,
    slot: &Option<SlotAddress>,
) -> Result<(), AllocError>
    ensures { OnOk result (text.new.items ≡ written text.old.items (optional_slot_words slot.now)) }
{
    match slot {
        Some(slot) => write_slot(text, slot),
        None => write_bytes(text, b" -"),
    }
}

pub(crate) fn write_four(text: &mut Vec<u8>, words: &[u64; 4]) -> Result<(), AllocError>
    ensures { OnOk result (text.new.items ≡ written text.old.items (four_words words.now)) }
{
    let [first, second, third, fourth] = *words;
    write_number(text, first)?;
    write_number(text, second)?;
    write_number(text, third)?;
    write_number(text, fourth)
}

fn write_letter(
    text: &mut Vec<u8>,
    rights: Rights,
    right: Rights,
    letter: &[u8],
) -> Result<(), AllocError>
    ensures { OnOk result (text.new.items ≡ text.old.items ++ letter_of rights right.0 letter.now) }
{
    if rights.contains(right) {
        write_bytes(text, letter)?;
    }
    Ok(())
}

fn has_none(rights: Rights) -> bool
    ensures { result ≡ (bit_and rights.0 15 == 0) }
{
    rights.bits() & SPELLED_RIGHTS == 0
}

pub(crate) fn write_rights(text: &mut Vec<u8>, rights: Rights) -> Result<(), AllocError>
    ensures { OnOk result (text.new.items ≡ written text.old.items (rights_word rights ∷ [])) }
{
    if has_none(rights) {
        return write_bytes(text, b" -");
    }
    text.push(b' ')?;
    write_letter(text, rights, Rights::READ, b"r")?;
    write_letter(text, rights, Rights::WRITE, b"w")?;
    write_letter(text, rights, Rights::GRANT, b"g")?;
    write_letter(text, rights, Rights::GRANT_REPLY, b"y")
}

pub(crate) fn write_data(text: &mut Vec<u8>, given: &CapData) -> Result<(), AllocError>
    ensures { OnOk result (text.new.items ≡ written text.old.items (data_words given.now)) }
{
    match given {
        CapData::Badge(badge) => write_numbers(text, "badge", &[*badge]),
        CapData::Guard { size, value } => write_numbers(text, "guard", &[*size, *value]),
    }
}

/// Writes the words of the event, and no space before them.
pub(crate) fn write_event(text: &mut Vec<u8>, event: &Event) -> Result<(), AllocError>
    ensures { OnOk result (text.new.items
        ≡ written (text.old.items ++ decimal event.now.core) (decimal event.now.thread.0 ∷ call_words event.now.call)) }
{
    write_decimal(text, u64::from(event.core.number()))?;
    write_number(text, event.thread.0)?;
    write_call(text, &event.call)
}

fn write_message(text: &mut Vec<u8>, message: &Message) -> Result<(), AllocError>
    ensures { OnOk result (text.new.items ≡ written text.old.items (message_words message.now)) }
{
    write_number(text, message.badge)?;
    write_four(text, &message.words)?;
    if message.capability {
        write_bytes(text, b" 1")
    } else {
        write_bytes(text, b" 0")
    }
}

fn write_answer(text: &mut Vec<u8>, answer: &Answer) -> Result<(), AllocError>
    ensures { OnOk result (text.new.items ≡ written text.old.items (answer_words answer.now)) }
{
    match answer {
        Answer::Nothing => write_bytes(text, b" done"),
        Answer::Word(word) => {
            write_bytes(text, b" done word")?;
            write_number(text, *word)
        }
        Answer::Message(message) => {
            write_bytes(text, b" done msg")?;
            write_message(text, message)
        }
        Answer::Count(count) => {
            write_bytes(text, b" done count")?;
            write_number(text, *count)
        }
        Answer::Aborted => write_bytes(text, b" done aborted"),
    }
}

/// Writes the words of the outcome.
pub(crate) fn write_outcome(text: &mut Vec<u8>, outcome: &Outcome) -> Result<(), AllocError>
    ensures { OnOk result (text.new.items ≡ written text.old.items (outcome_words outcome.now)) }
{
    match outcome {
        Outcome::Done(answer) => write_answer(text, answer),
        Outcome::Blocked => write_bytes(text, b" blocked"),
        Outcome::Refused(refusal) => write_numbers(
            text,
            "refused",
            &[refusal.code, refusal.detail],
        ),
    }
}
