//! Names of labels and objects, by the names in a description.
ghost use Rattle.std.specs.{List.list_any, Option.option_map};
ghost use Rattle.std.specs.{Prelude.{ℕ, ◌<◌, ◌^◌, ◌∷◌, ◌≡◌, ◌≤◌, IfOk, List, map, string_bytes}, Str.bytes_eq};
ghost use Rattle.microkit.specs.{declared.names.Part.Part, Names.{candidate, free_from, is_known, kept_last}};
ghost use Rattle.microkit.specs.Names.{letter_of, object_name, part_number, plain_name, shortened, tail_of, with_letter};

use std::alloc::{AllocError, Global};

/// The number of letters that the name of a label may have.
pub const MAX_LABEL_LENGTH: usize = 24;

/// The largest number of names that are tried for a label.
pub const MAX_TRIES: u64 = 512;

/// The part of a label that an object is.
#[derive(Clone, Copy)]
pub enum Part {
    Space,
    Main,
    Bell,
    Entry,
    Answer,
    Frame,
    /// The thread of the virtual processor of this id.
    Processor(u64),
    /// The context of the virtual processor of this id.
    Time(u64),
}

/// A law: no two objects have the same name.
///
/// The name of an object determines its label and its part.
pub fn objects_have_names_of_their_own()
    ensures { (one other : List ℕ) (part that : Part) → part_number part < 2 ^ 64 → part_number that < 2 ^ 64
        → object_name one part ≡ object_name other that → (one ≡ other) × (part ≡ that) }
{}

/// The name that a text is written as: in lower case, with `_` for each other character, and `x` in front of
/// what isn't a letter.
#[tactic(auto, unfolding(crate::specs::Names::plain_name))]
pub(crate) fn plain_name(alloc: Global, text: &[u8]) -> Result<Vec<u8>, AllocError>
    ensures { IfOk result (λ name. name.items ≡ plain_name text.now) }
{
    let letters = letters_of(alloc, text)?;
    with_letter(alloc, &letters)
}

fn letters_of(alloc: Global, text: &[u8]) -> Result<Vec<u8>, AllocError>
    ensures { IfOk result (λ letters. letters.items ≡ map letter_of text.now) }
{
    text.iter().map(|byte| letter_of(*byte)).collect(alloc)
}

#[tactic(auto, unfolding(crate::specs::Names::letter_of))]
fn letter_of(byte: u8) -> u8
    ensures { result ≡ letter_of byte }
{
    if byte.is_ascii_uppercase() {
        byte + 32
    } else if byte.is_ascii_lowercase() || byte.is_ascii_digit() {
        byte
    } else {
        b'_'
    }
}

#[tactic(auto, unfolding(crate::specs::Names::with_letter))]
fn with_letter(alloc: Global, letters: &[u8]) -> Result<Vec<u8>, AllocError>
    ensures { IfOk result (λ name. name.items ≡ with_letter letters.now) }
{
    match letters {
        [first, ..] if first.is_ascii_lowercase() => Vec::from_slice(alloc, letters),
        _ => behind_x(alloc, letters),
    }
}

fn behind_x(alloc: Global, letters: &[u8]) -> Result<Vec<u8>, AllocError>
    ensures { IfOk result (λ name. name.items ≡ 120 ∷ letters.now) }
{
    let mut name = Vec::new(alloc);
    name.push(b'x')?;
    name.extend_from_slice(letters)?;
    Ok(name)
}

// A name of at most this length: the first letters of a longer one, `__`, and its last 13.
#[tactic(auto, unfolding(crate::specs::Names::shortened))]
fn shortened(alloc: Global, room: usize, name: &[u8]) -> Result<Vec<u8>, AllocError>
    ensures { IfOk result (λ short. short.items ≡ shortened room name.now) }
{
    if name.len() <= room {
        return Vec::from_slice(alloc, name);
    }
    let last = kept_last(room);
    let mut short = Vec::from_slice(alloc, &name[..room.saturating_sub(last + 2)])?;
    short.extend_from_slice(b"__")?;
    short.extend_from_slice(&name[name.len() - last..])?;
    Ok(short)
}

// The number of letters that stay behind the gap of a name that is shortened to this length.
fn kept_last(room: usize) -> usize
    ensures exact { result ≡ kept_last room }
    ensures fits { result ≤ room }
    ensures few { result ≤ 13 }
{
    if room < 16 {
        room.saturating_sub(3)
    } else {
        13
    }
}

// The end of a name in the k-th try.
#[tactic(auto, unfolding(crate::specs::Names::tail_of))]
fn tail_of(alloc: Global, ending: &str, k: u64) -> Result<String, AllocError>
    ensures { IfOk result (λ tail. string_bytes tail ≡ tail_of ending.now k) }
{
    if k == 1 {
        return String::from_str(alloc, ending);
    }
    format!(in alloc; "{ending}_{k}")
}

#[tactic(auto, unfolding(crate::specs::Names::candidate))]
pub(crate) fn candidate(
    alloc: Global,
    name: &[u8],
    ending: &str,
    k: u64,
) -> Result<Vec<u8>, AllocError>
    ensures { IfOk result (λ found. found.items ≡ candidate name.now ending.now k) }
{
    let tail = tail_of(alloc, ending, k)?;
    let mut found = shortened(alloc, MAX_LABEL_LENGTH.saturating_sub(tail.len()), name)?;
    found.extend_from_slice(tail.as_bytes())?;
    Ok(found)
}
