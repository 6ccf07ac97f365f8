//! The words of lines: which are wanted, and why one isn't right.
use crate::classes::Class;
use crate::lines::part;
use crate::nearest::{LISTED, write_more};
use std::fmt;

/// A word that a form wants.
#[derive(Clone, Copy)]
pub enum Wanted {
    Name,
    Decimal,
    Address,
    Slot,
    Rights,
    /// `ready` or `inactive`.
    Start,
    Kind,
    Kinds,
    /// The kind of objects that a retype makes.
    Material,
    /// DEC or `-`.
    Optional,
    /// `badge` or `guard`.
    Minting,
    /// RIGHTS, DEC or HEX.
    Term,
    /// The number of capabilities that arrived.
    Came,
    /// An end of a claim: a name or `*`.
    End,
    /// A word by which the form was chosen.
    Fixed,
}

/// The words of patterns that stand for others. Any other stands for itself, and the form was chosen by it.
const KEYWORDS: [(&str, Wanted); 15] = [
    ("NAME", Wanted::Name),
    ("LABEL", Wanted::Name),
    ("DEC", Wanted::Decimal),
    ("HEX", Wanted::Address),
    ("SLOT", Wanted::Slot),
    ("RIGHTS", Wanted::Rights),
    ("START", Wanted::Start),
    ("KIND", Wanted::Kind),
    ("KINDS", Wanted::Kinds),
    ("MATERIAL", Wanted::Material),
    ("OPTIONAL", Wanted::Optional),
    ("MINTING", Wanted::Minting),
    ("TERM", Wanted::Term),
    ("C", Wanted::Came),
    ("END", Wanted::End),
];

impl Wanted {
    /// Returns what a word of a pattern stands for.
    pub fn of(keyword: &str) -> Wanted {
        for (word, wanted) in &KEYWORDS {
            if *word == keyword {
                return *wanted;
            }
        }
        Wanted::Fixed
    }

    /// Its name, where it is missing.
    fn name(self) -> &'static str {
        match self {
            Wanted::Name => "a name",
            Wanted::Decimal => "a decimal number",
            Wanted::Address => "an address",
            Wanted::Slot => "a slot",
            Wanted::Rights => "RIGHTS",
            Wanted::Start => "`ready` or `inactive`",
            Wanted::Kind => "a kind of authority",
            Wanted::Kinds => "a list of kinds of authority",
            Wanted::Material => "a kind of object",
            Wanted::Optional => "a decimal number or `-`",
            Wanted::Minting => "`badge` or `guard`",
            Wanted::Term => "RIGHTS, DEC or HEX",
            Wanted::Came => "0 or 1",
            Wanted::End => "a name or `*`",
            Wanted::Fixed => "a word",
        }
    }
}

/// The reason why a word isn't as it is wanted.
#[derive(Clone, Copy)]
pub enum WordFlaw<'a> {
    Missing(Wanted),
    TooMany(&'a str),
    Name(&'a str, NameFlaw),
    Number(&'a str, NumberFlaw),
    /// A slot without a dot.
    NoDot(&'a str),
    /// A slot without a name before its dot.
    NoHolder(&'a str),
    /// What follows the dot of a slot is no index.
    NoIndex(&'a str),
    NoRight(&'a str, char),
    RightTwice(char),
    RightsFall,
    NoStart(&'a str),
    NoKind(&'a str),
    /// A word that is no kind of authority, and the nearest kind.
    NearKind(&'a str, &'static str),
    KindTwice(&'a str),
    KindsFall(&'a str, &'a str),
    NoMaterial(&'a str),
    /// A word that is no kind of object, and the nearest kind.
    NearMaterial(&'a str, &'static str),
    NoMinting(&'a str),
    NoCame(&'a str),
}

/// The reason why a word is no name.
#[derive(Clone, Copy)]
pub enum NameFlaw {
    Slot,
    Capital,
    First,
    Long,
    Character,
}

/// The reason why a word is no number.
#[derive(Clone, Copy)]
pub enum NumberFlaw {
    Hexadecimal,
    Sign,
    Zeros,
    Large,
    NoDecimal,
    NoPrefix,
    CapitalInAddress,
    CapitalInNumber,
    NoHexadecimal,
}

/// The kinds of authority, by their numbers.
pub const KINDS: [&str; 17] = [
    "control",
    "reset",
    "send",
    "receive",
    "grant",
    "call",
    "notify",
    "await",
    "read",
    "write",
    "reply",
    "context",
    "schedcontrol",
    "space",
    "derive",
    "runs",
    "holds",
];

/// The kinds of objects that a retype makes.
pub(crate) const MATERIALS: [&str; 8] = [
    "untyped",
    "cnode",
    "tcb",
    "endpoint",
    "notification",
    "reply",
    "context",
    "frame",
];

/// How a thread starts.
const STARTS: [&str; 2] = ["ready", "inactive"];

/// The words of what a mint gives.
const MINTINGS: [&str; 2] = ["badge", "guard"];

/// The number of capabilities that arrived.
const CAME: [&str; 2] = ["0", "1"];

/// Returns the number of a kind, if the word names one.
pub fn kind_number(word: &str) -> Option<usize> {
    place_among(&KINDS, word)
}

/// The longest name.
const LONGEST: usize = 31;

/// Returns why a word isn't the one that is wanted, if it isn't.
pub fn word_flaw(wanted: Wanted, word: &str) -> Option<WordFlaw<'_>> {
    match wanted {
        Wanted::End if word == "*" => None,
        Wanted::Name | Wanted::End => Some(WordFlaw::Name(word, name_flaw(word)?)),
        Wanted::Decimal => decimal_flaw(word),
        Wanted::Optional => optional_flaw(word),
        Wanted::Address => Some(WordFlaw::Number(word, address_flaw(word)?)),
        Wanted::Slot => slot_flaw(word),
        Wanted::Rights => rights_flaw(word),
        Wanted::Term => term_flaw(word),
        Wanted::Kind => kind_flaw(word),
        Wanted::Kinds => kinds_flaw(word),
        _ => choice_flaw(wanted, word),
    }
}

// A word that is one of a few.
fn choice_flaw(wanted: Wanted, word: &str) -> Option<WordFlaw<'_>> {
    match wanted {
        Wanted::Start if !is_one_of(word, &STARTS) => Some(WordFlaw::NoStart(word)),
        Wanted::Minting if !is_one_of(word, &MINTINGS) => Some(WordFlaw::NoMinting(word)),
        Wanted::Came if !is_one_of(word, &CAME) => Some(WordFlaw::NoCame(word)),
        Wanted::Material if !is_one_of(word, &MATERIALS) => Some(WordFlaw::NoMaterial(word)),
        _ => None,
    }
}

fn is_one_of(word: &str, words: &[&str]) -> bool {
    place_among(words, word).is_some()
}

// Where a word stands among others.
fn place_among(words: &[&str], word: &str) -> Option<usize> {
    words.iter().position(|one| *one == word)
}

fn name_flaw(word: &str) -> Option<NameFlaw> {
    let bytes = word.as_bytes();
    let Some(first) = bytes.first() else {
        return Some(NameFlaw::First);
    };
    if is_dotted(word) {
        return Some(NameFlaw::Slot);
    }
    if Class::Capital.is_in(bytes) {
        return Some(NameFlaw::Capital);
    }
    if !Class::Small.has(*first) {
        return Some(NameFlaw::First);
    }
    if !Class::OfName.has_all(bytes) {
        return Some(NameFlaw::Character);
    }
    if bytes.len() > LONGEST {
        return Some(NameFlaw::Long);
    }
    None
}

// Whether a word ends as a slot does: with a dot, and `root` or an index.
fn is_dotted(word: &str) -> bool {
    match word.split_once('.') {
        Some((_, place)) => place == "root" || decimal(place).is_some(),
        None => false,
    }
}

/// Returns a decimal number, if the word is one.
pub fn decimal(word: &str) -> Option<u64> {
    if !has_digits_alone(word) || has_zeros(word) {
        return None;
    }
    number_of(word, 10)
}

/// Returns a hexadecimal number, if the word is one.
pub fn hexadecimal(word: &str) -> Option<u64> {
    let digits = word.strip_prefix("0x")?;
    if digits.is_empty() || has_zeros(digits) {
        return None;
    }
    number_of(digits, 16)
}

fn number_of(digits: &str, radix: u64) -> Option<u64> {
    let mut number = 0u64;
    for byte in digits.as_bytes() {
        let digit = match *byte {
            b'0'..=b'9' => *byte - b'0',
            b'a'..=b'f' => *byte - b'a' + 10,
            _ => return None,
        };
        number = number.checked_mul(radix)?.checked_add(digit as u64)?;
    }
    Some(number)
}

fn has_digits_alone(word: &str) -> bool {
    !word.is_empty() && Class::Digit.has_all(word.as_bytes())
}

fn has_zeros(digits: &str) -> bool {
    digits.len() > 1 && digits.starts_with('0')
}

fn decimal_flaw(word: &str) -> Option<WordFlaw<'_>> {
    if decimal(word).is_some() {
        return None;
    }
    let flaw = if word.starts_with("0x") || word.starts_with("0X") {
        NumberFlaw::Hexadecimal
    } else if (word.starts_with('+') || word.starts_with('-')) && word.len() > 1 {
        NumberFlaw::Sign
    } else if !has_digits_alone(word) {
        NumberFlaw::NoDecimal
    } else if has_zeros(word) {
        NumberFlaw::Zeros
    } else {
        NumberFlaw::Large
    };
    Some(WordFlaw::Number(word, flaw))
}

fn optional_flaw(word: &str) -> Option<WordFlaw<'_>> {
    if word == "-" {
        None
    } else {
        decimal_flaw(word)
    }
}

fn address_flaw(word: &str) -> Option<NumberFlaw> {
    match hexadecimal_flaw(word)? {
        NumberFlaw::CapitalInNumber => Some(NumberFlaw::CapitalInAddress),
        flaw => Some(flaw),
    }
}

fn hexadecimal_flaw(word: &str) -> Option<NumberFlaw> {
    if hexadecimal(word).is_some() {
        return None;
    }
    if Class::Capital.is_in(word.as_bytes()) {
        return Some(NumberFlaw::CapitalInNumber);
    }
    let Some(digits) = word.strip_prefix("0x") else {
        return Some(NumberFlaw::NoPrefix);
    };
    if digits.is_empty() || !Class::HexDigit.has_all(digits.as_bytes()) {
        Some(NumberFlaw::NoHexadecimal)
    } else if has_zeros(digits) {
        Some(NumberFlaw::Zeros)
    } else {
        Some(NumberFlaw::Large)
    }
}

fn slot_flaw(word: &str) -> Option<WordFlaw<'_>> {
    let Some((name, place)) = word.split_once('.') else {
        return Some(WordFlaw::NoDot(word));
    };
    if name.is_empty() {
        return Some(WordFlaw::NoHolder(word));
    }
    if let Some(flaw) = name_flaw(name) {
        return Some(WordFlaw::Name(name, flaw));
    }
    if place == "root" {
        return None;
    }
    match decimal_flaw(place)? {
        WordFlaw::Number(_, NumberFlaw::NoDecimal) => Some(WordFlaw::NoIndex(word)),
        flaw => Some(flaw),
    }
}

/// Returns the number of a right, by its letter, if the letter names one.
pub fn right_number(letter: u8) -> Option<usize> {
    match letter {
        b'r' => Some(0),
        b'w' => Some(1),
        b'g' => Some(2),
        b'y' => Some(3),
        _ => None,
    }
}

fn rights_flaw(word: &str) -> Option<WordFlaw<'_>> {
    if word == "-" {
        return None;
    }
    let mut last = None;
    for letter in word.as_bytes() {
        let Some(number) = right_number(*letter) else {
            return Some(WordFlaw::NoRight(word, *letter as char));
        };
        match last {
            Some(before) if number == before => {
                return Some(WordFlaw::RightTwice(*letter as char));
            }
            Some(before) if number < before => return Some(WordFlaw::RightsFall),
            _ => last = Some(number),
        }
    }
    None
}

fn term_flaw(word: &str) -> Option<WordFlaw<'_>> {
    if word.starts_with("0x") || word.starts_with("0X") {
        return Some(WordFlaw::Number(word, hexadecimal_flaw(word)?));
    }
    match word.as_bytes().first() {
        Some(b'0'..=b'9') => decimal_flaw(word),
        _ => rights_flaw(word),
    }
}

fn kind_flaw(word: &str) -> Option<WordFlaw<'_>> {
    match kind_number(word) {
        Some(_) => None,
        None => Some(WordFlaw::NoKind(word)),
    }
}

/// The number of words of a list or a line that are looked at.
pub const MOST: u64 = 32;

fn kinds_flaw(word: &str) -> Option<WordFlaw<'_>> {
    let mut last = None;
    for index in 0..MOST {
        let Some(kind) = part(word, ',', index) else {
            return None;
        };
        let Some(number) = kind_number(kind) else {
            return Some(WordFlaw::NoKind(kind));
        };
        match last {
            Some((before, _)) if number == before => return Some(WordFlaw::KindTwice(kind)),
            Some((before, name)) if number < before => return Some(WordFlaw::KindsFall(kind, name)),
            _ => last = Some((number, kind)),
        }
    }
    None
}

/// What a kind of authority is one of, and what a kind of objects that a retype makes.
const AUTHORITY: &str = "authority";

const MATERIAL: &str = "object that a retype makes";

impl fmt::Display for WordFlaw<'_> {
    fn fmt<W: fmt::Write>(&self, f: &mut fmt::Formatter<W>) -> fmt::Result {
        match *self {
            WordFlaw::Missing(wanted) => {
                f.write_str(wanted.name())?;
                f.write_str(" is missing")
            }
            WordFlaw::Name(word, flaw) => tell_name(f, word, flaw),
            WordFlaw::Number(word, flaw) => tell_number(f, word, flaw),
            WordFlaw::NoKind("") => f.write_str("a comma is only allowed between two kinds"),
            WordFlaw::NoKind(word) => tell_kinds(f, word, AUTHORITY, &KINDS),
            WordFlaw::NoMaterial(word) => tell_kinds(f, word, MATERIAL, &MATERIALS),
            WordFlaw::NearKind(word, near) => tell_near_kind(f, word, AUTHORITY, near),
            WordFlaw::NearMaterial(word, near) => tell_near_kind(f, word, MATERIAL, near),
            WordFlaw::RightsFall => f.write_str("rights must be in the order `rwgy`"),
            WordFlaw::NoRight(..)
            | WordFlaw::RightTwice(_)
            | WordFlaw::KindTwice(_)
            | WordFlaw::KindsFall(..) => tell_part(f, *self),
            flaw => tell_word(f, flaw),
        }
    }
}

// What is wrong with a right or a kind among others.
fn tell_part<W: fmt::Write>(f: &mut fmt::Formatter<W>, flaw: WordFlaw<'_>) -> fmt::Result {
    match flaw {
        WordFlaw::NoRight(word, letter) => write!(
            f,
            "`{letter}` in `{word}` isn't a right: rights are some of `rwgy`, or `-`"
        ),
        WordFlaw::RightTwice(letter) => write!(f, "the right `{letter}` is given twice"),
        WordFlaw::KindTwice(word) => write!(f, "the kind `{word}` is given twice"),
        WordFlaw::KindsFall(word, before) => write!(
            f,
            "kinds must be in the order of their numbers: write `{word}` before `{before}`"
        ),
        _ => Ok(()),
    }
}

// What is wrong with a word by itself.
fn tell_word<W: fmt::Write>(f: &mut fmt::Formatter<W>, flaw: WordFlaw<'_>) -> fmt::Result {
    let (word, words) = match flaw {
        WordFlaw::TooMany(word) => (word, "is one word too many"),
        WordFlaw::NoDot(word) => (
            word,
            "isn't a slot: write a dot and an index, or `.root`, after the name",
        ),
        WordFlaw::NoHolder(word) => (
            word,
            "isn't a slot: write the name of a CNode or a thread before the dot",
        ),
        WordFlaw::NoIndex(word) => (
            word,
            "isn't a slot: write a decimal index, or `root`, after the dot",
        ),
        WordFlaw::NoCame(word) => (word, "must be 1 if a capability came along, else 0"),
        WordFlaw::NoStart(word) => (word, "is neither `ready` nor `inactive`"),
        WordFlaw::NoMinting(word) => (word, "is neither `badge` nor `guard`"),
        _ => return Ok(()),
    };
    write!(f, "`{word}` {words}")
}

// Which kinds there are, in place of a word.
fn tell_kinds<W: fmt::Write>(
    f: &mut fmt::Formatter<W>,
    word: &str,
    what: &str,
    kinds: &[&str],
) -> fmt::Result {
    write!(f, "`{word}` isn't a kind of {what}: the kinds are ")?;
    let mut separator = "";
    for kind in &kinds[..LISTED.min(kinds.len())] {
        f.write_str(separator)?;
        f.write_str(kind)?;
        separator = ", ";
    }
    write_more(f, kinds.len())
}

// Which kind is meant, in place of a word.
fn tell_near_kind<W: fmt::Write>(
    f: &mut fmt::Formatter<W>,
    word: &str,
    what: &str,
    near: &str,
) -> fmt::Result {
    write!(f, "`{word}` isn't a kind of {what}: did you mean `{near}`?")
}

// Why a word is no name.
fn tell_name<W: fmt::Write>(f: &mut fmt::Formatter<W>, word: &str, flaw: NameFlaw) -> fmt::Result {
    let words = match flaw {
        NameFlaw::Slot => "is a slot, but a name is expected here",
        NameFlaw::Character => "isn't a name: a name has only small letters, digits and `_`",
        NameFlaw::Capital => "isn't a name: names are written in small letters",
        NameFlaw::First => "isn't a name: a name begins with a small letter",
        NameFlaw::Long => {
            let length = word.len();
            return write!(f, "the name has {length} characters, more than 31");
        }
    };
    write!(f, "`{word}` {words}")
}

// Why a word is no number.
fn tell_number<W: fmt::Write>(
    f: &mut fmt::Formatter<W>,
    word: &str,
    flaw: NumberFlaw,
) -> fmt::Result {
    let words = match flaw {
        NumberFlaw::CapitalInAddress => "isn't an address: addresses are written in small letters",
        NumberFlaw::CapitalInNumber =>
            "isn't a hexadecimal number: these are written in small letters",
        NumberFlaw::Hexadecimal => "must be a decimal number",
        NumberFlaw::Sign => "has a sign, but numbers have none",
        NumberFlaw::Zeros => "has a leading zero, but numbers have none",
        NumberFlaw::Large => "isn't below 2^64",
        NumberFlaw::NoDecimal => "isn't a decimal number",
        NumberFlaw::NoPrefix => "isn't an address: addresses begin with `0x`",
        NumberFlaw::NoHexadecimal => "isn't a hexadecimal number",
    };
    write!(f, "`{word}` {words}")
}
