//! The layout of lines: whether one is a line of its text at all (fault 50).
use crate::classes::Class;
use crate::file::File;
use crate::form::{Form, call_named, form_of};
use crate::lines::{Line, text_of, word};

/// A fault of a line, whatever its words are.
#[derive(Clone, Copy)]
pub enum LayoutFlaw<'a> {
    /// The text has no bytes.
    Empty,
    /// A byte-order mark of UTF-8 before the header.
    Mark,
    /// A byte-order mark of UTF-16.
    WideMark,
    /// The header of another text.
    HeaderOf(File),
    /// The header of claims of version 1.
    OldClaims,
    NoHeader,
    NoLineFeed,
    AfterEnd,
    Blank,
    Comment,
    CarriageReturn,
    Tab,
    NoAscii,
    SpaceFirst,
    SpaceLast,
    TwoSpaces,
    Capitals(&'a str),
    /// A word that begins no line of the text, and what may come after the line before.
    Unknown(&'a str, Option<Form>),
    /// A word that begins no line of the text, and the nearest one that may.
    NearLine(&'a str, &'static str),
    /// A comment that doesn't begin its line with `#`, in claims.
    OtherComment,
    /// A line that begins with the word of the last, but has more.
    MoreThanEnd,
    /// A line of a script that has no third word.
    NoCall,
    /// An entry of a log that lacks its event or its outcome.
    NoEntry,
    /// A call that stands before or after its place, the third word.
    Misplaced(Form),
    UnknownCall(&'a str),
    /// A word that is no call, and the nearest call.
    NearCall(&'a str, &'static str),
    /// A line below one of a later section.
    Below(Form, Form),
}

/// Returns what is wrong with the first line of a file.
pub fn header_flaw<'a>(file: File, bytes: &[u8]) -> LayoutFlaw<'a> {
    if let Some(flaw) = mark_flaw(bytes) {
        return flaw;
    }
    let line = text_of(bytes);
    match around_header(file, line) {
        Some(flaw) => flaw,
        None => other_header(line),
    }
}

// The byte-order mark with which a file begins, if it begins with one.
fn mark_flaw<'a>(bytes: &[u8]) -> Option<LayoutFlaw<'a>> {
    match bytes {
        [0xef, 0xbb, 0xbf, ..] => Some(LayoutFlaw::Mark),
        [0xff, 0xfe, ..] | [0xfe, 0xff, ..] => Some(LayoutFlaw::WideMark),
        _ => None,
    }
}

// What stands round the header of the file, if the line has this header.
fn around_header<'a>(file: File, line: &str) -> Option<LayoutFlaw<'a>> {
    if file.has_header(line) {
        return Some(LayoutFlaw::NoLineFeed);
    }
    if is_header(file, line.strip_suffix("\r")) {
        return Some(LayoutFlaw::CarriageReturn);
    }
    if is_header(file, line.strip_suffix(" ")) {
        return Some(LayoutFlaw::SpaceLast);
    }
    if is_header(file, line.strip_prefix(" ")) {
        return Some(LayoutFlaw::SpaceFirst);
    }
    None
}

// Whether this is a line, and the header of the file.
fn is_header(file: File, line: Option<&str>) -> bool {
    match line {
        Some(line) => file.has_header(line),
        None => false,
    }
}

// What a line is that isn't the header of its file.
fn other_header<'a>(line: &str) -> LayoutFlaw<'a> {
    for file in &File::ALL {
        if file.has_header(line) {
            return LayoutFlaw::HeaderOf(*file);
        }
    }
    if line == "confine-claims 1" {
        return LayoutFlaw::OldClaims;
    }
    LayoutFlaw::NoHeader
}

/// Returns what is wrong with the bytes of a line after the header, if anything is.
pub fn bytes_flaw<'a>(file: File, line: Line<'a>, before: &str) -> Option<LayoutFlaw<'a>> {
    match (file, line_flaw(line, before)) {
        (File::Claims, Some(LayoutFlaw::Comment)) => Some(LayoutFlaw::OtherComment),
        (File::Claims, None) if line.bytes.contains(&b'#') => Some(LayoutFlaw::OtherComment),
        (_, flaw) => flaw,
    }
}

// What is wrong with the bytes of a line of a text without comments, if anything is.
fn line_flaw<'a>(line: Line<'a>, before: &str) -> Option<LayoutFlaw<'a>> {
    if !line.has_line_feed {
        return Some(LayoutFlaw::NoLineFeed);
    }
    if before == "end" {
        return Some(LayoutFlaw::AfterEnd);
    }
    match line.bytes {
        [] => Some(LayoutFlaw::Blank),
        [b'#' | b';', ..] | [b'/', b'/', ..] => Some(LayoutFlaw::Comment),
        [.., b'\r'] => Some(LayoutFlaw::CarriageReturn),
        bytes => characters_flaw(bytes),
    }
}

// What is wrong with the characters of a line, if anything is.
fn characters_flaw<'a>(bytes: &[u8]) -> Option<LayoutFlaw<'a>> {
    if bytes.contains(&b'\t') {
        return Some(LayoutFlaw::Tab);
    }
    if !Class::Printable.has_all(bytes) {
        return Some(LayoutFlaw::NoAscii);
    }
    spaces_flaw(text_of(bytes))
}

// Whether words are parted by one space each.
fn spaces_flaw<'a>(line: &str) -> Option<LayoutFlaw<'a>> {
    if line.starts_with(' ') {
        return Some(LayoutFlaw::SpaceFirst);
    }
    if line.ends_with(' ') {
        return Some(LayoutFlaw::SpaceLast);
    }
    if line.contains("  ") {
        return Some(LayoutFlaw::TwoSpaces);
    }
    None
}

/// Returns what is wrong with a line that has no form.
pub fn formless_flaw<'a>(file: File, line: &'a str, before: &str) -> LayoutFlaw<'a> {
    let first = word(line, 0).unwrap_or_default();
    if first == "end" {
        return LayoutFlaw::MoreThanEnd;
    }
    match file {
        File::Script => call_flaw(line, LayoutFlaw::NoCall),
        File::Log => call_flaw(event_of(line), LayoutFlaw::NoEntry),
        _ if Class::Capital.is_in(first.as_bytes()) => LayoutFlaw::Capitals(first),
        _ => LayoutFlaw::Unknown(first, form_of(file, before)),
    }
}

// The event of an entry; no words, if the entry begins with its outcome.
fn event_of(entry: &str) -> &str {
    if entry.starts_with("= ") {
        return "";
    }
    match entry.split_once(" = ") {
        Some((event, _)) => event,
        None => entry,
    }
}

// What is wrong with an event whose third word is no call, or is missing.
fn call_flaw<'a>(event: &'a str, missing: LayoutFlaw<'a>) -> LayoutFlaw<'a> {
    if let Some(call) = misplaced_call(event) {
        return LayoutFlaw::Misplaced(call);
    }
    match word(event, 2) {
        Some(word) if Class::Capital.is_in(word.as_bytes()) => LayoutFlaw::Capitals(word),
        Some(word) => LayoutFlaw::UnknownCall(word),
        None => missing,
    }
}

// The first of four words that is a call, if one is.
fn misplaced_call(event: &str) -> Option<Form> {
    for at in 0..4 {
        let call = call_named(word(event, at).unwrap_or_default());
        if call.is_some() {
            return call;
        }
    }
    None
}

/// Returns what is wrong with the section in which a line stands, if anything is.
pub fn section_flaw<'a>(file: File, form: Form, before: &str) -> Option<LayoutFlaw<'a>> {
    let last = form_of(file, before)?;
    if form.section() < last.section() {
        Some(LayoutFlaw::Below(form, last))
    } else {
        None
    }
}

/// Returns the words of the line before another one; no words, if there is no line before.
pub fn before_of(line: Option<Line<'_>>) -> &str {
    match line {
        Some(line) => text_of(line.bytes),
        None => "",
    }
}

/// The fault of the layout of a line of a text.
#[derive(Clone, Copy)]
pub struct OfLayout<'a> {
    pub file: File,
    pub flaw: LayoutFlaw<'a>,
}
