//! The reason why a text isn't a document: the first thing in it that isn't spelled as it should be.
ghost use Rattle.std.specs.Prelude.{◌≤◌};

use forms::{File, LayoutFlaw, Shown, header_flaw, line_at};
use std::alloc::{AllocError, Global};
use std::fmt;
use xml::{MAX_ATTRIBUTES, MAX_ELEMENTS, MAX_LEVELS, MAX_TEXT_LENGTH, MAX_VALUE_LENGTH};

/// What isn't spelled as it should be.
#[derive(Clone, Copy)]
pub(crate) enum Slip<'t> {
    /// A text without an element.
    Empty,
    /// The header of another text.
    HeaderOf(File),
    ByteOrderMark,
    DocumentType,
    CharacterData,
    Instruction,
    /// A declaration that isn't as it must be.
    Declaration,
    /// A declaration without an end.
    OpenDeclaration,
    /// A declaration of a namespace.
    Namespace,
    /// The prefix of a name, by which a namespace is meant.
    Prefix(&'t [u8]),
    /// A comment without an end.
    OpenComment,
    /// Two dashes in a comment.
    Dashes,
    /// Something behind the root.
    AfterRoot(Open<'t>),
    /// Text between tags.
    Text,
    /// A tag without a name.
    Nameless,
    /// The tag of an end without a name.
    NamelessEnd,
    /// The end of an element where none is open.
    NoneOpen(&'t [u8]),
    /// The end of an element that isn't open, and the innermost one that is.
    NotOpen(&'t [u8], Open<'t>),
    /// The end of an element that is open, and the innermost one, which must end first.
    OtherEnd(&'t [u8], Open<'t>),
    /// The tag of an end in which something else than a name stands, with its own line.
    EndTag(Open<'t>),
    /// A tag in which the text ends.
    EndsInTag(Open<'t>),
    /// An element without an end.
    Unclosed(Open<'t>),
    /// A limit of the text.
    Limit(Limit<'t>),
    /// A tag, of this element, in which something else than an attribute stands.
    Tag(&'t [u8]),
    /// An attribute that is given twice, and the name of its element.
    Twice(&'t [u8], &'t [u8]),
    /// An attribute without `=` and a value.
    NoValue(&'t [u8]),
    /// A value without quotes.
    NoQuote(&'t [u8]),
    /// A value with a byte that can't be in it.
    Value(&'t [u8]),
    /// A value with a wrong reference.
    Reference(&'t [u8]),
    /// None of these was found.
    Unknown,
}

/// A limit of descriptions that a text passes.
#[derive(Clone, Copy)]
pub(crate) enum Limit<'t> {
    /// The bytes of the text.
    Text,
    /// The levels of elements.
    Levels,
    /// The number of elements.
    Elements,
    /// The attributes of an element of this name.
    Attributes(&'t [u8]),
    /// The bytes of the value of an attribute of this name.
    Value(&'t [u8]),
}

/// An element that is open, and the line of its tag.
#[derive(Clone, Copy)]
pub(crate) struct Open<'t> {
    name: &'t [u8],
    line: u64,
}

/// The encodings that a declaration may have.
const ENCODINGS: [&str; 4] = ["UTF-8", "utf-8", "US-ASCII", "us-ascii"];

/// Returns the first thing in a text that isn't spelled as it should be.
pub(crate) fn first_slip<'t>(alloc: Global, text: &'t [u8]) -> Result<Slip<'t>, AllocError> {
    if text.len() > MAX_TEXT_LENGTH {
        return Ok(Slip::Limit(Limit::Text));
    }
    if text.starts_with(b"\xef\xbb\xbf") {
        return Ok(Slip::ByteOrderMark);
    }
    if let Some(other) = other_of(text) {
        return Ok(Slip::HeaderOf(other));
    }
    let mut scan = Scan {
        rest: text,
        line: 1,
        open: Vec::new(alloc),
        root: None,
        begun: 0,
    };
    if let Some(slip) = scan.declaration() {
        return Ok(slip);
    }
    for _ in 0..text.len() {
        scan.spaces();
        if scan.rest.is_empty() {
            break;
        }
        if let Some(slip) = scan.item(alloc)? {
            return Ok(slip);
        }
    }
    Ok(match scan.open.last() {
        Some(open) => Slip::Unclosed(*open),
        None if scan.begun > 0 => Slip::Unknown,
        None => Slip::Empty,
    })
}

// The other file of which a text has the header, if it has one.
fn other_of(text: &[u8]) -> Option<File> {
    match header_flaw(File::Description, line_at(text, 1)?.bytes) {
        LayoutFlaw::HeaderOf(File::Description) => None,
        LayoutFlaw::HeaderOf(other) => Some(other),
        LayoutFlaw::OldClaims => Some(File::Claims),
        _ => None,
    }
}

/// The rest of a text, and what was found before it.
#[derive(Drop)]
struct Scan<'t> {
    rest: &'t [u8],
    line: u64,
    open: Vec<Open<'t>>,
    /// The root, if it began.
    root: Option<Open<'t>>,
    /// The number of elements that began.
    begun: usize,
}

impl<'t> Scan<'t> {
    // Takes this many bytes, or all that are left.
    fn take(&mut self, count: usize) -> &'t [u8] {
        let (taken, rest) = self.rest.split_at(count.min(self.rest.len()));
        let feeds = taken.iter().filter(|byte| **byte == b'\n').count();
        self.line = self.line.saturating_add(feeds as u64);
        self.rest = rest;
        taken
    }

    // Takes these bytes, if they come next.
    fn has_taken(&mut self, front: &[u8]) -> bool {
        let comes = self.rest.starts_with(front);
        if comes {
            self.take(front.len());
        }
        comes
    }

    // Takes everything up to these bytes, and them too, or all that is left. Returns whether they were found.
    fn take_past(&mut self, end: &[u8]) -> bool {
        for _ in 0..self.rest.len() {
            if self.has_taken(end) {
                return true;
            }
            self.take(1);
        }
        false
    }

    // Takes the white space that comes next. Returns whether any did.
    fn spaces(&mut self) -> bool {
        let count = self.rest.iter().take_while(|byte| is_space(**byte)).count();
        self.take(count);
        count > 0
    }

    // Takes the name that comes next; nothing, if none does.
    fn name(&mut self) -> &'t [u8] {
        let count = match self.rest.first() {
            Some(first) if first.is_ascii_alphabetic() || *first == b'_' => {
                self.rest
                    .iter()
                    .take_while(|byte| is_of_name(**byte))
                    .count()
            }
            _ => 0,
        };
        self.take(count)
    }

    // Takes the quote that comes next, if there is one.
    fn quote(&mut self) -> Option<u8> {
        match self.rest.first() {
            Some(quote) if *quote == b'"' || *quote == b'\'' => {
                let quote = *quote;
                self.take(1);
                Some(quote)
            }
            _ => None,
        }
    }

    // Takes what may stand in a value between such quotes.
    fn spelled(&mut self, quote: u8) -> &'t [u8] {
        let count = self
            .rest
            .iter()
            .take_while(|byte| is_of_value(quote, **byte))
            .count();
        self.take(count)
    }

    // Takes the declaration, if there is one. Returns what is wrong with it, if anything is.
    fn declaration(&mut self) -> Option<Slip<'t>> {
        if !self.has_taken(b"<?xml") {
            return None;
        }
        if !self.spaces() || !self.has_taken(b"version") || !self.has_one_of(&["1.0"]) {
            return Some(Slip::Declaration);
        }
        let is_apart = self.spaces();
        if self.has_taken(b"encoding") && !(is_apart && self.has_one_of(&ENCODINGS)) {
            return Some(Slip::Declaration);
        }
        self.spaces();
        if self.has_taken(b"?>") {
            return None;
        }
        match self.rest.first() {
            Some(byte) if byte.is_ascii_alphabetic() => Some(Slip::Declaration),
            _ => Some(Slip::OpenDeclaration),
        }
    }

    // Takes `=`, and a value in quotes. Returns whether it is one of these.
    fn has_one_of(&mut self, values: &[&str]) -> bool {
        self.spaces();
        if !self.has_taken(b"=") {
            return false;
        }
        self.spaces();
        let Some(quote) = self.quote() else {
            return false;
        };
        let value = self.spelled(quote);
        self.has_taken(&[quote]) && values.iter().any(|known| known.as_bytes() == value)
    }

    // Takes a comment or a tag. Returns what is wrong with it, if anything is.
    fn item(&mut self, alloc: Global) -> Result<Option<Slip<'t>>, AllocError> {
        if self.has_taken(b"<!--") {
            return Ok(self.comment());
        }
        if self.rest.starts_with(b"<!DOCTYPE") {
            return Ok(Some(Slip::DocumentType));
        }
        if self.rest.starts_with(b"<![CDATA[") {
            return Ok(Some(Slip::CharacterData));
        }
        if self.rest.starts_with(b"<?") {
            return Ok(Some(Slip::Instruction));
        }
        if let (Some(root), true) = (self.root, self.open.is_empty()) {
            return Ok(Some(Slip::AfterRoot(root)));
        }
        if self.has_taken(b"</") {
            return Ok(self.end());
        }
        if self.has_taken(b"<") {
            return self.begin(alloc);
        }
        Ok(Some(Slip::Text))
    }

    // Takes what is left of a comment.
    fn comment(&mut self) -> Option<Slip<'t>> {
        if !self.take_past(b"--") {
            return Some(Slip::OpenComment);
        }
        if self.has_taken(b">") {
            None
        } else {
            Some(Slip::Dashes)
        }
    }

    // Takes what is left of the tag that ends an element.
    fn end(&mut self) -> Option<Slip<'t>> {
        let line = self.line;
        let name = self.name();
        if name.is_empty() {
            return Some(Slip::NamelessEnd);
        }
        if self.rest.starts_with(b":") {
            return Some(Slip::Prefix(name));
        }
        match self.open.pop() {
            None => return Some(Slip::NoneOpen(name)),
            Some(open) if open.name == name => {}
            Some(open) if self.is_open(name) => return Some(Slip::OtherEnd(name, open)),
            Some(open) => return Some(Slip::NotOpen(name, open)),
        }
        self.spaces();
        if self.has_taken(b">") {
            None
        } else {
            Some(Slip::EndTag(Open { name, line }))
        }
    }

    // Whether an element of this name is open.
    fn is_open(&self, name: &[u8]) -> bool {
        self.open.iter().any(|open| open.name == name)
    }

    // Returns the limit that one element more would pass.
    fn limit(&self) -> Option<Limit<'t>> {
        if self.open.len() >= MAX_LEVELS {
            Some(Limit::Levels)
        } else if self.begun >= MAX_ELEMENTS {
            Some(Limit::Elements)
        } else {
            None
        }
    }

    // Takes what is left of the tag that begins an element.
    fn begin(&mut self, alloc: Global) -> Result<Option<Slip<'t>>, AllocError> {
        let line = self.line;
        let tag = Open {
            name: self.name(),
            line,
        };
        if let Some(slip) = self.unopened(tag.name) {
            return Ok(Some(slip));
        }
        self.begun = self.begun.saturating_add(1);
        self.root = Some(self.root.unwrap_or(tag));
        self.attributes(alloc, tag)
    }

    // Why no element of this name can begin.
    fn unopened(&self, name: &'t [u8]) -> Option<Slip<'t>> {
        if name.is_empty() {
            Some(Slip::Nameless)
        } else if name == b"xmlns".as_slice() {
            Some(Slip::Namespace)
        } else if let Some(limit) = self.limit() {
            Some(Slip::Limit(limit))
        } else if self.rest.starts_with(b":") {
            Some(Slip::Prefix(name))
        } else {
            None
        }
    }

    // Takes the attributes of a tag, and its end.
    fn attributes(&mut self, alloc: Global, tag: Open<'t>) -> Result<Option<Slip<'t>>, AllocError> {
        let mut given = Vec::new(alloc);
        for _ in 0..self.rest.len() {
            let is_apart = self.spaces();
            if self.has_ended(tag)? {
                return Ok(None);
            }
            let name = self.name();
            if let Some(slip) = self.misplaced(tag, is_apart, &given, name) {
                return Ok(Some(slip));
            }
            given.push(name)?;
            if let Some(slip) = self.attribute(name) {
                return Ok(Some(slip));
            }
        }
        Ok(Some(Slip::EndsInTag(tag)))
    }

    // Takes the end of a tag, if it comes next. The element is open then, unless the tag ends it too.
    fn has_ended(&mut self, tag: Open<'t>) -> Result<bool, AllocError> {
        if self.has_taken(b"/>") {
            return Ok(true);
        }
        let has_ended = self.has_taken(b">");
        if has_ended {
            self.open.push(tag)?;
        }
        Ok(has_ended)
    }

    // Why the name that was taken last can't begin an attribute of a tag.
    fn misplaced(
        &self,
        tag: Open<'t>,
        is_apart: bool,
        given: &[&'t [u8]],
        name: &'t [u8],
    ) -> Option<Slip<'t>> {
        if name.is_empty() && self.rest.is_empty() {
            Some(Slip::EndsInTag(tag))
        } else if !is_apart {
            Some(Slip::Tag(tag.name))
        } else {
            refused(given, tag.name, name)
        }
    }

    // Takes what follows the name of an attribute.
    fn attribute(&mut self, name: &'t [u8]) -> Option<Slip<'t>> {
        if self.rest.starts_with(b":") {
            return Some(Slip::Prefix(name));
        }
        self.spaces();
        if !self.has_taken(b"=") {
            return Some(Slip::NoValue(name));
        }
        self.spaces();
        let Some(quote) = self.quote() else {
            return Some(Slip::NoQuote(name));
        };
        let value = self.spelled(quote);
        if !self.has_taken(&[quote]) {
            return Some(Slip::Value(name));
        }
        if value.contains(&b'&') && !has_known_references(value) {
            return Some(Slip::Reference(name));
        }
        if read_length(value) > MAX_VALUE_LENGTH {
            return Some(Slip::Limit(Limit::Value(name)));
        }
        None
    }
}

// Why an element of this name, which has attributes of the names that are given, can't have one more, of that name.
fn refused<'t>(given: &[&'t [u8]], element: &'t [u8], name: &'t [u8]) -> Option<Slip<'t>> {
    if name.is_empty() {
        Some(Slip::Tag(element))
    } else if name == b"xmlns".as_slice() {
        Some(Slip::Namespace)
    } else if given.iter().any(|other| *other == name) {
        Some(Slip::Twice(name, element))
    } else if given.len() >= MAX_ATTRIBUTES {
        Some(Slip::Limit(Limit::Attributes(element)))
    } else {
        None
    }
}

// The number of bytes of a value once its references are read.
fn read_length(value: &[u8]) -> usize {
    let mut length: usize = 0;
    let mut is_in_reference = false;
    for byte in value {
        if !is_in_reference {
            length = length.saturating_add(1);
        }
        is_in_reference = match *byte {
            b'&' => true,
            b';' => false,
            _ => is_in_reference,
        };
    }
    length
}

fn is_space(byte: u8) -> bool {
    byte == b' ' || byte == b'\t' || byte == b'\n' || byte == b'\r'
}

fn is_of_name(byte: u8) -> bool {
    byte.is_ascii_alphanumeric() || byte == b'_' || byte == b'-' || byte == b'.'
}

fn is_of_value(quote: u8, byte: u8) -> bool {
    (b' '..=b'~').contains(&byte) && byte != b'<' && byte != quote
}

// Whether each `&` begins a reference that ends, by a name that is known or a number.
fn has_known_references(value: &[u8]) -> bool {
    let mut pieces = value.split(|byte| *byte == b'&');
    pieces.next();
    pieces.all(|piece| is_reference(piece))
}

// Whether a text behind an `&` begins with a reference.
fn is_reference(piece: &[u8]) -> bool {
    let names: [&[u8]; 5] = [b"lt;", b"gt;", b"amp;", b"quot;", b"apos;"];
    names.iter().any(|name| piece.starts_with(name)) || is_of_number(piece)
}

// Whether a text begins with the number of a printable ASCII character, as in a reference behind its `&`.
fn is_of_number(piece: &[u8]) -> bool {
    let mut parts = piece.split(|byte| *byte == b';');
    let (Some(number), Some(_)) = (parts.next(), parts.next()) else {
        return false;
    };
    let code = if let Some(digits) = number.strip_prefix(b"#x") {
        code_of(16, digits)
    } else if let Some(digits) = number.strip_prefix(b"#") {
        code_of(10, digits)
    } else {
        None
    };
    code.is_some_and(|code| (32..=126).contains(&code))
}

// The number that these digits spell.
fn code_of(base: u32, digits: &[u8]) -> Option<u32>
    requires low { 2 ≤ base }
    requires high { base ≤ 16 }
{
    let mut code: u32 = 0;
    for byte in digits {
        let digit = (*byte as char).to_digit(base)?;
        code = code.checked_mul(base)?.checked_add(digit)?;
    }
    Some(code)
}

impl Slip<'_> {
    /// Returns the beginning of the sentence on it.
    pub(crate) fn start(self) -> &'static str {
        match self {
            Slip::HeaderOf(_) | Slip::Twice(_, _) | Slip::Limit(_) => "",
            _ => "this isn't read as XML: ",
        }
    }
}

impl fmt::Display for Open<'_> {
    fn fmt<W: fmt::Write>(&self, f: &mut fmt::Formatter<W>) -> fmt::Result {
        let name = Shown { bytes: self.name };
        write!(f, "`<{name}>` of line {}", self.line)
    }
}

impl fmt::Display for Slip<'_> {
    fn fmt<W: fmt::Write>(&self, f: &mut fmt::Formatter<W>) -> fmt::Result {
        match *self {
            Slip::Prefix(name) => {
                let name = Shown { bytes: name };
                write!(f, "namespaces aren't allowed: remove the prefix `{name}:`")
            }
            Slip::AfterRoot(root) => tell_after(f, root),
            Slip::NoneOpen(name) => {
                let name = Shown { bytes: name };
                write!(f, "`</{name}>` ends an element, but none is open")
            }
            Slip::NotOpen(name, open) => {
                let (name, inner) = (Shown { bytes: name }, Shown { bytes: open.name });
                write!(
                    f,
                    "`</{name}>` ends an element that isn't open: remove it, or write `</{inner}>` to end the innermost open \
                     element, {open}"
                )
            }
            Slip::OtherEnd(name, open) => {
                let (name, inner) = (Shown { bytes: name }, Shown { bytes: open.name });
                write!(
                    f,
                    "`</{name}>` ends no open element: {open} must end first, by `</{inner}>`, or by `/>` in its tag"
                )
            }
            Slip::EndTag(Open { name, line }) => {
                let name = Shown { bytes: name };
                write!(
                    f,
                    "the end tag `</{name}` of line {line} must have nothing but `>` behind its name"
                )
            }
            Slip::EndsInTag(Open { name, line }) => {
                let name = Shown { bytes: name };
                write!(
                    f,
                    "the text ends in the tag of `{name}`, which begins in line {line}"
                )
            }
            Slip::Unclosed(open) => {
                let name = Shown { bytes: open.name };
                write!(f, "{open} has no end `</{name}>`")
            }
            Slip::Tag(name) => {
                let name = Shown { bytes: name };
                write!(
                    f,
                    "the tag of `{name}` can only have attributes, each after a space, and then `>` or `/>`; or a value \
                     lacks its closing quote"
                )
            }
            Slip::HeaderOf(other) => tell_header(f, other),
            Slip::Twice(name, element) => tell_twice(f, name, element),
            Slip::Limit(limit) => write!(f, "{limit}"),
            Slip::NoValue(name) => {
                let name = Shown { bytes: name };
                write!(f, "`{name}` has no value: write `{name}=\"..\"`")
            }
            Slip::NoQuote(name) => {
                let name = Shown { bytes: name };
                write!(f, "the value of `{name}` must be in quotes")
            }
            Slip::Value(name) => {
                let name = Shown { bytes: name };
                write!(
                    f,
                    "the value of `{name}` has no closing quote, or it has `<` or a byte that isn't printable ASCII"
                )
            }
            Slip::Reference(name) => {
                let name = Shown { bytes: name };
                write!(
                    f,
                    "in the value of `{name}` an `&` must begin `&lt;`, `&gt;`, `&amp;`, `&quot;`, `&apos;`, or the number \
                     of a printable ASCII character, as `&#65;`"
                )
            }
            slip => f.write_str(plain(slip)),
        }
    }
}

// Says that a text is another one, by its header.
fn tell_header<W: fmt::Write>(f: &mut fmt::Formatter<W>, other: File) -> fmt::Result {
    let (name, wanted) = (other.name(), File::Description.name());
    write!(f, "this is the header of a {name}, not of a {wanted}")
}

// Says that something stands behind the root.
fn tell_after<W: fmt::Write>(f: &mut fmt::Formatter<W>, root: Open<'_>) -> fmt::Result {
    if root.name == b"system".as_slice() {
        return f.write_str("`<system>` has ended: only comments may follow");
    }
    write!(
        f,
        "{root} is the root, and ends before this: a description is one element `system`, with all else in it"
    )
}

// Says that an attribute is given twice.
fn tell_twice<W: fmt::Write>(
    f: &mut fmt::Formatter<W>,
    name: &[u8],
    element: &[u8],
) -> fmt::Result {
    let (name, element) = (Shown { bytes: name }, Shown { bytes: element });
    write!(
        f,
        "the attribute `{name}` of `{element}` is given twice: remove one of the two"
    )
}

impl fmt::Display for Limit<'_> {
    fn fmt<W: fmt::Write>(&self, f: &mut fmt::Formatter<W>) -> fmt::Result {
        match *self {
            Limit::Text => write!(f, "the text has more than {MAX_TEXT_LENGTH} bytes"),
            Limit::Levels => write!(
                f,
                "this element is inside {MAX_LEVELS} others: no more are allowed"
            ),
            Limit::Elements => write!(f, "there are more than {MAX_ELEMENTS} elements"),
            Limit::Attributes(element) => {
                let element = Shown { bytes: element };
                write!(f, "`{element}` has more than {MAX_ATTRIBUTES} attributes")
            }
            Limit::Value(name) => {
                let name = Shown { bytes: name };
                write!(
                    f,
                    "the value of `{name}` has more than {MAX_VALUE_LENGTH} bytes"
                )
            }
        }
    }
}

// A sentence without words of its own.
fn plain(slip: Slip<'_>) -> &'static str {
    match slip {
        Slip::Empty => "there is no element: a description is an element `system`",
        Slip::ByteOrderMark => "the text begins with a byte order mark: remove its three bytes",
        Slip::DocumentType => "document types aren't allowed",
        Slip::CharacterData => "CDATA isn't allowed",
        Slip::Instruction => "`<?` is only allowed in one declaration, before all else",
        Slip::Declaration => {
            "the declaration must be `<?xml version=\"1.0\"?>`, if need be with encoding=\"UTF-8\" or \"US-ASCII\" behind the \
             version"
        }
        Slip::OpenDeclaration => "the declaration of line 1 must end with `?>`",
        Slip::Namespace => "namespaces aren't allowed: remove `xmlns`",
        Slip::OpenComment => "a comment has no end `-->`",
        Slip::Dashes => "`--` isn't allowed in a comment",
        Slip::Text => "text isn't allowed between tags",
        Slip::Nameless => "a tag must begin with a name",
        Slip::NamelessEnd => "the name of the element must stand directly behind `</`",
        _ => {
            "only one root is allowed, with elements, attributes of printable ASCII, and comments without control \
             characters"
        }
    }
}
