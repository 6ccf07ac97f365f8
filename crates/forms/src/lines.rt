//! The lines of a text, and their words.
use std::fmt;

/// A line of a text, without its line feed.
#[derive(Clone, Copy)]
pub struct Line<'a> {
    pub bytes: &'a [u8],
    pub has_line_feed: bool,
}

/// Returns the line of this number, from 1, if the text goes so far.
pub fn line_at(text: &[u8], number: u64) -> Option<Line<'_>> {
    let mut lines = Lines::new(text);
    for _ in 1..number {
        lines.next_line()?;
    }
    let bytes = lines.next_line()?;
    let has_line_feed = lines.rest.is_some();
    if bytes.is_empty() && !has_line_feed {
        return None;
    }
    Some(Line {
        bytes,
        has_line_feed,
    })
}

/// The lines of a text, one after another; what follows the last line feed is one too.
#[derive(Clone, Copy)]
pub struct Lines<'a> {
    rest: Option<&'a [u8]>,
}

impl<'a> Lines<'a> {
    /// Returns the lines of a text, none of which is read yet.
    pub fn new(text: &'a [u8]) -> Lines<'a> {
        Lines { rest: Some(text) }
    }

    /// Returns the next line, without its line feed, if there is one.
    pub fn next_line(&mut self) -> Option<&'a [u8]> {
        let rest = self.rest?;
        match rest.iter().position(|byte| *byte == b'\n') {
            Some(end) => {
                self.rest = Some(&rest[end + 1..]);
                Some(&rest[..end])
            }
            None => {
                self.rest = None;
                Some(rest)
            }
        }
    }
}

/// Returns the words of a line; no words, if the line isn't text.
pub fn text_of(bytes: &[u8]) -> &str {
    match std::str::from_utf8(bytes) {
        Ok(line) => line,
        Err(_) => "",
    }
}

/// Returns the word of this number, from 0, of those between single spaces.
pub fn word(line: &str, number: u64) -> Option<&str> {
    part(line, ' ', number)
}

/// Returns the part of this number, from 0, of those between the separators.
pub fn part(text: &str, separator: char, number: u64) -> Option<&str> {
    text.split(separator).nth(number as usize)
}

/// Returns whether the word of this number is there, and is this one.
pub fn has_word(line: &str, number: u64, wanted: &str) -> bool {
    word(line, number) == Some(wanted)
}

/// How many characters of a line are shown.
const SHOWN: usize = 120;

/// Bytes as they can be printed: what isn't printable ASCII as `\xNN`, and a long line cut.
#[derive(Clone, Copy)]
pub struct Shown<'a> {
    pub bytes: &'a [u8],
}

impl fmt::Display for Shown<'_> {
    fn fmt<W: fmt::Write>(&self, f: &mut fmt::Formatter<W>) -> fmt::Result {
        let mut length = 0usize;
        for byte in self.bytes {
            if length >= SHOWN {
                return f.write_str("..");
            }
            match *byte {
                b' '..=b'~' => {
                    length += 1;
                    write!(f, "{}", *byte as char)?;
                }
                other => {
                    length += 4;
                    write!(f, "\\x{other:02x}")?;
                }
            }
        }
        Ok(())
    }
}
