//! The words for a line of a file in a sentence.
use std::fmt;

/// The words for a line before a sentence on it, as `table:12: `; empty if there is no such line.
#[derive(Clone, Copy)]
pub struct Start<'a> {
    pub file: &'a str,
    pub line: Option<usize>,
}

impl fmt::Display for Start<'_> {
    fn fmt<W: fmt::Write>(&self, f: &mut fmt::Formatter<W>) -> fmt::Result {
        let file = self.file;
        match self.line {
            Some(line) => write!(f, "{file}:{line}: "),
            None => Ok(()),
        }
    }
}

/// The words for a line after a phrase on it, as ` at table:12`; empty if there is no such line.
#[derive(Clone, Copy)]
pub struct At<'a> {
    pub file: &'a str,
    pub line: Option<usize>,
}

impl fmt::Display for At<'_> {
    fn fmt<W: fmt::Write>(&self, f: &mut fmt::Formatter<W>) -> fmt::Result {
        let file = self.file;
        match self.line {
            Some(line) => write!(f, " at {file}:{line}"),
            None => Ok(()),
        }
    }
}
