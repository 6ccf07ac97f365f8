//! The files that an engine reads.
ghost use Rattle.std.specs.Prelude.{◌≡◌, Some};
ghost use Rattle.forms.specs.Files.{file_word};

use crate::form::Form;
use crate::lines::{Lines, text_of};
use std::fmt;

/// A file that an engine reads.
#[derive(Clone, Copy, PartialEq, Eq)]
pub enum File {
    Table,
    Policy,
    Certificate,
    Script,
    Log,
    Claims,
    /// A system description of Microkit. It is XML, so its lines have no forms.
    Description,
    /// The second system of a comparison, a table or a description.
    New,
}

impl File {
    /// All kinds of files.
    pub const ALL: [File; 7] = [
        File::Table,
        File::Policy,
        File::Certificate,
        File::Script,
        File::Log,
        File::Claims,
        File::Description,
    ];

    /// Returns the first line of the file.
    ///
    /// That of a description is the shortest of those that its XML may begin with.
    pub fn header(self) -> &'static str {
        match self {
            File::Table | File::New => "confine-table 1",
            File::Policy => "confine-policy 1",
            File::Certificate => "confine-cert 1",
            File::Script => "confine-script 1",
            File::Log => "confine-log 1",
            File::Claims => "confine-claims 2",
            File::Description => "<?xml version=\"1.0\"?>",
        }
    }

    /// Returns the first line of the file's second version, if there is one.
    ///
    /// Tables have one.
    pub fn later_header(self) -> Option<&'static str> {
        match self {
            File::Table | File::New => Some("confine-table 2"),
            _ => None,
        }
    }

    /// Returns whether a text is one of the file's second version, as its first line says.
    pub fn is_later(self, text: &[u8]) -> bool {
        match (self.later_header(), Lines::new(text).next_line()) {
            (Some(later), Some(line)) => text_of(line) == later,
            _ => false,
        }
    }

    /// Returns whether a line is the first of a version of the file.
    ///
    /// Any tag begins a description.
    pub fn has_header(self, line: &str) -> bool {
        match self.later_header() {
            Some(later) if later == line => true,
            None if self == File::Description => line.starts_with('<'),
            _ => self.header() == line,
        }
    }

    /// Returns the word by which reports and messages name the file.
    pub fn as_str(self) -> &'static str
        ensures { result.now ≡ file_word self }
    {
        match self {
            File::Table => "table",
            File::Policy => "policy",
            File::Certificate => "certificate",
            File::Script => "script",
            File::Log => "log",
            File::Claims => "claims",
            File::Description => "description",
            File::New => "new system",
        }
    }

    /// Returns what sentences on faults call the file.
    pub fn name(self) -> &'static str {
        match self {
            File::Claims => "claim list",
            file => file.as_str(),
        }
    }

    /// Returns how many words of a line stand before the word by which its form is known.
    pub fn words_before(self) -> u64 {
        match self {
            File::Script | File::Log => 2,
            _ => 0,
        }
    }

    /// Returns whether lines of the file have a form.
    ///
    /// A log shares forms with a script.
    pub fn has(self, form: Form) -> bool {
        form.file() == self || (self == File::Log && form.file() == File::Script)
    }
}

impl fmt::Display for File {
    ghost output = { λ file. Some (file_word file) };

    fn fmt<W: fmt::Write>(&self, f: &mut fmt::Formatter<W>) -> fmt::Result {
        f.write_str(self.as_str())
    }
}
