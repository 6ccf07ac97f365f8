//! The sentences on a table in place of a description, and on a description in place of a table.
use explain_denials::Pasted;
use report::File;
use requests::{OfThree, Request};
use std::fmt;

/// A text that another command reads.
#[derive(Clone, Copy)]
pub(crate) enum Swapped<'a> {
    /// A table that is imported, in the file of this name.
    Table(&'a str),
    /// A description that this command reads as a table, in the file of this name.
    Description(&'a str, &'static str),
}

impl<'a> Swapped<'a> {
    /// Returns the kind of a file's text, if it is a table in place of a description, or the other way round.
    pub(crate) fn of(
        request: &Request<'a, &'a str>,
        file: File,
        text: &[u8],
    ) -> Option<Swapped<'a>> {
        let name = request.name_of(file);
        match file {
            File::Description if is_table(text) => Some(Swapped::Table(name)),
            File::Table if is_description(text) => {
                Some(Swapped::Description(name, table_command(request)?))
            }
            _ => None,
        }
    }
}

impl fmt::Display for Swapped<'_> {
    fn fmt<W: fmt::Write>(&self, f: &mut fmt::Formatter<W>) -> fmt::Result {
        match *self {
            Swapped::Table(name) => {
                let name = Pasted(name);
                write!(
                    f,
                    "this is a capability table already: all other commands take it as it is, as in `confine summary \
                     {name}`"
                )
            }
            Swapped::Description(name, command) => {
                let name = Pasted(name);
                write!(
                    f,
                    "`{command}` takes a capability table: make one by `confine import {name} --rights all > my.table`"
                )
            }
        }
    }
}

/// The name of a command that takes a table, but no description.
fn table_command(request: &Request<'_, &str>) -> Option<&'static str> {
    match *request {
        Request::Check(_, _, _) => Some("check"),
        Request::OfThree(OfThree::Verify(_), _, _, _) => Some("verify"),
        Request::OfThree(OfThree::Run(_), _, _, _) => Some("run"),
        Request::OfThree(OfThree::Replay, _, _, _) => Some("replay"),
        _ => None,
    }
}

/// Whether a text begins like a table.
fn is_table(text: &[u8]) -> bool {
    text.starts_with(b"confine-table ")
}

/// Returns whether a text is one of a description: its first byte that isn't white space is `<`.
pub(crate) fn is_description(text: &[u8]) -> bool {
    for byte in text {
        match *byte {
            b' ' | b'\t' | b'\n' | b'\r' => {}
            first => return first == b'<',
        }
    }
    false
}
