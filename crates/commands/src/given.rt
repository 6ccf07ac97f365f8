//! Systems as they are given: a capability table, or a system description with the table that it becomes.
ghost use Rattle.std.specs.Prelude.{[], ◌∷◌, ◌≡◌, IfErr, None, false};
ghost use Rattle.{words.specs.Reading.Reads, xml.specs.Characters.is_space};
ghost use Rattle.commands.specs.Files.{IsLoadedAs, IsStopOf, IsSystemStop, as_description, as_either, as_system, as_table, described_contents};
ghost use Rattle.commands.specs.Files.{described_of, first_failed, given_contents, lacking_of, named_contents, new_contents, unread_of};
ghost use Rattle.commands.specs.{Given.{first_visible, is_description, is_tag, layout_of}, Hearing.HearsFault};
ghost use Rattle.forms.specs.declared.file.File.TheVariants as file;

use crate::load::{read_file, stopped};
use crate::{File, Listener, Misuse, Source, Stop, Taken};
use captext::{Fault, read_table};
use importing::{Minting, table_of};
use microkit::{Description, read_description};
use std::alloc::Global;
use std::marker::Model;
use table::Table;

/// A system description, and the table that it becomes.
#[derive(Drop)]
pub struct Described {
    pub description: Description,
    pub table: Table,
}

impl Model for Described {
    ghost use Rattle.microkit.specs.View.{description_of};
    ghost use Rattle.commands.specs.Described.{Described as DescribedOf};

    ghost Value = { DescribedOf };

    ghost view = { λ d. record { description = description_of d.description; table = d.table } };
}

/// A system as it is given.
#[derive(Drop)]
pub enum Given {
    /// As a capability table.
    Table(Table),
    /// As a description.
    Description(Described),
}

impl Given {
    /// Returns the table of the system.
    pub fn table(&self) -> &Table
        ensures { result.now ≡ layout_of self.now }
    {
        match self {
            Given::Table(table) => table,
            Given::Description(described) => &described.table,
        }
    }

    /// Returns the description of which the table was made, if one was given.
    pub fn description(&self) -> Option<&Description> {
        match self {
            Given::Table(_) => None,
            Given::Description(described) => Some(&described.description),
        }
    }
}

/// Loads a system description with the table that it becomes; the bytes of the file are let go.
///
/// # Errors
///
/// [`Stop::CannotRead`] where the file can't be read, and [`Stop::NoMemory`] where memory is refused.
/// [`Stop::Faulty`] with the first fault of the text (50, 51, 52, 54 or 55, as [`read_description`] says) or,
/// if it has none, of the table that it would become (54, as [`table_of`] says). The listener hears the fault
/// with the text.
pub fn load_description<S: Source, L: Listener>(
    alloc: Global,
    minting: Minting,
    source: &mut S,
    listener: &mut L,
) -> Result<Described, Stop>
    requires { S.failed source.old ≡ false }
    ensures loaded { IsLoadedAs (described_contents minting (S.remaining source.old)) result }
    ensures stops { IfErr result (λ stop. IsStopOf file.Description stop) }
    ensures unread { unread_of result ≡ first_failed ((file.Description, S.failed source.new) ∷ []) }
    ensures labels { lacking_of result ≡ None }
    ensures heard { HearsFault L.Hears (described_contents minting (S.remaining source.old)) result listener.old listener.new }
{
    let bytes = read_file(alloc, File::Description, source)?;
    match described_of(alloc, minting, &bytes) {
        Ok(held) => Ok(held),
        Err(fault) => Err(stopped(File::Description, &bytes, None, fault, listener)),
    }
}

/// What reports call a file that is a system: as a table, and as a description.
#[derive(Clone, Copy)]
struct Called {
    table: File,
    description: File,
}

/// Loads a system; the bytes of the file are let go.
///
/// # Errors
///
/// [`Stop::CannotRead`] with the table where the file can't be read, and [`Stop::NoMemory`] where memory is
/// refused. [`Stop::Misused`] where a description is given without rights, or a table with some.
/// [`Stop::Faulty`] with the first fault of the text, as [`load_table`](crate::load_table) and
/// [`load_description`] say. The listener hears the fault with the text.
pub fn load_given<S: Source, L: Listener>(
    alloc: Global,
    taken: Taken,
    source: &mut S,
    listener: &mut L,
) -> Result<Given, Stop>
    requires { S.failed source.old ≡ false }
    ensures loaded { IsLoadedAs (given_contents taken (S.remaining source.old)) result }
    ensures stops { IfErr result (IsSystemStop file.Table file.Description) }
    ensures unread { unread_of result ≡ first_failed ((file.Table, S.failed source.new) ∷ []) }
    ensures labels { lacking_of result ≡ None }
    ensures heard { HearsFault L.Hears (given_contents taken (S.remaining source.old)) result listener.old listener.new }
{
    let called = Called {
        table: File::Table,
        description: File::Description,
    };
    load_called(alloc, called, taken, source, listener)
}

/// Loads the second system of a comparison; the bytes of the file are let go.
///
/// # Errors
///
/// Those of [`load_given`], with the name of this file.
pub(crate) fn load_new<S: Source, L: Listener>(
    alloc: Global,
    taken: Taken,
    source: &mut S,
    listener: &mut L,
) -> Result<Given, Stop>
    requires { S.failed source.old ≡ false }
    ensures loaded { IsLoadedAs (new_contents taken (S.remaining source.old)) result }
    ensures stops { IfErr result (IsSystemStop file.New file.New) }
    ensures unread { unread_of result ≡ first_failed ((file.New, S.failed source.new) ∷ []) }
    ensures labels { lacking_of result ≡ None }
    ensures heard { HearsFault L.Hears (new_contents taken (S.remaining source.old)) result listener.old listener.new }
{
    let called = Called {
        table: File::New,
        description: File::New,
    };
    load_called(alloc, called, taken, source, listener)
}

/// Loads a system that reports call so.
fn load_called<S: Source, L: Listener>(
    alloc: Global,
    called: Called,
    taken: Taken,
    source: &mut S,
    listener: &mut L,
) -> Result<Given, Stop>
    requires { S.failed source.old ≡ false }
    ensures loaded { IsLoadedAs (named_contents called.table called.description taken (S.remaining source.old)) result }
    ensures stops { IfErr result (IsSystemStop called.table called.description) }
    ensures unread { unread_of result ≡ first_failed ((called.table, S.failed source.new) ∷ []) }
    ensures labels { lacking_of result ≡ None }
    ensures heard { HearsFault L.Hears (named_contents called.table called.description taken (S.remaining source.old)) result
        listener.old listener.new }
{
    let bytes = read_file(alloc, called.table, source)?;
    match taken {
        Taken::Table => as_table(alloc, called, &bytes, listener),
        Taken::System(rights) => as_system(alloc, called, rights, &bytes, listener),
        Taken::Either(rights) => as_either(alloc, called, rights, &bytes, listener),
    }
}

/// The system of a text, by whether it is one of a description, and whether rights are given.
fn as_system<L: Listener>(
    alloc: Global,
    called: Called,
    rights: Option<Minting>,
    text: &[u8],
    listener: &mut L,
) -> Result<Given, Stop>
    ensures loaded { IsLoadedAs (as_system called.table called.description rights (is_description text.now) text.now) result }
    ensures stops { IfErr result (IsSystemStop called.table called.description) }
    ensures unread { unread_of result ≡ None }
    ensures labels { lacking_of result ≡ None }
    ensures heard { HearsFault L.Hears (as_system called.table called.description rights (is_description text.now) text.now) result
        listener.old listener.new }
{
    match (rights, is_description(text)) {
        (None, true) => Err(Stop::Misused(Misuse::NoRights)),
        (Some(minting), true) => as_description(alloc, called, minting, text, listener),
        (None, false) => as_table(alloc, called, text, listener),
        (Some(_), false) => Err(Stop::Misused(Misuse::NeedlessRights)),
    }
}

/// The system of a text of one of two systems, of which rights are for descriptions alone.
fn as_either<L: Listener>(
    alloc: Global,
    called: Called,
    rights: Option<Minting>,
    text: &[u8],
    listener: &mut L,
) -> Result<Given, Stop>
    ensures loaded { IsLoadedAs (as_either called.table called.description rights (is_description text.now) text.now) result }
    ensures stops { IfErr result (IsSystemStop called.table called.description) }
    ensures unread { unread_of result ≡ None }
    ensures labels { lacking_of result ≡ None }
    ensures heard { HearsFault L.Hears (as_either called.table called.description rights (is_description text.now) text.now) result
        listener.old listener.new }
{
    match (rights, is_description(text)) {
        (None, true) => Err(Stop::Misused(Misuse::NoRights)),
        (Some(minting), true) => as_description(alloc, called, minting, text, listener),
        (_, false) => as_table(alloc, called, text, listener),
    }
}

/// The system of a text that is one of a table.
fn as_table<L: Listener>(
    alloc: Global,
    called: Called,
    text: &[u8],
    listener: &mut L,
) -> Result<Given, Stop>
    ensures loaded { IsLoadedAs (as_table called.table called.description text.now) result }
    ensures stops { IfErr result (IsSystemStop called.table called.description) }
    ensures unread { unread_of result ≡ None }
    ensures labels { lacking_of result ≡ None }
    ensures heard { HearsFault L.Hears (as_table called.table called.description text.now) result listener.old listener.new }
{
    match read_table(alloc, text) {
        Ok(table) => Ok(Given::Table(table)),
        Err(fault) => Err(stopped(called.table, text, None, fault, listener)),
    }
}

/// The system of a text that is one of a description.
fn as_description<L: Listener>(
    alloc: Global,
    called: Called,
    minting: Minting,
    text: &[u8],
    listener: &mut L,
) -> Result<Given, Stop>
    ensures loaded { IsLoadedAs (as_description called.table called.description minting text.now) result }
    ensures stops { IfErr result (IsSystemStop called.table called.description) }
    ensures unread { unread_of result ≡ None }
    ensures labels { lacking_of result ≡ None }
    ensures heard { HearsFault L.Hears (as_description called.table called.description minting text.now) result
        listener.old listener.new }
{
    match described_of(alloc, minting, text) {
        Ok(described) => Ok(Given::Description(described)),
        Err(fault) => Err(stopped(called.description, text, None, fault, listener)),
    }
}

/// Whether a text is one of a description: its first byte that isn't white space is `<`.
fn is_description(text: &[u8]) -> bool
    ensures { result ≡ is_description text.now }
{
    match first_visible(text) {
        Some(place) => is_tag(text.get(place).copied()),
        None => false,
    }
}

/// The place of the first byte that isn't white space.
fn first_visible(text: &[u8]) -> Option<usize>
    ensures { result ≡ first_visible text.now }
{
    text.iter().position(|byte| !is_space(*byte))
}

fn is_space(byte: u8) -> bool
    ensures { result ≡ is_space byte }
{
    byte == b' ' || byte == b'\t' || byte == b'\n' || byte == b'\r'
}

fn is_tag(byte: Option<u8>) -> bool
    ensures { result ≡ is_tag byte }
{
    match byte {
        Some(byte) => byte == b'<',
        None => false,
    }
}

/// The description that a text is, with its table; or the first fault.
#[tactic(auto, unfolding(crate::specs::Files::described_of, words::specs::Reading::bind))]
fn described_of(alloc: Global, minting: Minting, text: &[u8]) -> Result<Described, Fault>
    ensures { Reads (λ held. held) result (described_of minting text.now) }
{
    let description = read_description(alloc, text)?;
    match table_of(alloc, &description, minting) {
        Ok(table) => Ok(Described { description, table }),
        Err(fault) => {
            drop(description);
            Err(fault)
        }
    }
}
