//! The loading of a command's files, one after another, and why a command has no answer.
ghost use Rattle.std.specs.Prelude.{[], ◌∷◌, ◌≡◌, ◌≢◌, ◌⊎◌, Err, IfErr, IfOk, IfSome, None, Ok, Some, false, option_copied};
ghost use Rattle.{words.specs.Fault.no_memory, machine.specs.Layout.Layout, captext.specs.Tables.read_table_of};
ghost use Rattle.commands.specs.{declared.load.Stop.Stop, Commands.{HasPolicy, HasSystem, HasTable, input}};
ghost use Rattle.commands.specs.Files.{IsLoadedAs, IsDeviceStop, IsStopOf, contents_of, first_failed, held_by, is_unread, lacking_of};
ghost use Rattle.commands.specs.Files.{pair_contents, table_contents, three_contents, two_contents, unread_of, with_contents};
ghost use Rattle.commands.specs.{Given.layout_of, Hearing.{HearsFault, HearsStop, Held, compared, description, held_of, system}};
ghost use Rattle.forms.specs.declared.file.File.TheVariants as file;

use crate::given::{load_given, load_new};
use crate::later::{LaterFile, SecondFile, ThirdFile};
use crate::{
    Asked, Described, File, Files, Given, Listener, Loaded, Misuse, ReadError, Source, Taken,
};
use base::Refusal;
use captext::{Fault, read_table};
use policy::Policy;
use std::alloc::{AllocError, Global};
use table::Table;

/// Why a command has no answer.
#[derive(Clone, Copy, PartialEq, Eq)]
pub enum Stop {
    /// Memory was refused.
    NoMemory,
    /// The file couldn't be read.
    CannotRead(File),
    /// The text of the file has a fault.
    Faulty(File, Fault),
    /// The table has no label of the name that is asked about.
    NoLabel(Asked),
    /// The system isn't one that `--rights` is for, or needs it.
    Misused(Misuse),
}

impl From<AllocError> for Stop {
    ghost from_gives = { λ error stop. stop ≡ Stop.NoMemory };

    fn from(_error: AllocError) -> Stop {
        Stop::NoMemory
    }
}

/// Only refused memory stops what is asked of a table, a policy or a script that were read.
impl From<Refusal> for Stop {
    ghost from_gives = { λ refusal stop. stop ≡ Stop.NoMemory };

    fn from(_refusal: Refusal) -> Stop {
        Stop::NoMemory
    }
}

/// A system, and what a second file holds.
#[derive(Drop)]
pub struct With<X: Drop> {
    pub system: Given,
    pub second: X,
}

/// Two systems that are compared.
#[derive(Drop)]
pub struct Two {
    pub old: Given,
    pub new: Given,
}

/// A table and a policy.
#[derive(Drop)]
struct Pair {
    table: Table,
    policy: Policy,
}

/// A table, a policy, and what a third file holds.
#[derive(Drop)]
pub struct Three<X: Drop> {
    pub table: Table,
    pub policy: Policy,
    pub third: X,
}

impl Loaded for Described {
    ghost layout = { λ d. d.table };

    ghost held = { description };

    fn table(&self) -> &Table {
        &self.table
    }

    fn files(&self) -> Files<'_> {
        Files::Description(self)
    }
}

impl Loaded for Given {
    ghost layout = { layout_of };

    ghost held = { system };

    fn table(&self) -> &Table {
        Given::table(self)
    }

    fn files(&self) -> Files<'_> {
        Files::System(self)
    }
}

impl Loaded for Two {
    ghost layout = { λ two. layout_of two.new };

    ghost held = { λ two. compared two.old two.new };

    fn table(&self) -> &Table {
        self.new.table()
    }

    fn files(&self) -> Files<'_> {
        Files::Compared(&self.old, &self.new)
    }
}

impl<X: SecondFile> Loaded for With<X> {
    ghost layout = { λ w. layout_of w.system };

    ghost held = { λ w. X.held_with w.system w.second };

    fn table(&self) -> &Table {
        self.system.table()
    }

    fn files(&self) -> Files<'_> {
        self.second.files(&self.system)
    }
}

impl<X: ThirdFile> Loaded for Three<X> {
    ghost layout = { λ three. three.table };

    ghost held = { λ three. X.held_after three.table three.policy three.third };

    fn table(&self) -> &Table {
        &self.table
    }

    fn files(&self) -> Files<'_> {
        self.third.files(&self.table, &self.policy)
    }
}

/// The bytes of a file.
pub(crate) fn read_file<S: Source>(
    alloc: Global,
    file: File,
    source: &mut S,
) -> Result<Vec<u8>, Stop>
    requires { S.failed source.old ≡ false }
    ensures bytes { IfOk result (λ v. IfSome (S.remaining source.old) (λ bytes. v.items ≡ bytes)) }
    ensures stops { IfErr result (λ stop. IsDeviceStop file stop) }
    ensures device { S.failed source.new ≡ is_unread result }
{
    match source.read_whole(alloc) {
        Ok(bytes) => Ok(bytes),
        Err(ReadError::NoMemory) => Err(Stop::NoMemory),
        Err(ReadError::Failed) => Err(Stop::CannotRead(file)),
    }
}

/// A text's fault, of which the listener hears, or the want of memory that stands in its place.
pub(crate) fn stopped<L: Listener>(
    file: File,
    text: &[u8],
    table: Option<&Table>,
    fault: Fault,
    listener: &mut L,
) -> Stop
    ensures memory { fault ≡ no_memory → result ≡ Stop.NoMemory }
    ensures faulty { fault ≢ no_memory → result ≡ Stop.Faulty file fault }
    ensures heard { HearsStop L.Hears text.now (option_copied table.entry) result listener.old listener.new }
{
    if fault == Fault::MEMORY {
        Stop::NoMemory
    } else {
        listener.hear_fault(file, text, table, fault);
        Stop::Faulty(file, fault)
    }
}

/// Loads a table; its bytes are let go.
///
/// # Errors
///
/// [`Stop::CannotRead`] where the file can't be read, and [`Stop::NoMemory`] where memory is
/// refused. [`Stop::Faulty`] with the first fault of the text, 50 to 56, as [`read_table`] says.
/// The listener hears the fault with the text.
pub fn load_table<T: Source, L: Listener>(
    alloc: Global,
    table: &mut T,
    listener: &mut L,
) -> Result<Table, Stop>
    requires { T.failed table.old ≡ false }
    ensures loaded { IsLoadedAs (table_contents (T.remaining table.old)) result }
    ensures stops { IfErr result (λ stop. IsStopOf file.Table stop) }
    ensures unread { unread_of result ≡ first_failed ((file.Table, T.failed table.new) ∷ []) }
    ensures labels { lacking_of result ≡ None }
    ensures heard { HearsFault L.Hears (table_contents (T.remaining table.old)) result listener.old listener.new }
{
    let bytes = read_file(alloc, File::Table, table)?;
    table_of(alloc, &bytes, listener)
}

/// The table of a text.
fn table_of<L: Listener>(alloc: Global, text: &[u8], listener: &mut L) -> Result<Table, Stop>
    ensures loaded { IsLoadedAs (held_by file.Table None text.now (read_table_of text.now)) result }
    ensures stops { IfErr result (λ stop. IsStopOf file.Table stop) }
    ensures unread { unread_of result ≡ None }
    ensures labels { lacking_of result ≡ None }
    ensures heard { HearsFault L.Hears (held_by file.Table None text.now (read_table_of text.now)) result listener.old listener.new }
{
    match read_table(alloc, text) {
        Ok(table) => Ok(table),
        Err(fault) => Err(stopped(File::Table, text, None, fault, listener)),
    }
}

/// Loads what a later file holds; its bytes are let go.
fn load_later<X: LaterFile, S: Source, L: Listener>(
    alloc: Global,
    table: &Table,
    source: &mut S,
    listener: &mut L,
) -> Result<X, Stop>
    requires { S.failed source.old ≡ false }
    ensures loaded { IsLoadedAs (contents_of X.named (Some table.now) (S.remaining source.old) (X.read_of table.now)) result }
    ensures stops { IfErr result (λ stop. IsStopOf X.named stop) }
    ensures device { S.failed source.new ≡ is_unread result }
    ensures heard { HearsFault L.Hears (contents_of X.named (Some table.now) (S.remaining source.old) (X.read_of table.now)) result listener.old listener.new }
{
    let bytes = read_file(alloc, X::name(), source)?;
    match X::read(alloc, table, &bytes) {
        Ok(held) => Ok(held),
        Err(fault) => Err(stopped(X::name(), &bytes, Some(table), fault, listener)),
    }
}

/// Loads a system and a second file one after another, up to the first that stops it.
///
/// # Errors
///
/// Those of [`load_given`] for the system and likewise for the second file, with the first fault of its text. The
/// second file is read only if the system has no fault.
pub fn load_with<X: LaterFile, T: Source, S: Source, L: Listener>(
    alloc: Global,
    taken: Taken,
    system: &mut T,
    second: &mut S,
    listener: &mut L,
) -> Result<With<X>, Stop>
    requires system { T.failed system.old ≡ false }
    requires second { S.failed second.old ≡ false }
    ensures loaded { IsLoadedAs (with_contents taken X.named X.read_of (T.remaining system.old) (S.remaining second.old)) result }
    ensures second_waits { (second.new ≡ second.old) ⊎ HasSystem taken (input T.remaining T.failed system.old system.new) }
    ensures unread { unread_of result ≡ first_failed
        ((file.Table, T.failed system.new) ∷ (X.named, S.failed second.new) ∷ []) }
    ensures labels { lacking_of result ≡ None }
    ensures heard { HearsFault L.Hears (with_contents taken X.named X.read_of (T.remaining system.old) (S.remaining second.old)) result listener.old listener.new }
{
    let system = load_given(alloc, taken, system, listener)?;
    match load_later::<X, S, L>(alloc, system.table(), second, listener) {
        Ok(second) => Ok(With { system, second }),
        Err(stop) => {
            drop(system);
            Err(stop)
        }
    }
}

/// Loads two systems one after another, up to the first that stops it.
///
/// # Errors
///
/// Those of [`load_given`] for each. The new system is read only if the old one has no fault.
pub fn load_two<S: Source, T: Source, L: Listener>(
    alloc: Global,
    taken: Taken,
    old: &mut S,
    new: &mut T,
    listener: &mut L,
) -> Result<Two, Stop>
    requires old { S.failed old.old ≡ false }
    requires new { T.failed new.old ≡ false }
    ensures loaded { IsLoadedAs (two_contents taken (S.remaining old.old) (T.remaining new.old)) result }
    ensures new_waits { (new.new ≡ new.old) ⊎ HasSystem taken (input S.remaining S.failed old.old old.new) }
    ensures unread { unread_of result ≡ first_failed
        ((file.Table, S.failed old.new) ∷ (file.New, T.failed new.new) ∷ []) }
    ensures labels { lacking_of result ≡ None }
    ensures heard { HearsFault L.Hears (two_contents taken (S.remaining old.old) (T.remaining new.old)) result listener.old listener.new }
{
    let given = load_given(alloc, taken, old, listener)?;
    match load_new(alloc, taken, new, listener) {
        Ok(later) => Ok(Two {
            old: given,
            new: later,
        }),
        Err(stop) => {
            drop(given);
            Err(stop)
        }
    }
}

/// Loads a table and a policy one after another, up to the first that stops it.
fn load_pair<T: Source, P: Source, L: Listener>(
    alloc: Global,
    table: &mut T,
    policy: &mut P,
    listener: &mut L,
) -> Result<Pair, Stop>
    requires table { T.failed table.old ≡ false }
    requires policy { P.failed policy.old ≡ false }
    ensures loaded { IsLoadedAs (pair_contents (T.remaining table.old) (P.remaining policy.old)) result }
    ensures policy_waits { (policy.new ≡ policy.old) ⊎ HasTable (input T.remaining T.failed table.old table.new) }
    ensures unread { unread_of result ≡ first_failed
        ((file.Table, T.failed table.new) ∷ (file.Policy, P.failed policy.new) ∷ []) }
    ensures labels { lacking_of result ≡ None }
    ensures heard { HearsFault L.Hears (pair_contents (T.remaining table.old) (P.remaining policy.old)) result listener.old listener.new }
{
    let table = load_table(alloc, table, listener)?;
    match load_later::<Policy, P, L>(alloc, &table, policy, listener) {
        Ok(policy) => Ok(Pair { table, policy }),
        Err(stop) => {
            drop(table);
            Err(stop)
        }
    }
}

/// Loads a table, a policy and a third file one after another, up to the first that stops it.
///
/// # Errors
///
/// Those of [`load_table`] for the table and likewise for the policy, whose first fault is 50 or 51, as
/// [`read_policy`](captext::read_policy) says, and for the third file, with the first fault of its text. The third file
/// is read only if the table and the policy have no fault.
pub fn load_three<X: LaterFile, T: Source, P: Source, S: Source, L: Listener>(
    alloc: Global,
    table: &mut T,
    policy: &mut P,
    third: &mut S,
    listener: &mut L,
) -> Result<Three<X>, Stop>
    requires table { T.failed table.old ≡ false }
    requires policy { P.failed policy.old ≡ false }
    requires third { S.failed third.old ≡ false }
    ensures loaded { IsLoadedAs (three_contents X.named X.read_of (T.remaining table.old)
        (P.remaining policy.old) (S.remaining third.old)) result }
    ensures policy_waits { (policy.new ≡ policy.old) ⊎ HasTable (input T.remaining T.failed table.old table.new) }
    ensures third_waits { (third.new ≡ third.old)
        ⊎ HasPolicy (input T.remaining T.failed table.old table.new)
        (input P.remaining P.failed policy.old policy.new) }
    ensures unread { unread_of result ≡ first_failed ((file.Table, T.failed table.new)
        ∷ (file.Policy, P.failed policy.new) ∷ (X.named, S.failed third.new) ∷ []) }
    ensures labels { lacking_of result ≡ None }
    ensures heard { HearsFault L.Hears (three_contents X.named X.read_of (T.remaining table.old)
        (P.remaining policy.old) (S.remaining third.old)) result listener.old listener.new }
{
    let Pair { table, policy } = load_pair(alloc, table, policy, listener)?;
    match load_later::<X, S, L>(alloc, &table, third, listener) {
        Ok(third) => Ok(Three {
            table,
            policy,
            third,
        }),
        Err(stop) => {
            drop(policy);
            drop(table);
            Err(stop)
        }
    }
}
