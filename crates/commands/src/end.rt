//! Ends of commands: the exit status, and the line for standard error.
ghost use Rattle.std.specs.{Option.option_copied, Prelude.◌≡◌};
ghost use Rattle.commands.specs.Ends.{message_of, misuse_message, status_of, unlabelled_message, unread_message};

use reptext::File;

/// A label that a command asks about, as the command line names it.
#[derive(Clone, Copy, PartialEq, Eq)]
pub enum Asked {
    /// The label whose authority is asked for: `A`.
    Actor,
    /// The label on which it has that authority: `B`.
    Object,
}

impl Asked {
    /// The line that says that the table has no such label.
    fn unlabelled_message(self) -> &'static str
        ensures { result.now ≡ unlabelled_message self }
    {
        match self {
            Asked::Actor => "confine: A is no label of the table",
            Asked::Object => "confine: B is no label of the table",
        }
    }
}

/// Why a system isn't read as the command line has it.
#[derive(Clone, Copy, PartialEq, Eq)]
pub enum Misuse {
    /// It is a description, and `--rights` wasn't given.
    NoRights,
    /// It is no description, and `--rights` was given.
    NeedlessRights,
}

impl Misuse {
    /// The line that says so.
    fn message(self) -> &'static str
        ensures { result.now ≡ misuse_message self }
    {
        match self {
            Misuse::NoRights =>
                "confine: this is a system description: say --rights least (each capability has the rights that its line needs) or --rights all (all that Microkit's tool may give it)",
            Misuse::NeedlessRights =>
                "confine: this text is empty or doesn't begin with '<', so it isn't a system description: leave out --rights for a capability table",
        }
    }
}

// The line that says that a file couldn't be read.
fn unread_message(file: File) -> &'static str
    ensures { result.now ≡ unread_message file }
{
    match file {
        File::Table => "confine: cannot read table",
        File::Policy => "confine: cannot read policy",
        File::Certificate => "confine: cannot read certificate",
        File::Script => "confine: cannot read script",
        File::Log => "confine: cannot read log",
        File::Claims => "confine: cannot read claims",
        File::Description => "confine: cannot read description",
        File::New => "confine: cannot read new system",
    }
}

/// How an engine ends.
#[derive(Clone, Copy, PartialEq, Eq)]
pub enum End {
    /// The answer was written: 0 for a yes, 1 for a denial or a no, 2 for a fault of a text.
    Status(u8),
    /// Memory was refused, and nothing was written.
    NoMemory,
    /// The file couldn't be read, and nothing was written.
    CannotRead(File),
    /// The table has no label of the name that was asked for, and nothing was written.
    NoLabel(Asked),
    /// The system isn't one that `--rights` is for, or needs it, and nothing was written.
    Misused(Misuse),
    /// The answer couldn't be written, or only a beginning of it.
    CannotWrite,
}

impl End {
    /// Returns the exit status.
    pub fn status(self) -> u8
        ensures { result ≡ status_of self }
    {
        match self {
            End::Status(status) => status,
            End::NoMemory
            | End::CannotRead(_)
            | End::NoLabel(_)
            | End::Misused(_)
            | End::CannotWrite => 2,
        }
    }

    /// Returns the line for standard error, if there is one.
    pub fn message(self) -> Option<&'static str>
        ensures { option_copied result ≡ message_of self }
    {
        match self {
            End::Status(_) => None,
            End::NoMemory => Some("confine: no memory"),
            End::CannotRead(file) => Some(unread_message(file)),
            End::NoLabel(asked) => Some(asked.unlabelled_message()),
            End::Misused(misuse) => Some(misuse.message()),
            End::CannotWrite => Some("confine: cannot write"),
        }
    }
}
