//! The files of a command, by what they hold, of which a listener hears.
ghost use Rattle.std.specs.Prelude.{◌≡◌};
ghost use Rattle.machine.specs.Layout.{Layout};
ghost use Rattle.commands.specs.{Given.layout_of, Hearing.{Held, certificate, claims, compared, description, draft, held_of, log, policy, script}};
ghost use Rattle.commands.specs.Hearing as held;

use crate::later::{Entries, Script};
use crate::{Described, Given};
use captext::PolicyDraft;
use certificate::Certificate;
use claims::ClaimLines;
use machine::{Event, Outcome};
use policy::Policy;
use table::Table;

/// What the files of a command hold.
#[derive(Clone, Copy)]
pub enum Files<'a> {
    /// A description that is imported, with its table.
    Description(&'a Described),
    /// A system.
    System(&'a Given),
    /// Two systems that are compared: the old one, and the new one.
    Compared(&'a Given, &'a Given),
    /// A system and a policy.
    Policy(&'a Given, &'a Policy),
    /// A system and a policy that is to be mended.
    Draft(&'a Given, &'a PolicyDraft),
    /// A system and claims.
    Claims(&'a Given, &'a ClaimLines),
    /// A table, a policy and a certificate.
    Certificate(&'a Table, &'a Policy),
    /// A table, a policy, and the events of a script.
    Script(&'a Table, &'a Policy, &'a [Event]),
    /// A table, a policy, and the entries of a log.
    Log(&'a Table, &'a Policy, &'a [(Event, Outcome)]),
}

impl<'a> Files<'a> {
    /// Returns the table.
    pub fn table(self) -> &'a Table {
        match self {
            Files::Description(described) => &described.table,
            Files::System(given)
            | Files::Compared(_, given)
            | Files::Policy(given, _)
            | Files::Draft(given, _)
            | Files::Claims(given, _) => given.table(),
            Files::Certificate(table, _) | Files::Script(table, _, _) | Files::Log(table, _, _) =>
                table,
        }
    }
}

/// What was loaded.
pub trait Loaded: Drop {
    // Its table.
    ghost layout: { Self → Layout };

    // What a listener hears that the files hold.
    ghost held: { Self → Held };

    /// Its table.
    fn table(&self) -> &Table
        ensures { result.now ≡ layout self.now };

    /// What the files hold.
    fn files(&self) -> Files<'_>
        ensures { held_of result ≡ held self.now };
}
