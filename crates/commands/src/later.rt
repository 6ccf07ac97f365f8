//! The files that are read after the first: a policy, claims, a certificate, a script and a log.
ghost use Rattle.std.specs.Prelude.{ℕ, ◌≡◌, List, Option, Result};
ghost use Rattle.{base.specs.declared.edge.Edge.Edge, words.specs.{declared.faults.Fault.Fault, Reading.Reads}};
ghost use Rattle.{forms.specs.declared.file.File.{File, File as file}, machine.specs.Layout.Layout};
ghost use Rattle.{captext.specs.{Drafts.read_draft_of, Policies.read_policy_of}, evtext.specs.{Log.read_log_of, Script.read_script_of}};
ghost use Rattle.{certificate.specs.Reading.read_certificate_of, claims.specs.Reading.read_claims_of};
ghost use Rattle.commands.specs.{declared.given.Given.Given, Hearing.{Held, certificate, claims, draft, held_of, log, policy, script}};

use crate::{File, Files, Given};
use captext::{Fault, PolicyDraft};
use certificate::Certificate;
use claims::ClaimLines;
use evtext::{read_log, read_script};
use machine::{Event, Log};
use policy::Policy;
use std::alloc::Global;
use std::marker::Model;
use table::Table;

/// What a file holds that is read after the first, with the labels and objects of its table.
pub trait LaterFile: Drop {
    // The file's name, and how its text is read.
    ghost named: { File };

    ghost read_of: { Layout → List ℕ → Result Self Fault };

    /// The file's name.
    fn name() -> File
        ensures { result ≡ named };

    /// Reads its text; a fault that is `Fault::MEMORY` says that memory was refused.
    fn read(alloc: Global, table: &Table, bytes: &[u8]) -> Result<Self, Fault>
        ensures { Reads (λ held. held) result (read_of table.now bytes.now) };
}

/// What a file holds that is read after a system.
pub trait SecondFile: LaterFile {
    // What both hold.
    ghost held_with: { Given → Self → Held };

    /// What both hold.
    fn files<'a>(&'a self, given: &'a Given) -> Files<'a>
        ensures { held_of result ≡ held_with given.now self.now };
}

/// What a file holds that is read as a policy after a system.
pub trait PolicyFile: SecondFile {
    // Its edges.
    ghost edges_of: { Self → List Edge };

    /// The policy.
    fn policy(&self) -> &Policy
        ensures { result.now ≡ edges_of self.now };
}

/// What a file holds that is read after a table and a policy.
pub trait ThirdFile: LaterFile {
    // What the three hold.
    ghost held_after: { Layout → List Edge → Self → Held };

    /// What the three hold.
    fn files<'a>(&'a self, table: &'a Table, policy: &'a Policy) -> Files<'a>
        ensures { held_of result ≡ held_after table.now policy.now self.now };
}

impl LaterFile for Policy {
    ghost named = { file.Policy };

    ghost read_of = { read_policy_of };

    fn name() -> File {
        File::Policy
    }

    fn read(alloc: Global, table: &Table, bytes: &[u8]) -> Result<Policy, Fault> {
        captext::read_policy(alloc, bytes, table)
    }
}

impl SecondFile for Policy {
    ghost held_with = { policy };

    fn files<'a>(&'a self, given: &'a Given) -> Files<'a> {
        Files::Policy(given, self)
    }
}

impl PolicyFile for Policy {
    ghost edges_of = { λ edges. edges };

    fn policy(&self) -> &Policy {
        self
    }
}

impl LaterFile for PolicyDraft {
    ghost named = { file.Policy };

    ghost read_of = { read_draft_of };

    fn name() -> File {
        File::Policy
    }

    fn read(alloc: Global, table: &Table, bytes: &[u8]) -> Result<PolicyDraft, Fault> {
        captext::read_draft(alloc, bytes, table)
    }
}

impl SecondFile for PolicyDraft {
    ghost held_with = { draft };

    fn files<'a>(&'a self, given: &'a Given) -> Files<'a> {
        Files::Draft(given, self)
    }
}

impl PolicyFile for PolicyDraft {
    ghost edges_of = { λ draft. draft.edges };

    fn policy(&self) -> &Policy {
        PolicyDraft::policy(self)
    }
}

impl LaterFile for ClaimLines {
    ghost named = { file.Claims };

    ghost read_of = { read_claims_of };

    fn name() -> File {
        File::Claims
    }

    fn read(alloc: Global, table: &Table, bytes: &[u8]) -> Result<ClaimLines, Fault> {
        claims::read(alloc, bytes, table)
    }
}

impl SecondFile for ClaimLines {
    ghost held_with = { claims };

    fn files<'a>(&'a self, given: &'a Given) -> Files<'a> {
        Files::Claims(given, self)
    }
}

impl LaterFile for Certificate {
    ghost named = { file.Certificate };

    ghost read_of = { read_certificate_of };

    fn name() -> File {
        File::Certificate
    }

    fn read(alloc: Global, table: &Table, bytes: &[u8]) -> Result<Certificate, Fault> {
        certificate::read(alloc, bytes, table)
    }
}

impl ThirdFile for Certificate {
    ghost held_after = { λ table edges x. certificate table edges };

    fn files<'a>(&'a self, table: &'a Table, policy: &'a Policy) -> Files<'a> {
        Files::Certificate(table, policy)
    }
}

/// The events of a script, which are few enough for a log.
#[derive(Drop)]
pub struct Script {
    pub events: Vec<Event>,
}

impl Model for Script {
    ghost use Rattle.std.specs.Prelude.{◌≤◌, List, length};
    ghost use Rattle.base.specs.declared.limits.TheConstants.{MAX_EVENTS};
    ghost use Rattle.machine.specs.declared.call.Event.{Event as EventOf};

    ghost Value = { List EventOf };

    ghost view = { λ script. script.events.items };

    ghost invariant = { λ script. length script.events.items ≤ MAX_EVENTS };
}

impl LaterFile for Script {
    ghost named = { file.Script };

    ghost read_of = { λ table. read_script_of };

    fn name() -> File {
        File::Script
    }

    fn read(alloc: Global, _table: &Table, bytes: &[u8]) -> Result<Script, Fault> {
        match read_script(alloc, bytes) {
            Ok(events) => Ok(Script { events }),
            Err(fault) => Err(fault),
        }
    }
}

impl ThirdFile for Script {
    ghost held_after = { script };

    fn files<'a>(&'a self, table: &'a Table, policy: &'a Policy) -> Files<'a> {
        Files::Script(table, policy, &self.events)
    }
}

/// The entries of a log.
#[derive(Drop)]
pub struct Entries {
    pub entries: Log,
}

impl Model for Entries {
    ghost use Rattle.std.specs.Prelude.{List};
    ghost use Rattle.machine.specs.declared.call.{Event.Event as EventOf, Outcome.Outcome as OutcomeOf};

    ghost Value = { List (EventOf × OutcomeOf) };

    ghost view = { λ log. log.entries.items };
}

impl LaterFile for Entries {
    ghost named = { file.Log };

    ghost read_of = { λ table. read_log_of };

    fn name() -> File {
        File::Log
    }

    fn read(alloc: Global, _table: &Table, bytes: &[u8]) -> Result<Entries, Fault> {
        match read_log(alloc, bytes) {
            Ok(entries) => Ok(Entries { entries }),
            Err(fault) => Err(fault),
        }
    }
}

impl ThirdFile for Entries {
    ghost held_after = { log };

    fn files<'a>(&'a self, table: &'a Table, policy: &'a Policy) -> Files<'a> {
        Files::Log(table, policy, &self.entries)
    }
}
