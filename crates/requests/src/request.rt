//! Requests: the commands of the program, with their options and files.
ghost use Rattle.std.specs.Prelude.{◌≡◌, option_copied};
ghost use Rattle.requests.specs.Requests.{file_name_of, file_of, label_of, names_of};

use commands::{Asked, File, Form, OfPolicy, OfSystem, OnAccept, OnImport, Rules, Taken};

/// A command line that was read.
#[derive(Clone, Copy)]
pub enum CommandLine<'a> {
    /// A command that waits for nothing.
    InTurn(Invocation<'a>),
    /// A run by workers, which wait for each other.
    Split(SplitRun<'a>),
}

/// A run of a script by a worker for each core, with the names of its files.
#[derive(Clone, Copy)]
pub struct SplitRun<'a> {
    pub table: &'a str,
    pub policy: &'a str,
    pub script: &'a str,
    pub manner: Manner,
}

impl<'a> SplitRun<'a> {
    /// Returns the same run as a command that waits for nothing.
    pub fn invocation(self) -> Invocation<'a>
        ensures { result.request ≡ names_of self.entry }
    {
        Invocation {
            request: Request::OfThree(
                OfThree::Run(Rules::Closed),
                self.table,
                self.policy,
                self.script,
            ),
            manner: self.manner,
        }
    }
}

/// A request, and the manner in which a person is told of findings.
#[derive(Clone, Copy)]
pub struct Invocation<'a> {
    pub request: Request<'a, &'a str>,
    pub manner: Manner,
}

/// The manner in which a person is told of findings.
#[derive(Clone, Copy)]
pub struct Manner {
    /// Whether `--explain` was given: standard error then has reasons, runs and notes too.
    pub explains: bool,
    /// Whether `--quiet` was given: standard error then lacks notes and sentences that weren't asked for.
    pub is_quiet: bool,
    pub format: Format,
    /// The number of seconds for which runs are searched that explain findings; 0 is no bound.
    pub seconds: u64,
}

/// The format of reports on standard output.
#[derive(Clone, Copy, PartialEq, Eq)]
pub enum Format {
    /// As a JSON object.
    Json,
    /// As one line for each finding.
    Short,
}

/// A command with its files: by their names, or as opening them gave them.
#[derive(Clone, Copy, Drop)]
pub enum Request<'a, N> {
    /// Imports a description.
    OfDescription(OnImport, N),
    /// A command on a system alone.
    OfSystem(OfSystem<'a>, Taken, N),
    /// A command on a system and a policy.
    OfPolicy(OfPolicy<'a>, Taken, N, N),
    /// Reports whether claims hold of a system.
    OfClaims(Taken, N, N),
    /// Reports what changes from one system to another, in this form.
    OfTwo(Form, Taken, N, N),
    /// Checks a table against a policy.
    Check(Check, N, N),
    /// A command on a table, a policy and a third file.
    OfThree(OfThree, N, N, N),
}

/// How a table is checked against a policy.
#[derive(Clone, Copy)]
pub struct Check {
    pub rules: Rules,
    /// The number of workers, 1 to 16.
    pub workers: usize,
    pub on_accept: OnAccept,
}

/// A command on a table, a policy and a third file.
#[derive(Clone, Copy)]
pub enum OfThree {
    /// Checks the table against the policy by these rules, and a certificate against both.
    Verify(Rules),
    /// Checks the table against the policy by these rules, and runs a script if the table is accepted.
    Run(Rules),
    /// Reports whether a log is a run from the table, and whether it ends within the policy.
    Replay,
}

impl<'a, N> Request<'a, N> {
    /// Returns the file of this kind, if the command has it. A system counts as a table and as a
    /// description, and a third file as one of each other kind.
    pub fn file(&self, file: File) -> Option<&N>
        ensures { option_copied result ≡ file_of self.now file }
    {
        match (self, file) {
            (Request::OfDescription(_, description), File::Description) => Some(description),
            (
                Request::OfSystem(_, _, system)
                | Request::OfPolicy(_, _, system, _)
                | Request::OfClaims(_, system, _)
                | Request::OfTwo(_, _, system, _),
                File::Table | File::Description,
            ) => Some(system),
            (Request::Check(_, table, _) | Request::OfThree(_, table, _, _), File::Table) => Some(
                table,
            ),
            (
                Request::OfPolicy(_, _, _, policy)
                | Request::Check(_, _, policy)
                | Request::OfThree(_, _, policy, _),
                File::Policy,
            ) => Some(policy),
            (Request::OfClaims(_, _, claims), File::Claims) => Some(claims),
            (Request::OfTwo(_, _, _, new), File::New) => Some(new),
            (Request::OfThree(_, _, _, third), _) => Some(third),
            _ => None,
        }
    }

    /// Returns the word for this label, or an empty word if the command asks about no label.
    pub fn word_of(&self, asked: Asked) -> &'a str
        ensures { result.now ≡ label_of self.now asked }
    {
        match (asked, self) {
            (
                Asked::Actor,
                Request::OfSystem(OfSystem::Why { actor, .. } | OfSystem::Show { actor, .. }, _, _)
                | Request::OfPolicy(OfPolicy::Why { actor, .. }, _, _, _),
            ) => actor,
            (Asked::Actor, Request::OfSystem(OfSystem::Flows { from, .. }, _, _)) => from,
            (Asked::Object, Request::OfSystem(OfSystem::Flows { to, .. }, _, _)) => to,
            (
                Asked::Object,
                Request::OfSystem(
                    OfSystem::Why { object, .. }
                    | OfSystem::Users { object, .. }
                    | OfSystem::Show { object, .. },
                    _,
                    _,
                )
                | Request::OfPolicy(OfPolicy::Why { object, .. }, _, _, _),
            ) => object,
            _ => "",
        }
    }
}

impl<'a> Request<'a, &'a str> {
    /// Returns the name of the file of this kind, or an empty name if the command has no such file.
    pub fn name_of(&self, file: File) -> &'a str
        ensures { result.now ≡ file_name_of self.now file }
    {
        match self.file(file) {
            Some(name) => name,
            None => "",
        }
    }
}
