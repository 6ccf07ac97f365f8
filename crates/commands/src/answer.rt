//! Answers: what a command writes, with its exit status, and what a listener hears besides.
ghost use Rattle.std.specs.Prelude.{◌≡◌, IfOk};
ghost use Rattle.commands.specs.Commands.{Denies, TellsFinding, IsPlain};

use crate::Finding;
use machine::{Event, Log, Outcome};
use reptext::denial_text;
use std::alloc::{AllocError, Global};
use table::Table;
use verdict::Denial;

/// What is to be written, with the exit status; and what a listener is to hear of it besides.
#[derive(Drop)]
pub struct Answer {
    pub text: Vec<u8>,
    pub status: u8,
    /// What is found wrong, if anything is.
    pub finding: Option<Finding>,
    /// What the calls of a script came to, if any were made.
    pub made: Option<Made>,
    /// The script that was searched for, if it was found.
    pub script: Option<Vec<Event>>,
}

/// What the calls of a script came to.
#[derive(Drop)]
pub enum Made {
    /// The outcome of each, in the script's order.
    InTurn(Vec<Outcome>),
    /// Each with its outcome, in the order in which workers made them.
    ByWorkers(Log),
}

impl Answer {
    /// Returns an answer of a text and a status alone.
    pub fn plain(text: Vec<u8>, status: u8) -> Answer
        ensures text { result.text ≡ text }
        ensures plain { IsPlain text.items status result }
    {
        Answer {
            text,
            status,
            finding: None,
            made: None,
            script: None,
        }
    }

    /// Returns the answer to a finding: the text that says what is wrong, with status 1.
    pub fn found(text: Vec<u8>, finding: Finding) -> Answer
        ensures text { result.text ≡ text }
        ensures finds { TellsFinding text.items (λ told. told ≡ finding) result }
    {
        Answer {
            text,
            status: 1,
            finding: Some(finding),
            made: None,
            script: None,
        }
    }
}

/// Returns the answer to a denial: its report, with status 1.
pub fn denied(alloc: Global, table: &Table, denial: Denial) -> Result<Answer, AllocError>
    ensures { IfOk result (Denies table.now denial) }
{
    let text = denial_text(alloc, table, &denial)?;
    Ok(Answer::found(text, Finding::Denied(Box::new(alloc, denial)?)))
}
