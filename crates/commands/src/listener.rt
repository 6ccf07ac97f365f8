//! Listeners, who hear what a command finds, to say it to a person.
ghost use Rattle.std.specs.Prelude.{Option, option_copied};
ghost use Rattle.commands.specs.Hearing.{Hearing, answered, faulty, held_of, unlabelled};

use crate::{Answer, Asked, File, Files};
use captext::Fault;
use claims::Broken;
use table::Table;
use verdict::Denial;

/// What is found wrong with a system or a log.
#[derive(Drop)]
pub enum Finding {
    /// A table and a policy, or a certificate, are denied.
    Denied(Box<Denial>),
    /// The last state of a legal log lies outside the policy.
    Outside(Box<Denial>),
    /// A log isn't legal: the entry, from 1, that is no step.
    Illegal(usize),
    /// Claims don't hold.
    Broken(Vec<Broken>),
}

/// Hears what a command finds, to tell a person of it. What is answered doesn't depend on it.
pub trait Listener {
    // What it hears, and what it is before and after that. No caller knows it but by these calls:
    // so a promise of it is a call.
    ghost Hears: { Self → Hearing → Self → Type 0 } = { λ before hearing after. Unit {0} };

    /// The text of a file has this fault; `table` is what it was read by, if the table is another file.
    /// It isn't told of a fault that is want of memory.
    fn hear_fault(&mut self, file: File, text: &[u8], table: Option<&Table>, fault: Fault)
        ensures { Hears self.old (faulty file text.now (option_copied table.entry) fault) self.new };

    /// What the files hold was judged, and this is the answer.
    fn hear_answer(&mut self, files: Files<'_>, answer: &Answer)
        ensures { Hears self.old (answered (held_of files.entry) answer.now) self.new };

    /// The table lacks a label that is asked about.
    fn hear_unlabelled(&mut self, table: &Table, asked: Asked)
        ensures { Hears self.old (unlabelled table.now asked) self.new };
}

/// Nobody listens.
#[derive(Clone, Copy)]
pub struct Silence;

impl Listener for Silence {
    fn hear_fault(&mut self, _file: File, _text: &[u8], _table: Option<&Table>, _fault: Fault) {}

    fn hear_answer(&mut self, _files: Files<'_>, _answer: &Answer) {}

    fn hear_unlabelled(&mut self, _table: &Table, _asked: Asked) {}
}
