//! A place in a text, from which its parts are taken one after another.
ghost use Rattle.std.specs.{List.count_by, Prelude.{ℕ, ◌==◌, ◌≡◌, ◌≤◌, IfOk, length, take}};
ghost use Rattle.words.specs.{Fault.fault_at, Reading.Gives};
ghost use Rattle.xml.specs.{Characters.begins_with, Place.{after, after_spaces, expected_at, spaced_at, start_of}};

use crate::characters::{begins_with, space_length};
use std::marker::Model;
use words::{Fault, Wrong};

/// A place in a text, from which its parts are taken one after another.
#[derive(Drop)]
pub(crate) struct Cursor<'a> {
    rest: &'a [u8],
    line: u64,
}

impl<'a> Model for Cursor<'a> {
    ghost use Rattle.std.specs.Prelude.{◌+◌, ◌^◌, ◌≤◌, length};
    ghost use Rattle.xml.specs.Place.{Place};

    ghost Value = { Place };

    ghost view = { λ c. record { line = c.line; rest = c.rest.now } };

    ghost invariant = { λ c. c.line + length c.rest.now ≤ 2 ^ 63 };
}

impl<'a> Cursor<'a> {
    /// The place before a text.
    pub(crate) fn new(text: &'a [u8]) -> Cursor<'a>
        ensures { result ≡ start_of text.now }
    {
        Cursor {
            rest: text,
            line: 1,
        }
    }

    /// The bytes that are left.
    pub(crate) fn rest(&self) -> &'a [u8]
        ensures { result.now ≡ self.now.rest }
    {
        self.rest
    }

    /// The line of the place, counted from 1.
    pub(crate) fn line(&self) -> u64
        ensures { result ≡ self.now.line }
    {
        self.line
    }

    /// The fault at this place.
    pub(crate) fn fault(&self, wrong: Wrong) -> Fault
        ensures { result ≡ fault_at self.now.line wrong }
    {
        Fault::at(wrong, self.line)
    }

    /// Takes `count` bytes, each line feed of which ends a line.
    #[tactic(auto, unfolding(crate::specs::Place::after))]
    pub(crate) fn advance(&mut self, count: usize) -> &'a [u8]
        requires { count ≤ length self.old.rest }
        ensures place { self.new ≡ after count self.old }
        ensures taken { result.now ≡ take count self.old.rest }
    {
        let (taken, rest) = self.rest.split_at(count);
        self.line += line_feeds(taken);
        self.rest = rest;
        taken
    }

    /// Takes the white space that comes next, if any does.
    #[tactic(auto, unfolding(crate::specs::Place::after_spaces))]
    pub(crate) fn spaces(&mut self)
        ensures { self.new ≡ after_spaces self.old }
    {
        let count = space_length(self.rest);
        self.advance(count);
    }

    /// Takes the white space that must come next.
    #[tactic(auto, unfolding(crate::specs::Place::spaced_at))]
    pub(crate) fn must_space(&mut self) -> Result<(), Fault>
        ensures { Gives (λ _. self.new) result (spaced_at self.old) }
    {
        let fault = self.fault(Wrong::Syntax);
        let left = self.rest.len();
        self.spaces();
        if self.rest.len() == left {
            return Err(fault);
        }
        Ok(())
    }

    /// Whether these bytes come next.
    pub(crate) fn begins_with(&self, front: &[u8]) -> bool
        ensures { result ≡ begins_with self.now.rest front.now }
    {
        begins_with(self.rest, front)
    }

    /// Takes these bytes, which must come next.
    #[tactic(auto, unfolding(crate::specs::Place::expected_at))]
    pub(crate) fn expect(&mut self, front: &[u8]) -> Result<(), Fault>
        ensures { Gives (λ _. self.new) result (expected_at front.now self.old) }
    {
        if !self.begins_with(front) {
            return Err(self.fault(Wrong::Syntax));
        }
        self.advance(front.len());
        Ok(())
    }
}

fn line_feeds(bytes: &[u8]) -> u64
    ensures exact { result ≡ count_by (λ b. b == 10) bytes.now }
    ensures fits { result ≤ length bytes.now }
{
    bytes.iter().filter(|byte| **byte == b'\n').count() as u64
}
