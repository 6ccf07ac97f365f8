//! The lines of a text of claims.
ghost use Rattle.std.specs.{List.list_any, Prelude.{[], ◌++◌, ◌∷◌, ◌≡◌, OnErr, OnOk, option_copied}};
ghost use Rattle.claims.specs.{Lines.claim_at, Reading.says};

use crate::claim::Claim;
use std::alloc::{AllocError, Global};
use std::marker::Model;

/// What the lines of a text of claims say, from its second line on: a claim, or nothing where the line is
/// empty or a comment.
#[derive(Drop)]
pub struct ClaimLines {
    lines: Vec<Option<Claim>>,
}

impl Model for ClaimLines {
    ghost use Rattle.std.specs.Prelude.{List, Option};
    ghost use Rattle.claims.specs.declared.claim.Claim.{Claim as ClaimOf};

    ghost Value = { List (Option ClaimOf) };

    ghost view = { λ lines. lines.lines.items };
}

impl ClaimLines {
    /// The number of the first of these lines in its text, whose header has number 1.
    pub const FIRST: usize = 2;

    /// Returns no lines.
    pub fn new(alloc: Global) -> ClaimLines
        ensures { result ≡ [] }
    {
        ClaimLines {
            lines: Vec::new(alloc),
        }
    }

    /// Returns what the lines say, in their order.
    pub fn as_slice(&self) -> &[Option<Claim>]
        ensures { result.now ≡ self.now }
    {
        self.lines.as_slice()
    }

    /// Returns the claim of the line of this number, if the text has such a line and the line says one.
    pub fn claim_at(&self, line: usize) -> Option<&Claim>
        ensures { option_copied result ≡ claim_at self.now line }
    {
        if line < ClaimLines::FIRST {
            return None;
        }
        match self.lines.get(line - ClaimLines::FIRST) {
            Some(Some(claim)) => Some(claim),
            _ => None,
        }
    }

    /// Adds a line behind the others.
    ///
    /// # Errors
    ///
    /// [`AllocError`] where memory is refused. Then nothing has changed.
    pub fn push(&mut self, line: Option<Claim>) -> Result<(), AllocError>
        ensures ok { OnOk result (self.new ≡ self.old ++ line ∷ []) }
        ensures err { OnErr result (self.new ≡ self.old) }
    {
        self.lines.push(line)?;
        Ok(())
    }

    /// Returns whether one of the lines says this claim.
    pub fn say(&self, claim: &Claim) -> bool
        ensures { result ≡ list_any (says claim.now) self.now }
    {
        self.lines.iter().any(|line| is_said(line, claim))
    }
}

/// Whether a line says this claim.
fn is_said(line: &Option<Claim>, claim: &Claim) -> bool
    ensures { result ≡ says claim.now line.now }
{
    match line {
        None => false,
        Some(other) => other.is(claim),
    }
}
