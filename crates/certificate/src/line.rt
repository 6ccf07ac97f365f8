//! Certificates and their lines.
ghost use Rattle.std.specs.Prelude.{[], ◌++◌, ◌∷◌, ◌≡◌, OnErr, OnOk};

use base::{Kinds, Label, ObjId, SlotRef};
use std::alloc::AllocError;
use std::marker::Model;

/// A line of a certificate: what a slot, a pair of the derivation tree or a binding gives, from
/// objects of the label `from` to those of the label `to`.
#[derive(Clone, Copy, PartialEq, Eq)]
pub enum Line {
    /// The capability in a slot of a CNode gives these kinds of authority, from the CNode's label to
    /// that of the capability's object.
    Cap {
        slot: SlotRef,
        from: Label,
        kinds: Kinds,
        to: Label,
    },
    /// A thread's root slot gives space, from the thread's label to that of the CNode in it.
    Space {
        slot: SlotRef,
        from: Label,
        to: Label,
    },
    /// A capability is derived from another, which gives derive from the label of the parent's holder
    /// to that of the child's.
    Derive {
        parent: SlotRef,
        child: SlotRef,
        from: Label,
        to: Label,
    },
    /// A thread is bound to a context, which gives runs from its label to that of the context.
    Runs {
        thread: ObjId,
        context: ObjId,
        from: Label,
        to: Label,
    },
}

/// A certificate for a capability table: the lines that say what the table gives.
#[derive(Drop)]
pub struct Certificate {
    lines: Vec<Line>,
}

impl Model for Certificate {
    ghost use Rattle.std.specs.Prelude.{List};
    ghost use Rattle.certificate.specs.declared.line.Line.{Line as LineOf};

    ghost Value = { List LineOf };

    ghost view = { λ certificate. certificate.lines.items };
}

impl Certificate {
    /// The certificate of these lines.
    pub(crate) fn of(lines: Vec<Line>) -> Certificate
        ensures { result ≡ lines.items }
    {
        Certificate { lines }
    }

    /// Returns the lines, as they were made or read.
    pub fn lines(&self) -> &[Line]
        ensures { result.now ≡ self.now }
    {
        self.lines.as_slice()
    }

    /// Adds a line.
    pub(crate) fn push(&mut self, line: Line) -> Result<(), AllocError>
        ensures ok { OnOk result (self.new ≡ self.old ++ line ∷ []) }
        ensures err { OnErr result (self.new ≡ self.old) }
    {
        self.lines.push(line)?;
        Ok(())
    }
}
