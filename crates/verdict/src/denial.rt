//! Denials of systems: the rule that is broken, and where.
ghost use Rattle.std.specs.Prelude.{◌≡◌};
ghost use Rattle.verdict.specs.Verdict.{rule_number};

use base::{Kind, Label, ObjId, SlotRef};
use policy::Broken;
use sharp::SharpBroken;

/// The reason why a system is denied.
///
/// Denials are ordered by rule, and then by what they name, from left to right.
#[derive(Clone, Copy)]
pub enum Denial {
    /// P1 to P8: the policy isn't closed.
    Policy(Broken),
    /// S1 to S8: the policy isn't sharply closed.
    Sharp(SharpBroken),
    /// A1: the capability in a CNode's slot gives a kind of authority over an object of this label
    /// that the policy doesn't have.
    Capability {
        slot: SlotRef,
        kind: Kind,
        label: Label,
    },
    /// A2: a thread's root slot holds a CNode of this label, and the policy doesn't have the edge of
    /// kind space.
    Root {
        slot: SlotRef,
        label: Label,
    },
    /// A3: a capability is derived from another, and the policy doesn't have the edge of kind derive from
    /// the label of the parent's holder to that of the child's.
    Pair {
        child: SlotRef,
        parent: SlotRef,
    },
    /// A4: a thread is bound to a context, or lent it as it called, and the policy doesn't have the
    /// edge of kind runs.
    Binding {
        thread: ObjId,
        context: ObjId,
    },
    /// A5: a reply holds a thread, and the policy doesn't have the edge of kind holds. No table
    /// declares such a reply.
    Holding {
        reply: ObjId,
        thread: ObjId,
    },
    /// A6: a blocked thread keeps a kind of authority over an object of this label that the policy
    /// doesn't have. No table declares one.
    Recorded {
        thread: ObjId,
        kind: Kind,
        label: Label,
    },
    /// C1: a certificate isn't the table's, and this line, from 1 after the header, is the first that
    /// differs, is missing or is too many.
    Certificate {
        line: usize,
    },
}

impl Denial {
    ghost use Rattle.verdict.specs.Verdict.{rule_name};

    /// Returns the name of the rule that is broken.
    pub fn rule(&self) -> &'static str
        ensures { result.now ≡ rule_name self.now }
    {
        match self {
            Denial::Policy(broken) => broken.rule(),
            Denial::Sharp(broken) => broken.rule(),
            Denial::Capability { .. } => "A1",
            Denial::Root { .. } => "A2",
            Denial::Pair { .. } => "A3",
            Denial::Binding { .. } => "A4",
            Denial::Holding { .. } => "A5",
            Denial::Recorded { .. } => "A6",
            Denial::Certificate { .. } => "C1",
        }
    }
}

// The numbers of the rules of authority in places. P1 to P8 have the numbers 1 to 8, and so do S1
// to S8.
const A1: u64 = 9;

const A2: u64 = 10;

const A3: u64 = 11;

const A4: u64 = 12;

const A5: u64 = 13;

const A6: u64 = 14;

const LAST: u64 = 15;

/// The number of the rule of authority, A1 to A6, of a denial; the last number for any other
/// denial.
pub(crate) fn rule_number(denial: &Option<Denial>) -> u64
    ensures { result ≡ rule_number denial.now }
{
    match denial {
        Some(Denial::Capability { .. }) => A1,
        Some(Denial::Root { .. }) => A2,
        Some(Denial::Pair { .. }) => A3,
        Some(Denial::Binding { .. }) => A4,
        Some(Denial::Holding { .. }) => A5,
        Some(Denial::Recorded { .. }) => A6,
        Some(_) | None => LAST,
    }
}
