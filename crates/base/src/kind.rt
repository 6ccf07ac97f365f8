//! The kinds of authority, their names, and sets of them.
ghost use Rattle.std.specs.{Int.RustNames.bit_and, Prelude.{[], ℕ, ⊤, ◌<◌, ◌==◌, ◌↔◌, ◌∷◌, ◌≡◌, Bool, List, None}};
ghost use Rattle.std.specs.Prelude.{Some, codes, length, slice_get};
ghost use Rattle.base.specs.{declared.kind.Kind.Kind as KindOf, Kinds.{is_among, is_structural, kind_name}};
ghost use Rattle.base.specs.Kinds.{kind_named, kind_number};

use bitflags::{Flag, Flags, bitflag_items};
use std::fmt;

/// A kind of authority, in the order of its numbers.
///
/// The first thirteen speak of what may be done to an object; the last four, which are structural,
/// say how objects hang together.
#[derive(Clone, Copy, PartialEq, Eq, PartialOrd, Ord, Hash)]
pub enum Kind {
    /// An untyped, a CNode or a TCB: everything may be done to it.
    Control,
    /// An endpoint, a notification or a frame may be deleted.
    Reset,
    /// Messages may be sent to an endpoint.
    Send,
    /// Messages may be received from an endpoint.
    Receive,
    /// Capabilities may be sent along with messages.
    Grant,
    /// An endpoint may be called, so that its receiver may reply.
    Call,
    /// A notification may be signalled.
    Notify,
    /// A notification may be waited for.
    Await,
    /// A frame may be read.
    Read,
    /// A frame may be written.
    Write,
    /// A reply object may be used.
    Reply,
    /// A scheduling context may be bound and configured.
    Context,
    /// Scheduling contexts may be configured for a core.
    SchedControl,
    /// A thread's capabilities are found in a CNode.
    Space,
    /// A capability's child in the derivation tree may be here.
    Derive,
    /// A thread runs on a scheduling context.
    Runs,
    /// A reply object holds a thread.
    Holds,
}

impl Kind {
    /// All kinds, in the order of their numbers.
    pub const ALL: [Kind; 17] = [
        Kind::Control,
        Kind::Reset,
        Kind::Send,
        Kind::Receive,
        Kind::Grant,
        Kind::Call,
        Kind::Notify,
        Kind::Await,
        Kind::Read,
        Kind::Write,
        Kind::Reply,
        Kind::Context,
        Kind::SchedControl,
        Kind::Space,
        Kind::Derive,
        Kind::Runs,
        Kind::Holds,
    ];

    /// Returns the number of the kind, from 0 to 16.
    pub fn number(self) -> u8
        ensures { result ≡ kind_number self }
    {
        self as u8
    }

    /// Returns whether the kind says how objects hang together, and not what may be done to them.
    pub fn is_structural(self) -> bool
        ensures { result ≡ is_structural self }
    {
        matches!(self, Kind::Space | Kind::Derive | Kind::Runs | Kind::Holds)
    }

    /// Returns the kind's name, as policies spell it.
    pub fn name(self) -> &'static str
        ensures { result.now ≡ kind_name self }
    {
        match self {
            Kind::Control => "control",
            Kind::Reset => "reset",
            Kind::Send => "send",
            Kind::Receive => "receive",
            Kind::Grant => "grant",
            Kind::Call => "call",
            Kind::Notify => "notify",
            Kind::Await => "await",
            Kind::Read => "read",
            Kind::Write => "write",
            Kind::Reply => "reply",
            Kind::Context => "context",
            Kind::SchedControl => "schedcontrol",
            Kind::Space => "space",
            Kind::Derive => "derive",
            Kind::Runs => "runs",
            Kind::Holds => "holds",
        }
    }

    /// Returns the kind of this name, if it is a kind's name.
    pub fn from_name(name: &[u8]) -> Option<Kind>
        ensures { result ≡ kind_named name.now }
    {
        for kind in &Kind::ALL {
            if kind.name().as_bytes() == name {
                return Some(*kind);
            }
        }
        None
    }
}

impl fmt::Display for Kind {
    ghost output = { λ kind. Some (kind_name kind) };

    fn fmt<W: fmt::Write>(&self, f: &mut fmt::Formatter<W>) -> fmt::Result {
        f.write_str(self.name())
    }
}

/// A set of kinds of authority: the bit at a kind's number says whether the kind is in it.
#[derive(Clone, Copy, PartialEq, Eq)]
pub struct Kinds(u32);

bitflag_items! {
    impl Kinds: u32 {
        const CONTROL = 1;
        const RESET = 2;
        const SEND = 4;
        const RECEIVE = 8;
        const GRANT = 16;
        const CALL = 32;
        const NOTIFY = 64;
        const AWAIT = 128;
        const READ = 256;
        const WRITE = 512;
        const REPLY = 1024;
        const CONTEXT = 2048;
        const SCHEDCONTROL = 4096;
        const SPACE = 8192;
        const DERIVE = 16384;
        const RUNS = 32768;
        const HOLDS = 65536;
    }
}

impl Flags for Kinds {
    type Bits = u32;

    ghost exact = { ⊤ };

    ghost table = { (codes "CONTROL", 1) ∷
        (codes "RESET", 2) ∷
        (codes "SEND", 4) ∷
        (codes "RECEIVE", 8) ∷
        (codes "GRANT", 16) ∷
        (codes "CALL", 32) ∷
        (codes "NOTIFY", 64) ∷
        (codes "AWAIT", 128) ∷
        (codes "READ", 256) ∷
        (codes "WRITE", 512) ∷
        (codes "REPLY", 1024) ∷
        (codes "CONTEXT", 2048) ∷
        (codes "SCHEDCONTROL", 4096) ∷
        (codes "SPACE", 8192) ∷
        (codes "DERIVE", 16384) ∷
        (codes "RUNS", 32768) ∷
        (codes "HOLDS", 65536) ∷
        [] };

    ghost set_of = { λ kinds. kinds.0 };

    fn flags<'a>() -> &'a [Flag<Kinds>] {
        Kinds::FLAGS
    }

    fn bits(&self) -> u32 {
        self.0
    }

    fn from_bits_retain(bits: u32) -> Kinds {
        Kinds(bits)
    }
}

impl Kinds {
    /// Returns whether the kind is in the set.
    pub fn has(self, kind: Kind) -> bool
        ensures { result ≡ is_among self.0 kind }
    {
        self.contains(Kinds::from(kind))
    }
}

impl From<Kind> for Kinds {
    ghost use Rattle.base.specs.Kinds.{kind_bit};

    ghost from_gives = { λ kind kinds. kinds.0 ≡ kind_bit kind };

    fn from(kind: Kind) -> Kinds {
        match kind {
            Kind::Control => Kinds::CONTROL,
            Kind::Reset => Kinds::RESET,
            Kind::Send => Kinds::SEND,
            Kind::Receive => Kinds::RECEIVE,
            Kind::Grant => Kinds::GRANT,
            Kind::Call => Kinds::CALL,
            Kind::Notify => Kinds::NOTIFY,
            Kind::Await => Kinds::AWAIT,
            Kind::Read => Kinds::READ,
            Kind::Write => Kinds::WRITE,
            Kind::Reply => Kinds::REPLY,
            Kind::Context => Kinds::CONTEXT,
            Kind::SchedControl => Kinds::SCHEDCONTROL,
            Kind::Space => Kinds::SPACE,
            Kind::Derive => Kinds::DERIVE,
            Kind::Runs => Kinds::RUNS,
            Kind::Holds => Kinds::HOLDS,
        }
    }
}

/// A law: a word names a kind exactly where it is that kind's name.
///
/// So different kinds have different names. They have different numbers too, all below 17, in the
/// order of [`Kind::ALL`].
pub fn kind_names_are_read_back()
    ensures named { (word : List ℕ) (kind : KindOf)
        → (kind_named word ≡ Some kind) ↔ (word ≡ kind_name kind) }
    ensures once { (one other : KindOf) → kind_name one ≡ kind_name other → one ≡ other }
    ensures number_once { (one other : KindOf) → kind_number one ≡ kind_number other → one ≡ other }
    ensures number_below { (kind : KindOf) → kind_number kind < 17 }
    ensures in_order { (kind : KindOf) → slice_get Kind.ALL (kind_number kind) ≡ Some kind }
    ensures all { length Kind.ALL ≡ 17 }
{}
