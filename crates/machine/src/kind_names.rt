//! The names of the kinds of objects.
ghost use Rattle.std.specs.Prelude.{◌≡◌, IfSome, Some};
ghost use Rattle.machine.specs.{declared.object.MemoryKind.MemoryKind as Kind, KindWords.memory_kind_in};
ghost use Rattle.machine.specs.KindWords.{memory_kind_of, memory_kind_word, object_kind_of, object_kind_word};

use crate::{MemoryKind, ObjectKind};
use std::fmt;

impl ObjectKind {
    /// Returns the kind's name, as tables and scripts spell it.
    pub fn name(self) -> &'static str
        ensures { result.now ≡ object_kind_word self }
    {
        match self {
            ObjectKind::Untyped => "untyped",
            ObjectKind::CNode => "cnode",
            ObjectKind::Tcb => "tcb",
            ObjectKind::Endpoint => "endpoint",
            ObjectKind::Notification => "notification",
            ObjectKind::Reply => "reply",
            ObjectKind::Context => "context",
            ObjectKind::Frame => "frame",
            ObjectKind::Control => "control",
        }
    }

    /// Returns the kind of this name, if it is one.
    #[tactic(auto, unfolding(crate::specs::KindWords::object_kind_of))]
    pub fn from_name(name: &[u8]) -> Option<ObjectKind>
        ensures kind { result ≡ object_kind_of name.now }
        ensures named { IfSome result (λ kind. name.now ≡ object_kind_word kind) }
    {
        if name == b"untyped".as_slice() {
            Some(ObjectKind::Untyped)
        } else if name == b"cnode".as_slice() {
            Some(ObjectKind::CNode)
        } else if name == b"tcb".as_slice() {
            Some(ObjectKind::Tcb)
        } else if name == b"endpoint".as_slice() {
            Some(ObjectKind::Endpoint)
        } else if name == b"notification".as_slice() {
            Some(ObjectKind::Notification)
        } else if name == b"reply".as_slice() {
            Some(ObjectKind::Reply)
        } else if name == b"context".as_slice() {
            Some(ObjectKind::Context)
        } else if name == b"frame".as_slice() {
            Some(ObjectKind::Frame)
        } else if name == b"control".as_slice() {
            Some(ObjectKind::Control)
        } else {
            None
        }
    }
}

impl MemoryKind {
    /// Returns the kind's name, as scripts spell it.
    pub fn name(self) -> &'static str
        ensures { result.now ≡ memory_kind_word self }
    {
        match self {
            MemoryKind::Untyped => "untyped",
            MemoryKind::CNode => "cnode",
            MemoryKind::Tcb => "tcb",
            MemoryKind::Endpoint => "endpoint",
            MemoryKind::Notification => "notification",
            MemoryKind::Reply => "reply",
            MemoryKind::Context => "context",
            MemoryKind::Frame => "frame",
        }
    }

    /// Returns objects of that kind, if they can be made: controls can't.
    fn of(kind: ObjectKind) -> Option<MemoryKind>
        ensures { result ≡ memory_kind_in (Some kind) }
    {
        match kind {
            ObjectKind::Untyped => Some(MemoryKind::Untyped),
            ObjectKind::CNode => Some(MemoryKind::CNode),
            ObjectKind::Tcb => Some(MemoryKind::Tcb),
            ObjectKind::Endpoint => Some(MemoryKind::Endpoint),
            ObjectKind::Notification => Some(MemoryKind::Notification),
            ObjectKind::Reply => Some(MemoryKind::Reply),
            ObjectKind::Context => Some(MemoryKind::Context),
            ObjectKind::Frame => Some(MemoryKind::Frame),
            ObjectKind::Control => None,
        }
    }

    /// Returns the kind of this name, if it is one.
    ///
    /// Controls aren't made, and have no kind here.
    #[tactic(auto, using(crate::proofs::KindWords::memory_again), unfolding(crate::specs::KindWords::memory_kind_of))]
    pub fn from_name(name: &[u8]) -> Option<MemoryKind>
        ensures kind { result ≡ memory_kind_of name.now }
        ensures named { IfSome result (λ kind. name.now ≡ memory_kind_word kind) }
        ensures all { (kind : Kind) → memory_kind_of (memory_kind_word kind) ≡ Some kind }
    {
        match ObjectKind::from_name(name) {
            Some(kind) => MemoryKind::of(kind),
            None => None,
        }
    }
}

impl fmt::Display for MemoryKind {
    ghost output = { λ kind. Some (memory_kind_word kind) };

    fn fmt<W: fmt::Write>(&self, f: &mut fmt::Formatter<W>) -> fmt::Result {
        f.write_str(self.name())
    }
}
