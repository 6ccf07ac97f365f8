//! The plan of a retype, and the new objects and capabilities that it makes.
ghost use Rattle.std.specs.Prelude.{◌≡◌, Ok};
ghost use Rattle.machine.specs.{Memory.{new_cap, new_detail, new_object}, Step.Retype.sized};

use crate::filling::Window;
use crate::finding::Source;
use base::{ObjId, Rights};
use bitflags::Flags;
use machine::{
    Badged, CNode, Cap, Context, Detail, Endpoint, Frame, Guard, Inbox, MemoryKind, Notification,
    Object, Radix, Reply, ReplyState, RunState, Tcb, Untyped,
};

/// The plan of a call: how many objects of a kind it makes, from which place in memory, and for which slots.
#[derive(Clone, Copy)]
pub struct Making {
    pub source: Source,
    pub kind: MemoryKind,
    pub bits: u64,
    pub window: Window,
}

/// Returns a new object of the kind at an address.
pub fn new_object(kind: MemoryKind, bits: u64, address: u64) -> Object
    requires { sized kind bits ≡ Ok tt }
    ensures { result ≡ new_object kind bits address }
{
    match kind {
        MemoryKind::Untyped => Object::Untyped(Untyped {
            base: address,
            bits: bits as u8,
            watermark: address,
        }),
        MemoryKind::CNode => Object::CNode(CNode {
            address,
            radix: Radix::new(bits).unwrap(),
        }),
        MemoryKind::Tcb => Object::Tcb(Tcb {
            address,
            state: RunState::Inactive,
            inbox: Inbox::Empty,
            context: None,
        }),
        MemoryKind::Endpoint => Object::Endpoint(Endpoint { address }),
        MemoryKind::Notification => Object::Notification(Notification {
            address,
            pending: None,
        }),
        MemoryKind::Reply => Object::Reply(Reply {
            address,
            state: ReplyState::Free,
        }),
        MemoryKind::Context => Object::Context(Context {
            address,
            share: None,
            thread: None,
        }),
        MemoryKind::Frame => Object::Frame(Frame { address }),
    }
}

/// The detail of a new object's capability: all rights of its kind, no badge, and no guard.
fn new_detail(kind: MemoryKind) -> Detail
    ensures { result ≡ new_detail kind }
{
    match kind {
        MemoryKind::Untyped => Detail::Untyped,
        MemoryKind::CNode => Detail::CNode(Guard { size: 0, value: 0 }),
        MemoryKind::Tcb => Detail::Tcb,
        MemoryKind::Endpoint => Detail::Endpoint(Badged {
            rights: Rights::READ
                .union(Rights::WRITE)
                .union(Rights::GRANT)
                .union(Rights::GRANT_REPLY),
            badge: 0,
        }),
        MemoryKind::Notification => Detail::Notification(Badged {
            rights: Rights::READ.union(Rights::WRITE),
            badge: 0,
        }),
        MemoryKind::Reply => Detail::Reply,
        MemoryKind::Context => Detail::Context,
        MemoryKind::Frame => Detail::Frame(Rights::READ.union(Rights::WRITE)),
    }
}

/// Returns the capability of a new object of that number; it is original.
pub fn new_cap(number: u64, kind: MemoryKind) -> Cap
    ensures { result ≡ new_cap number kind }
{
    Cap {
        object: ObjId(number),
        detail: new_detail(kind),
        original: true,
    }
}
