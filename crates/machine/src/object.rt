//! The kinds of objects, and the content of an object of each kind.
ghost use Rattle.std.specs.Prelude.{◌^◌, ◌≡◌, ◌≤◌};
ghost use Rattle.base.specs.declared.limits.TheConstants.{MAX_RADIX};
ghost use Rattle.machine.specs.Objects.{address_of, kind_of_object, slot_count, thread_count, word_count};

use crate::{Radix, Tcb};
use base::{CoreNo, ObjId};

/// The nine kinds of object (seL4 manual, "Kernel Objects").
#[derive(Clone, Copy, PartialEq, Eq, PartialOrd, Ord)]
pub enum ObjectKind {
    Untyped,
    CNode,
    Tcb,
    Endpoint,
    Notification,
    Reply,
    Context,
    Frame,
    Control,
}

/// The kinds of object that are made from untyped memory: all but controls.
#[derive(Clone, Copy, PartialEq, Eq)]
pub enum MemoryKind {
    Untyped,
    CNode,
    Tcb,
    Endpoint,
    Notification,
    Reply,
    Context,
    Frame,
}

/// A piece of memory from which objects can be made.
///
/// It is `2^bits` bytes from `base` on, of which those below `watermark` are in use.
#[derive(Clone, Copy, PartialEq, Eq)]
pub struct Untyped {
    pub base: u64,
    /// 4 to 47.
    pub bits: u8,
    pub watermark: u64,
}

/// A table of `2^radix` slots, each of which may hold a capability.
#[derive(Clone, Copy, PartialEq, Eq)]
pub struct CNode {
    pub address: u64,
    pub radix: Radix,
}

/// An object at which threads send and receive messages.
///
/// The endpoint's queue has either senders or receivers.
#[derive(Clone, Copy, PartialEq, Eq)]
pub struct Endpoint {
    pub address: u64,
}

/// A word that threads signal and wait for.
#[derive(Clone, Copy, PartialEq, Eq)]
pub struct Notification {
    pub address: u64,
    /// The badges signalled since the last poll or wait, or'ed together.
    pub pending: Option<u64>,
}

/// The state of a reply object.
#[derive(Clone, Copy, PartialEq, Eq)]
pub enum ReplyState {
    Free,
    /// The thread that named it and still waits for a message.
    Waiting(ObjId),
    /// The thread that called and waits for an answer.
    Called(ObjId),
}

/// An object by which a receiver answers a call.
#[derive(Clone, Copy, PartialEq, Eq)]
pub struct Reply {
    pub address: u64,
    pub state: ReplyState,
}

/// The share of a core's time that a scheduling context gives.
///
/// It is `budget` of every `period` microseconds, with `1 <= budget <= period <= 3,600,000,000`.
#[derive(Clone, Copy, PartialEq, Eq)]
pub struct Share {
    pub core: CoreNo,
    pub budget: u64,
    pub period: u64,
}

/// A scheduling context (seL4 manual, "Scheduling Contexts").
#[derive(Clone, Copy, PartialEq, Eq)]
pub struct Context {
    pub address: u64,
    /// None until the context is configured.
    pub share: Option<Share>,
    /// The thread that runs on it.
    pub thread: Option<ObjId>,
}

/// A piece of memory of 512 words of 64 bits each.
#[derive(Clone, Copy, PartialEq, Eq)]
pub struct Frame {
    pub address: u64,
}

/// The leave to configure contexts for one core (seL4 manual, "SchedControl").
#[derive(Clone, Copy, PartialEq, Eq)]
pub struct Control {
    pub core: CoreNo,
}

/// An object: its address and its content, but for lists.
///
/// Queues, slots and the words of frames are parts of the state of their own.
#[derive(Clone, Copy, PartialEq, Eq)]
pub enum Object {
    Untyped(Untyped),
    CNode(CNode),
    Tcb(Tcb),
    Endpoint(Endpoint),
    Notification(Notification),
    Reply(Reply),
    Context(Context),
    Frame(Frame),
    Control(Control),
}

impl Object {
    /// Returns the object's kind.
    pub fn kind(&self) -> ObjectKind
        ensures { result ≡ kind_of_object self.now }
    {
        match self {
            Object::Untyped(_) => ObjectKind::Untyped,
            Object::CNode(_) => ObjectKind::CNode,
            Object::Tcb(_) => ObjectKind::Tcb,
            Object::Endpoint(_) => ObjectKind::Endpoint,
            Object::Notification(_) => ObjectKind::Notification,
            Object::Reply(_) => ObjectKind::Reply,
            Object::Context(_) => ObjectKind::Context,
            Object::Frame(_) => ObjectKind::Frame,
            Object::Control(_) => ObjectKind::Control,
        }
    }

    /// Returns the address at which the object lies.
    ///
    /// A control takes no memory, and has address 0.
    pub fn address(&self) -> u64
        ensures { result ≡ address_of self.now }
    {
        match self {
            Object::Untyped(memory) => memory.base,
            Object::CNode(node) => node.address,
            Object::Tcb(thread) => thread.address,
            Object::Endpoint(endpoint) => endpoint.address,
            Object::Notification(notification) => notification.address,
            Object::Reply(reply) => reply.address,
            Object::Context(context) => context.address,
            Object::Frame(frame) => frame.address,
            Object::Control(_) => 0,
        }
    }

    /// Returns the number of slots of the object.
    ///
    /// A CNode has `2^radix`, and a TCB its root slot alone.
    pub fn slot_count(&self) -> u64
        ensures count { result ≡ slot_count self.now }
        ensures most { result ≤ 2 ^ MAX_RADIX }
    {
        match self {
            Object::CNode(node) => node.radix.slots(),
            Object::Tcb(_) => 1,
            _ => 0,
        }
    }

    /// Returns the number of threads that the object is: a TCB is one, and others are none.
    pub fn thread_count(&self) -> u64
        ensures count { result ≡ thread_count self.now }
        ensures most { result ≤ 1 }
    {
        match self {
            Object::Tcb(_) => 1,
            _ => 0,
        }
    }

    /// Returns the number of words of memory that the object has.
    ///
    /// A frame has 512.
    pub fn word_count(&self) -> u64
        ensures { result ≡ word_count self.now }
    {
        match self {
            Object::Frame(_) => 512,
            _ => 0,
        }
    }
}
