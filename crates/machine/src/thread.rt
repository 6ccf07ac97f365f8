//! Threads: what they run on, what they wait for, and what they were given.
use crate::SlotAddress;
use base::ObjId;

/// A message as its receiver gets it.
#[derive(Clone, Copy, PartialEq, Eq)]
pub struct Message {
    pub badge: u64,
    pub words: [u64; 4],
    /// Whether a capability arrived with it.
    pub capability: bool,
}

/// The thing that a thread was given and has not fetched yet.
#[derive(Clone, Copy, PartialEq, Eq)]
pub enum Inbox {
    Empty,
    Message(Message),
    /// The word of a notification.
    Word(u64),
    /// The thread was blocked, and what it waited for is gone.
    Aborted,
}

/// The record of a thread that waits to send.
#[derive(Clone, Copy, PartialEq, Eq)]
pub struct Sending {
    pub endpoint: ObjId,
    pub badge: u64,
    /// Whether the capability that it used had the rights Write and Grant.
    pub grant: bool,
    pub is_call: bool,
    /// Whether the capability that it used had Grant or GrantReply.
    pub can_reply: bool,
    pub words: [u64; 4],
    /// The address of the capability that it sends along.
    pub capability: Option<u64>,
}

/// The record of a thread that waits to receive.
#[derive(Clone, Copy, PartialEq, Eq)]
pub struct Receiving {
    pub endpoint: ObjId,
    pub reply: Option<ObjId>,
    /// Where it takes a capability.
    pub slot: Option<SlotAddress>,
}

/// A scheduling context that a thread lent as it called, and the thread that it was lent to.
#[derive(Clone, Copy, PartialEq, Eq)]
pub struct Lent {
    pub context: ObjId,
    pub borrower: ObjId,
}

/// The record of a thread that called and waits for the answer.
#[derive(Clone, Copy, PartialEq, Eq)]
pub struct Calling {
    /// The reply object through which it is answered.
    pub reply: ObjId,
    pub lent: Option<Lent>,
}

/// The state of a thread: whether it can run, and what it waits for if it can't (seL4 manual, "Threads and Execution").
#[derive(Clone, Copy, PartialEq, Eq)]
pub enum RunState {
    Inactive,
    Ready,
    Sending(Sending),
    Receiving(Receiving),
    /// At a notification.
    Waiting(ObjId),
    /// For the answer to its call.
    Called(Calling),
}

/// A thread.
///
/// Its one slot holds the CNode capability where the lookup of addresses begins.
#[derive(Clone, Copy, PartialEq, Eq)]
pub struct Tcb {
    pub address: u64,
    pub state: RunState,
    pub inbox: Inbox,
    /// The scheduling context that it runs on.
    pub context: Option<ObjId>,
}
