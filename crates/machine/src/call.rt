//! Kernel calls, the events that make them, and their outcomes.
ghost use Rattle.std.specs.Prelude.{◌≡◌};
ghost use Rattle.machine.specs.{declared.call.Unmade.TheVariants.Refused, Outcomes.{outcome_of, unmade_refusal}, Step.takes_memory};

use crate::{MemoryKind, Message, SlotAddress};
use base::{Cause, CoreNo, ObjId, Refusal, Rights};

/// A badge or a guard, which a mint gives to the copy (seL4 manual, seL4_CNode_Mint: "badge or guard").
#[derive(Clone, Copy, PartialEq, Eq)]
pub enum CapData {
    Badge(u64),
    /// The low `size` bits of `value`.
    Guard { size: u64, value: u64 },
}

/// A kernel call.
///
/// Addresses are looked up in the capability space of the thread that calls.
#[derive(Clone, Copy, PartialEq, Eq)]
pub enum Call {
    /// Signals the notification at the address (seL4 manual, "Notifications").
    Signal {
        address: u64,
    },
    /// Takes the word of the notification at the address, and doesn't wait.
    Poll {
        address: u64,
    },
    /// Takes the word of the notification at the address, or waits for one.
    Wait {
        address: u64,
    },
    /// Sends a message to the endpoint at the address, or waits until somebody receives it (seL4 manual,
    /// seL4_Send).
    Send {
        address: u64,
        words: [u64; 4],
        /// The address of the capability that it sends along.
        capability: Option<u64>,
    },
    /// Sends a message, and waits for the answer (seL4 manual, seL4_Call).
    Call {
        address: u64,
        words: [u64; 4],
        capability: Option<u64>,
    },
    /// Receives a message at the endpoint at the address, or waits for one (seL4 manual, seL4_Recv).
    Receive {
        address: u64,
        /// The address of the reply through which it answers a call.
        reply: Option<u64>,
        /// Where it takes a capability.
        slot: Option<SlotAddress>,
    },
    /// Answers the thread that has called through the reply at the address (seL4 manual, "Reply
    /// Objects").
    Reply {
        address: u64,
        words: [u64; 4],
    },
    /// Takes what the thread was given and has not fetched yet.
    Fetch,
    /// Copies the capability in the slot `from` to the empty slot `to`, with those of its rights that
    /// are among `rights` (seL4 manual, seL4_CNode_Copy).
    Copy {
        to: SlotAddress,
        from: SlotAddress,
        rights: Rights,
    },
    /// Copies a capability, and gives the copy a badge or a guard (seL4 manual, seL4_CNode_Mint).
    Mint {
        to: SlotAddress,
        from: SlotAddress,
        rights: Rights,
        given: CapData,
    },
    /// Moves the capability, with its place in the derivation tree (seL4 manual, seL4_CNode_Move).
    Move {
        to: SlotAddress,
        from: SlotAddress,
    },
    /// Removes the capability in the slot, and all that can't stay without it (seL4 manual,
    /// seL4_CNode_Delete).
    Delete {
        slot: SlotAddress,
    },
    /// Removes all that descends from the capability in the slot, and what can't stay without that
    /// (seL4 manual, seL4_CNode_Revoke).
    Revoke {
        slot: SlotAddress,
    },
    /// Makes objects of a kind of the untyped memory at the address, and puts their capabilities into
    /// empty slots, one after another, of the CNode at another (seL4 manual, seL4_Untyped_Retype).
    Retype {
        untyped: u64,
        kind: MemoryKind,
        /// The size of untyped memory, or the radix of a CNode; other kinds ignore it.
        bits: u64,
        /// The address of the CNode.
        to: u64,
        /// The index of the first slot.
        offset: u64,
        /// 1 to [`MAX_MADE`](base::MAX_MADE).
        count: u64,
    },
    /// Answers a word of the frame at the address.
    Read {
        address: u64,
        /// 0 to 511.
        index: u64,
    },
    /// Sets a word of the frame at the address.
    Write {
        address: u64,
        /// 0 to 511.
        index: u64,
        word: u64,
    },
    /// Gives the thread at an address the CNode at another as the root of its capability space (seL4
    /// manual, seL4_TCB_SetSpace).
    SetSpace {
        /// The address of the thread.
        thread: u64,
        /// The address of the CNode.
        space: u64,
    },
    /// Takes the root of its capability space from the thread at the address.
    ClearSpace {
        thread: u64,
    },
    /// Stops the thread at the address (seL4 manual, seL4_TCB_Suspend).
    Suspend {
        thread: u64,
    },
    /// Has the thread at the address continue (seL4 manual, seL4_TCB_Resume).
    Resume {
        thread: u64,
    },
    /// Gives the scheduling context at an address a share of the core of the control at another (seL4
    /// manual, seL4_SchedControl_ConfigureFlags).
    Configure {
        /// The address of the control.
        control: u64,
        /// The address of the scheduling context.
        context: u64,
        /// In microseconds, 1 to the period.
        budget: u64,
        /// In microseconds, at most [`MAX_PERIOD`](base::MAX_PERIOD).
        period: u64,
    },
    /// Has the thread at an address run on the scheduling context at another (seL4 manual,
    /// seL4_SchedContext_Bind). Neither may be bound yet.
    Bind {
        /// The address of the scheduling context.
        context: u64,
        /// The address of the thread.
        thread: u64,
    },
    /// Has no thread run on the scheduling context at the address (seL4 manual,
    /// seL4_SchedContext_Unbind).
    Unbind {
        context: u64,
    },
}

impl Call {
    /// Returns whether it takes memory to make the call: a retype does.
    pub fn takes_memory(&self) -> bool
        ensures { result ≡ takes_memory self.now }
    {
        matches!(self, Call::Retype { .. })
    }
}

/// A call that a thread makes on a core.
#[derive(Clone, Copy, PartialEq, Eq)]
pub struct Event {
    pub core: CoreNo,
    pub thread: ObjId,
    pub call: Call,
}

/// The answer of a call that is done.
#[derive(Clone, Copy, PartialEq, Eq)]
pub enum Answer {
    Nothing,
    Word(u64),
    Message(Message),
    /// How many objects were made.
    Count(u64),
    /// The thread was blocked, and what it waited for is gone.
    Aborted,
}

/// The end of a call that isn't refused.
#[derive(Clone, Copy, PartialEq, Eq)]
pub enum Made {
    Done(Answer),
    /// The thread waits, and is answered later.
    Blocked,
}

/// The reason why a call that takes memory isn't made.
#[derive(Clone, Copy, PartialEq, Eq)]
pub enum Unmade {
    /// A condition of the call fails, however much memory there is.
    Refused(Cause),
    /// The call could be made, but an allocation failed.
    OutOfMemory,
}

/// The end of a call.
#[derive(Clone, Copy, PartialEq, Eq)]
pub enum Outcome {
    Done(Answer),
    Blocked,
    Refused(Refusal),
}

/// A log: events with their outcomes.
pub type Log = Vec<(Event, Outcome)>;

impl From<Cause> for Unmade {
    ghost from_gives = { λ cause unmade. unmade ≡ Refused cause };

    fn from(cause: Cause) -> Unmade {
        Unmade::Refused(cause)
    }
}

impl From<Unmade> for Refusal {
    ghost from_gives = { λ unmade refusal. refusal ≡ unmade_refusal unmade };

    fn from(unmade: Unmade) -> Refusal {
        match unmade {
            Unmade::Refused(cause) => Refusal::from(cause),
            Unmade::OutOfMemory => Refusal::OUT_OF_MEMORY,
        }
    }
}

impl From<Made> for Outcome {
    fn from(made: Made) -> Outcome
        ensures { result ≡ outcome_of made }
    {
        match made {
            Made::Done(answer) => Outcome::Done(answer),
            Made::Blocked => Outcome::Blocked,
        }
    }
}
