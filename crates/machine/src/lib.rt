//! The kernel's state as plain data: objects, capabilities, threads, calls and what they answer.
//!
//! `specs/` has the definitions that every layer above cites: what contracts see of a state,
//! guarded lookup, the step of each call, runs, well-formedness, and what a capability table says.
//! The crate knows no policy.
#![tactic(auto)]

mod authority_laws;
mod call;
mod cap;
mod kind_names;
mod layout;
mod object;
mod radix;
mod slot_address;
mod thread;

pub use authority_laws::{authority_grows_with_capabilities, rights_alone_decide_kinds};
pub use call::{Answer, Call, CapData, Event, Log, Made, Outcome, Unmade};
pub use cap::{Badged, Cap, Detail, Guard};
pub use layout::{Binding, Filled, Initial, Pair, Version};
pub use object::{
    CNode, Context, Control, Endpoint, Frame, MemoryKind, Notification, Object, ObjectKind, Reply,
    ReplyState, Share, Untyped,
};
pub use radix::Radix;
pub use slot_address::{Ends, SlotAddress};
pub use thread::{Calling, Inbox, Lent, Message, Receiving, RunState, Sending, Tcb};
