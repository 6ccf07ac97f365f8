//! The kernel's state: objects, their slots and the capabilities in these, the derivation tree, and the queues of threads.
//!
//! A contract sees a `State` as a `Machine`, and each method as one of a machine's look-ups or
//! changes. The crate knows no policy.
#![tactic(auto)]

mod counts;
mod entry;
mod links;
mod numbers;
mod places;
mod slots;
mod state;
mod store;
mod words;

pub use base::{
    Cause, CoreNo, Edge, Kind, Kinds, Label, LookupFailure, ObjId, Refusal, Rights, SlotRef,
};
pub use machine::{
    Answer, Badged, Binding, CNode, Call, Cap, CapData, Context, Control, Detail, Endpoint, Event,
    Filled, Frame, Guard, Inbox, Initial, Message, Notification, Object, ObjectKind, Outcome, Pair,
    Radix, Receiving, Reply, ReplyState, RunState, Sending, Share, SlotAddress, Tcb, Untyped,
};
pub use state::State;
