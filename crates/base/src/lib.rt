//! The words that every layer shares: ids, labels, cores, rights, kinds of authority, edges, and refusals.
//!
//! It knows nothing of a kernel or a policy.
#![tactic(auto)]

mod core_number;
mod edge;
mod ids;
mod kind;
mod label;
mod labels;
mod limits;
mod refusal;
mod rights;

pub use core_number::CoreNo;
pub use edge::Edge;
pub use ids::{ObjId, SlotRef};
pub use kind::{Kind, Kinds, kind_names_are_read_back};
pub use label::Label;
pub use labels::{Labels, Members};
pub use limits::{
    ADDRESS_BITS, ADDRESS_END, MAX_EVENTS, MAX_MADE, MAX_OBJECTS, MAX_PERIOD, MAX_PRESENT,
    MAX_RADIX, MAX_SLOTS, MAX_THREADS, OBJECT_NUMBERS,
};
pub use refusal::{Cause, LookupFailure, Misuse, Refusal, a_refusal_tells_its_cause};
pub use rights::{Rights, rights_words_are_read_back};
