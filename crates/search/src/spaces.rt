//! The capability space of a thread: what it finds there, and by which addresses.
use crate::listing::Listing;
use base::{ObjId, SlotRef};
use machine::{CNode, Cap, Detail, Guard, Object, SlotAddress};
use objects::State;
use std::alloc::{AllocError, Global};

/// The largest number of CNodes, by different paths, in the search of a space.
const MOST_NODES: usize = 64;

/// A capability that a thread finds at an address.
#[derive(Clone, Copy)]
pub struct Entry {
    pub address: u64,
    pub cap: Cap,
}

/// A filled slot, as a thread's calls name it.
#[derive(Clone, Copy)]
pub struct Place {
    pub slot: SlotAddress,
    pub at: SlotRef,
    pub cap: Cap,
}

/// An empty slot, the lowest of its CNode, as a thread's calls name it.
#[derive(Clone, Copy)]
pub struct Gap {
    pub slot: SlotAddress,
    pub at: SlotRef,
}

/// The capabilities, slots and gaps that a thread finds in its capability space.
#[derive(Drop)]
pub struct Space {
    /// One entry for each object and rights.
    pub entries: Vec<Entry>,
    pub places: Vec<Place>,
    pub gaps: Vec<Gap>,
}

/// A CNode to which the first bits of an address lead.
#[derive(Clone, Copy)]
struct Way {
    node: ObjId,
    guard: Guard,
    /// The address so far, and the number of bits that are left.
    prefix: u64,
    left: u32,
}

/// Returns what a thread finds in its capability space.
pub fn space_of(alloc: Global, state: &State, thread: ObjId) -> Result<Space, AllocError> {
    let entries = entries_of(alloc, state, thread)?;
    let mut places = Listing::new(alloc);
    let mut gaps = Listing::new(alloc);
    for entry in &entries {
        list_slots(state, entry, &mut places, &mut gaps);
    }
    Ok(Space {
        entries,
        places: places.finish()?,
        gaps: gaps.finish()?,
    })
}

// The capabilities that a thread finds.
fn entries_of(alloc: Global, state: &State, thread: ObjId) -> Result<Vec<Entry>, AllocError> {
    let mut entries = Listing::new(alloc);
    let mut ways = Listing::new(alloc);
    if let Some(cap) = state.root(thread) {
        if let Detail::CNode(guard) = cap.detail {
            ways.push(Way {
                node: cap.object,
                guard,
                prefix: 0,
                left: 64,
            });
        }
    }
    for number in 0..MOST_NODES {
        let Some(&way) = ways.items.get(number) else {
            break;
        };
        visit(state, &way, &mut ways, &mut entries);
    }
    // Without all ways, entries are missing.
    let _ = ways.finish()?;
    entries.finish()
}

// Visits the slots of a CNode on a path.
fn visit(state: &State, way: &Way, ways: &mut Listing<Way>, entries: &mut Listing<Entry>) {
    let Some(Object::CNode(node)) = state.object(way.node) else {
        return;
    };
    let bits = u32::from(way.guard.size) + u32::from(node.radix.bits());
    let Some(left) = way.left.checked_sub(bits) else {
        return;
    };
    let stem = joined(
        joined(way.prefix, u32::from(way.guard.size), way.guard.value),
        u32::from(node.radix.bits()),
        0,
    );
    for index in 0..node.radix.slots() {
        let slot = SlotRef {
            holder: way.node,
            index,
        };
        if let Some(cap) = state.held(slot) {
            pass(cap, stem | index, left, ways, entries);
        }
    }
}

// Notes the capability in a slot on a path, or the CNode to which it leads.
fn pass(cap: &Cap, address: u64, left: u32, ways: &mut Listing<Way>, entries: &mut Listing<Entry>) {
    match cap.detail {
        Detail::CNode(guard) if left > 0 => ways.push(Way {
            node: cap.object,
            guard,
            prefix: address,
            left,
        }),
        _ if is_listed(&entries.items, cap) => {}
        _ => entries.push(Entry {
            address: joined(address, left, 0),
            cap: *cap,
        }),
    }
}

// Whether a capability for the same object with the same rights is listed.
fn is_listed(entries: &[Entry], cap: &Cap) -> bool {
    for entry in entries {
        if entry.cap.object == cap.object && entry.cap.detail == cap.detail {
            return true;
        }
    }
    false
}

// Lists the slots of the CNode that an entry is for.
fn list_slots(state: &State, entry: &Entry, places: &mut Listing<Place>, gaps: &mut Listing<Gap>) {
    let Detail::CNode(guard) = entry.cap.detail else {
        return;
    };
    let Some(Object::CNode(node)) = state.object(entry.cap.object) else {
        return;
    };
    let mut full = true;
    for index in 0..node.radix.slots() {
        let slot = SlotRef {
            holder: entry.cap.object,
            index,
        };
        let named = name_of(entry, guard, node, index);
        match state.held(slot) {
            Some(cap) => places.push(Place {
                slot: named,
                at: slot,
                cap: *cap,
            }),
            None if full => {
                full = false;
                gaps.push(Gap {
                    slot: named,
                    at: slot,
                });
            }
            None => {}
        }
    }
}

// A slot of a CNode as calls name it, through the capability at an address.
fn name_of(entry: &Entry, guard: Guard, node: &CNode, index: u64) -> SlotAddress {
    SlotAddress {
        root: entry.address,
        index: joined(guard.value, u32::from(node.radix.bits()), index),
        depth: u64::from(guard.size) + u64::from(node.radix.bits()),
    }
}

// A word followed by further bits.
fn joined(word: u64, bits: u32, further: u64) -> u64 {
    word.checked_shl(bits).unwrap_or(0) | further
}
