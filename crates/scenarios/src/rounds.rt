//! Rounds of eight calls, which a thread makes in a CNode that all share.
use crate::callers::Caller;
use base::{ObjId, Rights};
use bitflags::Flags;
use cores::{Kernel, Naming};
use machine::{Call, CapData, MemoryKind, SlotAddress};
use std::sync::Wait;

/// The number of rounds that a thread makes.
const ROUNDS: u64 = 25;

// A slot of the shared CNode.
fn slot(index: u64) -> SlotAddress {
    SlotAddress {
        root: 1,
        index,
        depth: 64,
    }
}

fn rights() -> Rights {
    Rights::READ.union(Rights::WRITE).union(Rights::GRANT)
}

// Makes an endpoint, and copies of the capability of another.
fn makes(core: u8) -> [Call; 4] {
    let core = u64::from(core);
    let made = slot(24 + core);
    [
        Call::Retype {
            untyped: 0,
            kind: MemoryKind::Endpoint,
            bits: 0,
            to: 1,
            offset: 8 + core,
            count: 1,
        },
        Call::Copy {
            to: slot(16 + core),
            from: slot(2),
            rights: rights(),
        },
        Call::Mint {
            to: made,
            from: slot(2),
            rights: rights(),
            given: CapData::Badge(core + 1),
        },
        Call::Move {
            to: slot(32 + core),
            from: made,
        },
    ]
}

// The call by which an even core sends a capability, and an odd one takes it.
fn passes(core: u8) -> Call {
    let core = u64::from(core);
    if core % 2 == 0 {
        Call::Send {
            address: 2,
            words: [1, 2, 3, 4],
            capability: Some(2),
        }
    } else {
        Call::Receive {
            address: 2,
            reply: None,
            slot: Some(slot(40 + core)),
        }
    }
}

// The calls that remove what was made, by whichever thread.
fn removes(core: u8) -> [Call; 3] {
    let core = u64::from(core);
    [
        Call::Revoke { slot: slot(2) },
        Call::Revoke { slot: slot(0) },
        Call::Delete {
            slot: slot(40 + (core + 1) % 8),
        },
    ]
}

fn call_each<J: Naming, R: Wait>(
    rt: &R,
    kernel: &Kernel<J>,
    caller: &mut Caller<J>,
    thread: ObjId,
    calls: &[Call],
) {
    for call in calls {
        caller.call(rt, kernel, thread, call);
    }
}

/// Makes the rounds of the thread on the caller's core.
pub fn make_rounds<J: Naming, R: Wait>(rt: &R, kernel: &Kernel<J>, caller: &mut Caller<J>) {
    let core = caller.core().number();
    let thread = ObjId(u64::from(core) + 1);
    for _ in 0..ROUNDS {
        call_each(rt, kernel, caller, thread, &makes(core));
        call_each(rt, kernel, caller, thread, &[passes(core)]);
        call_each(rt, kernel, caller, thread, &removes(core));
    }
}
