//! Calls of the kernel's crates that confine itself never makes, on the boot state of a small
//! table.
use base::{ObjId, Refusal, SlotRef};
use captext::read_table;
use cspace::{lookup, lookup_target};
use derivation::next_descendant;
use kernel::boot;
use objects::State;
use std::alloc::Global;
use std::process::Abort;
use std::test::Fail;

/// The thread 1 finds slots 0 to 3 of the CNode 0 at the addresses 0 to 3. The capabilities in
/// slots 2 and 3 are derived from that in slot 1.
const TABLE: &str = "\
confine-table 1
label a
cnode c a 0x1000 2
tcb t a 0x2000 ready
endpoint e a 0x3000
context x a 0x4000 0 10 10
cap c.0 c 62 0x0
cap c.1 e rwgy 0
cap c.2 e r 0
cap c.3 e w 0
cap t.root c 62 0x0
child c.1 c.2
child c.1 c.3
bind t x
end
";

const THREAD: ObjId = ObjId(1);

/// The slot of the CNode with this index.
const fn slot(index: u64) -> SlotRef {
    SlotRef {
        holder: ObjId(0),
        index,
    }
}

/// The table's boot state.
fn booted(alloc: Global) -> Result<State, Fail> {
    let table = match read_table(alloc, TABLE.as_bytes()) {
        Ok(table) => table,
        Err(_) => return Err(Fail::new("the table isn't read")),
    };
    boot(alloc, &table).map_err(|_| Fail::new("the table isn't booted"))
}

/// The number of a refusal.
fn code<T: Drop>(answer: Result<T, Refusal>) -> Option<u64> {
    match answer {
        Ok(_) => None,
        Err(refusal) => Some(refusal.code),
    }
}

fn lookups_end(rt: &impl Abort, state: &State) {
    assert!(rt; lookup(state, THREAD, 3) == Ok((slot(3), 0)));
    assert!(rt; code(lookup(state, THREAD, 4)) == Some(6));
    assert!(rt; code(lookup(state, ObjId(2), 0)) == Some(6));
}

fn target_lookups_end(rt: &impl Abort, state: &State) {
    assert!(rt; lookup_target(state, slot(0), 2, 64) == Ok(slot(2)));
    assert!(rt; code(lookup_target(state, slot(0), 2, 65)) == Some(4));
    assert!(rt; code(lookup_target(state, slot(0), 0, 63)) == Some(6));
    assert!(rt; code(lookup_target(state, slot(1), 2, 64)) == Some(6));
}

fn descendants_are_named(rt: &impl Abort, state: &State) {
    assert!(rt; next_descendant(state, slot(1), None) == Some(slot(2)));
    assert!(rt; next_descendant(state, slot(1), Some(slot(2))) == Some(slot(3)));
    assert!(rt; next_descendant(state, slot(1), Some(slot(3))).is_none());
    assert!(rt; next_descendant(state, slot(0), None).is_none());
}

#[test]
fn uncalled_calls_answer(rt: HostRuntime) -> Result<(), Fail> {
    let state = booted(rt.alloc())?;
    lookups_end(&rt, &state);
    target_lookups_end(&rt, &state);
    descendants_are_named(&rt, &state);
    Ok(())
}
