//! Comparison of two states: their objects, slots, derivation trees, words of frames and queues.
use base::{ObjId, SlotRef};
use objects::State;
use std::process::Abort;

fn have_same_slot(rt: &impl Abort, state: &State, other: &State, slot: SlotRef) {
    assert!(rt; state.cap(slot) == other.cap(slot));
    assert!(rt; state.parent(slot) == other.parent(slot));
}

fn have_same_slots(rt: &impl Abort, state: &State, other: &State, id: ObjId, count: u64) {
    for index in 0..count {
        have_same_slot(rt, state, other, SlotRef { holder: id, index });
    }
}

fn have_same_words(rt: &impl Abort, state: &State, other: &State, id: ObjId, count: u64) {
    for index in 0..count {
        assert!(rt; state.word(id, index) == other.word(id, index));
    }
}

fn have_same_object(rt: &impl Abort, state: &State, other: &State, id: ObjId) {
    assert!(rt; state.object(id) == other.object(id));
    assert!(rt; state.cap_count(id) == other.cap_count(id));
    if let Some(object) = state.object(id) {
        have_same_slots(rt, state, other, id, object.slot_count());
        have_same_words(rt, state, other, id, object.word_count());
    }
}

fn have_same_objects(rt: &impl Abort, state: &State, other: &State) {
    for number in 0..state.next_id() {
        have_same_object(rt, state, other, ObjId(number));
    }
}

// Takes the threads out of both queues, first to last. A thread waits in at most one queue, so no
// queue is longer than the number of threads.
fn empty_same_queue(rt: &impl Abort, state: &mut State, other: &mut State, id: ObjId) {
    for _ in 0..state.thread_count() {
        assert!(rt; state.pop_waiting(id) == other.pop_waiting(id));
    }
    assert!(rt; state.first_waiting(id).is_none());
    assert!(rt; other.first_waiting(id).is_none());
}

fn empty_same_queues(rt: &impl Abort, state: &mut State, other: &mut State) {
    for number in 0..state.next_id() {
        empty_same_queue(rt, state, other, ObjId(number));
    }
}

/// Asserts that two states are the same, and that no removal is under way in them.
///
/// The function reads a queue by taking the threads out, first to last. So all queues of both
/// states are empty afterwards.
pub fn are_same(rt: &impl Abort, state: &mut State, other: &mut State) {
    assert!(rt; state.next_id() == other.next_id());
    assert!(rt; state.object_count() == other.object_count());
    assert!(rt; state.going_count() == 0);
    assert!(rt; other.going_count() == 0);
    have_same_objects(rt, state, other);
    empty_same_queues(rt, state, other);
}
