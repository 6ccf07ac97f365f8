//! The apparent effects of a call: a first look, by which a search chooses what must be shown.
//!
//! The functions promise nothing, as `showing` decides.
use crate::lessening::lessens;
use crate::question::Question;
use base::{Label, ObjId, SlotRef};
use labels::label_of;
use machine::{Object, RunState};
use objects::State;
use std::alloc::{AllocError, Global};
use table::Table;

/// Returns the objects that seem to differ between two states, and those at which threads of them wait.
pub fn changes(alloc: Global, old: &State, new: &State) -> Result<Vec<ObjId>, AllocError> {
    let mut ids = Vec::new(alloc);
    for number in 0..new.next_id() {
        let id = ObjId(number);
        if seems_changed(old, new, id) {
            ids.push(id)?;
            if let Some(place) = waits_at(new, id) {
                ids.push(place)?;
            }
        }
    }
    Ok(ids)
}

/// Returns an object that a call of this thread seems to have changed as the question asks.
///
/// The object has the question's label, and is one of those that the call changed. There is none if
/// the thread isn't the question's actor's.
pub fn answering(
    table: &Table,
    old: &State,
    new: &State,
    changes: &[ObjId],
    thread: ObjId,
    question: &Question,
) -> Option<ObjId> {
    if label_of(table, old, thread) != Some(question.actor) {
        return None;
    }
    for id in changes {
        if label_in_either(table, old, new, *id) == Some(question.object)
            && (seems_changed(old, new, *id) || gains_waiting(old, new, *id))
            && question.taking == seems_less(old, new, *id)
        {
            return Some(*id);
        }
    }
    None
}

/// Returns whether one of these objects, which a call changed, has a label that the question asks about.
pub fn is_near(
    table: &Table,
    old: &State,
    new: &State,
    changes: &[ObjId],
    question: &Question,
) -> bool {
    for id in changes {
        let label = label_in_either(table, old, new, *id);
        if label == Some(question.actor) || label == Some(question.object) {
            return true;
        }
    }
    false
}

// The label of an object, or that with which it is made.
fn label_in_either(table: &Table, old: &State, new: &State, id: ObjId) -> Option<Label> {
    match old.object(id) {
        Some(_) => label_of(table, old, id),
        None => label_of(table, new, id),
    }
}

// Whether an object differs in its content, in who waits first at it, in its first word or in its slots.
fn seems_changed(old: &State, new: &State, id: ObjId) -> bool {
    let Some(object) = old.object(id) else {
        return new.object(id).is_some();
    };
    if Some(object) != new.object(id) {
        return true;
    }
    if let Object::Endpoint(_) | Object::Notification(_) = object {
        return old.first_waiting(id) != new.first_waiting(id);
    }
    if let Object::Frame(_) = object {
        return old.word(id, 0) != new.word(id, 0);
    }
    for index in 0..object.slot_count() {
        let slot = SlotRef { holder: id, index };
        if old.held(slot) != new.held(slot) {
            return true;
        }
    }
    false
}

// Whether a changed object seems only to have lost something.
fn seems_less(old: &State, new: &State, id: ObjId) -> bool {
    let Some(is) = new.object(id) else {
        return true;
    };
    let Some(was) = old.object(id) else {
        return false;
    };
    if !lessens(was, is) || old.word(id, 0) != new.word(id, 0) || gains_waiting(old, new, id) {
        return false;
    }
    for index in 0..was.slot_count() {
        let slot = SlotRef { holder: id, index };
        if new.held(slot).is_some() && old.held(slot) != new.held(slot) {
            return false;
        }
    }
    true
}

// Whether a thread waits at an object that didn't before.
fn gains_waiting(old: &State, new: &State, id: ObjId) -> bool {
    for number in 0..new.next_id() {
        let thread = ObjId(number);
        if waits_at(new, thread) == Some(id) && waits_at(old, thread) != Some(id) {
            return true;
        }
    }
    false
}

// The object at which a thread waits in a queue.
fn waits_at(state: &State, thread: ObjId) -> Option<ObjId> {
    let Some(Object::Tcb(tcb)) = state.object(thread) else {
        return None;
    };
    match tcb.state {
        RunState::Sending(sending) => Some(sending.endpoint),
        RunState::Receiving(receiving) => Some(receiving.endpoint),
        RunState::Waiting(notification) => Some(notification),
        _ => None,
    }
}
