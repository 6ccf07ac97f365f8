//! The objects that a call can change, so that only these are compared; what it seems to have
//! changed; and the call that undoes it.
use crate::listing::Listing;
use base::{ObjId, SlotRef};
use cspace::find_cap;
use machine::{Call, Event, Object, ReplyState, RunState, SlotAddress};
use objects::State;
use std::alloc::{AllocError, Global};

/// The number of objects whose links are followed.
const MOST_FOLLOWED: usize = 16;

/// Returns the objects that a call can change, from the state in which it is made to the next.
///
/// These are the caller, the objects that its addresses lead to, those linked with them, and new
/// objects. A call that removes capabilities can change all objects.
pub fn touched(
    alloc: Global,
    old: &State,
    new: &State,
    event: &Event,
) -> Result<Vec<ObjId>, AllocError> {
    let mut ids = Listing::new(alloc);
    if let Call::Delete { .. } | Call::Revoke { .. } | Call::ClearSpace { .. } = event.call {
        push_from(&mut ids, 0, new);
        return ids.finish();
    }
    push(&mut ids, event.thread);
    push_named(&mut ids, old, event);
    for number in 0..MOST_FOLLOWED {
        let Some(&id) = ids.items.get(number) else {
            break;
        };
        push_linked(&mut ids, old, id);
    }
    push_from(&mut ids, old.next_id(), new);
    ids.finish()
}

/// Returns the objects of a list that seem to differ between two states, and those at which threads of the list wait.
pub fn changes(
    alloc: Global,
    old: &State,
    new: &State,
    among: &[ObjId],
) -> Result<Vec<ObjId>, AllocError> {
    let mut ids = Listing::new(alloc);
    for id in among {
        if seems_changed(old, new, *id) {
            ids.push(*id);
            if let Some(Object::Tcb(tcb)) = new.object(*id) {
                push_place(&mut ids, &tcb.state);
            }
        }
    }
    ids.finish()
}

// Adds the object at which a thread waits in a queue.
fn push_place(ids: &mut Listing<ObjId>, waits: &RunState) {
    match waits {
        RunState::Sending(sending) => ids.push(sending.endpoint),
        RunState::Receiving(receiving) => ids.push(receiving.endpoint),
        RunState::Waiting(notification) => ids.push(*notification),
        _ => {}
    }
}

// Whether an object differs in its content, in who waits first at it, in its first word or in its slots.
fn seems_changed(old: &State, new: &State, id: ObjId) -> bool {
    let Some(object) = old.object(id) else {
        return new.object(id).is_some();
    };
    if Some(object) != new.object(id) {
        return true;
    }
    match object {
        Object::Endpoint(_) | Object::Notification(_) => {
            old.first_waiting(id) != new.first_waiting(id)
        }
        Object::Frame(_) => old.word(id, 0) != new.word(id, 0),
        _ => holds_other(old, new, id, object.slot_count()),
    }
}

// Whether a slot of an object has other contents.
fn holds_other(old: &State, new: &State, id: ObjId, count: u64) -> bool {
    for index in 0..count {
        let slot = SlotRef { holder: id, index };
        if old.held(slot) != new.held(slot) {
            return true;
        }
    }
    false
}

/// Returns a call that may undo a call.
pub fn reverse(old: &State, event: &Event) -> Option<Event> {
    let call = match event.call {
        Call::Copy { to, .. } | Call::Mint { to, .. } => Call::Delete { slot: to },
        Call::Move { to, from } => Call::Move { to: from, from: to },
        Call::Signal { address } => Call::Poll { address },
        Call::Write { address, index, .. } => Call::Write {
            address,
            index,
            word: word_at(old, event.thread, address, index)?,
        },
        Call::Bind { context, .. } => Call::Unbind { context },
        Call::SetSpace { thread, .. } => Call::ClearSpace { thread },
        Call::Suspend { thread } => Call::Resume { thread },
        Call::Resume { thread } => Call::Suspend { thread },
        _ => return None,
    };
    Some(Event {
        core: event.core,
        thread: event.thread,
        call,
    })
}

// The word of the frame at an address.
fn word_at(state: &State, thread: ObjId, address: u64, index: u64) -> Option<u64> {
    let id = object_at(state, thread, address)?;
    state.word(id, index)
}

// The object whose capability a thread finds at an address.
fn object_at(state: &State, thread: ObjId, address: u64) -> Option<ObjId> {
    match find_cap(state, thread, address) {
        Ok((_, cap)) => Some(cap.object),
        Err(_) => None,
    }
}

// Adds an object, if it isn't there.
fn push(ids: &mut Listing<ObjId>, id: ObjId) {
    if !ids.items.contains(&id) {
        ids.push(id);
    }
}

fn push_if(ids: &mut Listing<ObjId>, id: Option<ObjId>) {
    if let Some(id) = id {
        push(ids, id);
    }
}

// Adds all objects of a state from a number on.
fn push_from(ids: &mut Listing<ObjId>, first: u64, state: &State) {
    for number in first..state.next_id() {
        ids.push(ObjId(number));
    }
}

// Adds the objects that the addresses of a call lead to.
fn push_named(ids: &mut Listing<ObjId>, state: &State, event: &Event) {
    let (one, other) = addresses(&event.call);
    if let Some(address) = one {
        push_if(ids, object_at(state, event.thread, address));
    }
    if let Some(address) = other {
        push_if(ids, object_at(state, event.thread, address));
    }
    if let Call::Receive { slot, .. } = event.call {
        push_node(ids, state, event.thread, slot);
    }
}

// Adds the CNode of a slot that a thread names.
fn push_node(ids: &mut Listing<ObjId>, state: &State, thread: ObjId, slot: Option<SlotAddress>) {
    if let Some(slot) = slot {
        push_if(ids, object_at(state, thread, slot.root));
    }
}

// The addresses of a call.
fn addresses(call: &Call) -> (Option<u64>, Option<u64>) {
    match *call {
        Call::Signal { address }
        | Call::Poll { address }
        | Call::Wait { address }
        | Call::Send { address, .. }
        | Call::Call { address, .. }
        | Call::Reply { address, .. }
        | Call::Read { address, .. }
        | Call::Write { address, .. } => (Some(address), None),
        Call::Receive { address, reply, .. } => (Some(address), reply),
        Call::Copy { to, from, .. } | Call::Mint { to, from, .. } | Call::Move { to, from } => {
            (Some(to.root), Some(from.root))
        }
        Call::Delete { slot } | Call::Revoke { slot } => (Some(slot.root), None),
        Call::Retype { untyped, to, .. } => (Some(untyped), Some(to)),
        Call::SetSpace { thread, space } => (Some(thread), Some(space)),
        Call::ClearSpace { thread } | Call::Suspend { thread } | Call::Resume { thread } => {
            (Some(thread), None)
        }
        Call::Configure {
            control,
            context,
            ..
        } => (Some(control), Some(context)),
        Call::Bind { context, thread } => (Some(context), Some(thread)),
        Call::Unbind { context } => (Some(context), None),
        Call::Fetch => (None, None),
    }
}

// Adds the objects that an object names, and the thread that waits first at it.
fn push_linked(ids: &mut Listing<ObjId>, state: &State, id: ObjId) {
    match state.object(id) {
        Some(Object::Tcb(tcb)) => {
            push_if(ids, tcb.context);
            push_waits(ids, state, id, &tcb.state);
        }
        Some(Object::Endpoint(_)) | Some(Object::Notification(_)) => {
            push_if(ids, state.first_waiting(id))
        }
        Some(Object::Reply(reply)) => match reply.state {
            ReplyState::Free => {}
            ReplyState::Waiting(thread) | ReplyState::Called(thread) => push(ids, thread),
        },
        Some(Object::Context(context)) => push_if(ids, context.thread),
        _ => {}
    }
}

// Adds the objects that a thread waits at, or through.
fn push_waits(ids: &mut Listing<ObjId>, state: &State, thread: ObjId, waits: &RunState) {
    match waits {
        RunState::Inactive | RunState::Ready => {}
        RunState::Sending(sending) => push(ids, sending.endpoint),
        RunState::Receiving(receiving) => {
            push(ids, receiving.endpoint);
            push_if(ids, receiving.reply);
            push_node(ids, state, thread, receiving.slot);
        }
        RunState::Waiting(notification) => push(ids, *notification),
        RunState::Called(calling) => {
            push(ids, calling.reply);
            if let Some(lent) = calling.lent {
                push(ids, lent.context);
                push(ids, lent.borrower);
            }
        }
    }
}
