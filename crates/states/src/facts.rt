//! The text of a state, by the names of a table: a line for the next number, for each object and
//! for each of its slots.
use base::{ObjId, SlotRef};
use machine::{
    CNode, Calling, Context, Control, Detail, Endpoint, Frame, Inbox, Message, Notification,
    Object, Receiving, Reply, ReplyState, RunState, Sending, Share, Tcb, Untyped,
};
use objects::State;
use std::alloc::AllocError;
use table::Table;

/// Writes these words and the name of an object in the table. An object that was made later is `#` and its number.
fn tell_name(text: &mut String, words: &str, table: &Table, id: ObjId) -> Result<(), AllocError> {
    text.push_str(words)?;
    match table.object_name(id) {
        Some(name) => text.push_str(name),
        None => write!(text, "#{}", id.0),
    }
}

/// Writes these words and a slot, spelled as in tables.
fn tell_place(
    text: &mut String,
    words: &str,
    table: &Table,
    state: &State,
    slot: SlotRef,
) -> Result<(), AllocError> {
    tell_name(text, words, table, slot.holder)?;
    match state.object(slot.holder) {
        Some(Object::Tcb(_)) => text.push_str(".root"),
        _ => write!(text, ".{}", slot.index),
    }
}

/// Writes the facts of a state to a text.
///
/// The queues are empty afterwards: threads are taken from them to be listed.
pub fn tell_state(text: &mut String, table: &Table, state: &mut State) -> Result<(), AllocError> {
    let next = state.next_id();
    writeln!(text, "next number: {next}")?;
    for number in 0..next {
        tell_object(text, table, state, ObjId(number))?;
    }
    Ok(())
}

/// Writes an object and its slots.
fn tell_object(
    text: &mut String,
    table: &Table,
    state: &mut State,
    id: ObjId,
) -> Result<(), AllocError> {
    tell_name(text, "object ", table, id)?;
    let Some(&object) = state.object(id) else {
        return text.push_str(": none\n");
    };
    text.push_str(": ")?;
    tell_content(text, table, &object)?;
    if let Object::Endpoint(_) | Object::Notification(_) = object {
        tell_queue(text, table, state, id)?;
    }
    text.push('\n')?;
    for index in 0..object.slot_count() {
        tell_slot(text, table, state, SlotRef { holder: id, index })?;
    }
    Ok(())
}

/// Writes an object without its queue and its slots.
fn tell_content(text: &mut String, table: &Table, object: &Object) -> Result<(), AllocError> {
    match object {
        Object::Untyped(memory) => tell_untyped(text, memory),
        Object::CNode(CNode { address, radix }) => {
            let radix = radix.bits();
            write!(text, "cnode 0x{address:x}, radix {radix}")
        }
        Object::Tcb(thread) => tell_thread(text, table, thread),
        Object::Endpoint(Endpoint { address }) => write!(text, "endpoint 0x{address:x}"),
        Object::Notification(notification) => tell_notification(text, notification),
        Object::Reply(reply) => tell_reply(text, table, reply),
        Object::Context(context) => tell_context(text, table, context),
        Object::Frame(Frame { address }) => write!(text, "frame 0x{address:x}"),
        Object::Control(Control { core }) => write!(text, "control, core {core}"),
    }
}

fn tell_untyped(text: &mut String, memory: &Untyped) -> Result<(), AllocError> {
    let Untyped {
        base,
        bits,
        watermark,
    } = memory;
    write!(
        text,
        "untyped 0x{base:x}, {bits} bits, watermark 0x{watermark:x}"
    )
}

fn tell_notification(text: &mut String, notification: &Notification) -> Result<(), AllocError> {
    let Notification { address, pending } = notification;
    match pending {
        Some(word) => write!(text, "notification 0x{address:x}, word {word}"),
        None => write!(text, "notification 0x{address:x}, no word"),
    }
}

fn tell_reply(text: &mut String, table: &Table, reply: &Reply) -> Result<(), AllocError> {
    let address = reply.address;
    write!(text, "reply 0x{address:x}, ")?;
    match reply.state {
        ReplyState::Free => text.push_str("free"),
        ReplyState::Waiting(id) => tell_name(text, "named by ", table, id),
        ReplyState::Called(id) => tell_name(text, "called by ", table, id),
    }
}

fn tell_context(text: &mut String, table: &Table, context: &Context) -> Result<(), AllocError> {
    let address = context.address;
    write!(text, "context 0x{address:x}, ")?;
    tell_share(text, context.share)?;
    match context.thread {
        Some(id) => tell_name(text, ", runs ", table, id),
        None => text.push_str(", runs nobody"),
    }
}

fn tell_share(text: &mut String, share: Option<Share>) -> Result<(), AllocError> {
    match share {
        Some(
            Share {
                core,
                budget,
                period,
            },
        ) => write!(text, "core {core}, budget {budget}, period {period}"),
        None => text.push_str("not configured"),
    }
}

fn tell_thread(text: &mut String, table: &Table, thread: &Tcb) -> Result<(), AllocError> {
    let address = thread.address;
    write!(text, "tcb 0x{address:x}, ")?;
    tell_run_state(text, table, &thread.state)?;
    tell_inbox(text, &thread.inbox)?;
    match thread.context {
        Some(id) => tell_name(text, ", runs on ", table, id),
        None => text.push_str(", runs on nothing"),
    }
}

fn tell_run_state(text: &mut String, table: &Table, state: &RunState) -> Result<(), AllocError> {
    match state {
        RunState::Inactive => text.push_str("inactive"),
        RunState::Ready => text.push_str("ready"),
        RunState::Sending(sending) => tell_sending(text, table, sending),
        RunState::Receiving(receiving) => tell_receiving(text, table, receiving),
        RunState::Waiting(id) => tell_name(text, "waits at ", table, *id),
        RunState::Called(calling) => tell_calling(text, table, calling),
    }
}

fn tell_calling(text: &mut String, table: &Table, calling: &Calling) -> Result<(), AllocError> {
    tell_name(text, "called through ", table, calling.reply)?;
    match calling.lent {
        Some(lent) => {
            tell_name(text, ", lent ", table, lent.context)?;
            tell_name(text, " to ", table, lent.borrower)
        }
        None => Ok(()),
    }
}

fn tell_sending(text: &mut String, table: &Table, sending: &Sending) -> Result<(), AllocError> {
    text.push_str("sends")?;
    tell_words(text, &sending.words)?;
    tell_name(text, " to ", table, sending.endpoint)?;
    write!(text, ", badge {}", sending.badge)?;
    tell_if(text, sending.grant, ", grant")?;
    tell_if(text, sending.is_call, ", call")?;
    tell_if(text, sending.can_reply, ", can reply")?;
    match sending.capability {
        Some(address) => write!(text, ", capability {address}"),
        None => Ok(()),
    }
}

/// Writes the words of a message, with a space before each.
fn tell_words(text: &mut String, words: &[u64; 4]) -> Result<(), AllocError> {
    for word in words {
        write!(text, " {word}")?;
    }
    Ok(())
}

fn tell_if(text: &mut String, is_so: bool, words: &str) -> Result<(), AllocError> {
    if is_so {
        text.push_str(words)?;
    }
    Ok(())
}

fn tell_receiving(
    text: &mut String,
    table: &Table,
    receiving: &Receiving,
) -> Result<(), AllocError> {
    tell_name(text, "receives from ", table, receiving.endpoint)?;
    if let Some(id) = receiving.reply {
        tell_name(text, ", reply ", table, id)?;
    }
    match receiving.slot {
        Some(slot) => write!(text, ", slot {slot}"),
        None => Ok(()),
    }
}

fn tell_inbox(text: &mut String, inbox: &Inbox) -> Result<(), AllocError> {
    match inbox {
        Inbox::Empty => text.push_str(", inbox empty"),
        Inbox::Message(message) => tell_message(text, message),
        Inbox::Word(word) => write!(text, ", inbox word {word}"),
        Inbox::Aborted => text.push_str(", inbox aborted"),
    }
}

fn tell_message(text: &mut String, message: &Message) -> Result<(), AllocError> {
    write!(text, ", inbox message {}", message.badge)?;
    tell_words(text, &message.words)?;
    write!(text, " {}", u8::from(message.capability))
}

/// Writes the threads that wait at an object, first in first out, and takes them from its queue.
fn tell_queue(
    text: &mut String,
    table: &Table,
    state: &mut State,
    id: ObjId,
) -> Result<(), AllocError> {
    if state.first_waiting(id).is_none() {
        return text.push_str(", queue empty");
    }
    text.push_str(", queue")?;
    for _ in 0..state.next_id() {
        let Some(id) = state.pop_waiting(id) else {
            return Ok(());
        };
        tell_name(text, " ", table, id)?;
    }
    Ok(())
}

/// Writes a slot: its capability, and where that is in the derivation tree.
fn tell_slot(
    text: &mut String,
    table: &Table,
    state: &State,
    slot: SlotRef,
) -> Result<(), AllocError> {
    tell_place(text, "slot ", table, state, slot)?;
    let Some(cap) = state.cap(slot) else {
        return text.push_str(": empty\n");
    };
    tell_name(text, ": ", table, cap.object)?;
    tell_detail(text, cap.detail)?;
    text.push_str(if cap.original {
        ", original"
    } else {
        ", derived"
    })?;
    match state.parent(slot) {
        Some(parent) => tell_place(text, ", child of ", table, state, parent)?,
        None => text.push_str(", no parent")?,
    }
    text.push('\n')
}

fn tell_detail(text: &mut String, detail: Detail) -> Result<(), AllocError> {
    match detail {
        Detail::CNode(guard) => write!(text, " guard {} 0x{:x}", guard.size, guard.value),
        Detail::Endpoint(end) | Detail::Notification(end) => {
            write!(text, " {} badge {}", end.rights, end.badge)
        }
        Detail::Frame(rights) => write!(text, " {rights}"),
        Detail::Untyped | Detail::Tcb | Detail::Reply | Detail::Context | Detail::Control => Ok(()),
    }
}
