//! Calls as their names and operands: how one is read off the words of a line, and how it is written.
ghost use Rattle.std.specs.Prelude.{◌≡◌, Bool, OnOk};
ghost use Rattle.{words.specs.{Parts.by_word, Reading.Gives}, machine.specs.Step.takes_memory};
ghost use Rattle.evtext.specs.Event.{bind_form, by_form, call_at, call_by, call_form, call_words, clear_space_form, configure_form};
ghost use Rattle.evtext.specs.Event.{copy_form, delete_form, fetch_form, mint_form, move_form, poll_form, read_form, receive_form};
ghost use Rattle.evtext.specs.Event.{reply_form, resume_form, retype_form, revoke_form, send_form, set_space_form, signal_form};
ghost use Rattle.evtext.specs.{Event.{slot_calls, suspend_form, thread_calls, unbind_form, wait_form, write_form}, Written.written};

use crate::line::is;
use crate::operands::{
    next_data, next_four, next_memory_kind, next_message, next_optional, next_optional_slot,
    next_rights, next_slot_address, next_two,
};
use crate::writing::{
    write_data, write_each, write_four, write_number, write_numbers, write_optional,
    write_optional_slot, write_rights, write_slot, write_word,
};
use base::Rights;
use machine::{Call, CapData, SlotAddress};
use std::alloc::AllocError;
use words::{Words, Wrong};

#[tactic(auto, unfolding(crate::specs::Event::call_at, words::specs::Parts::by_word, words::specs::Parts::keyed, words::specs::Parts::read_as, words::specs::Reading::bind))]
pub(crate) fn next_call(words: &mut Words<'_>) -> Result<Call, Wrong>
    ensures { Gives (λ call. (call, words.new)) result (call_at words.old) }
{
    let name = words.word()?;
    if is(name, b"signal") {
        let address = words.number()?;
        return Ok(Call::Signal { address });
    }
    if is(name, b"poll") {
        let address = words.number()?;
        return Ok(Call::Poll { address });
    }
    if is(name, b"wait") {
        let address = words.number()?;
        return Ok(Call::Wait { address });
    }
    if is(name, b"send") {
        return next_send(words);
    }
    if is(name, b"call") {
        return next_endpoint_call(words);
    }
    if is(name, b"recv") {
        return next_receive(words);
    }
    if is(name, b"reply") {
        return next_reply(words);
    }
    if is(name, b"fetch") {
        return next_fetch(words);
    }
    next_slot_call(name, words)
}

/// The next words as the operands of a call on slots, or of one after these.
#[tactic(auto, unfolding(words::specs::Parts::by_word, words::specs::Parts::read_as, words::specs::Reading::bind))]
fn next_slot_call(name: &[u8], words: &mut Words<'_>) -> Result<Call, Wrong>
    ensures { Gives (λ call. (call, words.new)) result (by_word slot_calls name.now words.old) }
{
    if is(name, b"copy") {
        return next_copy(words);
    }
    if is(name, b"mint") {
        return next_mint(words);
    }
    if is(name, b"move") {
        return next_move(words);
    }
    if is(name, b"delete") {
        let slot = next_slot_address(words)?;
        return Ok(Call::Delete { slot });
    }
    if is(name, b"revoke") {
        let slot = next_slot_address(words)?;
        return Ok(Call::Revoke { slot });
    }
    if is(name, b"retype") {
        return next_retype(words);
    }
    next_thread_call(name, words)
}

/// The next words as the operands of a call on a frame, a thread, a control or a scheduling context.
#[tactic(auto, unfolding(crate::specs::Event::thread_calls, words::specs::Parts::by_word, words::specs::Parts::read_as, words::specs::Reading::bind))]
fn next_thread_call(name: &[u8], words: &mut Words<'_>) -> Result<Call, Wrong>
    ensures { Gives (λ call. (call, words.new)) result (by_word thread_calls name.now words.old) }
{
    if is(name, b"read") {
        let (address, index) = next_two(words)?;
        return Ok(Call::Read { address, index });
    }
    if is(name, b"write") {
        return next_write(words);
    }
    if is(name, b"setspace") {
        let (thread, space) = next_two(words)?;
        return Ok(Call::SetSpace { thread, space });
    }
    if is(name, b"clearspace") {
        let thread = words.number()?;
        return Ok(Call::ClearSpace { thread });
    }
    if is(name, b"suspend") {
        let thread = words.number()?;
        return Ok(Call::Suspend { thread });
    }
    if is(name, b"resume") {
        let thread = words.number()?;
        return Ok(Call::Resume { thread });
    }
    if is(name, b"configure") {
        return next_configure(words);
    }
    if is(name, b"bind") {
        let (context, thread) = next_two(words)?;
        return Ok(Call::Bind { context, thread });
    }
    if is(name, b"unbind") {
        let context = words.number()?;
        return Ok(Call::Unbind { context });
    }
    Err(Wrong::Syntax)
}

#[tactic(auto, unfolding(words::specs::Parts::read_as, words::specs::Reading::bind))]
fn next_send(words: &mut Words<'_>) -> Result<Call, Wrong>
    ensures { Gives (λ call. (call, words.new)) result (call_by send_form words.old) }
{
    let (address, words, capability) = next_message(words)?;
    Ok(Call::Send {
        address,
        words,
        capability,
    })
}

#[tactic(auto, unfolding(words::specs::Parts::read_as, words::specs::Reading::bind))]
fn next_endpoint_call(words: &mut Words<'_>) -> Result<Call, Wrong>
    ensures { Gives (λ call. (call, words.new)) result (call_by call_form words.old) }
{
    let (address, words, capability) = next_message(words)?;
    Ok(Call::Call {
        address,
        words,
        capability,
    })
}

/// A fetch has no operands.
#[tactic(auto, unfolding(crate::specs::Operands::nothing_at, words::specs::Parts::read_as, words::specs::Reading::bind))]
fn next_fetch(_words: &mut Words<'_>) -> Result<Call, Wrong>
    ensures { Gives (λ call. (call, _words.new)) result (call_by fetch_form _words.old) }
{
    Ok(Call::Fetch)
}

#[tactic(auto, unfolding(words::specs::Parts::in_turn, words::specs::Parts::read_as, words::specs::Reading::bind))]
fn next_receive(words: &mut Words<'_>) -> Result<Call, Wrong>
    ensures { Gives (λ call. (call, words.new)) result (call_by receive_form words.old) }
{
    let address = words.number()?;
    let reply = next_optional(words)?;
    let slot = next_optional_slot(words)?;
    Ok(Call::Receive {
        address,
        reply,
        slot,
    })
}

#[tactic(auto, unfolding(words::specs::Parts::in_turn, words::specs::Parts::read_as, words::specs::Reading::bind))]
fn next_reply(words: &mut Words<'_>) -> Result<Call, Wrong>
    ensures { Gives (λ call. (call, words.new)) result (call_by reply_form words.old) }
{
    let address = words.number()?;
    let message = next_four(words)?;
    Ok(Call::Reply {
        address,
        words: message,
    })
}

#[tactic(auto, unfolding(words::specs::Parts::in_turn, words::specs::Parts::read_as, words::specs::Reading::bind))]
fn next_copy(words: &mut Words<'_>) -> Result<Call, Wrong>
    ensures { Gives (λ call. (call, words.new)) result (call_by copy_form words.old) }
{
    let to = next_slot_address(words)?;
    let from = next_slot_address(words)?;
    let rights = next_rights(words)?;
    Ok(Call::Copy { to, from, rights })
}

#[tactic(auto, unfolding(words::specs::Parts::in_turn, words::specs::Parts::read_as, words::specs::Reading::bind))]
fn next_mint(words: &mut Words<'_>) -> Result<Call, Wrong>
    ensures { Gives (λ call. (call, words.new)) result (call_by mint_form words.old) }
{
    let to = next_slot_address(words)?;
    let from = next_slot_address(words)?;
    let rights = next_rights(words)?;
    let given = next_data(words)?;
    Ok(Call::Mint {
        to,
        from,
        rights,
        given,
    })
}

#[tactic(auto, unfolding(words::specs::Parts::in_turn, words::specs::Parts::read_as, words::specs::Reading::bind))]
fn next_move(words: &mut Words<'_>) -> Result<Call, Wrong>
    ensures { Gives (λ call. (call, words.new)) result (call_by move_form words.old) }
{
    let to = next_slot_address(words)?;
    let from = next_slot_address(words)?;
    Ok(Call::Move { to, from })
}

#[tactic(auto, unfolding(words::specs::Parts::in_turn, words::specs::Parts::read_as, words::specs::Reading::bind))]
fn next_retype(words: &mut Words<'_>) -> Result<Call, Wrong>
    ensures { Gives (λ call. (call, words.new)) result (call_by retype_form words.old) }
{
    let untyped = words.number()?;
    let kind = next_memory_kind(words)?;
    let bits = words.number()?;
    let to = words.number()?;
    let offset = words.number()?;
    let count = words.number()?;
    Ok(Call::Retype {
        untyped,
        kind,
        bits,
        to,
        offset,
        count,
    })
}

#[tactic(auto, unfolding(words::specs::Parts::in_turn, words::specs::Parts::read_as, words::specs::Reading::bind))]
fn next_write(words: &mut Words<'_>) -> Result<Call, Wrong>
    ensures { Gives (λ call. (call, words.new)) result (call_by write_form words.old) }
{
    let address = words.number()?;
    let index = words.number()?;
    let word = words.number()?;
    Ok(Call::Write {
        address,
        index,
        word,
    })
}

#[tactic(auto, unfolding(words::specs::Parts::in_turn, words::specs::Parts::read_as, words::specs::Reading::bind))]
fn next_configure(words: &mut Words<'_>) -> Result<Call, Wrong>
    ensures { Gives (λ call. (call, words.new)) result (call_by configure_form words.old) }
{
    let control = words.number()?;
    let context = words.number()?;
    let budget = words.number()?;
    let period = words.number()?;
    Ok(Call::Configure {
        control,
        context,
        budget,
        period,
    })
}

fn name_of(call: &Call) -> &'static str
    ensures { result.now ≡ by_form (λ form operands. form.name) call.now }
{
    match call {
        Call::Signal { .. } => "signal",
        Call::Poll { .. } => "poll",
        Call::Wait { .. } => "wait",
        Call::Send { .. } => "send",
        Call::Call { .. } => "call",
        Call::Receive { .. } => "recv",
        Call::Reply { .. } => "reply",
        Call::Fetch => "fetch",
        Call::Copy { .. } => "copy",
        Call::Mint { .. } => "mint",
        Call::Move { .. } => "move",
        Call::Delete { .. } => "delete",
        Call::Revoke { .. } => "revoke",
        Call::Retype { .. } => "retype",
        Call::Read { .. } => "read",
        Call::Write { .. } => "write",
        Call::SetSpace { .. } => "setspace",
        Call::ClearSpace { .. } => "clearspace",
        Call::Suspend { .. } => "suspend",
        Call::Resume { .. } => "resume",
        Call::Configure { .. } => "configure",
        Call::Bind { .. } => "bind",
        Call::Unbind { .. } => "unbind",
    }
}

// Writes what is sent: to whom, which words, and which capability.
fn write_sent(
    text: &mut Vec<u8>,
    address: u64,
    words: &[u64; 4],
    capability: Option<u64>,
) -> Result<(), AllocError>
    ensures { OnOk result (text.new.items ≡ written text.old.items (send_form.shape.spell (address, (words.now, capability)))) }
{
    write_number(text, address)?;
    write_four(text, words)?;
    write_optional(text, capability)
}

fn write_receive(
    text: &mut Vec<u8>,
    address: u64,
    reply: Option<u64>,
    slot: &Option<SlotAddress>,
) -> Result<(), AllocError>
    ensures { OnOk result (text.new.items ≡ written text.old.items (receive_form.shape.spell (address, (reply, slot.now)))) }
{
    write_number(text, address)?;
    write_optional(text, reply)?;
    write_optional_slot(text, slot)
}

fn write_reply(text: &mut Vec<u8>, address: u64, words: &[u64; 4]) -> Result<(), AllocError>
    ensures { OnOk result (text.new.items ≡ written text.old.items (reply_form.shape.spell (address, words.now))) }
{
    write_number(text, address)?;
    write_four(text, words)
}

fn write_slots(text: &mut Vec<u8>, to: &SlotAddress, from: &SlotAddress) -> Result<(), AllocError>
    ensures { OnOk result (text.new.items ≡ written text.old.items (move_form.shape.spell (to.now, from.now))) }
{
    write_slot(text, to)?;
    write_slot(text, from)
}

fn write_copy(
    text: &mut Vec<u8>,
    to: &SlotAddress,
    from: &SlotAddress,
    rights: Rights,
) -> Result<(), AllocError>
    ensures { OnOk result (text.new.items ≡ written text.old.items (copy_form.shape.spell (to.now, (from.now, rights)))) }
{
    write_slots(text, to, from)?;
    write_rights(text, rights)
}

fn write_mint(
    text: &mut Vec<u8>,
    to: &SlotAddress,
    from: &SlotAddress,
    rights: Rights,
    given: &CapData,
) -> Result<(), AllocError>
    ensures { OnOk result (text.new.items
        ≡ written text.old.items (mint_form.shape.spell (to.now, (from.now, (rights, given.now))))) }
{
    write_copy(text, to, from, rights)?;
    write_data(text, given)
}

// Writes the operands of a retype, the one call that takes memory.
fn write_retype(text: &mut Vec<u8>, call: &Call) -> Result<(), AllocError>
    requires { takes_memory call.now ≡ Bool.true }
    ensures { OnOk result (text.new.items ≡ written text.old.items (by_form (λ form operands. form.shape.spell operands) call.now)) }
{
    let Call::Retype {
        untyped,
        kind,
        bits,
        to,
        offset,
        count,
    } = call
    else {
        unreachable!()
    };
    write_number(text, *untyped)?;
    write_numbers(text, kind.name(), &[*bits, *to, *offset, *count])
}

pub(crate) fn write_call(text: &mut Vec<u8>, call: &Call) -> Result<(), AllocError>
    ensures { OnOk result (text.new.items ≡ written text.old.items (call_words call.now)) }
{
    write_word(text, name_of(call))?;
    match call {
        Call::Signal { address: number }
        | Call::Poll { address: number }
        | Call::Wait { address: number }
        | Call::ClearSpace { thread: number }
        | Call::Suspend { thread: number }
        | Call::Resume { thread: number }
        | Call::Unbind { context: number } => write_number(text, *number),
        Call::Read {
            address: one,
            index: other,
        }
        | Call::SetSpace {
            thread: one,
            space: other,
        }
        | Call::Bind {
            context: one,
            thread: other,
        } => write_each(text, &[*one, *other]),
        Call::Write {
            address,
            index,
            word,
        } => write_each(text, &[*address, *index, *word]),
        Call::Configure {
            control,
            context,
            budget,
            period,
        } => write_each(text, &[*control, *context, *budget, *period]),
        Call::Send {
            address,
            words,
            capability,
        }
        | Call::Call {
            address,
            words,
            capability,
        } => write_sent(text, *address, words, *capability),
        Call::Receive {
            address,
            reply,
            slot,
        } => write_receive(text, *address, *reply, slot),
        Call::Reply { address, words } => write_reply(text, *address, words),
        Call::Fetch => Ok(()),
        Call::Copy { to, from, rights } => write_copy(text, to, from, *rights),
        Call::Mint {
            to,
            from,
            rights,
            given,
        } => write_mint(text, to, from, *rights, given),
        Call::Move { to, from } => write_slots(text, to, from),
        Call::Delete { slot } | Call::Revoke { slot } => write_slot(text, slot),
        Call::Retype { .. } => write_retype(text, call),
    }
}
