//! Sights of objects: all that a state has of an object.
ghost use Rattle.std.specs.Prelude.{ℕ, ◌<◌, ◌≡◌, IfErr, IfOk, List, Some, length, slice_get};
ghost use Rattle.base.specs.{declared.ids.ObjId.ObjId as Id, Refusals.plain};
ghost use Rattle.{machine.specs.{Machine.{cap_of, queue_of, words_of}, WellFormed.IsWellFormed}, runs.specs.Sights.IsSeen};

use base::{ObjId, Refusal, SlotRef};
use machine::{Cap, Object};
use objects::State;
use std::alloc::{AllocError, Global};

/// All that a state has of an object.
#[derive(Drop)]
pub struct Sight {
    pub content: Object,
    /// The threads that wait at it, the first first.
    pub queue: Vec<ObjId>,
    pub words: Vec<u64>,
    /// The content of each of its slots.
    pub slots: Vec<Option<Cap>>,
}

/// Returns all that a state has of an object, or `None` if the object doesn't exist.
///
/// The state is used up, since its queue is emptied to be read.
///
/// # Errors
///
/// 40 where memory is refused.
pub fn look(alloc: Global, state: State, id: ObjId) -> Result<Option<Sight>, Refusal>
    requires { IsWellFormed state }
    ensures seen { IfOk result (IsSeen state id) }
    ensures refused { IfErr result (λ refusal. refusal ≡ plain 40) }
{
    let mut state = state;
    state.caps_are_in_slots();
    let Some(&content) = state.object(id) else {
        return Ok(None);
    };
    let words = words(alloc, &state, id, content.word_count())?;
    let slots = slots(alloc, &state, id, content.slot_count())?;
    let queue = queue(alloc, &mut state, id)?;
    Ok(Some(Sight {
        content,
        queue,
        words,
        slots,
    }))
}

// The words of an object that has `count` words.
fn words(alloc: Global, state: &State, id: ObjId, count: u64) -> Result<Vec<u64>, AllocError>
    ensures { IfOk result (λ read. (words : List ℕ) → words_of state.now id ≡ Some words
        → length words ≡ count → read.items ≡ words) }
{
    let mut words = Vec::new(alloc);
    for index in 0..count {
        words.push(state.word(id, index).unwrap_or(0))?;
    }
    Ok(words)
}

// The contents of the first `count` slots of an object.
fn slots(
    alloc: Global,
    state: &State,
    id: ObjId,
    count: u64,
) -> Result<Vec<Option<Cap>>, AllocError>
    ensures counted { IfOk result (λ slots. length slots.items ≡ count) }
    ensures held { IfOk result (λ slots. (index : ℕ) → index < count
        → slice_get slots.items index ≡ Some (cap_of state.now (record { holder = id; index = index }))) }
{
    let mut slots = Vec::new(alloc);
    for index in 0..count {
        slots.push(state.cap(SlotRef { holder: id, index }))?;
    }
    Ok(slots)
}

// The threads that wait at an object that exists. Afterwards none waits there.
fn queue(alloc: Global, state: &mut State, id: ObjId) -> Result<Vec<ObjId>, AllocError>
    ensures { IfOk result (λ queue. (threads : List Id) → queue_of state.old id ≡ Some threads
        → queue.items ≡ threads) }
{
    let mut queue = Vec::new(alloc);
    while let Some(thread) = state.pop_waiting(id) {
        queue.push(thread)?;
    }
    Ok(queue)
}
