//! Objects compared between two states: whether one differs, and whether it shrank.
ghost use Rattle.std.specs.Prelude.{◌↔◌, ◌∷◌, ◌≡◌, ◌⊎◌, IsTrue, List, None};
ghost use Rattle.{base.specs.declared.ids.ObjId.ObjId as Id, machine.specs.Machine.Machine};
ghost use Rattle.integrity.specs.Shrinks.{IsPart, IsSame, Shrinks};
ghost use Rattle.runs.specs.{Comparing.{AreAlike, HaveLess, IsSameSight, IsLess, LoseCaps}, Sights.{IsSeen, held_at}};

use crate::lessening::{lessens, same_content};
use crate::sight::Sight;
use base::ObjId;
use machine::Cap;

/// Returns whether an object differs between its first sight and its second.
///
/// An object that was made or removed differs, too.
pub fn differs(was: &Option<Sight>, is: &Option<Sight>) -> bool
    ensures { (m next : Machine) (id : Id) → IsSeen m id was.now → IsSeen next id is.now
        → IsTrue result ↔ ¬ (IsSame m next id) }
{
    !are_alike(was, is)
}

/// Returns whether the object shrank between the first sight of it and the second.
///
/// It shrank if it is removed, or has at most lost capabilities, waiting threads and links.
pub fn shrinks(was: &Option<Sight>, is: &Option<Sight>) -> bool
    ensures { (m next : Machine) (id : Id) → IsSeen m id was.now → IsSeen next id is.now
        → IsTrue result ↔ Shrinks m next id }
{
    have_less(was, is)
}

fn are_alike(was: &Option<Sight>, is: &Option<Sight>) -> bool
    ensures { IsTrue result ↔ AreAlike was.now is.now }
{
    match (was, is) {
        (None, None) => true,
        (Some(was), Some(is)) => is_alike(was, is),
        _ => false,
    }
}

fn is_alike(was: &Sight, is: &Sight) -> bool
    ensures { IsTrue result ↔ IsSameSight was.now is.now }
{
    same_content(&was.content, &is.content)
        && same_threads(&was.queue, &is.queue)
        && same_words(&was.words, &is.words)
        && same_slots(&was.slots, &is.slots)
}

fn same_threads(was: &[ObjId], is: &[ObjId]) -> bool
    ensures { IsTrue result ↔ (is.now ≡ was.now) }
{
    is == was
}

fn same_words(was: &[u64], is: &[u64]) -> bool
    ensures { IsTrue result ↔ (is.now ≡ was.now) }
{
    is == was
}

fn same_slots(was: &[Option<Cap>], is: &[Option<Cap>]) -> bool
    ensures { IsTrue result ↔ (is.now ≡ was.now) }
{
    if is.len() != was.len() {
        return false;
    }
    for (index, held) in is.iter().enumerate() {
        if !same_held(&was[index], held) {
            return false;
        }
    }
    true
}

fn same_held(was: &Option<Cap>, is: &Option<Cap>) -> bool
    ensures { IsTrue result ↔ (is.now ≡ was.now) }
{
    is == was
}

// Whether an object was removed, or has less than before.
fn have_less(was: &Option<Sight>, is: &Option<Sight>) -> bool
    ensures { IsTrue result ↔ HaveLess was.now is.now }
{
    match (was, is) {
        (_, None) => true,
        (None, Some(_)) => false,
        (Some(was), Some(is)) => is_less(was, is),
    }
}

// Whether a sight has no more than another.
fn is_less(was: &Sight, is: &Sight) -> bool
    ensures { IsTrue result ↔ IsLess was.now is.now }
{
    if !lessens(&was.content, &is.content) {
        return false;
    }
    if !is_part(&is.queue, &was.queue) {
        return false;
    }
    if !same_words(&was.words, &is.words) {
        return false;
    }
    lose_caps(&was.slots, &is.slots)
}

// Whether the first list is some members of the second, in their order.
fn is_part(part: &[ObjId], all: &[ObjId]) -> bool
    ensures { IsTrue result ↔ IsPart part.now all.now }
{
    let mut rest = part;
    for thread in all {
        rest = rest_after(rest, *thread);
    }
    rest.is_empty()
}

// The members that are left after this one.
fn rest_after(part: &[ObjId], thread: ObjId) -> &[ObjId]
    ensures { (all : List Id) → IsPart part.now (thread ∷ all) ↔ IsPart result.now all }
{
    match part.split_first() {
        Some((first, rest)) => {
            if same_thread(*first, thread) {
                rest
            } else {
                part
            }
        }
        None => part,
    }
}

fn same_thread(one: ObjId, other: ObjId) -> bool
    ensures { IsTrue result ↔ (one ≡ other) }
{
    one == other
}

// Whether each slot holds what it held, or nothing.
fn lose_caps(was: &[Option<Cap>], is: &[Option<Cap>]) -> bool
    ensures { IsTrue result ↔ LoseCaps was.now is.now }
{
    for (index, held) in is.iter().enumerate() {
        if !loses_cap(was, index, held) {
            return false;
        }
    }
    true
}

// Whether a slot holds what the slot at the index held, or nothing.
fn loses_cap(was: &[Option<Cap>], index: usize, held: &Option<Cap>) -> bool
    ensures { IsTrue result ↔ ((held.now ≡ held_at was.now index) ⊎ (held.now ≡ None)) }
{
    if held.is_none() {
        return true;
    }
    match was.get(index) {
        Some(before) => same_held(before, held),
        None => false,
    }
}
