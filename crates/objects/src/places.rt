//! Entries at their places: the entry of a number, and changes to it.
ghost use Rattle.std.specs.Prelude.{ℕ, ◌+◌, ◌-◌, ◌<◌, ◌^◌, ◌≡◌, ◌≤◌, None, OnOk, option_copied, option_map};
ghost use Rattle.objects.specs.Entries.{caps_in, change_slot_in, replace_in, set_caps_in, set_ends_in, set_standing_in};
ghost use Rattle.objects.specs.{Entries.{set_word_in, slot_at}, Family.cap_in, Places.{AddsEntry, HasRoom}};
ghost use Rattle.objects.specs.Places.{RemovesEntry, SameEntries, placed, places_in, with_placed};

use crate::entry::Entry;
use crate::links::{Ends, Standing};
use crate::numbers::{Places, late_place_of, make_room, place_of, set_place, take_place, widen};
use base::{ObjId, SlotRef};
use machine::{Cap, Object};
use slab::Slab;
use std::alloc::AllocError;

/// Returns the object's entry, if the object is present.
pub fn entry<'a>(places: &Places, entries: &'a Slab<Entry>, id: ObjId) -> Option<&'a Entry>
    ensures { option_copied result ≡ placed (places_in places.now) entries.now id }
{
    let place = match places.early.get(id.0) {
        Some(place) => place?,
        None => late_place_of(&places.late, id.0)?,
    };
    entries.get(place)
}

/// Sets what the slot holds, if it is there.
pub fn set_cap(places: &Places, entries: &mut Slab<Entry>, at: SlotRef, cap: Option<Cap>)
    ensures { entries.new
        ≡ with_placed (places_in places.now) entries.old at.holder
        (change_slot_in at.index (λ slot. record slot { cap = cap })) }
{
    if let Some(place) = place_of(places, at.holder.0) {
        if let Some(entry) = entries.get_mut(place) {
            entry.slots.set_cap(at.index, cap);
        }
    }
}

/// Sets the slot's first child, if the slot is there.
pub fn set_first(places: &Places, entries: &mut Slab<Entry>, at: SlotRef, first: Option<SlotRef>)
    ensures { entries.new
        ≡ with_placed (places_in places.now) entries.old at.holder
        (change_slot_in at.index (λ slot. record slot { links = record slot.links { first = first } })) }
{
    if let Some(place) = place_of(places, at.holder.0) {
        if let Some(entry) = entries.get_mut(place) {
            entry.slots.set_first(at.index, first);
        }
    }
}

/// Sets the sibling that follows the slot, if the slot is there.
pub fn set_next(places: &Places, entries: &mut Slab<Entry>, at: SlotRef, next: Option<SlotRef>)
    ensures { entries.new
        ≡ with_placed (places_in places.now) entries.old at.holder
        (change_slot_in at.index (λ slot. record slot { links = record slot.links { next = next } })) }
{
    if let Some(place) = place_of(places, at.holder.0) {
        if let Some(entry) = entries.get_mut(place) {
            entry.slots.set_next(at.index, next);
        }
    }
}

/// Sets the sibling that the slot follows, if the slot is there.
pub fn set_previous(
    places: &Places,
    entries: &mut Slab<Entry>,
    at: SlotRef,
    previous: Option<SlotRef>,
)
    ensures { entries.new
        ≡ with_placed (places_in places.now) entries.old at.holder
        (change_slot_in at.index (λ slot. record slot { links = record slot.links { previous = previous } })) }
{
    if let Some(place) = place_of(places, at.holder.0) {
        if let Some(entry) = entries.get_mut(place) {
            entry.slots.set_previous(at.index, previous);
        }
    }
}

/// Sets the parent of the slot, if the slot is there, and the sibling that follows it.
///
/// The slot then follows no sibling.
pub fn set_under(
    places: &Places,
    entries: &mut Slab<Entry>,
    at: SlotRef,
    parent: Option<SlotRef>,
    next: Option<SlotRef>,
)
    ensures { entries.new
        ≡ with_placed (places_in places.now) entries.old at.holder (change_slot_in at.index
        (λ slot. record slot { links = record slot.links { parent = parent; next = next; previous = None } })) }
{
    if let Some(place) = place_of(places, at.holder.0) {
        if let Some(entry) = entries.get_mut(place) {
            entry.slots.set_under(at.index, parent, next);
        }
    }
}

/// Sets the object's content, if it is present.
pub fn replace(places: &Places, entries: &mut Slab<Entry>, id: ObjId, object: Object)
    ensures { entries.new ≡ with_placed (places_in places.now) entries.old id (replace_in object) }
{
    if let Some(place) = place_of(places, id.0) {
        if let Some(entry) = entries.get_mut(place) {
            entry.object = object;
        }
    }
}

/// Sets the ends of the queue at the object, if it is present.
pub fn set_ends(places: &Places, entries: &mut Slab<Entry>, id: ObjId, ends: Ends)
    ensures { entries.new ≡ with_placed (places_in places.now) entries.old id (set_ends_in ends) }
{
    if let Some(place) = place_of(places, id.0) {
        if let Some(entry) = entries.get_mut(place) {
            entry.ends = ends;
        }
    }
}

/// Sets where the thread stands, if it is present.
pub fn set_standing(places: &Places, entries: &mut Slab<Entry>, thread: ObjId, standing: Standing)
    ensures { entries.new ≡ with_placed (places_in places.now) entries.old thread (set_standing_in standing) }
{
    if let Some(place) = place_of(places, thread.0) {
        if let Some(entry) = entries.get_mut(place) {
            entry.standing = standing;
        }
    }
}

/// Sets a word of the object, if both are present.
pub fn set_word(places: &Places, entries: &mut Slab<Entry>, id: ObjId, index: u64, word: u64)
    ensures { entries.new ≡ with_placed (places_in places.now) entries.old id (set_word_in index word) }
{
    if let Some(place) = place_of(places, id.0) {
        if let Some(entry) = entries.get_mut(place) {
            entry.words.set(index, word);
        }
    }
}

/// Counts one capability more for the object, if it is present.
pub fn count_more(places: &Places, entries: &mut Slab<Entry>, id: ObjId)
    requires { caps_in (placed (places_in places.now) entries.old id) + 1 < 2 ^ 64 }
    ensures { entries.new
        ≡ with_placed (places_in places.now) entries.old id
        (set_caps_in (caps_in (placed (places_in places.now) entries.old id) + 1)) }
{
    if let Some(place) = place_of(places, id.0) {
        if let Some(entry) = entries.get_mut(place) {
            entry.caps += 1;
        }
    }
}

/// Counts one capability less for the object, if it is present.
pub fn count_less(places: &Places, entries: &mut Slab<Entry>, id: ObjId)
    requires { 1 ≤ caps_in (placed (places_in places.now) entries.old id) }
    ensures { entries.new
        ≡ with_placed (places_in places.now) entries.old id
        (set_caps_in (caps_in (placed (places_in places.now) entries.old id) - 1)) }
{
    if let Some(place) = place_of(places, id.0) {
        if let Some(entry) = entries.get_mut(place) {
            entry.caps -= 1;
        }
    }
}

/// Empties the slot, if it is there, and returns the object that its capability was for.
pub fn empty_slot(places: &Places, entries: &mut Slab<Entry>, at: SlotRef) -> Option<ObjId>
    ensures value { result
        ≡ option_map (λ cap. cap.object) (cap_in (slot_at (placed (places_in places.now) entries.old) at)) }
    ensures emptied { entries.new
        ≡ with_placed (places_in places.now) entries.old at.holder
        (change_slot_in at.index (λ slot. record slot { cap = None })) }
{
    let place = place_of(places, at.holder.0)?;
    entries.get_mut(place)?.slots.empty_at(at.index)
}

/// Makes room for `count` more entries, under numbers from `first` on.
///
/// No entry has changed, even on an error.
pub fn reserve(
    places: &mut Places,
    entries: &mut Slab<Entry>,
    first: u64,
    count: usize,
) -> Result<(), AllocError>
    ensures same { SameEntries (places_in places.old) (places_in places.new) entries.old entries.new }
    ensures room { OnOk result (HasRoom places.new entries.new count) }
{
    widen(places, first.saturating_add(count as u64))?;
    make_room(places, count)?;
    entries.reserve(count)
}

/// Adds an entry under a number that is not in use.
///
/// There is room for it.
pub fn add_reserved(places: &mut Places, entries: &mut Slab<Entry>, number: u64, entry: Entry)
    requires { HasRoom places.old entries.old 1 }
    ensures added { AddsEntry (places_in places.old) (places_in places.new) entries.old entries.new number entry }
    ensures room { (more : ℕ) → HasRoom places.old entries.old (more + 1) → HasRoom places.new entries.new more }
{
    let place = entries.insert_reserved(entry);
    set_place(places, number, place);
}

/// Removes the entry of the number, if it is in use.
pub fn remove(places: &mut Places, entries: &mut Slab<Entry>, number: u64)
    ensures { RemovesEntry (places_in places.old) (places_in places.new) entries.old entries.new number }
{
    if let Some(place) = take_place(places, number) {
        entries.try_remove(place);
    }
}
