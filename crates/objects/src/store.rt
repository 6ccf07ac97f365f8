//! The entries of the objects, found by number.
ghost use Rattle.std.specs.Prelude.{◌≡◌, None, OnErr, OnOk, Some, option_and_then, option_copied, option_map};
ghost use Rattle.objects.specs.{Family.head_of, Links.end_after};

use crate::entry::{Entry, new_entries};
use crate::links::{Ends, Standing, TreeLinks};
use crate::numbers::{Places, no_places};
use crate::places;
use crate::slots::Slot;
use base::{ObjId, SlotRef};
use machine::{Cap, Object};
use slab::Slab;
use std::alloc::{AllocError, Global};
use std::marker::Model;

/// The entries of the objects, by number.
#[derive(Drop)]
pub struct Store {
    /// From the number of an object to the key of its entry.
    places: Places,
    entries: Slab<Entry>,
    alloc: Global,
}

impl Model for Store {
    ghost use Rattle.std.specs.FinMap.{FinMap};
    ghost use Rattle.std.specs.FinMap as finite;
    ghost use Rattle.base.specs.declared.ids.ObjId.{ObjId as Id};
    ghost use Rattle.base.specs.contracts.ids.ObjId as id;
    ghost use Rattle.machine.specs.Machine.{id_cmp};
    ghost use Rattle.objects.specs.declared.entry.Entry.{Entry as Item};
    ghost use Rattle.objects.specs.contracts.entry.Entry as item;

    ghost Value = { FinMap id_cmp Item };

    ghost coded = { finite.code id.the_row.coded item.the_row.coded };

    ghost use Rattle.objects.specs.Places.{IsPlaced, entries_by_number};

    ghost view = { entries_by_number };

    ghost invariant = { IsPlaced };
}

impl Store {
    ghost use Rattle.std.specs.FinMap as finite;
    ghost use Rattle.std.specs.{List.AllByRecursion, Prelude.{◌+◌, ◌-◌, ◌<◌, ◌^◌, ◌≤◌, length, map, slice_get}};
    ghost use Rattle.base.specs.declared.limits.TheConstants.{OBJECT_NUMBERS};
    ghost use Rattle.objects.specs.Entries.{caps_in, entry_of, new_entry, replace_in, set_caps_in, set_ends_in};
    ghost use Rattle.objects.specs.Entries.{set_standing_in, set_word_in, slot_at, with_entry, with_more};
    ghost use Rattle.objects.specs.Family.{attached, cap_in, detached, leaving, links_at, parent_in, with_links};
    ghost use Rattle.objects.specs.Family.{with_slot};
    ghost use Rattle.objects.specs.{Links.{pushed, quitted, standing_of, with_standing}, Radices.HasRadix};
    ghost use Rattle.objects.specs.Roots.{root_in};

    /// Returns a store without entries.
    pub fn new(alloc: Global) -> Store
        ensures { result ≡ finite.empty }
    {
        Store {
            places: no_places(alloc),
            entries: Slab::new(alloc),
            alloc,
        }
    }

    /// Returns the object's entry, if the object is present.
    pub fn entry(&self, id: ObjId) -> Option<&Entry>
        ensures { option_copied result ≡ entry_of self.now id }
    {
        places::entry(&self.places, &self.entries, id)
    }

    /// Returns the object's content, if the object is present.
    pub fn object(&self, id: ObjId) -> Option<&Object>
        ensures { option_copied result ≡ option_map (λ entry. entry.object) (entry_of self.now id) }
    {
        Some(&self.entry(id)?.object)
    }

    /// Returns the slot, if it is there.
    pub fn slot(&self, at: SlotRef) -> Option<&Slot>
        ensures { option_copied result ≡ slot_at (entry_of self.now) at }
    {
        self.entry(at.holder)?.slots.get(at.index)
    }

    /// Returns the capability in the slot, if there is one.
    pub fn cap(&self, at: SlotRef) -> Option<Cap>
        ensures { result ≡ cap_in (slot_at (entry_of self.now) at) }
    {
        self.slot(at)?.cap
    }

    /// Returns a reference to the capability in the slot, if there is one.
    pub fn held(&self, at: SlotRef) -> Option<&Cap>
        ensures { option_copied result ≡ cap_in (slot_at (entry_of self.now) at) }
    {
        self.slot(at)?.cap.as_ref()
    }

    /// Returns the capability in the root slot of the thread, if there is one.
    pub fn root(&self, thread: ObjId) -> Option<&Cap>
        ensures { option_copied result ≡ root_in (entry_of self.now thread) }
    {
        self.entry(thread)?.root()
    }

    /// Returns the parent of the slot, if it has one.
    pub fn parent(&self, at: SlotRef) -> Option<SlotRef>
        ensures { result ≡ parent_in (slot_at (entry_of self.now) at) }
    {
        self.slot(at)?.links.parent
    }

    /// Returns the first child of the slot, if it has one.
    pub fn first_child(&self, at: SlotRef) -> Option<SlotRef>
        ensures { result ≡ (links_at (entry_of self.now) at).first }
    {
        match self.slot(at) {
            Some(slot) => slot.links.first,
            None => None,
        }
    }

    /// Returns the links of the slot; one that is absent has none.
    pub fn links(&self, at: SlotRef) -> TreeLinks
        ensures { result ≡ links_at (entry_of self.now) at }
    {
        match self.slot(at) {
            Some(slot) => slot.links,
            None => TreeLinks::NONE,
        }
    }

    fn ends(&self, id: ObjId) -> Option<Ends>
        ensures { result ≡ option_map (λ entry. entry.ends) (entry_of self.now id) }
    {
        Some(self.entry(id)?.ends)
    }

    /// Returns the object's word at the index, if both are present.
    pub fn word(&self, id: ObjId, index: u64) -> Option<u64>
        ensures { result ≡ option_and_then (λ entry. slice_get entry.words index) (entry_of self.now id) }
    {
        self.entry(id)?.words.get(index)
    }

    /// Returns the number of capabilities for the object.
    pub fn caps(&self, id: ObjId) -> u64
        ensures { result ≡ caps_in (entry_of self.now id) }
    {
        match self.entry(id) {
            Some(entry) => entry.caps,
            None => 0,
        }
    }

    /// Returns the thread that waits first at the object, if one waits.
    pub fn first(&self, id: ObjId) -> Option<ObjId>
        ensures { result ≡ option_and_then (λ entry. entry.ends.first) (entry_of self.now id) }
    {
        self.entry(id)?.ends.first
    }

    fn standing(&self, thread: ObjId) -> Standing
        ensures { result ≡ standing_of (entry_of self.now thread) }
    {
        match self.entry(thread) {
            Some(entry) => entry.standing,
            None => Standing::NOWHERE,
        }
    }

    /// Sets what the slot holds, if it is there.
    pub fn set_cap(&mut self, at: SlotRef, cap: Option<Cap>)
        ensures { self.new ≡ with_slot self.old at (λ slot. record slot { cap = cap }) }
    {
        places::set_cap(&self.places, &mut self.entries, at, cap);
    }

    fn put_first(&mut self, at: SlotRef, first: Option<SlotRef>)
        ensures { self.new ≡ with_links self.old (Some at) (λ l. record l { first = first }) }
    {
        places::set_first(&self.places, &mut self.entries, at, first);
    }

    fn put_next(&mut self, at: SlotRef, next: Option<SlotRef>)
        ensures { self.new ≡ with_links self.old (Some at) (λ l. record l { next = next }) }
    {
        places::set_next(&self.places, &mut self.entries, at, next);
    }

    fn put_previous(&mut self, at: SlotRef, previous: Option<SlotRef>)
        ensures { self.new ≡ with_links self.old (Some at) (λ l. record l { previous = previous }) }
    {
        places::set_previous(&self.places, &mut self.entries, at, previous);
    }

    // Sets the first child of a slot, if one is named.
    fn set_first(&mut self, at: Option<SlotRef>, first: Option<SlotRef>)
        ensures { self.new ≡ with_links self.old at (λ l. record l { first = first }) }
    {
        if let Some(at) = at {
            self.put_first(at, first);
        }
    }

    // Sets the sibling that follows a slot, if one is named.
    fn set_follower(&mut self, at: Option<SlotRef>, next: Option<SlotRef>)
        ensures { self.new ≡ with_links self.old at (λ l. record l { next = next }) }
    {
        if let Some(at) = at {
            self.put_next(at, next);
        }
    }

    // Sets the sibling that a slot follows, if one is named.
    fn set_leader(&mut self, at: Option<SlotRef>, previous: Option<SlotRef>)
        ensures { self.new ≡ with_links self.old at (λ l. record l { previous = previous }) }
    {
        if let Some(at) = at {
            self.put_previous(at, previous);
        }
    }

    // Sets the parent of a slot and the sibling that follows it; it then follows none.
    fn set_standing_under(&mut self, at: SlotRef, parent: Option<SlotRef>, next: Option<SlotRef>)
        ensures { self.new
            ≡ with_links self.old (Some at) (λ l. record l { parent = parent; next = next; previous = None }) }
    {
        places::set_under(&self.places, &mut self.entries, at, parent, next);
    }

    /// Puts a slot that has no parent before the children of another.
    pub fn attach(&mut self, slot: SlotRef, parent: SlotRef)
        ensures { self.new ≡ attached self.old slot parent }
    {
        let head = self.first_child(parent);
        self.set_leader(head, Some(slot));
        self.set_standing_under(slot, Some(parent), head);
        self.set_first(Some(parent), Some(slot));
    }

    // Takes the slot, which has these links, away from its parent.
    fn leave(&mut self, slot: SlotRef, links: TreeLinks)
        ensures { self.new ≡ leaving self.old slot links }
    {
        self.set_first(heads(links), links.next);
        self.set_follower(links.previous, links.next);
        self.set_leader(links.next, links.previous);
        self.set_standing_under(slot, None, None);
    }

    /// Takes the slot away from its parent, if it has one.
    pub fn detach(&mut self, slot: SlotRef)
        ensures { self.new ≡ detached self.old slot }
    {
        let links = self.links(slot);
        if let Some(_) = links.parent {
            self.leave(slot, links);
        }
    }

    /// Sets the object's content, if it is present.
    pub fn replace(&mut self, id: ObjId, object: Object)
        ensures { self.new ≡ with_entry self.old id (replace_in object) }
    {
        places::replace(&self.places, &mut self.entries, id, object);
    }

    /// Sets the object's word at the index, if both are present.
    pub fn set_word(&mut self, id: ObjId, index: u64, word: u64)
        ensures { self.new ≡ with_entry self.old id (set_word_in index word) }
    {
        places::set_word(&self.places, &mut self.entries, id, index, word);
    }

    /// Counts one capability more for the object, if it is present.
    pub fn count_more(&mut self, id: ObjId)
        requires { caps_in (entry_of self.old id) + 1 < 2 ^ 64 }
        ensures { self.new ≡ with_entry self.old id (set_caps_in (caps_in (entry_of self.old id) + 1)) }
    {
        places::count_more(&self.places, &mut self.entries, id);
    }

    /// Counts one capability less for the object, if it is present.
    pub fn count_less(&mut self, id: ObjId)
        requires { 1 ≤ caps_in (entry_of self.old id) }
        ensures { self.new ≡ with_entry self.old id (set_caps_in (caps_in (entry_of self.old id) - 1)) }
    {
        places::count_less(&self.places, &mut self.entries, id);
    }

    /// Empties the slot, if it is there, and returns the object that its capability was for.
    pub fn empty_slot(&mut self, at: SlotRef) -> Option<ObjId>
        ensures value { result ≡ option_map (λ cap. cap.object) (cap_in (slot_at (entry_of self.old) at)) }
        ensures emptied { self.new ≡ with_slot self.old at (λ slot. record slot { cap = None }) }
    {
        places::empty_slot(&self.places, &mut self.entries, at)
    }

    fn set_ends(&mut self, id: ObjId, ends: Ends)
        ensures { self.new ≡ with_entry self.old id (set_ends_in ends) }
    {
        places::set_ends(&self.places, &mut self.entries, id, ends);
    }

    fn set_standing(&mut self, thread: ObjId, standing: Standing)
        ensures { self.new ≡ with_entry self.old thread (set_standing_in standing) }
    {
        places::set_standing(&self.places, &mut self.entries, thread, standing);
    }

    // Sets the thread behind a thread, if one is named.
    fn set_next(&mut self, thread: Option<ObjId>, next: Option<ObjId>)
        ensures { self.new ≡ with_standing self.old thread (λ s. record s { next = next }) }
    {
        if let Some(thread) = thread {
            let changed = Standing {
                next,
                ..self.standing(thread)
            };
            self.set_standing(thread, changed);
        }
    }

    // Sets the thread before a thread, if one is named.
    fn set_previous(&mut self, thread: Option<ObjId>, previous: Option<ObjId>)
        ensures { self.new ≡ with_standing self.old thread (λ s. record s { previous = previous }) }
    {
        if let Some(thread) = thread {
            let changed = Standing {
                previous,
                ..self.standing(thread)
            };
            self.set_standing(thread, changed);
        }
    }

    /// Puts the thread at the end of the object's queue, if the object is present.
    pub fn push(&mut self, id: ObjId, thread: ObjId)
        ensures { self.new
            ≡ pushed self.old id thread (option_map (λ entry. entry.ends) (entry_of self.old id)) }
    {
        if let Some(ends) = self.ends(id) {
            let standing = Standing {
                at: Some(id),
                previous: ends.last,
                next: None,
            };
            let ends = Ends {
                first: ends.first.or(Some(thread)),
                last: Some(thread),
            };
            self.set_next(standing.previous, Some(thread));
            self.set_standing(thread, standing);
            self.set_ends(id, ends);
        }
    }

    /// Takes a thread out of the object's queue, if the object is present.
    ///
    /// The neighbours of the thread come together.
    pub fn take_out(&mut self, id: ObjId, thread: ObjId)
        ensures { self.new
            ≡ quitted self.old id thread (option_map (λ entry. entry.ends) (entry_of self.old id)) }
    {
        if let Some(ends) = self.ends(id) {
            let standing = self.standing(thread);
            let rest = Ends {
                first: remaining_end(standing.previous, standing.next, ends.first),
                last: remaining_end(standing.next, standing.previous, ends.last),
            };
            self.set_next(standing.previous, standing.next);
            self.set_previous(standing.next, standing.previous);
            self.set_standing(thread, Standing::NOWHERE);
            self.set_ends(id, rest);
        }
    }

    /// Removes the object's entry, if it is present.
    pub fn remove(&mut self, id: ObjId)
        ensures { self.new ≡ finite.remove self.old id }
    {
        places::remove(&mut self.places, &mut self.entries, id.0);
    }

    /// Adds the entries of new objects under one number after another, from `first` on.
    ///
    /// No number in use reaches `first`.
    ///
    /// # Errors
    ///
    /// [`AllocError`] if memory is refused. Then nothing has changed.
    pub fn add_all(&mut self, first: u64, objects: &[Object]) -> Result<(), AllocError>
        requires { first + length objects.now ≤ OBJECT_NUMBERS }
        ensures ok { OnOk result (self.new ≡ with_more self.old first (map new_entry objects.now)) }
        ensures radices { OnOk result (AllByRecursion HasRadix objects.now) }
        ensures err { OnErr result (self.new ≡ self.old) }
    {
        let made = new_entries(self.alloc, objects)?;
        places::reserve(&mut self.places, &mut self.entries, first, made.len())?;
        let mut number = first;
        for entry in made {
            places::add_reserved(&mut self.places, &mut self.entries, number, entry);
            number += 1;
        }
        Ok(())
    }
}

// The slot whose first child has these links.
fn heads(links: TreeLinks) -> Option<SlotRef>
    ensures { result ≡ head_of links links.previous }
{
    match links.previous {
        None => links.parent,
        Some(_) => None,
    }
}

// The end of a queue that a thread has left, by its neighbour towards that end, its other neighbour,
// and the old end.
fn remaining_end(
    neighbour: Option<ObjId>,
    other: Option<ObjId>,
    end: Option<ObjId>,
) -> Option<ObjId>
    ensures { result ≡ end_after neighbour other end }
{
    match neighbour {
        None => other,
        Some(_) => end,
    }
}
