//! The slots of an object, and the changes to one of them.
ghost use Rattle.std.specs.Prelude.{◌≡◌, IfOk, None, option_copied, option_map, replicate, slice_get};
ghost use Rattle.objects.specs.{Edits.edited, Entries.empty_slot, Family.cap_in};

use crate::links::TreeLinks;
use base::{ObjId, SlotRef};
use machine::Cap;
use std::alloc::{AllocError, Global};
use std::marker::Model;

/// A slot: the capability in it, and its links.
#[derive(Clone, Copy)]
pub struct Slot {
    pub cap: Option<Cap>,
    pub links: TreeLinks,
}

impl Slot {
    /// An empty slot, which is in no pair of the derivation tree.
    pub const EMPTY: Slot = Slot {
        cap: None,
        links: TreeLinks::NONE,
    };
}

#[derive(Drop)]
pub struct Slots {
    items: Vec<Slot>,
}

impl Model for Slots {
    ghost use Rattle.std.specs.Prelude.{List};
    ghost use Rattle.objects.specs.declared.slots.Slot.{Slot as Item};

    ghost Value = { List Item };

    ghost view = { λ slots. slots.items.items };
}

impl Slots {
    /// Returns `count` empty slots.
    pub fn empty(alloc: Global, count: u64) -> Result<Slots, AllocError>
        ensures { IfOk result (λ slots. slots ≡ replicate count empty_slot) }
    {
        let mut items = Vec::new(alloc);
        items.resize(count as usize, Slot::EMPTY)?;
        Ok(Slots { items })
    }

    /// Returns the slot at the index, if there is one.
    pub fn get(&self, index: u64) -> Option<&Slot>
        ensures { option_copied result ≡ slice_get self.now index }
    {
        self.items.get(index as usize)
    }

    /// Sets what the slot at the index holds, if there is one.
    pub fn set_cap(&mut self, index: u64, cap: Option<Cap>)
        ensures { self.new ≡ edited (λ slot. record slot { cap = cap }) self.old index }
    {
        if let Some(slot) = self.items.get_mut(index as usize) {
            slot.cap = cap;
        }
    }

    /// Sets the first child of the slot at the index, if there is such a slot.
    pub fn set_first(&mut self, index: u64, first: Option<SlotRef>)
        ensures { self.new
            ≡ edited (λ slot. record slot { links = record slot.links { first = first } }) self.old index }
    {
        if let Some(slot) = self.items.get_mut(index as usize) {
            slot.links.first = first;
        }
    }

    /// Sets the sibling that follows the slot at the index, if there is such a slot.
    pub fn set_next(&mut self, index: u64, next: Option<SlotRef>)
        ensures { self.new ≡ edited (λ slot. record slot { links = record slot.links { next = next } }) self.old index }
    {
        if let Some(slot) = self.items.get_mut(index as usize) {
            slot.links.next = next;
        }
    }

    /// Sets the sibling that the slot at the index follows, if there is such a slot.
    pub fn set_previous(&mut self, index: u64, previous: Option<SlotRef>)
        ensures { self.new
            ≡ edited (λ slot. record slot { links = record slot.links { previous = previous } }) self.old index }
    {
        if let Some(slot) = self.items.get_mut(index as usize) {
            slot.links.previous = previous;
        }
    }

    /// Sets the parent of the slot at the index, if there is one, and the sibling that follows it.
    ///
    /// The slot then follows no sibling.
    pub fn set_under(&mut self, index: u64, parent: Option<SlotRef>, next: Option<SlotRef>)
        ensures { self.new ≡ edited (λ slot. record slot { links = record slot.links { parent = parent; next = next; previous = None } }) self.old index }
    {
        if let Some(slot) = self.items.get_mut(index as usize) {
            slot.links.parent = parent;
            slot.links.next = next;
            slot.links.previous = None;
        }
    }

    // The object that the capability in the slot at the index is for, if there is one.
    fn object_at(&self, index: u64) -> Option<ObjId>
        ensures { result ≡ option_map (λ cap. cap.object) (cap_in (slice_get self.now index)) }
    {
        Some(self.get(index)?.cap.as_ref()?.object)
    }

    /// Empties the slot at the index, if there is one, and returns the object that its capability was for.
    pub fn empty_at(&mut self, index: u64) -> Option<ObjId>
        ensures value { result ≡ option_map (λ cap. cap.object) (cap_in (slice_get self.old index)) }
        ensures emptied { self.new ≡ edited (λ slot. record slot { cap = None }) self.old index }
    {
        let object = self.object_at(index);
        self.set_cap(index, None);
        object
    }
}
