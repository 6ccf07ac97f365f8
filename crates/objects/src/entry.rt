//! The entry of an object: all that belongs to it.
ghost use Rattle.std.specs.{List.AllByRecursion, Prelude.{◌≡◌, IfOk, OnOk, Some, map, option_copied}};
ghost use Rattle.objects.specs.{Entries.new_entry, Radices.HasRadix, Roots.root_in};

use crate::links::{Ends, Standing};
use crate::slots::Slots;
use crate::words::Words;
use machine::{Cap, Object};
use std::alloc::{AllocError, Global};

/// An object with all that belongs to it.
#[derive(Drop)]
pub struct Entry {
    pub object: Object,
    pub slots: Slots,
    /// The threads that wait at it.
    pub ends: Ends,
    /// Where it waits, if it is a thread that does.
    pub standing: Standing,
    pub words: Words,
    /// The number of slots that hold a capability for it.
    pub caps: u64,
}

impl Entry {
    /// Returns the capability in the root slot, if the object is a thread and has one there.
    pub fn root(&self) -> Option<&Cap>
        ensures { option_copied result ≡ root_in (Some self.now) }
    {
        match &self.object {
            Object::Tcb(_) => self.slots.get(0)?.cap.as_ref(),
            _ => None,
        }
    }
}

fn new_entry(alloc: Global, object: Object) -> Result<Entry, AllocError>
    ensures { IfOk result (λ entry. entry ≡ new_entry object) }
{
    Ok(Entry {
        object,
        slots: Slots::empty(alloc, object.slot_count())?,
        ends: Ends::NOBODY,
        standing: Standing::NOWHERE,
        words: Words::zeros(alloc, object.word_count())?,
        caps: 0,
    })
}

/// Returns the entries of new objects.
pub fn new_entries(alloc: Global, objects: &[Object]) -> Result<Vec<Entry>, AllocError>
    ensures made { IfOk result (λ made. made.items ≡ map new_entry objects.now) }
    ensures radices { OnOk result (AllByRecursion HasRadix objects.now) }
{
    let mut made = Vec::new(alloc);
    for object in objects {
        cnode_takes_bits(object);
        made.push(new_entry(alloc, *object)?)?;
    }
    Ok(made)
}

/// Shows that a CNode takes 1 to 12 bits of an address, as the type of its radix says.
pub fn cnode_takes_bits(object: &Object)
    ensures { HasRadix object.now }
{
    if let Object::CNode(node) = object {
        let _ = node.radix.bits();
    }
}
