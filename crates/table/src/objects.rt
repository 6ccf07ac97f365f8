//! The objects of a capability table, with their names and addresses.
ghost use Rattle.std.specs.{List.list_any, Option.option_copied, Prelude.{[], ◌++◌, ◌+◌, ◌<◌, ◌∷◌, ◌≡◌, ◌≤◌, OnErr}};
ghost use Rattle.std.specs.Prelude.{OnOk, false, find, if◌then◌else◌, is_some, length, not, option_map, position};
ghost use Rattle.std.specs.{Prelude.{slice_get, true, vec_len}, Str.bytes_eq, Vec.vec_capacity};
ghost use Rattle.base.specs.declared.limits.TheConstants.{ADDRESS_END, MAX_SLOTS, MAX_THREADS};
ghost use Rattle.machine.specs.{Authority.has_memory_at, Objects.{end_of, slot_count}};
ghost use Rattle.table.specs.{Placement.meets, Rules.{is_tcb, slots_in, threads_in}};

use crate::extent::{Extent, holder, insert_within, meets_any};
use crate::names::Names;
use base::Label;
use machine::{Initial, Object};
use std::alloc::{AllocError, Global};
use std::marker::Model;

/// A list of objects with their names, numbered from 0 in the order in which they were added.
#[derive(Drop)]
pub struct Objects {
    names: Names,
    items: Vec<Initial>,
    /// Where the objects lie, rising for the search of overlaps.
    extents: Vec<Extent>,
    slots: u64,
    threads: u64,
}

impl Model for Objects {
    ghost use Rattle.std.specs.{List.Sorted.IsPermutation, Prelude.{◌≡◌, length}};
    ghost use Rattle.table.specs.{Inventory.{Inventory, extents_from}, Placement.AreApart};
    ghost use Rattle.table.specs.Rules.{slots_in, threads_in};

    ghost Value = { Inventory };

    ghost view = { λ o. record { names = o.names; objects = o.items.items } };

    ghost invariant = { λ o. record {
      named : length o.names ≡ length o.items.items;
      extents : IsPermutation (extents_from 0 o.items.items) o.extents.items;
      apart : AreApart o.extents.items;
      slots : o.slots ≡ slots_in o.items.items;
      threads : o.threads ≡ threads_in o.items.items;
    } };
}

impl Objects {
    /// Returns a list without objects.
    pub fn new(alloc: Global) -> Objects
        ensures names { result.names ≡ [] }
        ensures objects { result.objects ≡ [] }
    {
        Objects {
            names: Names::new(alloc),
            items: Vec::new(alloc),
            extents: Vec::new(alloc),
            slots: 0,
            threads: 0,
        }
    }

    /// Returns the objects, by their numbers.
    pub fn as_slice(&self) -> &[Initial]
        ensures objects { result.now ≡ self.now.objects }
        ensures named { length self.now.names ≡ length self.now.objects }
    {
        // The type's invariant is known once a field is read.
        let _ = &self.names;
        self.items.as_slice()
    }

    /// Returns the object of this number, if there is one.
    pub fn get(&self, number: u64) -> Option<Initial>
        ensures { result ≡ slice_get self.now.objects number }
    {
        self.items.get(number as usize).copied()
    }

    /// Returns the name of the object of this number, if there is one.
    pub fn name(&self, number: u64) -> Option<&str>
        ensures { option_copied result ≡ slice_get self.now.names number }
    {
        self.names.get(number as usize)
    }

    /// Returns the number of the object of this name, if there is one.
    pub fn number(&self, name: &str) -> Option<u64>
        ensures { result ≡ position (λ other. bytes_eq name.now other) self.now.names }
    {
        self.names.number(name).map(|number| number as u64)
    }

    /// Returns the number of slots that the objects have together.
    pub fn slots(&self) -> u64
        ensures { result ≡ slots_in self.now.objects }
    {
        self.slots
    }

    /// Returns the number of objects that are threads.
    pub fn threads(&self) -> u64
        ensures { result ≡ threads_in self.now.objects }
    {
        self.threads
    }

    /// Returns whether an object overlaps none of the list.
    pub fn is_free(&self, object: &Object) -> bool
        requires { end_of object.now ≤ ADDRESS_END }
        ensures { result ≡ not (list_any (λ initial. meets initial.object object.now) self.now.objects) }
    {
        !meets_any(
            self.extents.as_slice(),
            &Extent::of(self.items.len() as u64, object),
        )
    }

    /// Returns the label of the untyped memory that holds an address, if some does.
    pub fn label_at(&self, address: u64) -> Option<Label>
        ensures { result ≡ option_map (λ initial. initial.label) (find (has_memory_at address) self.now.objects) }
    {
        let extent = holder(self.extents.as_slice(), address)?;
        let initial = self.items.get(extent.number as usize)?;
        match initial.object {
            Object::Untyped(_) => Some(initial.label),
            _ => None,
        }
    }

    /// Adds an object under a new name.
    ///
    /// # Errors
    ///
    /// [`AllocError`] where memory is refused. Then nothing has changed.
    pub fn add(&mut self, name: &str, initial: Initial) -> Result<(), AllocError>
        requires fresh { is_some (position (λ other. bytes_eq name.now other) self.old.names) ≡ false }
        requires end { end_of initial.object ≤ ADDRESS_END }
        requires free { not (list_any (λ other. meets other.object initial.object) self.old.objects) ≡ true }
        requires slots { slots_in self.old.objects + slot_count initial.object ≤ MAX_SLOTS }
        requires threads { threads_in self.old.objects + (if is_tcb initial.object then 1 else 0) ≤ MAX_THREADS }
        ensures names { OnOk result (self.new.names ≡ self.old.names ++ name.now ∷ []) }
        ensures objects { OnOk result (self.new.objects ≡ self.old.objects ++ initial ∷ []) }
        ensures err { OnErr result (self.new ≡ self.old) }
    {
        self.items.reserve(1)?;
        self.extents.reserve(1)?;
        self.names.add(name)?;
        insert_within(
            &mut self.extents,
            Extent::of(self.items.len() as u64, &initial.object),
        );
        push_within(&mut self.items, initial);
        self.slots += initial.object.slot_count();
        if let Object::Tcb(_) = initial.object {
            self.threads += 1;
        }
        Ok(())
    }
}

/// Appends an item to a vector that has room for it.
fn push_within<T: Copy>(items: &mut Vec<T>, item: T)
    requires { vec_len items.old < vec_capacity items.old }
    ensures { items.new.items ≡ items.old.items ++ item ∷ [] }
{
    if items.push(item).is_err() {
        unreachable!()
    }
}
