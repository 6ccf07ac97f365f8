//! The kernel's state, with its look-ups and changes.
ghost use Rattle.std.specs.Prelude.{◌≡◌, slice_get};

use crate::counts::Counts;
use crate::entry::cnode_takes_bits;
use crate::store::Store;
use base::{ObjId, SlotRef};
use machine::{Cap, Context, Notification, Object, Reply, Tcb, Untyped};
use std::alloc::{AllocError, Global};
use std::marker::Model;

/// The kernel's state.
///
/// A look-up or a change of one object finds it by its number in the same time, however many there are.
#[derive(Drop)]
pub struct State {
    store: Store,
    next: u64,
    counts: Counts,
    /// The objects that have lost their last capability in a removal that is under way. There is room
    /// for all objects.
    going: Vec<ObjId>,
}

impl Model for State {
    ghost use Rattle.base.specs.contracts.ids.ObjId as id;
    ghost use Rattle.base.specs.contracts.ids.SlotRef as slot;
    ghost use Rattle.machine.specs.Machine.{Machine, machine_code};
    ghost use Rattle.machine.specs.contracts.cap.Cap as capability;
    ghost use Rattle.machine.specs.contracts.object.Object as object;

    ghost Value = { Machine };

    ghost coded = { machine_code id.the_row.coded slot.the_row.coded object.the_row.coded capability.the_row.coded };

    ghost use Rattle.objects.specs.State.{IsSound, machine_of};

    ghost view = { machine_of };

    ghost invariant = { IsSound };
}

impl State {
    ghost use Rattle.std.specs.List.{fold};
    ghost use Rattle.std.specs.Prelude.{◌*◌, ◌+◌, ◌<◌, ◌^◌, ◌≡◌, ◌≢◌, ◌≤◌, IfNone, IfOk, IfSome, IsSome, IsTrue, None};
    ghost use Rattle.std.specs.Prelude.{OnErr, OnOk, Some, length, option_and_then, option_copied, slice_get};
    ghost use Rattle.base.specs.declared.ids.{ObjId.ObjId as Id, SlotRef.SlotRef as Slot};
    ghost use Rattle.base.specs.declared.limits.TheConstants.{MAX_RADIX, OBJECT_NUMBERS};
    ghost use Rattle.machine.specs.declared.{cap.Cap.Cap, object.CNode.CNode};
    ghost use Rattle.machine.specs.Changes.{first_waiting, with_context, with_going, with_none_going, with_pending};
    ghost use Rattle.machine.specs.Changes.{with_reply, with_tcb, with_waiting, with_watermark, with_word};
    ghost use Rattle.machine.specs.Changes.{without_first, without_object, without_waiting};
    ghost use Rattle.machine.specs.Counts.{caps_to, objects_in, slots_in, threads_in};
    ghost use Rattle.machine.specs.Machine.{cap_of, empty_machine, has_slot, object_of, parent_of, with_cap, with_new};
    ghost use Rattle.machine.specs.Machine.{with_object, with_parent, without_cap, without_parent, words_of};
    ghost use Rattle.machine.specs.{Objects.{slot_count, thread_count}, Tree.{IsAlone, IsRanked}, WellFormed.Descends};
    ghost use Rattle.machine.specs.declared.object.Object.TheVariants as o;
    ghost use Rattle.objects.specs.{Pairs.{AreFilled, AreFilledOrGoing, IsFilledOrGoing, MayEmpty}, Roots.root_cap};
    ghost use Rattle.objects.specs.Waiting.{WaitsNowhere, WaitsThere};

    /// Returns a state without objects, which takes its memory from the allocator.
    pub fn new(alloc: Global) -> State
        ensures { result ≡ empty_machine }
    {
        State {
            store: Store::new(alloc),
            next: 0,
            counts: Counts::NONE,
            going: Vec::new(alloc),
        }
    }

    /// Returns the number that the next object gets.
    pub fn next_id(&self) -> u64
        ensures value { result ≡ self.now.next }
        ensures bounded { result ≤ OBJECT_NUMBERS }
    {
        self.next
    }

    /// Returns the number of objects.
    pub fn object_count(&self) -> u64
        ensures value { result ≡ objects_in self.now }
        ensures bounded { result ≤ OBJECT_NUMBERS }
    {
        self.counts.objects
    }

    /// Returns the number of slots that the objects have together, filled or not.
    pub fn slot_count(&self) -> u64
        ensures value { result ≡ slots_in self.now }
        ensures bounded { result ≤ OBJECT_NUMBERS * 2 ^ MAX_RADIX }
    {
        self.counts.slots
    }

    /// Returns the number of objects that are threads.
    pub fn thread_count(&self) -> u64
        ensures value { result ≡ threads_in self.now }
        ensures bounded { result ≤ OBJECT_NUMBERS }
    {
        self.counts.threads
    }

    /// Returns the number of slots that hold a capability for the object; 0 if it isn't there.
    pub fn cap_count(&self, id: ObjId) -> u64
        ensures value { result ≡ caps_to self.now id }
        ensures bounded { result ≤ OBJECT_NUMBERS * 2 ^ MAX_RADIX }
    {
        self.store.caps(id)
    }

    /// Shows that each capability is for an object that is there.
    pub fn caps_are_for_objects(&self)
        ensures { (slot : Slot) (held : Cap) → cap_of self.now slot ≡ Some held
            → IsSome (object_of self.now held.object) }
    {
        // Reading a field makes known what the type keeps.
        let _ = &self.next;
    }

    /// Shows that each capability is in a slot that is there.
    pub fn caps_are_in_slots(&self)
        ensures { (slot : Slot) (held : Cap) → cap_of self.now slot ≡ Some held → IsTrue (has_slot self.now slot) }
    {
        // Reading a field makes known what the type keeps.
        let _ = &self.next;
    }

    /// Shows that each CNode takes 1 to 12 bits of an address to select a slot.
    pub fn cnodes_take_bits(&self)
        ensures { (id : Id) (node : CNode) → object_of self.now id ≡ Some (o.CNode node)
            → (0 < node.radix) × (node.radix ≤ MAX_RADIX) }
    {
        // Reading a field makes known what the type keeps.
        let _ = &self.next;
    }

    /// Shows that the number of each object is below the next one.
    pub fn objects_are_numbered(&self)
        ensures { (id : Id) → IsSome (object_of self.now id) → id.0 < self.now.next }
    {
        // Reading a field makes known what the type keeps.
        let _ = &self.next;
    }

    /// Returns the object of that number, if there is one.
    pub fn object(&self, id: ObjId) -> Option<&Object>
        ensures { option_copied result ≡ object_of self.now id }
    {
        self.store.object(id)
    }

    /// Returns the capability in the slot; none if the slot is empty or isn't there.
    pub fn cap(&self, slot: SlotRef) -> Option<Cap>
        ensures { result ≡ cap_of self.now slot }
    {
        self.store.cap(slot)
    }

    /// Returns a reference to the capability in the slot, if there is one.
    ///
    /// [`State::cap`] copies it.
    pub fn held(&self, slot: SlotRef) -> Option<&Cap>
        ensures { option_copied result ≡ cap_of self.now slot }
    {
        self.store.held(slot)
    }

    /// Returns the capability in a thread's root slot; none if that slot is empty or the object is no thread.
    pub fn root(&self, thread: ObjId) -> Option<&Cap>
        ensures { option_copied result ≡ root_cap self.now thread }
    {
        self.store.root(thread)
    }

    /// Returns the slot that this slot's capability was derived from (seL4 manual, "Capability Derivation Tree").
    ///
    /// It is `None` if the capability wasn't derived.
    pub fn parent(&self, slot: SlotRef) -> Option<SlotRef>
        ensures { result ≡ parent_of self.now slot }
    {
        self.store.parent(slot)
    }

    /// Returns whether there is such a slot, filled or not.
    pub fn has_slot(&self, slot: SlotRef) -> bool
        ensures { result ≡ has_slot self.now slot }
    {
        match self.object(slot.holder) {
            Some(object) => slot.index < object.slot_count(),
            None => false,
        }
    }

    /// Returns the object's word at the index; none if the object isn't there or has fewer words.
    pub fn word(&self, id: ObjId, index: u64) -> Option<u64>
        ensures { result ≡ option_and_then (λ words. slice_get words index) (words_of self.now id) }
    {
        self.store.word(id, index)
    }

    /// Returns the thread that has waited longest at the object, if one waits.
    pub fn first_waiting(&self, id: ObjId) -> Option<ObjId>
        ensures { result ≡ first_waiting self.now id }
    {
        self.store.first(id)
    }

    /// Adds an object under the next number.
    ///
    /// The object's slots are empty, nobody waits at it, and its words are zero.
    ///
    /// # Errors
    ///
    /// [`AllocError`] if memory is refused. Then nothing has changed.
    pub fn add_object(&mut self, object: Object) -> Result<ObjId, AllocError>
        requires { self.old.next < OBJECT_NUMBERS }
        ensures made { OnOk result (self.new ≡ with_new self.old object) }
        ensures numbered { IfOk result (λ id. id ≡ record { 0 = self.old.next }) }
        ensures err { OnErr result (self.new ≡ self.old) }
    {
        let number = self.next_id();
        self.add_objects(&[object])?;
        Ok(ObjId(number))
    }

    /// Adds objects as [`State::add_object`] does, one after another.
    ///
    /// # Errors
    ///
    /// [`AllocError`] if memory is refused. Then nothing has changed.
    pub fn add_objects(&mut self, objects: &[Object]) -> Result<(), AllocError>
        requires { self.old.next + length objects.now ≤ OBJECT_NUMBERS }
        ensures ok { OnOk result (self.new ≡ fold with_new self.old objects.now) }
        ensures err { OnErr result (self.new ≡ self.old) }
    {
        let total = self.counts.objects as usize + objects.len();
        self.going.reserve(total)?;
        self.store.add_all(self.next, objects)?;
        self.next += objects.len() as u64;
        self.counts = self.counts.with_all(objects);
        Ok(())
    }

    /// Removes the object, for which there is no capability.
    ///
    /// The object's slots are empty and in no pair of the derivation tree, nobody waits at it, and
    /// it waits nowhere. Its number isn't used again. Does nothing if there is no such object.
    pub fn remove_object(&mut self, id: ObjId)
        requires unheld { caps_to self.old id ≡ 0 }
        requires hollow { (slot : Slot) → slot.holder ≡ id → cap_of self.old slot ≡ None }
        requires alone { (slot : Slot) → slot.holder ≡ id → IsAlone self.old slot }
        requires deserted { first_waiting self.old id ≡ None }
        requires free { WaitsNowhere self.old id }
        ensures { self.new ≡ without_object self.old id }
    {
        if let Some(&object) = self.object(id) {
            self.store.remove(id);
            self.counts = self.counts.without(&object);
        }
    }

    /// Puts a capability into an empty slot.
    pub fn put_cap(&mut self, slot: SlotRef, cap: Cap)
        requires there { IsTrue (has_slot self.old slot) }
        requires vacant { cap_of self.old slot ≡ None }
        requires object { IsSome (object_of self.old cap.object) }
        ensures { self.new ≡ with_cap self.old slot cap }
    {
        self.store.set_cap(slot, Some(cap));
        self.store.count_more(cap.object);
    }

    /// Empties the slot.
    ///
    /// The slot is in no pair of the derivation tree, or its holder is going. In the second case it
    /// keeps its place in the tree.
    pub fn take_cap(&mut self, slot: SlotRef)
        requires { MayEmpty self.old slot }
        ensures { self.new ≡ without_cap self.old slot }
    {
        if let Some(object) = self.store.empty_slot(slot) {
            self.store.count_less(object);
        }
    }

    /// Returns the object at an index among those that are going, if there are as many.
    ///
    /// These objects have lost their last capability in a removal that is under way.
    pub fn going(&self, index: u64) -> Option<ObjId>
        ensures { result ≡ slice_get self.now.going index }
    {
        at_index(&self.going, index)
    }

    /// Returns the number of objects that have lost their last capability in a removal that is under way.
    pub fn going_count(&self) -> u64
        ensures { result ≡ length self.now.going }
    {
        self.going.len() as u64
    }

    /// Notes that the object, which is there, has lost its last capability in a removal that is under way.
    pub fn add_going(&mut self, id: ObjId)
        requires there { IsSome (object_of self.old id) }
        requires lost { caps_to self.old id ≡ 0 }
        requires room { length self.old.going < objects_in self.old }
        ensures { self.new ≡ with_going self.old id }
    {
        self.going.push_reserved(id);
    }

    /// Forgets which objects have lost their last capability.
    ///
    /// No pair of the derivation tree has an empty slot.
    pub fn clear_going(&mut self)
        requires { AreFilled self.old }
        ensures { self.new ≡ with_none_going self.old }
    {
        self.going.clear();
    }

    /// Returns a child of the slot in the derivation tree, if it has one.
    pub fn first_child(&self, slot: SlotRef) -> Option<SlotRef>
        ensures some { IfSome result (λ child. parent_of self.now child ≡ Some slot) }
        ensures none { IfNone result ((child : Slot) → parent_of self.now child ≢ Some slot) }
    {
        self.store.first_child(slot)
    }

    /// Makes `slot` a child of `parent` in the derivation tree (seL4 manual, "Capability Derivation Tree").
    ///
    /// The slot has no parent before. It keeps its children, so the parent may not descend from it.
    /// Each of the two is filled, or its holder is going.
    pub fn attach(&mut self, slot: SlotRef, parent: SlotRef)
        requires below { IsTrue (has_slot self.old slot) }
        requires above { IsTrue (has_slot self.old parent) }
        requires low { IsFilledOrGoing self.old slot }
        requires high { IsFilledOrGoing self.old parent }
        requires root { parent_of self.old slot ≡ None }
        requires ranked { IsRanked (with_parent self.old slot parent) }
        ensures { self.new ≡ with_parent self.old slot parent }
    {
        self.store.attach(slot, parent);
    }

    /// Takes the slot away from its parent, if it has one.
    ///
    /// It keeps its children.
    pub fn detach(&mut self, slot: SlotRef)
        ensures { self.new ≡ without_parent self.old slot }
    {
        self.store.detach(slot);
    }

    /// Shows that pairs of the derivation tree join slots that are there, and that no slot descends from itself.
    ///
    /// Each of these slots is filled, or its holder is going.
    pub fn keeps_a_forest(&self)
        ensures below { (slot parent : Slot) → parent_of self.now slot ≡ Some parent → IsTrue (has_slot self.now slot) }
        ensures above { (slot parent : Slot) → parent_of self.now slot ≡ Some parent
            → IsTrue (has_slot self.now parent) }
        ensures paired { AreFilledOrGoing self.now }
        ensures ranked { IsRanked self.now }
        ensures acyclic { (slot : Slot) → ¬ Descends self.now slot slot }
    {
        // Reading a field makes known what the type keeps.
        let _ = &self.next;
    }

    // Sets the object's content, which has as many slots as before, and is a thread if it was one.
    fn replace(&mut self, id: ObjId, object: Object)
        requires present { IsSome (object_of self.old id) }
        requires same_slots { IfSome (object_of self.old id) (λ old. slot_count object ≡ slot_count old) }
        requires same_threads { IfSome (object_of self.old id) (λ old. thread_count object ≡ thread_count old) }
        ensures { self.new ≡ with_object self.old id object }
    {
        cnode_takes_bits(&object);
        self.store.replace(id, object);
    }

    /// Sets the watermark of the untyped memory.
    ///
    /// Does nothing if there is none of that number.
    #[tactic(auto, unfolding(machine::specs::Changes::with_watermark))]
    pub fn set_watermark(&mut self, id: ObjId, watermark: u64)
        ensures { self.new ≡ with_watermark self.old id watermark }
    {
        if let Some(&Object::Untyped(memory)) = self.object(id) {
            let changed = Untyped {
                watermark,
                ..memory
            };
            self.replace(id, Object::Untyped(changed));
        }
    }

    /// Sets the word of the notification.
    ///
    /// Does nothing if there is none of that number.
    #[tactic(auto, unfolding(machine::specs::Changes::with_pending))]
    pub fn set_pending(&mut self, id: ObjId, pending: Option<u64>)
        ensures { self.new ≡ with_pending self.old id pending }
    {
        if let Some(&Object::Notification(notification)) = self.object(id) {
            let changed = Notification {
                pending,
                ..notification
            };
            self.replace(id, Object::Notification(changed));
        }
    }

    /// Sets the thread.
    ///
    /// Does nothing if there is none of that number.
    #[tactic(auto, unfolding(machine::specs::Changes::with_tcb))]
    pub fn set_tcb(&mut self, id: ObjId, thread: Tcb)
        ensures { self.new ≡ with_tcb self.old id thread }
    {
        if let Some(Object::Tcb(_)) = self.object(id) {
            self.replace(id, Object::Tcb(thread));
        }
    }

    /// Sets the reply.
    ///
    /// Does nothing if there is none of that number.
    #[tactic(auto, unfolding(machine::specs::Changes::with_reply))]
    pub fn set_reply(&mut self, id: ObjId, reply: Reply)
        ensures { self.new ≡ with_reply self.old id reply }
    {
        if let Some(Object::Reply(_)) = self.object(id) {
            self.replace(id, Object::Reply(reply));
        }
    }

    /// Sets the scheduling context.
    ///
    /// Does nothing if there is none of that number.
    #[tactic(auto, unfolding(machine::specs::Changes::with_context))]
    pub fn set_context(&mut self, id: ObjId, context: Context)
        ensures { self.new ≡ with_context self.old id context }
    {
        if let Some(Object::Context(_)) = self.object(id) {
            self.replace(id, Object::Context(context));
        }
    }

    /// Sets the object's word at the index.
    ///
    /// Does nothing if the object isn't there or has fewer words.
    pub fn set_word(&mut self, id: ObjId, index: u64, word: u64)
        ensures { self.new ≡ with_word self.old id index word }
    {
        self.store.set_word(id, index, word);
    }

    /// Puts the thread behind those that wait at the object.
    ///
    /// Does nothing if there is no such object.
    pub fn push_waiting(&mut self, id: ObjId, thread: ObjId)
        requires present { IsSome (object_of self.old thread) }
        requires free { WaitsNowhere self.old thread }
        ensures { self.new ≡ with_waiting self.old id thread }
    {
        self.store.push(id, thread);
    }

    /// Takes the thread that has waited longest at the object, if one waits.
    pub fn pop_waiting(&mut self, id: ObjId) -> Option<ObjId>
        ensures value { result ≡ first_waiting self.old id }
        ensures rest { self.new ≡ without_first self.old id }
    {
        let first = self.store.first(id)?;
        self.take_waiting(id, first);
        Some(first)
    }

    /// Takes a thread out of those that wait at the object.
    ///
    /// The others stay in their order.
    ///
    /// The call takes the same time however many wait.
    pub fn take_waiting(&mut self, id: ObjId, thread: ObjId)
        requires { WaitsThere self.old id thread }
        ensures { self.new ≡ without_waiting self.old id thread }
    {
        self.store.take_out(id, thread);
    }
}

fn at_index(objects: &[ObjId], index: u64) -> Option<ObjId>
    ensures { result ≡ slice_get objects.now index }
{
    objects.get(index as usize).copied()
}
