//! Laws about removals: which capabilities and objects are removed, and what happens to those that stay.
ghost use Rattle.std.specs.{Bool.Decides, Prelude.{[], ◌↔◌, ◌≡◌, ◌≢◌, ◌≤◌, Bool, Contains}};
ghost use Rattle.std.specs.Prelude.{List, None, Ok, Some, false, if◌then◌else◌, true};
ghost use Rattle.base.specs.declared.ids.{ObjId.ObjId as Id, SlotRef.SlotRef as Slot};
ghost use Rattle.machine.specs.declared.{call.Made.Made as Comes, cap.Cap.Cap as Held};
ghost use Rattle.machine.specs.declared.object.{Context.Context as Bound, Object.Object as Thing, Reply.Reply as Holding};
ghost use Rattle.machine.specs.declared.{slot_address.SlotAddress.SlotAddress as Place, thread.Tcb.Tcb as Thread};
ghost use Rattle.machine.specs.{Below.is_below, Counts.caps_to, Finalising.{IsHolding, aborted, halted, has_links, is_aborted}};
ghost use Rattle.machine.specs.{Finalising.{is_halted, leads_nowhere, leaves, unbound}, Gone.{IsGone, IsLeastSet, LosesAll, gone_of}};
ghost use Rattle.machine.specs.{Machine.{Machine, cap_of, object_of, parent_of, queue_of, same_slot, words_of}, Orphans.Nearest};
ghost use Rattle.machine.specs.Removal.{cap_after, object_after, parent_after, queue_after, removed, vanishes, words_after};
ghost use Rattle.machine.specs.{Step.{Delete.delete_of, Revoke.revoke_of, Target.target_of}, WellFormed.{Descends, IsThread, IsWellFormed}};
ghost use Rattle.machine.specs.declared.object.Object.TheVariants as o;
ghost use Rattle.machine.specs.declared.object.ReplyState.TheVariants as reply;

/// A law: the test whether a slot descends from another decides it, in every machine.
pub fn descending_is_decided()
    ensures { (m : Machine) (above slot : Slot) → Decides (is_below m above slot) (Descends m slot above) }
{}

/// A law: a delete empties the slot that it names, and a revoke leaves nothing that descends from the slot it names.
///
/// This is so for calls that are made, and for a revoke in a well-formed machine.
pub fn deletes_and_revokes_leave_nothing()
    ensures delete { (m : Machine) (caller : Id) (address : Place) (made : Comes) (next : Machine)
        → delete_of m caller address ≡ Ok (made, next)
        → (slot : Slot) × (target_of m caller address ≡ Ok slot) × (cap_of next slot ≡ None) }
    ensures revoke { (m : Machine) (caller : Id) (address : Place) (made : Comes) (next : Machine)
        → IsWellFormed m
        → revoke_of m caller address ≡ Ok (made, next)
        → (slot : Slot) × (target_of m caller address ≡ Ok slot) × ((below : Slot) → ¬ (Descends next below slot)) }
{}

/// A law: the slots that are removed with some chosen slots are a least set.
///
/// They are the least set that holds the chosen slots and, whenever it holds every capability of a
/// CNode or thread that has at least one, all slots of that object. An object vanishes if it had a
/// capability, and all that it had are removed.
pub fn what_goes_is_the_least_closed_set()
    ensures least { (m : Machine) (chosen : Slot → Bool) → IsLeastSet m chosen (gone_of m chosen) }
    ensures reasons { (m : Machine) (chosen : Slot → Bool) (slot : Slot)
        → Decides (gone_of m chosen slot) (IsGone m chosen slot) }
    ensures vanishing { (m : Machine) (chosen : Slot → Bool) (id : Id)
        → Decides (vanishes m chosen id) (LosesAll m (gone_of m chosen) id) }
{}

/// A law: the number of capabilities for an object tells which is the last.
///
/// The number is 0 exactly if no slot holds one, and 1 exactly if a slot that holds one holds all.
/// An object vanishes in a removal exactly if there are some before it and none after.
pub fn counts_tell_the_last_capability()
    ensures none { (m : Machine) (id : Id)
        → (caps_to m id ≡ 0) ↔ ((slot : Slot) (held : Held) → cap_of m slot ≡ Some held → held.object ≢ id) }
    ensures last { (m : Machine) (slot : Slot) (held : Held)
        → cap_of m slot ≡ Some held
        → (caps_to m held.object ≡ 1) ↔ LosesAll m (λ q. same_slot q slot) held.object }
    ensures vanishing { (m : Machine) (chosen : Slot → Bool) (id : Id)
        → Decides (vanishes m chosen id) ((1 ≤ caps_to m id) × (caps_to (removed m chosen) id ≡ 0)) }
{}

/// A law: after a removal, the parent of each slot that stays is its nearest ancestor that stays, if it has one.
///
/// A slot that is removed has no parent.
pub fn orphans_come_to_their_nearest_ancestor()
    ensures stays { (m : Machine) (chosen : Slot → Bool)
        → ((slot : Slot) → ¬ (Descends m slot slot))
        → (slot : Slot)
        → gone_of m chosen slot ≡ false
        → Nearest (parent_of m) (gone_of m chosen) (parent_of m slot) (parent_of (removed m chosen) slot) }
    ensures goes { (m : Machine) (chosen : Slot → Bool) (slot : Slot)
        → gone_of m chosen slot ≡ true
        → parent_of (removed m chosen) slot ≡ None }
{}

/// A law: the machine before a removal determines what each look-up answers after it.
pub fn a_removal_is_told_by_its_look_ups()
    ensures objects { (m : Machine) (chosen : Slot → Bool) (id : Id)
        → object_of (removed m chosen) id ≡ object_after m (vanishes m chosen) id }
    ensures queues { (m : Machine) (chosen : Slot → Bool) (id : Id)
        → queue_of (removed m chosen) id ≡ queue_after m (vanishes m chosen) id }
    ensures words { (m : Machine) (chosen : Slot → Bool) (id : Id)
        → words_of (removed m chosen) id ≡ words_after m (vanishes m chosen) id }
    ensures caps { (m : Machine) (chosen : Slot → Bool) (slot : Slot)
        → cap_of (removed m chosen) slot ≡ cap_after m (gone_of m chosen) slot }
    ensures parents { (m : Machine) (chosen : Slot → Bool) (slot : Slot)
        → parent_of (removed m chosen) slot ≡ parent_after m (gone_of m chosen) slot }
    ensures next { (m : Machine) (chosen : Slot → Bool) → (removed m chosen).next ≡ m.next }
    ensures going { (m : Machine) (chosen : Slot → Bool) → (removed m chosen).going ≡ [] }
{}

/// A law: what an object that vanishes does to those that stay depends on its kind.
///
/// The clauses say it kind by kind. A CNode, untyped memory, a frame and a control do nothing more.
pub fn vanished_objects_are_finalised()
    // an endpoint or a notification: all in its queue are aborted, unless they are halted
    ensures queued { (m : Machine) (chosen : Slot → Bool)
        → IsWellFormed m
        → (id thread : Id) (threads : List Id) (tcb : Thread)
        → vanishes m chosen id ≡ true
        → queue_of m id ≡ Some threads
        → Contains threads thread
        → IsThread m thread tcb
        → vanishes m chosen thread ≡ false
        → is_halted (vanishes m chosen) tcb.state ≡ false
        → IsThread (removed m chosen) thread (unbound (vanishes m chosen) (aborted tcb)) }
    // a reply: the thread that waits with it or has called through it is halted
    ensures held { (m : Machine) (chosen : Slot → Bool)
        → IsWellFormed m
        → (id thread : Id) (holding : Holding) (tcb : Thread)
        → vanishes m chosen id ≡ true
        → object_of m id ≡ Some (o.Reply holding)
        → IsHolding holding.state thread
        → IsThread m thread tcb
        → vanishes m chosen thread ≡ false
        → IsThread (removed m chosen) thread (unbound (vanishes m chosen) (halted tcb)) }
    // a context: its thread loses it
    ensures context { (m : Machine) (chosen : Slot → Bool)
        → IsWellFormed m
        → (id thread : Id) (context : Bound) (tcb : Thread)
        → vanishes m chosen id ≡ true
        → object_of m id ≡ Some (o.Context context)
        → context.thread ≡ Some thread
        → IsThread m thread tcb
        → vanishes m chosen thread ≡ false
        → (after : Thread) × IsThread (removed m chosen) thread after × (after.context ≡ None) }
    // a thread: it is in no queue, and neither is one that is aborted or halted
    ensures queues { (m : Machine) (chosen : Slot → Bool) (id thread : Id) (threads : List Id)
        → queue_of (removed m chosen) id ≡ Some threads
        → Contains threads thread
        → leaves m (vanishes m chosen) thread ≡ false }
    // the reply of such a thread becomes free; each other reply is as it was
    ensures replies { (m : Machine) (chosen : Slot → Bool) (id thread : Id) (holding : Holding)
        → object_of m id ≡ Some (o.Reply holding)
        → IsHolding holding.state thread
        → vanishes m chosen id ≡ false
        → object_of (removed m chosen) id
        ≡ Some (o.Reply
        (record holding { state = if leaves m (vanishes m chosen) thread then reply.Free else holding.state })) }
    // a thread's context is unbound
    ensures contexts { (m : Machine) (chosen : Slot → Bool) (id thread : Id) (context : Bound)
        → object_of m id ≡ Some (o.Context context)
        → context.thread ≡ Some thread
        → vanishes m chosen thread ≡ true
        → vanishes m chosen id ≡ false
        → object_of (removed m chosen) id ≡ Some (o.Context (record context { thread = None })) }
    // each other thread is as it was
    ensures threads { (m : Machine) (chosen : Slot → Bool) (thread : Id) (tcb : Thread)
        → IsThread m thread tcb
        → vanishes m chosen thread ≡ false
        → is_halted (vanishes m chosen) tcb.state ≡ false
        → is_aborted (vanishes m chosen) tcb.state ≡ false
        → leads_nowhere (vanishes m chosen) tcb.context ≡ false
        → IsThread (removed m chosen) thread tcb }
    // each object of another kind is as it was
    ensures others { (m : Machine) (chosen : Slot → Bool) (id : Id) (object : Thing)
        → object_of m id ≡ Some object
        → vanishes m chosen id ≡ false
        → has_links object ≡ false
        → object_of (removed m chosen) id ≡ Some object }
{}

/// A law: a removal keeps a well-formed machine well formed.
pub fn removals_keep_machines_well_formed()
    ensures { (m : Machine) (chosen : Slot → Bool) → IsWellFormed m → IsWellFormed (removed m chosen) }
{}
