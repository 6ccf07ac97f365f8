//! The law that a machine stays well formed when a thread's root slot is cleared.
ghost use Rattle.std.specs.Prelude.{◌≡◌, IsTrue, None, Some};
ghost use Rattle.base.specs.declared.ids.{ObjId.ObjId as Number, SlotRef.SlotRef as Slot};
ghost use Rattle.machine.specs.{declared.cap.Cap.Cap as Held, Lookup.root_of, Machine.{Machine, cap_of, has_slot}};
ghost use Rattle.machine.specs.{Step.Space.without_root, WellFormed.IsWellFormed};
ghost use Rattle.machine.specs.declared.cap.Detail.TheVariants as d;

/// A law: a machine stays well formed when a root slot is cleared.
///
/// The slot is empty, and a slot that is still filled holds what it held. If a slot that had the
/// thread's capability is still filled, the thread has its root slot.
pub fn cleared_root_slots_can_be_filled()
    ensures well_formed { (m : Machine) (thread : Number) → IsWellFormed m → IsWellFormed (without_root m thread) }
    ensures empty { (m : Machine) (thread : Number) → cap_of (without_root m thread) (root_of thread) ≡ None }
    ensures kept { (m : Machine) (thread : Number) (slot : Slot) (held : Held)
        → cap_of (without_root m thread) slot ≡ Some held
        → cap_of m slot ≡ Some held }
    ensures there { (m : Machine) (thread : Number) (tcb : Slot) (of : Held)
        → IsWellFormed m
        → cap_of m tcb ≡ Some of
        → of.object ≡ thread
        → of.detail ≡ d.Tcb
        → (now : Held)
        → cap_of (without_root m thread) tcb ≡ Some now
        → IsTrue (has_slot (without_root m thread) (root_of thread)) }
{}
