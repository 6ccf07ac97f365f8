//! Laws on what a label may change, and on what its authority leads to.
ghost use Rattle.std.specs.Prelude.{[], ℕ, ◌++◌, ◌<◌, ◌∷◌, ◌≡◌, ◌≢◌, ◌⊎◌, All, List, None, Some, false, length, true};
ghost use Rattle.base.specs.{declared.{ids.{ObjId.ObjId as Id, SlotRef.SlotRef as Slot}, kind.Kind.Kind}, Kinds.is_structural};
ghost use Rattle.machine.specs.declared.{call.Event.Event, cap.Cap.Cap, object.{Context.Context, Notification.Notification, Object.Object}};
ghost use Rattle.machine.specs.{declared.{object.{Reply.Reply, Untyped.Untyped}, thread.Tcb.Tcb}, Authority.label_of, Layout.Layout};
ghost use Rattle.machine.specs.Machine.{Machine, cap_of, object_of, queue_of, with_object, with_queue, words_of};
ghost use Rattle.policy.specs.{Cut.{IsBase, IsCut, IsHolding, IsNear, is_link}, Domain.EdgeTest};
ghost use Rattle.integrity.specs.{Budgets.KeepsBudgets, Shrinks.{IsBlocked, Shrinks}};
ghost use Rattle.base.specs.declared.kind.Kind.TheVariants as authority;
ghost use Rattle.machine.specs.declared.object.Object.TheVariants as o;
ghost use Rattle.machine.specs.declared.object.ReplyState.TheVariants as answers;
ghost use Rattle.machine.specs.declared.thread.Inbox.TheVariants as inbox;
ghost use Rattle.machine.specs.declared.thread.RunState.TheVariants as run;

/// A law: by these changes an object doesn't shrink:
///
/// - its pending word, or its core, budget or period changes
/// - more threads wait at it than before
/// - it gets a capability, a message, a word, a context or a thread
/// - its memory changes, or more of it is taken
/// - it is a thread whose run state changes though it wasn't blocked, or that begins to wait
/// - it is a reply that begins to hold a thread
/// - it is made.
pub fn gains_are_no_shrinking()
    ensures word { (m next : Machine) (id : Id) (old new : Notification)
        → object_of m id ≡ Some (o.Notification old)
        → object_of next id ≡ Some (o.Notification new)
        → new.pending ≢ old.pending
        → ¬ Shrinks m next id }
    ensures budget { (m next : Machine) (id : Id) (old new : Context)
        → object_of m id ≡ Some (o.Context old)
        → object_of next id ≡ Some (o.Context new)
        → new.share ≢ old.share
        → ¬ Shrinks m next id }
    ensures member { (m next : Machine) (id : Id) (object : Object) (old new : List Id)
        → object_of next id ≡ Some object
        → queue_of m id ≡ Some old
        → queue_of next id ≡ Some new
        → length old < length new
        → ¬ Shrinks m next id }
    ensures capability { (m next : Machine) (slot : Slot) (object : Object) (held : Cap)
        → object_of next slot.holder ≡ Some object
        → cap_of next slot ≡ Some held
        → cap_of m slot ≢ Some held
        → ¬ Shrinks m next slot.holder }
    ensures arrival { (m next : Machine) (id : Id) (old new : Tcb)
        → object_of m id ≡ Some (o.Tcb old)
        → object_of next id ≡ Some (o.Tcb new)
        → new.inbox ≢ old.inbox
        → new.inbox ≢ inbox.Aborted
        → ¬ Shrinks m next id }
    ensures context { (m next : Machine) (id context : Id) (old new : Tcb)
        → object_of m id ≡ Some (o.Tcb old)
        → object_of next id ≡ Some (o.Tcb new)
        → new.context ≡ Some context
        → old.context ≢ Some context
        → ¬ Shrinks m next id }
    ensures runner { (m next : Machine) (id thread : Id) (old new : Context)
        → object_of m id ≡ Some (o.Context old)
        → object_of next id ≡ Some (o.Context new)
        → new.thread ≡ Some thread
        → old.thread ≢ Some thread
        → ¬ Shrinks m next id }
    ensures holding { (m next : Machine) (id : Id) (old new : Reply)
        → object_of m id ≡ Some (o.Reply old)
        → object_of next id ≡ Some (o.Reply new)
        → new.state ≢ old.state
        → new.state ≢ answers.Free
        → ¬ Shrinks m next id }
    ensures state { (m next : Machine) (id : Id) (old new : Tcb)
        → object_of m id ≡ Some (o.Tcb old)
        → object_of next id ≡ Some (o.Tcb new)
        → new.state ≢ old.state
        → ¬ IsBlocked old.state
        → ¬ Shrinks m next id }
    ensures wait { (m next : Machine) (id : Id) (old new : Tcb)
        → object_of m id ≡ Some (o.Tcb old)
        → object_of next id ≡ Some (o.Tcb new)
        → new.state ≢ old.state
        → IsBlocked new.state
        → ¬ Shrinks m next id }
    ensures watermark { (m next : Machine) (id : Id) (old new : Untyped)
        → object_of m id ≡ Some (o.Untyped old)
        → object_of next id ≡ Some (o.Untyped new)
        → new.watermark ≢ old.watermark
        → ¬ Shrinks m next id }
    ensures memory { (m next : Machine) (id : Id) (object : Object)
        → object_of next id ≡ Some object
        → words_of next id ≢ words_of m id
        → ¬ Shrinks m next id }
    ensures made { (m next : Machine) (id : Id) (object : Object)
        → object_of m id ≡ None
        → object_of next id ≡ Some object
        → ¬ Shrinks m next id }
{}

/// A law: a change of a context's core, budget or period needs authority.
///
/// No step that makes such a change guards budgets if the caller's label has no schedcontrol
/// edge, or no context edge to the context's label.
pub fn a_budget_needs_authority()
    ensures schedcontrol { (t : Layout) (allowed : EdgeTest) (m next : Machine) (event : Event)
        → (id : Id) (old new : Context) (caller : ℕ)
        → object_of m id ≡ Some (o.Context old)
        → object_of next id ≡ Some (o.Context new)
        → new.share ≢ old.share
        → label_of t m event.thread ≡ Some caller
        → ((control : ℕ) → allowed caller authority.SchedControl control ≡ false)
        → ¬ KeepsBudgets t allowed m event next }
    ensures context { (t : Layout) (allowed : EdgeTest) (m next : Machine) (event : Event)
        → (id : Id) (old new : Context) (caller label : ℕ)
        → object_of m id ≡ Some (o.Context old)
        → object_of next id ≡ Some (o.Context new)
        → new.share ≢ old.share
        → label_of t m event.thread ≡ Some caller
        → label_of t m id ≡ Some label
        → allowed caller authority.Context label ≡ false
        → ¬ KeepsBudgets t allowed m event next }
{}

/// A law: by these changes an object shrinks:
///
/// - it vanishes
/// - only a capability of it is removed, or one of the threads that wait at it, or its link to a
///   thread or a context
/// - it is a reply that becomes free
/// - it is a thread that waits for something, and is aborted or halted.
pub fn losses_are_shrinking()
    ensures vanished { (m next : Machine) (id : Id) → object_of next id ≡ None → Shrinks m next id }
    ensures capability { (m next : Machine) (slot : Slot) (object : Object) (threads : List Id)
        → object_of m slot.holder ≡ Some object
        → queue_of m slot.holder ≡ Some threads
        → object_of next slot.holder ≡ object_of m slot.holder
        → queue_of next slot.holder ≡ queue_of m slot.holder
        → words_of next slot.holder ≡ words_of m slot.holder
        → cap_of next slot ≡ None
        → ((other : Slot) → other.holder ≡ slot.holder → other.index ≢ slot.index → cap_of next other ≡ cap_of m other)
        → Shrinks m next slot.holder }
    ensures member { (m : Machine) (id thread : Id) (object : Object) (before after : List Id)
        → object_of m id ≡ Some object
        → queue_of m id ≡ Some (before ++ thread ∷ after)
        → Shrinks m (with_queue m id (before ++ after)) id }
    ensures freed { (m : Machine) (id : Id) (reply : Reply) (threads : List Id)
        → object_of m id ≡ Some (o.Reply reply)
        → queue_of m id ≡ Some threads
        → Shrinks m (with_object m id (o.Reply (record reply { state = answers.Free }))) id }
    ensures aborted { (m : Machine) (id : Id) (thread : Tcb) (threads : List Id)
        → object_of m id ≡ Some (o.Tcb thread)
        → queue_of m id ≡ Some threads
        → thread.state ≢ run.Ready
        → thread.state ≢ run.Inactive
        → Shrinks m (with_object m id (o.Tcb (record thread { state = run.Ready; inbox = inbox.Aborted }))) id }
    ensures halted { (m : Machine) (id : Id) (thread : Tcb) (threads : List Id)
        → object_of m id ≡ Some (o.Tcb thread)
        → queue_of m id ≡ Some threads
        → thread.state ≢ run.Ready
        → thread.state ≢ run.Inactive
        → Shrinks m (with_object m id (o.Tcb (record thread { state = run.Inactive }))) id }
    ensures context { (m : Machine) (id : Id) (thread : Tcb) (threads : List Id)
        → object_of m id ≡ Some (o.Tcb thread)
        → queue_of m id ≡ Some threads
        → Shrinks m (with_object m id (o.Tcb (record thread { context = None }))) id }
    ensures thread { (m : Machine) (id : Id) (context : Context) (threads : List Id)
        → object_of m id ≡ Some (o.Context context)
        → queue_of m id ≡ Some threads
        → Shrinks m (with_object m id (o.Context (record context { thread = None }))) id }
{}

/// A law: a label has cut authority on each label that it leads to by a path of this form.
///
/// The path has at most one control edge, then at most one derive edge, then at most one edge by
/// which a capability is held, and then at most two steps along links, either way.
pub fn cuts_follow_paths()
    ensures base { (allowed : EdgeTest) (a controlled base : ℕ)
        → (a ≡ controlled) ⊎ (allowed a authority.Control controlled ≡ true)
        → (controlled ≡ base) ⊎ (allowed controlled authority.Derive base ≡ true)
        → IsBase allowed a base }
    ensures held { (k : Kind) → (is_structural k ≡ false) ⊎ (k ≡ authority.Space) → IsHolding k }
    ensures links { All (λ k. is_link k ≡ true)
        (authority.Send ∷ authority.Receive ∷ authority.Await ∷ authority.Reply ∷ authority.Holds ∷ authority.Runs
        ∷ authority.Space ∷ []) }
    ensures near { (allowed : EdgeTest) (x y : ℕ)
        → (x ≡ y) ⊎ ((k : Kind) × (is_link k ≡ true) × ((allowed x k y ≡ true) ⊎ (allowed y k x ≡ true)))
        → IsNear allowed x y }
    ensures path { (allowed : EdgeTest) (a base reached near label : ℕ)
        → IsBase allowed a base
        → (base ≡ reached) ⊎ ((k : Kind) × IsHolding k × (allowed base k reached ≡ true))
        → IsNear allowed reached near
        → IsNear allowed near label
        → IsCut allowed a label }
{}
