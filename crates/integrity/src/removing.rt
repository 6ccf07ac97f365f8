//! Laws on removals: what they change, and of which labels.
ghost use Rattle.std.specs.Prelude.{ℕ, ◌≡◌, ◌⊎◌, Bool, None, Ok, Some};
ghost use Rattle.base.specs.declared.ids.{ObjId.ObjId as Id, SlotRef.SlotRef as Slot};
ghost use Rattle.machine.specs.declared.{call.Made.Made, object.Context.Context as Bound, slot_address.SlotAddress.SlotAddress as Place};
ghost use Rattle.machine.specs.{Authority.label_of, Layout.Layout, Machine.{Machine, object_of}, Removal.removed};
ghost use Rattle.machine.specs.{Step.{Delete.delete_of, Revoke.revoke_of}, WellFormed.IsWellFormed};
ghost use Rattle.policy.specs.{Change.MayChange, Domain.EdgeTest, NarrowTake.MayShrink};
ghost use Rattle.integrity.specs.{Altered.MayAlter, Awake.IsAwake, Confined.IsConfined, Invariant.IsSound};
ghost use Rattle.integrity.specs.{Keeping.IsSharp, OfTable.IsOfTable, Removals.MayRemove, Shrinks.{IsSame, Shrinks}};
ghost use Rattle.machine.specs.declared.object.Object.TheVariants as o;

/// A law: whichever slots are removed, the machine stays within a sharply closed policy and keeps to its table.
pub fn removals_stay_confined()
    ensures confined { (t : Layout) (allowed : EdgeTest) (m : Machine) (chosen : Slot → Bool)
        → IsSound t allowed m
        → IsSharp t allowed
        → IsConfined t allowed (removed m chosen) }
    ensures labelled { (t : Layout) (allowed : EdgeTest) (m : Machine) (chosen : Slot → Bool)
        → IsSound t allowed m
        → IsOfTable t (removed m chosen) }
{}

/// A law: whichever slots are removed, each object is as it was, or shrinks.
pub fn what_a_removal_changes_shrinks()
    ensures { (m : Machine) (chosen : Slot → Bool)
        → IsWellFormed m
        → (id : Id) → IsSame m (removed m chosen) id ⊎ Shrinks m (removed m chosen) id }
{}

/// A law: a removal changes only objects of labels that the remover's label may change or make smaller.
///
/// The label may remove the capabilities of the chosen slots. Each other object is as it was.
pub fn a_removal_changes_what_may_be_altered()
    ensures { (t : Layout) (allowed : EdgeTest) (a : ℕ) (m : Machine) (chosen : Slot → Bool)
        → IsSound t allowed m
        → IsSharp t allowed
        → MayRemove t allowed a m chosen
        → (awake : IsAwake t allowed m a)
        → (id : Id)
        → IsSame m (removed m chosen) id
        ⊎ ((label : ℕ) × (label_of t m id ≡ Some label)
        × (MayChange allowed awake.acts a label ⊎ MayShrink allowed awake.acts a label)) }
{}

/// A law: a removal keeps the machine sound, and changes no object but within the bounds of the remover's label.
///
/// The label may remove the capabilities of the chosen slots. Nothing is made, and contexts keep
/// their cores, budgets and periods.
pub fn removals_stay_within_authority()
    ensures sound { (t : Layout) (allowed : EdgeTest) (m : Machine) (chosen : Slot → Bool)
        → IsSound t allowed m
        → IsSharp t allowed
        → IsSound t allowed (removed m chosen) }
    ensures changes { (t : Layout) (allowed : EdgeTest) (a : ℕ) (m : Machine) (chosen : Slot → Bool)
        → IsSound t allowed m
        → IsSharp t allowed
        → MayRemove t allowed a m chosen
        → (awake : IsAwake t allowed m a)
        → (id : Id) → IsSame m (removed m chosen) id ⊎ MayAlter t allowed awake.acts a m (removed m chosen) id }
    ensures absent { (m : Machine) (chosen : Slot → Bool) (id : Id)
        → object_of m id ≡ None
        → object_of (removed m chosen) id ≡ None }
    ensures budgets { (m : Machine) (chosen : Slot → Bool) (id : Id) (old new : Bound)
        → object_of m id ≡ Some (o.Context old)
        → object_of (removed m chosen) id ≡ Some (o.Context new)
        → new.share ≡ old.share }
{}

/// A law: a delete or a revoke that is made keeps the machine sound, within the bounds of the caller's label.
///
/// It changes no object but within these bounds.
pub fn deletes_and_revokes_stay_within_authority()
    ensures delete { (t : Layout) (allowed : EdgeTest) (a : ℕ) (m next : Machine) (caller : Id) (address : Place)
        (made : Made)
        → IsSound t allowed m
        → IsSharp t allowed
        → label_of t m caller ≡ Some a
        → delete_of m caller address ≡ Ok (made, next)
        → IsSound t allowed next
        × ((awake : IsAwake t allowed m a) → (id : Id) → IsSame m next id ⊎ MayAlter t allowed awake.acts a m next id) }
    ensures revoke { (t : Layout) (allowed : EdgeTest) (a : ℕ) (m next : Machine) (caller : Id) (address : Place)
        (made : Made)
        → IsSound t allowed m
        → IsSharp t allowed
        → label_of t m caller ≡ Some a
        → revoke_of m caller address ≡ Ok (made, next)
        → IsSound t allowed next
        × ((awake : IsAwake t allowed m a) → (id : Id) → IsSame m next id ⊎ MayAlter t allowed awake.acts a m next id) }
{}
