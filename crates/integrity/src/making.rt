//! The law on objects that a thread makes: they stay within the bounds of its label.
ghost use Rattle.std.specs.Prelude.{ℕ, ◌≡◌, ◌⊎◌, Ok, Some};
ghost use Rattle.base.specs.declared.ids.ObjId.{ObjId as Id};
ghost use Rattle.machine.specs.{declared.{call.Made.Made, object.MemoryKind.MemoryKind}, Authority.label_of};
ghost use Rattle.{machine.specs.{Layout.Layout, Machine.Machine, Step.Retype.retype_of}, policy.specs.Domain.EdgeTest};
ghost use Rattle.integrity.specs.{Altered.MayAlter, Awake.IsAwake, Confined.IsConfined};
ghost use Rattle.integrity.specs.{Invariant.IsSound, Keeping.IsSharp, OfTable.IsOfTable, Shrinks.IsSame};

/// A law: a thread that makes objects of untyped memory stays within the bounds of its label.
///
/// The machine stays within a sharply closed policy, each object has a label, and no object changes or is
/// made but within the bounds.
///
/// The bounds are for a machine of a run, in which only threads of labels that may act wait or have
/// called.
pub fn what_is_made_stays_within_authority()
    ensures confined { (t : Layout) (allowed : EdgeTest) (a : ℕ) (m next : Machine) (caller : Id) (untyped : ℕ)
        (of : MemoryKind)
        (bits to offset count : ℕ) (made : Made)
        → IsSound t allowed m
        → IsSharp t allowed
        → label_of t m caller ≡ Some a
        → retype_of m caller untyped of bits to offset count ≡ Ok (made, next)
        → IsConfined t allowed next }
    ensures labelled { (t : Layout) (allowed : EdgeTest) (a : ℕ) (m next : Machine) (caller : Id) (untyped : ℕ)
        (of : MemoryKind)
        (bits to offset count : ℕ) (made : Made)
        → IsSound t allowed m
        → IsSharp t allowed
        → label_of t m caller ≡ Some a
        → retype_of m caller untyped of bits to offset count ≡ Ok (made, next)
        → IsOfTable t next }
    ensures changes { (t : Layout) (allowed : EdgeTest) (a : ℕ) (m next : Machine) (caller : Id) (untyped : ℕ)
        (of : MemoryKind)
        (bits to offset count : ℕ) (made : Made)
        → IsSound t allowed m
        → IsSharp t allowed
        → label_of t m caller ≡ Some a
        → retype_of m caller untyped of bits to offset count ≡ Ok (made, next)
        → (awake : IsAwake t allowed m a)
        → (id : Id) → IsSame m next id ⊎ MayAlter t allowed awake.acts a m next id }
{}
