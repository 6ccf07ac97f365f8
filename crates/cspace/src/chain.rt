//! A law about the chain of capabilities that a look-up follows.
ghost use Rattle.std.specs.Prelude.{ℕ, ◌++◌, ◌↔◌, ◌≡◌, ◌⊎◌, Bool, Err, List, None, Ok, Some, length};
ghost use Rattle.base.specs.declared.{ids.{ObjId.ObjId as Id, SlotRef.SlotRef as Slot}, refusal.Cause.TheVariants.FailedLookup};
ghost use Rattle.base.specs.declared.refusal.LookupFailure.{LookupFailure as Failure, TheVariants.MissingCapability};
ghost use Rattle.machine.specs.{Bits.bits, Lookup.{Level, lookup_of}, Machine.{Machine, cap_of}};
ghost use Rattle.cspace.specs.Chain.{Fails, Finds, IsWhole, Leads, Link, Misses, Resolves};
ghost use Rattle.cspace.specs.{Chain.{TakesBits, selected, spelled, taken}, Roots.root_level};

/// A law: a lookup ends exactly where a chain of CNode capabilities ends that the address spells.
///
/// The guards and indices of the chain, joined, are a beginning of the address. So a lookup ends in
/// one way only, and by one chain.
///
/// Some clauses need that each CNode takes a bit, `TakesBits`. Every [`State`](objects::State) does so, and
/// [`resolve`](crate::resolve) promises these clauses without that premise.
pub fn lookup_follows_a_chain()
    ensures found { (m : Machine) (thread : Id) (address : ℕ) (slot : Slot) (left : ℕ)
        → TakesBits m
        → (lookup_of m thread address ≡ Ok (slot, left)) ↔ Finds m thread address slot left }
    ensures failed { (m : Machine) (thread : Id) (address : ℕ) (failure : Failure)
        → TakesBits m
        → (lookup_of m thread address ≡ Err (FailedLookup failure)) ↔ Fails m thread address failure }
    ensures either { (m : Machine) (thread : Id) (address : ℕ)
        → TakesBits m
        → ((slot : Slot) × (left : ℕ) × Finds m thread address slot left)
        ⊎ ((failure : Failure) × Fails m thread address failure) }
    ensures unique { (m : Machine) (from : Level) (string : List Bool) (slot other : Slot) (rest remainder : List Bool)
        → TakesBits m → (a : Resolves m from string slot rest) (b : Resolves m from string other remainder)
        → (a.links ≡ b.links) × (a.last ≡ b.last) × (slot ≡ other) × (rest ≡ remainder) }
    ensures unique_failure { (m : Machine) (from : Level) (string : List Bool) (failure other : Failure)
        → (a : Misses m from string failure) (b : Misses m from string other)
        → (a.links ≡ b.links) × (a.to ≡ b.to) × (a.rest ≡ b.rest) × (failure ≡ other) }
    ensures never_both { (m : Machine) (from : Level) (string : List Bool) (slot : Slot) (rest : List Bool)
        (failure : Failure)
        → Resolves m from string slot rest → ¬ Misses m from string failure }
    ensures never_missing { (m : Machine) (thread : Id) (address : ℕ) → ¬ Fails m thread address MissingCapability }
    ensures empty_found { (m : Machine) (thread : Id) (address : ℕ) (root : Level)
        (links : List Link) (last : Link) (rest : List Bool)
        → root_level m thread ≡ Some root → Leads m root links last.level → IsWhole last
        → spelled links ++ (taken last ++ rest) ≡ bits 64 address → cap_of m (selected last) ≡ None
        → Finds m thread address (selected last) (length rest) }
{}
