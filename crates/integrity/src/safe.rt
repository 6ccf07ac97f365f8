//! The headline and its laws: which systems are safe, and what follows for labels.
ghost use Rattle.std.specs.Prelude.{ℕ, ◌↔◌, ◌≡◌, ◌≢◌, ◌⊎◌, Some, true};
ghost use Rattle.base.specs.declared.{ids.ObjId.ObjId as Id, kind.Kind.Kind as authority};
ghost use Rattle.machine.specs.{declared.call.{Event.Event, Outcome.Outcome}, Authority.label_of, Boot.IsBoot};
ghost use Rattle.{machine.specs.{Layout.Layout, Machine.{Machine, object_of}, Step.Step}, table.specs.Rules.IsLawful};
ghost use Rattle.policy.specs.{Change.{ActorTest, MayChange}, Closed.IsClosed, Domain.EdgeTest};
ghost use Rattle.policy.specs.{NarrowTake.MayShrink, Sharp.{IsSharplyClosed, KeeperTest, Told, UsesRise}};
ghost use Rattle.integrity.specs.Acting.{HoldsOfActors, MayAct, Starts};
ghost use Rattle.integrity.specs.{Apart.{NeverChanges, OnlyTakes}, Budgets.FindsOfKind, Confined.IsConfined};
ghost use Rattle.integrity.specs.Keeping.{BorrowersMayIdle, HoldsNode, HoldsOfKeepers, IsSharp, KeepersHoldNodes, MayKeep, WaitersMayIdle};
ghost use Rattle.integrity.specs.{Safe.{IsReached, IsSafe, KeepsNarrowBounds, RefusesOthers}, Shrinks.IsSame};
ghost use Rattle.machine.specs.declared.object.ObjectKind.TheVariants as kind;

use table::boot_states_are_well_formed;

/// A law, the headline over the definitions alone: every run of a confined system is safe.
///
/// A system is confined if its policy is closed and has all authority of the boot state of its
/// lawful table. The runs are those from the boot state.
pub fn confined_systems_are_safe()
    ensures { (t : Layout) (allowed : EdgeTest)
        → IsLawful t
        → IsClosed allowed
        → ((boot : Machine) → IsBoot t boot → IsConfined t allowed boot)
        → IsSafe t allowed }
{
    boot_states_are_well_formed();
}

/// A law, the headline over the sharp rules: if a sharply closed policy has all authority of the boot state, every run is safe.
///
/// The boot state is that of a lawful table. The keepers are the labels that may keep capabilities
/// for CNodes (clause `keepers`), or any labels among which these are (clause `told`). A closed
/// policy is sharply closed, whichever labels keep.
pub fn sharply_confined_systems_are_safe()
    ensures keepers { (t : Layout) (allowed : EdgeTest)
        → IsLawful t
        → IsSharp t allowed
        → ((boot : Machine) → IsBoot t boot → IsConfined t allowed boot)
        → IsSafe t allowed }
    ensures told { (t : Layout) (allowed : EdgeTest) (keeps : KeeperTest)
        → IsLawful t
        → HoldsOfKeepers t allowed keeps
        → IsSharplyClosed allowed (Told keeps)
        → ((boot : Machine) → IsBoot t boot → IsConfined t allowed boot)
        → IsSafe t allowed }
{
    boot_states_are_well_formed();
}

/// A law: if a sharply closed policy has all authority of the boot state, in every run only keepers hold capabilities for CNodes.
///
/// The boot state is that of a lawful table. A CNode that holds a capability for a CNode in a slot
/// is of a label that may keep one, and a thread that finds one is of such a label. If no label holds
/// one at boot, no label may keep one.
pub fn keepers_hold_cnode_capabilities()
    ensures holds { (t : Layout) (allowed : EdgeTest)
        → IsLawful t
        → IsSharp t allowed
        → ((boot : Machine) → IsBoot t boot → IsConfined t allowed boot)
        → (m : Machine) → IsReached t m → KeepersHoldNodes t allowed m }
    ensures finds { (t : Layout) (allowed : EdgeTest)
        → IsLawful t
        → IsSharp t allowed
        → ((boot : Machine) → IsBoot t boot → IsConfined t allowed boot)
        → (m : Machine) (thread : Id) (address : ℕ) (node : Id) (a : ℕ)
        → IsReached t m
        → FindsOfKind m thread address kind.CNode node
        → label_of t m thread ≡ Some a
        → MayKeep t allowed a }
    ensures none { (t : Layout) (allowed : EdgeTest)
        → ((a : ℕ) → ¬ HoldsNode t a)
        → (a : ℕ) → ¬ MayKeep t allowed a }
{
    boot_states_are_well_formed();
}

/// A law: if a sharply closed policy has all authority of the boot state, in every run only idlers wait without a context.
///
/// The boot state is that of a lawful table. A thread that waits for a message without a context is
/// of a label that may idle, and so is each thread to which a caller lent its context, for as long
/// as the caller waits for the answer.
pub fn idlers_wait_without_contexts()
    ensures waits { (t : Layout) (allowed : EdgeTest)
        → IsLawful t
        → IsSharp t allowed
        → ((boot : Machine) → IsBoot t boot → IsConfined t allowed boot)
        → (m : Machine) → IsReached t m → WaitersMayIdle t allowed m }
    ensures borrows { (t : Layout) (allowed : EdgeTest)
        → IsLawful t
        → IsSharp t allowed
        → ((boot : Machine) → IsBoot t boot → IsConfined t allowed boot)
        → (m : Machine) → IsReached t m → BorrowersMayIdle t allowed m }
{
    boot_states_are_well_formed();
}

/// A law: steps keep labels apart, if in every run from the boot state they keep to the bounds by the labels that act.
///
/// No step of a thread of a label changes, makes or removes an object of a label that it may not
/// change and may not make smaller. If it may not change it, each object stays as it is, or
/// shrinks. This holds for each test of labels that holds of all that may act and may have threads.
pub fn bounded_systems_keep_labels_apart()
    ensures apart { (t : Layout) (allowed : EdgeTest) (acts : ActorTest) (a l : ℕ)
        → KeepsNarrowBounds t allowed
        → HoldsOfActors t allowed acts
        → ¬ MayChange allowed acts a l
        → ¬ MayShrink allowed acts a l
        → NeverChanges t a l }
    ensures takes { (t : Layout) (allowed : EdgeTest) (acts : ActorTest) (a l : ℕ)
        → KeepsNarrowBounds t allowed
        → HoldsOfActors t allowed acts
        → ¬ MayChange allowed acts a l
        → OnlyTakes t a l }
{}

/// A law: if only labels that may act have calls that aren't refused, only threads of these labels change objects.
///
/// The condition is on every run from a table's boot state. A step that changes an object, makes
/// one or removes one is then of a thread whose label may act. So a thread of a label that may not
/// act never changes, makes or removes an object, whatever authority the label has.
pub fn changes_are_of_labels_that_act()
    ensures changed { (t : Layout) (allowed : EdgeTest) (m next : Machine) (event : Event) (outcome : Outcome) (id : Id)
        → RefusesOthers t allowed
        → IsReached t m
        → Step m event outcome next
        → ¬ IsSame m next id
        → (a : ℕ) × (label_of t m event.thread ≡ Some a) × MayAct t allowed a }
    ensures content { (t : Layout) (allowed : EdgeTest) (m next : Machine) (event : Event) (outcome : Outcome) (id : Id)
        → RefusesOthers t allowed
        → IsReached t m
        → Step m event outcome next
        → object_of next id ≢ object_of m id
        → (a : ℕ) × (label_of t m event.thread ≡ Some a) × MayAct t allowed a }
    ensures never { (t : Layout) (allowed : EdgeTest) (a l : ℕ)
        → RefusesOthers t allowed
        → ¬ MayAct t allowed a
        → NeverChanges t a l }
{}

/// A law: a label may act exactly if it acts from boot on, or a label that does controls it.
///
/// The policy keeps the rule that a label has the edges of use of a label in which it finds its capabilities.
pub fn labels_act_from_boot_or_by_control()
    ensures { (t : Layout) (allowed : EdgeTest) (a : ℕ)
        → UsesRise allowed
        → MayAct t allowed a ↔ (Starts t a ⊎ ((b : ℕ) × Starts t b × (allowed b authority.Control a ≡ true))) }
{}
