//! Laws on machines that are alike to a label, and to a set of labels.
ghost use Rattle.std.specs.Prelude.{ℕ, ◌≡◌, List, Some, false};
ghost use Rattle.machine.specs.{declared.call.{Event.Event, Outcome.Outcome}, Authority.label_of};
ghost use Rattle.machine.specs.{Boot.IsBoot, Layout.Layout, Machine.Machine, Run.Run, Step.Step};
ghost use Rattle.{table.specs.Rules.IsLawful, policy.specs.{Change.ActorTest, Domain.EdgeTest}};
ghost use Rattle.integrity.specs.{Acting.HoldsOfActors, Keeping.IsSharp, Safe.IsReached};
ghost use Rattle.reach.specs.{Extents.limits_of, Reach.{HasBootAuthority, IsTableReach, TableReach}};
ghost use Rattle.flows.specs.Flowing.{FilterTest, IsClosedOff};
ghost use Rattle.noninterference.specs.{Alike.{IsAlikeTo, KeepsAlike}, Fixed.IsFixed, Sets.{AreAlikeTo, DifferBeside, EndAlike}};
ghost use Rattle.noninterference.specs.Sets.{FlowsOnlyWithin, IsClosedBeside, IsOfSet, RunsBeside, SetTest};

use table::boot_states_are_well_formed;

/// A law: in a fixed system a call ends alike in two machines that are alike to its thread's label.
///
/// The machines are of two runs from the boot state of the lawful table. Each object that the label
/// sees is the same in both machines, and a thread that waits at an endpoint to which it sends waits
/// there in the same way. Then the same event by a thread of the label has the same outcome in both. An
/// object that is the same in both before is the same in both after; for a thread that waits, the object
/// at which it waits must be the same too. The policy is the reach of the table, or any other that is
/// sharply closed and has all authority of the boot state.
pub fn steps_look_alike()
    ensures { (t : Layout) (allowed : EdgeTest) (acts : ActorTest) (a : ℕ) (m n next after : Machine) (event : Event)
        (outcome other : Outcome)
        → IsLawful t
        → IsFixed t
        → IsSharp t allowed
        → HasBootAuthority t allowed
        → HoldsOfActors t allowed acts
        → IsReached t m
        → IsReached t n
        → label_of t m event.thread ≡ Some a
        → IsAlikeTo t (record { test = allowed; acts = acts }) a m n
        → Step m event outcome next
        → Step n event other after
        → (other ≡ outcome) × KeepsAlike m n next after }
{
    boot_states_are_well_formed();
}

/// A law: in a fixed system events of others make no difference to a set of labels to which nothing flows from without.
///
/// Two runs from the boot state of the lawful table have scripts that differ, position by position,
/// only in events of threads whose labels aren't in the set. Then each event of a thread of the set
/// has the same outcome in both. In the end each object on which a label of the set depends is the
/// same in both. The policy is the reach of the table, or any other that is sharply closed and has
/// all authority of the boot state (clause `runs`). By the reach of the table, if no chain of flows
/// leads from one label to another, such a set has the second label and not the first (clause
/// `reach`). Nothing is said of time, or of when which thread runs.
pub fn others_make_no_difference()
    ensures runs { (t : Layout) (allowed : EdgeTest) (acts : ActorTest) (inside : SetTest) (boot m n : Machine)
        (events others : List Event) (outcomes ends : List Outcome)
        → IsLawful t
        → IsFixed t
        → IsSharp t allowed
        → HasBootAuthority t allowed
        → HoldsOfActors t allowed acts
        → FlowsOnlyWithin (record { test = allowed; acts = acts }) inside
        → IsBoot t boot
        → DifferBeside (IsOfSet t boot inside) events others
        → Run boot events outcomes m
        → Run boot others ends n
        → EndAlike (IsOfSet t boot inside) events outcomes ends × AreAlikeTo t (record { test = allowed; acts = acts }) inside m n }
    ensures reach { (reach : TableReach) (filters : FilterTest) (from to : ℕ) (off : IsClosedOff (limits_of reach) filters from to)
        (boot m n : Machine) (events others : List Event) (outcomes ends : List Outcome)
        → IsTableReach reach
        → IsFixed reach.table
        → ((label : ℕ) → filters label ≡ false)
        → IsBoot reach.table boot
        → DifferBeside (IsOfSet reach.table boot off.inside) events others
        → Run boot events outcomes m
        → Run boot others ends n
        → EndAlike (IsOfSet reach.table boot off.inside) events outcomes ends × AreAlikeTo reach.table (limits_of reach) off.inside m n }
{
    boot_states_are_well_formed();
}

/// A law: if flows to a set of labels go through filters, others make a difference to it only by what filters do.
///
/// Two runs from the boot state of the lawful table differ, position by position, only in events of
/// threads whose labels aren't in the set. What filters show to the set is alike in both at each
/// position, and so is all on which the set depends after an event of a filter's thread. Then each event
/// of a thread of the set has the same outcome in both, and in the end all on which the set depends is
/// the same. The clause `reach` says it of the set of the labels from which chains of flows lead to a
/// label without passing a filter, by the reach of the table, if none leads from another label.
pub fn others_act_through_filters()
    ensures runs { (t : Layout) (allowed : EdgeTest) (acts : ActorTest) (filters : FilterTest) (inside : SetTest) (boot m n : Machine)
        (events others : List Event) (outcomes ends : List Outcome)
        → IsLawful t
        → IsFixed t
        → IsSharp t allowed
        → HasBootAuthority t allowed
        → HoldsOfActors t allowed acts
        → IsClosedBeside (record { test = allowed; acts = acts }) filters inside
        → IsBoot t boot
        → RunsBeside t boot (record { test = allowed; acts = acts }) filters inside boot boot events outcomes others ends m n
        → EndAlike (IsOfSet t boot inside) events outcomes ends × AreAlikeTo t (record { test = allowed; acts = acts }) inside m n }
    ensures reach { (reach : TableReach) (filters : FilterTest) (from to : ℕ) (off : IsClosedOff (limits_of reach) filters from to)
        (boot m n : Machine) (events others : List Event) (outcomes ends : List Outcome)
        → IsTableReach reach
        → IsFixed reach.table
        → IsBoot reach.table boot
        → RunsBeside reach.table boot (limits_of reach) filters off.inside boot boot events outcomes others ends m n
        → EndAlike (IsOfSet reach.table boot off.inside) events outcomes ends × AreAlikeTo reach.table (limits_of reach) off.inside m n }
{
    boot_states_are_well_formed();
}
