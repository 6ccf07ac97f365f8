//! Laws about the runs of fixed systems.
ghost use Rattle.std.specs.Prelude.{ℕ, ◌≡◌, List};
ghost use Rattle.base.specs.declared.ids.ObjId.{ObjId as Id};
ghost use Rattle.machine.specs.{declared.call.{Event.Event, Outcome.Outcome}, Boot.IsBoot, Layout.Layout};
ghost use Rattle.machine.specs.{Machine.Machine, Outcomes.IsRefused, Run.Run, Step.{Find.find_cap, Step}};
ghost use Rattle.{table.specs.Rules.IsLawful, noninterference.specs.Fixed.{IsFixed, NeedsNodeOrThread, StaysFixed}};

use table::boot_states_are_well_formed;

/// A law: in every run of a fixed system its capabilities and derivation tree stay as they were at boot.
///
/// No object is made or removed, and each keeps its kind and its address. Each thread finds at each
/// address the capability that it found there at boot, or is refused as it was. A call that needs a
/// capability for a CNode or for a thread is refused. The runs are those from the boot state of the
/// lawful table. What changes in them: the states of threads, notifications, replies and scheduling
/// contexts, who waits where, and the words of frames.
pub fn fixed_systems_stay_fixed()
    ensures stays { (t : Layout) (boot m : Machine) (events : List Event) (outcomes : List Outcome)
        → IsLawful t
        → IsFixed t
        → IsBoot t boot
        → Run boot events outcomes m
        → StaysFixed boot m }
    ensures finds { (t : Layout) (boot m : Machine) (events : List Event) (outcomes : List Outcome) (thread : Id) (address : ℕ)
        → IsLawful t
        → IsFixed t
        → IsBoot t boot
        → Run boot events outcomes m
        → find_cap m thread address ≡ find_cap boot thread address }
    ensures refuses { (t : Layout) (boot m next : Machine) (events : List Event) (outcomes : List Outcome) (event : Event)
        (outcome : Outcome)
        → IsLawful t
        → IsFixed t
        → IsBoot t boot
        → Run boot events outcomes m
        → NeedsNodeOrThread event.call
        → Step m event outcome next
        → IsRefused outcome }
{
    boot_states_are_well_formed();
}
