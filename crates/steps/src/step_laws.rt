//! Laws about all steps: which outcomes an event may have, and that machines stay well formed.
ghost use Rattle.std.specs.{List.zip, Prelude.{ℕ, ◌≡◌, ◌≢◌, ◌⊎◌, All, List, Ok, Result}};
ghost use Rattle.base.specs.declared.{ids.ObjId.ObjId as Number, refusal.{Cause.Cause as Why, Misuse.Misuse as Wrong}};
ghost use Rattle.base.specs.Refusals.{misuse_refusal};
ghost use Rattle.machine.specs.declared.call.{Call.Call as Calls, Event.Event as Occurs, Made.Made as Comes};
ghost use Rattle.machine.specs.declared.{call.Outcome.{Outcome as Ended, TheVariants.Refused}, object.MemoryKind.MemoryKind as Kind};
ghost use Rattle.machine.specs.{Machine.Machine, Makes.Makes, Outcomes.IsRefused, Run.Run, Step.ChangesCaller};
ghost use Rattle.machine.specs.{Step.{LacksMemory, MayEnd, Retype.retype_of, Step, call_of}, WellFormed.{IsCaller, IsWellFormed}};

/// A law: two steps of one event from one machine agree, unless one of them lacked memory.
///
/// A refused step leaves the machine as it was.
pub fn steps_of_one_event_agree()
    ensures agree { (m : Machine) (event : Occurs) (outcome other : Ended) (next after : Machine)
        → Step m event outcome next
        → Step m event other after
        → ((outcome ≡ other) × (next ≡ after)) ⊎ (LacksMemory m event outcome next ⊎ LacksMemory m event other after) }
    ensures refused { (m : Machine) (event : Occurs) (outcome : Ended) (next : Machine)
        → Step m event outcome next
        → IsRefused outcome
        → next ≡ m }
{}

/// A law: a call is refused by a condition of its own, or for lack of memory if it takes some.
///
/// A retype takes memory. Only a failed lookup has a detail. Each call of a run is refused in these
/// ways, and no step is refused as one that isn't begun.
pub fn calls_are_refused_by_conditions()
    ensures step { (m : Machine) (event : Occurs) (outcome : Ended) (next : Machine) → Step m event outcome next
        → MayEnd event outcome }
    ensures run { (first : Machine) (events : List Occurs) (outcomes : List Ended) (last : Machine)
        → Run first events outcomes last
        → All (λ entry. MayEnd entry.0 entry.1) (zip events outcomes) }
    ensures begun { (m : Machine) (event : Occurs) (outcome : Ended) (next : Machine)
        → Step m event outcome next
        → (wrong : Wrong)
        → outcome ≢ Refused (misuse_refusal wrong) }
{}

/// A law: each step keeps a well-formed machine well formed, and so does each run.
pub fn steps_keep_machines_well_formed()
    ensures step { (m : Machine) (event : Occurs) (outcome : Ended) (next : Machine)
        → IsWellFormed m
        → Step m event outcome next
        → IsWellFormed next }
    ensures run { (first : Machine) (events : List Occurs) (outcomes : List Ended) (last : Machine)
        → IsWellFormed first
        → Run first events outcomes last
        → IsWellFormed last }
{}

/// A law: a call keeps a well-formed machine well formed, also on its own, before its thread is admitted.
///
/// The thread must be ready if the call makes it wait or empties its inbox.
pub fn calls_keep_machines_well_formed()
    ensures { (m next : Machine) (caller : Number) (which : Calls) (result : Result Comes Why)
        → IsWellFormed m
        → (ChangesCaller which → IsCaller m caller)
        → Makes m next result (call_of m caller which)
        → IsWellFormed next }
{}

/// A law: a retype that is made keeps a well-formed machine well formed.
pub fn retypes_keep_machines_well_formed()
    ensures { (m : Machine) (caller : Number) (untyped : ℕ) (kind : Kind) (bits to offset count : ℕ) (made : Comes)
        (next : Machine)
        → IsWellFormed m
        → retype_of m caller untyped kind bits to offset count ≡ Ok (made, next)
        → IsWellFormed next }
{}
