//! Runs of scripts.
ghost use Rattle.std.specs.{List.zip, Prelude.{◌++◌, ◌+◌, ◌≡◌, ◌≤◌, All, IfErr, IsOk, List, OnErr, OnOk, drop, length}};
ghost use Rattle.std.specs.Prelude.{vec_capacity, vec_len};
ghost use Rattle.base.specs.Refusals.{plain};
ghost use Rattle.machine.specs.{declared.call.Outcome.Outcome as Ended, Run.Run, Step.MayEnd, WellFormed.IsWellFormed};

use crate::calls::take_step;
use base::Refusal;
use machine::{Event, Outcome};
use objects::State;
use steps::calls_are_refused_by_conditions;

/// Runs a list of events, and appends the outcome of each.
///
/// # Errors
///
/// 40, if the list of outcomes can't grow by as many as there are events: then no step was made.
/// A list with room for them is never refused: a retype that is refused memory is an outcome, and the
/// run continues.
pub fn run(state: &mut State, events: &[Event], outcomes: &mut Vec<Outcome>) -> Result<(), Refusal>
    requires { IsWellFormed state.old }
    ensures ran { OnOk result ((made : List Ended)
        × (outcomes.new.items ≡ outcomes.old.items ++ made)
        × Run state.old events.now made state.new) }
    ensures counted { OnOk result (length outcomes.new.items ≡ length outcomes.old.items + length events.now) }
    ensures appends { (made : List Ended) × (outcomes.new.items ≡ outcomes.old.items ++ made) }
    ensures ends { OnOk result
        (All (λ entry. MayEnd entry.0 entry.1) (zip events.now (drop (length outcomes.old.items) outcomes.new.items))) }
    ensures well_formed { IsWellFormed state.new }
    ensures refused { IfErr result (λ refusal. refusal ≡ plain 40) }
    ensures kept { OnErr result ((state.new ≡ state.old) × (outcomes.new.items ≡ outcomes.old.items)) }
    ensures succeeds { vec_len outcomes.old + length events.now ≤ vec_capacity outcomes.old → IsOk result }
{
    // A law, so that refusals are those of the rows.
    calls_are_refused_by_conditions();
    outcomes.reserve(events.len())?;
    for event in events {
        outcomes.push_reserved(take_step(state, event));
    }
    Ok(())
}
