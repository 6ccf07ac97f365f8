//! Replays of logs, and the law on where a log stops.
ghost use Rattle.std.specs.Prelude.{ℕ, ◌≡◌, All, Bool, Decides, IfErr, IfOk, List, MatchOption, OnErr, take};
ghost use Rattle.base.specs.Refusals.{out_of_memory};
ghost use Rattle.machine.specs.{declared.call.Outcome.TheVariants.Refused, Machine.Machine};
ghost use Rattle.machine.specs.{Step.{MayEnd, takes_memory}, WellFormed.IsWellFormed};
ghost use Rattle.kernel.specs.Legal.{Entry, Follows, IsLack, IsLeftAt, IsReachedIn, LacksMemoryIn, IsLogBetween, MayLack, StopsAt};

use crate::calls::{retype_refusal, step};
use base::Refusal;
use machine::{Event, Outcome};
use objects::State;
use steps::calls_are_refused_by_conditions;

/// Replays a log, entry after entry, up to the first entry that isn't the step that it claims.
///
/// Returns `None` if all are, and else the index, from 0, of the first that isn't. A retype that
/// was refused memory is a step that changes nothing, wherever it could be made.
///
/// If it stops at an entry, the event of that entry was made, and its outcome is not the
/// log's.
///
/// # Errors
///
/// 40, if a retype could be done that has another outcome in the log, and is refused memory
/// here. Then the entries before it were made.
pub fn replay(state: &mut State, entries: &[(Event, Outcome)]) -> Result<Option<usize>, Refusal>
    requires { IsWellFormed state.old }
    ensures found { IfOk result
        (λ stop. MatchOption stop (IsLogBetween state.old entries.now state.new) (StopsAt state.old entries.now)) }
    ensures ends { IfOk result (λ stop. MatchOption stop (All (λ entry. MayEnd entry.0 entry.1) entries.now)
        (λ at. All (λ entry. MayEnd entry.0 entry.1) (take at entries.now))) }
    ensures left { IsLeftAt state.old entries.now state.new result }
    ensures reached { IsReachedIn state.old entries.now state.new }
    ensures well_formed { IsWellFormed state.new }
    ensures refused { IfErr result (λ refusal. (refusal ≡ out_of_memory) × LacksMemoryIn state.old entries.now) }
{
    // A law, so that refusals are those of the rows.
    calls_are_refused_by_conditions();
    for (index, (event, outcome)) in entries.iter().enumerate() {
        if !follow(state, event, outcome)? {
            return Ok(Some(index));
        }
    }
    Ok(None)
}

// Makes the step of an event, if that has this outcome.
fn follow(state: &mut State, event: &Event, outcome: &Outcome) -> Result<bool, Refusal>
    requires { IsWellFormed state.old }
    ensures followed { IfOk result (Follows state.old event.now outcome.now state.new) }
    ensures well_formed { IsWellFormed state.new }
    ensures refused { IfErr result (λ refusal. (refusal ≡ out_of_memory) × MayLack state.old event.now outcome.now) }
    ensures kept { OnErr result (state.new ≡ state.old) }
{
    if is_lack(event, outcome) {
        return Ok(could_lack(state, event));
    }
    let came = step(state, *event);
    if came == *outcome {
        return Ok(true);
    }
    if is_lack(event, &came) {
        return Err(Refusal::OUT_OF_MEMORY);
    }
    Ok(false)
}

// Whether a call that takes memory ended for lack of it.
fn is_lack(event: &Event, outcome: &Outcome) -> bool
    ensures { Decides result (IsLack event.now outcome.now) }
{
    event.call.takes_memory() && *outcome == Outcome::Refused(Refusal::OUT_OF_MEMORY)
}

// Whether the call of an event, one that takes memory, can end for lack of it: it could be made.
fn could_lack(state: &State, event: &Event) -> bool
    requires formed { IsWellFormed state.now }
    requires takes { takes_memory event.now.call ≡ Bool.true }
    ensures { Follows state.now event.now (Refused out_of_memory) state.now result }
{
    retype_refusal(state, *event).is_none()
}

/// A law: a log that stops at an entry isn't legal, and stops at that entry alone.
pub fn logs_stop_where_they_are_no_run()
    ensures illegal { (first last : Machine) (entries : List Entry) (at : ℕ) → StopsAt first entries at
        → ¬ (IsLogBetween first entries last) }
    ensures once { (first : Machine) (entries : List Entry) (at other : ℕ) → StopsAt first entries at
        → StopsAt first entries other → at ≡ other }
{}
