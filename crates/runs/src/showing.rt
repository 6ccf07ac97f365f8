//! The test whether a script answers a question.
ghost use Rattle.std.specs.Prelude.{[], ◌++◌, ◌↔◌, ◌∷◌, ◌≡◌, IfErr, IfOk, IsTrue, Some};
ghost use Rattle.base.specs.Refusals.{plain};
ghost use Rattle.machine.specs.{declared.call.Outcome.Outcome as Ended, Authority.label_of};
ghost use Rattle.machine.specs.{Machine.{Machine, object_of}, Step.Step, WellFormed.IsWellFormed};
ghost use Rattle.{integrity.specs.{Allowed.IsLabelled, Shrinks.IsSame}, runs.specs.Shown.{AnswersQuestion, GoesSo, IsSought, IsMade}};

use crate::comparing::{differs, shrinks};
use crate::question::Question;
use crate::reaching::{reach, scripts_lead_to_one_state};
use crate::sight::look;
use base::{Label, ObjId, Refusal};
use kernel::step;
use labels::label_of;
use machine::{Event, Outcome};
use objects::State;
use std::alloc::Global;
use table::Table;

/// Returns whether a script answers a question, by what its last call does to the object of this number.
///
/// The script is the calls `before`, and then `last`. The answer is also `false` if one of the
/// calls is refused.
///
/// # Errors
///
/// 40 where memory is refused.
pub fn shows(
    alloc: Global,
    table: &Table,
    before: &[Event],
    last: Event,
    question: &Question,
    id: ObjId,
) -> Result<bool, Refusal>
    ensures shown { IfOk result (λ shown. IsTrue shown → AnswersQuestion table.now question.now (before.now ++ last ∷ [])) }
    ensures refused { IfErr result (λ refusal. refusal ≡ plain 40) }
{
    // A law, so that both states are one.
    scripts_lead_to_one_state();
    let Some(old) = reach(alloc, table, before)? else {
        return Ok(false);
    };
    let Some(new) = reach(alloc, table, before)? else {
        return Ok(false);
    };
    let asked = is_asked(alloc, table, old, new, last, question, id)?;
    Ok(asked)
}

// Whether an event in the first state is as a question asks. The second state is the same state.
fn is_asked(
    alloc: Global,
    table: &Table,
    old: State,
    new: State,
    last: Event,
    question: &Question,
    id: ObjId,
) -> Result<bool, Refusal>
    requires formed { IsWellFormed old }
    requires same { new ≡ old }
    ensures asked { IfOk result (λ asked. IsTrue asked
        → (next : Machine) × IsSought table.now question.now old last next id) }
    ensures refused { IfErr result (λ refusal. refusal ≡ plain 40) }
{
    let mut new = new;
    if !has_label(table, &old, last.thread, question.actor) {
        return Ok(false);
    }
    if !makes(&mut new, last) {
        return Ok(false);
    }
    if !is_labelled(table, &old, &new, id, question.object) {
        return Ok(false);
    }
    let so = goes_so(alloc, old, new, id, question.taking)?;
    Ok(so)
}

/// Makes the step of an event, and returns whether it isn't refused.
pub fn makes(state: &mut State, event: Event) -> bool
    requires { IsWellFormed state.old }
    ensures made { IsTrue result → (outcome : Ended) × Step state.old event outcome state.new × IsMade outcome }
    ensures well_formed { IsWellFormed state.new }
{
    match step(state, event) {
        Outcome::Refused(_) => false,
        _ => true,
    }
}

// Whether an object has a label.
fn has_label(table: &Table, state: &State, id: ObjId, label: Label) -> bool
    ensures { IsTrue result ↔ (label_of table.now state.now id ≡ Some label) }
{
    match label_of(table, state, id) {
        Some(other) => other.number() == label.number(),
        None => false,
    }
}

// Whether an object has a label in the first state, or is made with it in the second.
fn is_labelled(table: &Table, old: &State, new: &State, id: ObjId, label: Label) -> bool
    ensures { IsTrue result → IsLabelled table.now old.now new.now id label }
{
    if has_label(table, old, id, label) {
        return true;
    }
    match old.object(id) {
        Some(_) => false,
        None => has_label(table, new, id, label),
    }
}

// Whether an object shrinks, or changes in another way.
fn goes_so(alloc: Global, old: State, new: State, id: ObjId, taking: bool) -> Result<bool, Refusal>
    requires formed { IsWellFormed old }
    requires formed_then { IsWellFormed new }
    ensures so { IfOk result (λ so. IsTrue so → ¬ (IsSame old new id) × GoesSo taking old new id) }
    ensures refused { IfErr result (λ refusal. refusal ≡ plain 40) }
{
    let was = look(alloc, old, id)?;
    let is = look(alloc, new, id)?;
    if !differs(&was, &is) {
        return Ok(false);
    }
    let shrinking = shrinks(&was, &is);
    Ok(shrinking == taking)
}
