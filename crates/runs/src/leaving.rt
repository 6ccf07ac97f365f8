//! The test whether a script leads out of a policy, to a state whose authority lies outside it.
ghost use Rattle.std.specs.Prelude.{◌≡◌, IfErr, IfOk, IfSome, IsTrue};
ghost use Rattle.{base.specs.Refusals.plain, policy.specs.Policy.allows, runs.specs.Escapes.{IsAnywhereOutside, LeavesPolicy, LeavesAt}};

use crate::reaching::reach;
use base::Refusal;
use machine::Event;
use objects::State;
use policy::Policy;
use std::alloc::Global;
use table::Table;
use verdict::{Denial, outside};

/// The largest number of calls in a run that leaves a policy.
pub const MOST_CALLS: usize = 8;

/// Returns the first place where the authority after a script lies outside a policy.
///
/// The answer is `None` if there is no such place, if a call of the script is refused, or if the
/// script has more than [`MOST_CALLS`] calls.
///
/// # Errors
///
/// 40 where memory is refused.
pub fn place_outside(
    alloc: Global,
    table: &Table,
    policy: &Policy,
    script: &[Event],
) -> Result<Option<Denial>, Refusal>
    ensures left { IfOk result (λ found. IfSome found (LeavesAt table.now (allows policy.now) script.now)) }
    ensures refused { IfErr result (λ refusal. refusal ≡ plain 40) }
{
    if script.len() > MOST_CALLS {
        return Ok(None);
    }
    match reach(alloc, table, script)? {
        Some(state) => Ok(outside(table, policy, &state)),
        None => Ok(None),
    }
}

/// Returns whether a script of at most [`MOST_CALLS`] calls leaves a policy.
///
/// # Errors
///
/// 40 where memory is refused.
pub fn leaves(
    alloc: Global,
    table: &Table,
    policy: &Policy,
    script: &[Event],
) -> Result<bool, Refusal>
    ensures left { IfOk result (λ left. IsTrue left → LeavesPolicy table.now (allows policy.now) script.now) }
    ensures refused { IfErr result (λ refusal. refusal ≡ plain 40) }
{
    if script.len() > MOST_CALLS {
        return Ok(false);
    }
    match reach(alloc, table, script)? {
        Some(state) => Ok(lies_outside(table, policy, &state)),
        None => Ok(false),
    }
}

/// Returns whether some authority of a state lies outside a policy.
pub fn lies_outside(table: &Table, policy: &Policy, state: &State) -> bool
    ensures { IsTrue result → IsAnywhereOutside table.now (allows policy.now) state.now }
{
    match outside(table, policy, state) {
        Some(_) => true,
        None => false,
    }
}
