//! The state in which calls are tried one after another: the making of each call, and its undoing.
ghost use Rattle.std.specs.Prelude.{◌≡◌, IfErr};
ghost use Rattle.{base.specs.Refusals.plain, machine.specs.WellFormed.IsWellFormed};

use crate::touching::{changes, reverse, touched};
use base::{ObjId, Refusal};
use machine::Event;
use objects::State;
use runs::{makes, reach};
use std::alloc::{AllocError, Global};
use table::Table;

/// A script after which calls are tried, and the state that it leads to.
#[derive(Clone, Copy)]
pub struct Origin<'a> {
    pub script: &'a [Event],
    /// The objects in which the state may differ from the boot state.
    pub changed: &'a [ObjId],
    pub state: &'a State,
}

/// The objects that a call can change, and those that it seems to have changed.
#[derive(Drop)]
pub struct Effect {
    pub touched: Vec<ObjId>,
    pub changes: Vec<ObjId>,
}

/// Applies a call to a copy of the origin's state.
///
/// The answer is `None` if the call is refused or seems to change nothing.
pub fn apply(
    alloc: Global,
    origin: &Origin<'_>,
    call: &Event,
    ground: &mut State,
) -> Result<Option<Effect>, AllocError>
    requires { IsWellFormed ground.old }
    ensures { IsWellFormed ground.new }
{
    if !makes(ground, *call) {
        return Ok(None);
    }
    let touched = touched(alloc, origin.state, ground, call)?;
    let changes = changes(alloc, origin.state, ground, &touched)?;
    if changes.is_empty() {
        return Ok(None);
    }
    Ok(Some(Effect { touched, changes }))
}

/// Restores the origin's state after a call.
///
/// A call that undoes the first leads there; if there is none, the script does.
///
/// # Errors
///
/// 40 where memory is refused.
pub fn settle(
    alloc: Global,
    table: &Table,
    origin: &Origin<'_>,
    call: &Event,
    touched: &[ObjId],
    ground: &mut State,
) -> Result<(), Refusal>
    requires { IsWellFormed ground.old }
    ensures well_formed { IsWellFormed ground.new }
    ensures refused { IfErr result (λ refusal. refusal ≡ plain 40) }
{
    if undo(alloc, origin, call, touched, ground)? {
        return Ok(());
    }
    match reach(alloc, table, origin.script) {
        Ok(Some(state)) => {
            *ground = state;
            Ok(())
        }
        Ok(None) => Ok(()),
        Err(refusal) => Err(refusal),
    }
}

// Makes the call that undoes a call, if there is one, and returns whether the origin's state is restored.
fn undo(
    alloc: Global,
    origin: &Origin<'_>,
    call: &Event,
    touched: &[ObjId],
    ground: &mut State,
) -> Result<bool, AllocError>
    requires { IsWellFormed ground.old }
    ensures { IsWellFormed ground.new }
{
    let Some(back) = reverse(origin.state, call) else {
        return Ok(false);
    };
    if !makes(ground, back) {
        return Ok(false);
    }
    Ok(changes(alloc, origin.state, ground, touched)?.is_empty())
}
