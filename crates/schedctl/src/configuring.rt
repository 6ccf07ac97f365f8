//! The call Configure, which gives a scheduling context a budget and a period.
ghost use Rattle.std.specs.Prelude.{◌≡◌};
ghost use Rattle.machine.specs.{Machine.object_of, Makes.Makes};
ghost use Rattle.machine.specs.{Step.Configure.{configure_of, core_in, in_limits, with_share}, WellFormed.IsWellFormed};

use base::{Cause, CoreNo, MAX_PERIOD, ObjId};
use cspace::find;
use machine::{Answer, Context, Made, Object, ObjectKind, Share};
use objects::State;
use steps::calls_keep_machines_well_formed;

/// Refuses a budget below 1 or above its period, and a period above [`MAX_PERIOD`].
fn in_limits(budget: u64, period: u64) -> Result<(), Cause>
    ensures { result ≡ in_limits budget period }
{
    if 1 <= budget && budget <= period && period <= MAX_PERIOD {
        Ok(())
    } else {
        Err(Cause::RangeError)
    }
}

/// The core of a control; the first core where there is no control of that number.
fn core(state: &State, id: ObjId) -> CoreNo
    ensures { result ≡ core_in (object_of state.now id) }
{
    match state.object(id) {
        Some(Object::Control(control)) => control.core,
        _ => CoreNo::new(0).unwrap(),
    }
}

/// Gives a scheduling context a share of a core. Does nothing if there is none of that number.
#[tactic(auto, unfolding(machine::specs::Step::Configure::with_share))]
fn give_share(state: &mut State, id: ObjId, share: Share)
    ensures { state.new ≡ with_share state.old id share }
{
    if let Some(&Object::Context(context)) = state.object(id) {
        let configured = Context {
            share: Some(share),
            ..context
        };
        state.set_context(id, configured);
    }
}

// The whole row of a configuring.
#[tactic(auto, unfolding(machine::specs::Step::Configure::configure_of))]
fn make_configure(
    state: &mut State,
    caller: ObjId,
    control: u64,
    address: u64,
    budget: u64,
    period: u64,
) -> Result<Made, Cause>
    ensures { Makes state.old state.new result (configure_of state.old caller control address budget period) }
{
    let (_, governs) = find(state, ObjectKind::Control, caller, control)?;
    let (_, context) = find(state, ObjectKind::Context, caller, address)?;
    in_limits(budget, period)?;
    let share = Share {
        core: core(state, governs.object),
        budget,
        period,
    };
    give_share(state, context.object, share);
    Ok(Made::Done(Answer::Nothing))
}

/// Gives a scheduling context a budget and a period on a core (seL4 manual, seL4_SchedControl_ConfigureFlags).
///
/// The context is at the address `address`. The core is that of the control at the address
/// `control`. Budget and period are in microseconds. They replace what the context had before; the
/// thread that runs on it stays.
///
/// # Errors
///
/// Those of [`find`], for the control and then for the context; and [`Cause::RangeError`] (4)
/// unless `1 <= budget <= period <= MAX_PERIOD`.
pub fn configure(
    state: &mut State,
    caller: ObjId,
    control: u64,
    address: u64,
    budget: u64,
    period: u64,
) -> Result<Made, Cause>
    requires well_formed { IsWellFormed state.old }
    ensures made { Makes state.old state.new result (configure_of state.old caller control address budget period) }
    ensures well_formed { IsWellFormed state.new }
{
    // A law, so that the state stays well formed.
    calls_keep_machines_well_formed();
    make_configure(state, caller, control, address, budget, period)
}
