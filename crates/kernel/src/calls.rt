//! One kernel call, from its event to its outcome.
ghost use Rattle.std.specs.Prelude.{◌≡◌, ◌≢◌, Bool};
ghost use Rattle.base.specs.{declared.refusal.Misuse.Misuse, Refusals.misuse_refusal};
ghost use Rattle.machine.specs.{declared.call.Outcome.TheVariants.Refused, Makes.{Makes, MakesWithMemory}, Outcomes.IsRefused, Step.MayEnd};
ghost use Rattle.{machine.specs.{Step.{Step, made_by, takes_memory}, WellFormed.IsWellFormed}, kernel.specs.Refusals.lasting_refusal};

use crate::admit::admit;
use crate::poll::poll;
use crate::signal::signal;
use crate::wait::wait;
use base::{Cause, Refusal};
use cnodeops::{copy, mint, move_cap};
use frames::{read_word, write_word};
use machine::{Call, Event, Made, Outcome, Unmade};
use objects::State;
use removal::{delete, revoke};
use replies::reply;
use schedctl::{bind, configure, unbind};
use steps::{calls_are_refused_by_conditions, steps_keep_machines_well_formed};
use threads::{clear_space, resume, set_space, suspend};
use transfer::{call, fetch, receive, send};
use untyped::retype;

// Makes the call of an event, one that takes no memory, once its thread is admitted.
#[tactic(auto, unfolding(machine::specs::Step::made_by))]
fn make(state: &mut State, event: &Event) -> Result<Made, Cause>
    requires formed { IsWellFormed state.old }
    requires without_memory { takes_memory event.now.call ≡ Bool.false }
    ensures { Makes state.old state.new result (made_by state.old event.now) }
{
    admit(state, event.core, event.thread)?;
    match event.call {
        Call::Signal { address } => signal(state, event.thread, address),
        Call::Poll { address } => poll(state, event.thread, address),
        Call::Wait { address } => wait(state, event.thread, address),
        Call::Send {
            address,
            words,
            capability,
        } => send(state, event.thread, address, words, capability),
        Call::Call {
            address,
            words,
            capability,
        } => call(state, event.thread, address, words, capability),
        Call::Receive {
            address,
            reply,
            slot,
        } => receive(state, event.thread, address, reply, slot),
        Call::Reply { address, words } => reply(state, event.thread, address, words),
        Call::Fetch => fetch(state, event.thread),
        Call::Copy { to, from, rights } => copy(state, event.thread, to, from, rights),
        Call::Mint {
            to,
            from,
            rights,
            given,
        } => mint(state, event.thread, to, from, rights, given),
        Call::Move { to, from } => move_cap(state, event.thread, to, from),
        Call::Delete { slot } => delete(state, event.thread, slot),
        Call::Revoke { slot } => revoke(state, event.thread, slot),
        Call::Retype { .. } => unreachable!(),
        Call::Read { address, index } => read_word(state, event.thread, address, index),
        Call::Write {
            address,
            index,
            word,
        } => write_word(state, event.thread, address, index, word),
        Call::SetSpace { thread, space } => set_space(state, event.thread, thread, space),
        Call::ClearSpace { thread } => clear_space(state, event.thread, thread),
        Call::Suspend { thread } => suspend(state, event.thread, thread),
        Call::Resume { thread } => resume(state, event.thread, thread),
        Call::Configure {
            control,
            context,
            budget,
            period,
        } => configure(state, event.thread, control, context, budget, period),
        Call::Bind { context, thread } => bind(state, event.thread, context, thread),
        Call::Unbind { context } => unbind(state, event.thread, context),
    }
}

// Makes the retype of an event, once its thread is admitted.
#[tactic(auto, unfolding(machine::specs::Step::made_by))]
fn make_with_memory(state: &mut State, event: &Event) -> Result<Made, Unmade>
    requires formed { IsWellFormed state.old }
    requires with_memory { takes_memory event.now.call ≡ Bool.true }
    ensures { MakesWithMemory state.old state.new result (made_by state.old event.now) }
{
    let Call::Retype {
        untyped,
        kind,
        bits,
        to,
        offset,
        count,
    } = event.call
    else {
        unreachable!()
    };
    let caller = event.thread;
    admit(state, event.core, caller)?;
    retype(state, caller, untyped, kind, bits, to, offset, count)
}

/// Makes one whole kernel call, and returns how it ended.
///
/// A refused call leaves the state as it was.
///
/// Only a retype takes memory, and is refused 40 if there is none. Every other refusal is
/// by a condition of the call: a code of the seL4 manual from 1 to 10, or 32, 33, 34 or 44.
pub fn step(state: &mut State, event: Event) -> Outcome
    requires { IsWellFormed state.old }
    ensures stepped { Step state.old event result state.new }
    ensures refusals { IsRefused result → state.new ≡ state.old }
    ensures ends { MayEnd event result }
    ensures begun { (misuse : Misuse) → result ≢ Refused (misuse_refusal misuse) }
    ensures well_formed { IsWellFormed state.new }
{
    take_step(state, &event)
}

/// Makes one whole kernel call as [`step`] does, of an event by reference.
pub(crate) fn take_step(state: &mut State, event: &Event) -> Outcome
    requires { IsWellFormed state.old }
    ensures stepped { Step state.old event.now result state.new }
    ensures refusals { IsRefused result → state.new ≡ state.old }
    ensures ends { MayEnd event.now result }
    ensures begun { (misuse : Misuse) → result ≢ Refused (misuse_refusal misuse) }
    ensures well_formed { IsWellFormed state.new }
{
    // Laws, so that the state stays well formed and refusals are those of the rows.
    steps_keep_machines_well_formed();
    calls_are_refused_by_conditions();
    settle(state, event)
}

// How an event ends.
fn settle(state: &mut State, event: &Event) -> Outcome
    requires { IsWellFormed state.old }
    ensures stepped { Step state.old event.now result state.new }
    ensures refusals { IsRefused result → state.new ≡ state.old }
{
    if event.call.takes_memory() {
        return settle_retype(state, event);
    }
    settle_call(state, event)
}

// How a retype ends.
fn settle_retype(state: &mut State, event: &Event) -> Outcome
    requires formed { IsWellFormed state.old }
    requires with_memory { takes_memory event.now.call ≡ Bool.true }
    ensures stepped { Step state.old event.now result state.new }
    ensures refusals { IsRefused result → state.new ≡ state.old }
{
    match make_with_memory(state, event) {
        Ok(made) => Outcome::from(made),
        Err(unmade) => Outcome::Refused(Refusal::from(unmade)),
    }
}

// How any other call ends.
fn settle_call(state: &mut State, event: &Event) -> Outcome
    requires formed { IsWellFormed state.old }
    requires without_memory { takes_memory event.now.call ≡ Bool.false }
    ensures stepped { Step state.old event.now result state.new }
    ensures refusals { IsRefused result → state.new ≡ state.old }
{
    let answer = match make(state, event) {
        Ok(Made::Done(answer)) => answer,
        Ok(Made::Blocked) => return Outcome::Blocked,
        Err(cause) => return Outcome::Refused(Refusal::from(cause)),
    };
    Outcome::Done(answer)
}

/// Returns the refusal of a retype that comes however much memory there is.
///
/// The answer is `None` if [`step`] could make the retype, and for any other call.
#[tactic(auto, unfolding(machine::specs::Step::made_by))]
pub fn retype_refusal(state: &State, event: Event) -> Option<Refusal>
    requires { IsWellFormed state.now }
    ensures { result ≡ lasting_refusal state.now event }
{
    let Call::Retype {
        untyped,
        kind,
        bits,
        to,
        offset,
        count,
    } = event.call
    else {
        return None;
    };
    match admit(state, event.core, event.thread) {
        Ok(_) => untyped::retype_refusal(
            state,
            event.thread,
            untyped,
            kind,
            bits,
            to,
            offset,
            count,
        ),
        Err(cause) => Some(Refusal::from(cause)),
    }
}
