//! The call Retype, which makes objects from untyped memory.
ghost use Rattle.std.specs.Prelude.{◌≡◌, IfOk, OnErr, OnOk};
ghost use Rattle.machine.specs.{Makes.MakesWithMemory, Step.Retype.retype_of, WellFormed.IsWellFormed};
ghost use Rattle.untyped.specs.Making.{CanBeMade, planned, refusal_in, with_making};

use crate::conditions::{a_few, all_vacant, in_node, sized};
use crate::filling::{Window, fill};
use crate::finding::{Source, find_taker, find_untyped};
use crate::limits::within_limits;
use crate::making::{Making, new_object};
use crate::placing::place;
use crate::room::{begun, new_size, roomy};
use base::{Cause, MAX_MADE, ObjId, Refusal};
use machine::{Answer, Made, MemoryKind, Unmade};
use objects::State;
use std::alloc::AllocError;
use steps::retypes_keep_machines_well_formed;

/// The plan of a retype, whose conditions are tested in their order, or the cause of its refusal.
#[tactic(auto, unfolding(machine::specs::Step::Retype::retype_of))]
fn plan(
    state: &State,
    caller: ObjId,
    untyped: u64,
    kind: MemoryKind,
    bits: u64,
    to: u64,
    offset: u64,
    count: u64,
) -> Result<Making, Cause>
    requires { IsWellFormed state.now }
    ensures row { planned state.now result ≡ retype_of state.now caller untyped kind bits to offset count }
    ensures ready { IfOk result (CanBeMade state.now) }
{
    let source = find_untyped(state, caller, untyped)?;
    sized(kind, bits)?;
    a_few(count)?;
    let level = find_taker(state, caller, to)?;
    in_node(level.radix, offset, count)?;
    all_vacant(state, level.node, offset, count)?;
    let source = begun(state, source);
    roomy(source.memory, new_size(kind, bits), count)?;
    within_limits(state, &new_object(kind, bits, 0), count)?;
    let window = Window {
        node: level.node,
        offset,
        count,
    };
    Ok(Making {
        source,
        kind,
        bits,
        window,
    })
}

/// Makes objects with their capabilities. Memory is allocated before anything is changed.
fn make(state: &mut State, making: Making) -> Result<(), AllocError>
    requires { CanBeMade state.old making }
    ensures ok { OnOk result (state.new ≡ with_making state.old making) }
    ensures err { OnErr result (state.new ≡ state.old) }
{
    let Making {
        source,
        kind,
        bits,
        window,
    } = making;
    let mut objects = [new_object(kind, bits, 0); MAX_MADE as usize];
    let objects = &mut objects[..window.count as usize];
    let mark = place(kind, bits, source.memory, objects);
    let first = state.next_id();
    state.add_objects(objects)?;
    fill(state, window, first, kind, source.slot);
    state.set_watermark(source.id, mark);
    Ok(())
}

/// Makes `count` objects of a kind from the untyped memory that the caller names (seL4 manual, seL4_Untyped_Retype).
///
/// The objects' capabilities are put into `count` slots, from `offset` on, of the CNode that the
/// caller names as `to`. `bits` is the size of untyped memory and the radix of a CNode. If an
/// allocation fails, the call is refused and the state stays as it was.
///
/// # Errors
///
/// [`Unmade::Refused`] with the first of these causes:
///
/// - [`Cause::FailedLookup`] (6) or [`Cause::InvalidCapability`] (2), where the untyped memory
/// isn't found
/// - [`Cause::InvalidArgument`] (1) or [`Cause::RangeError`] (4), where `bits` is too small or too
/// large for the kind
/// - [`Cause::RangeError`] (4), where `count` isn't from 1 to 16
/// - [`Cause::FailedLookup`] (6), where the CNode `to` isn't found
/// - [`Cause::RangeError`] (4), where the CNode has fewer slots than `offset` and `count` together
/// - [`Cause::DeleteFirst`] (8), where one of the slots is filled
/// - [`Cause::NotEnoughMemory`] (10), where the untyped memory has no room
/// - [`Cause::TooMany`] (44), where there would be too many objects, slots, threads or object
/// numbers.
///
/// [`Unmade::OutOfMemory`] (40) if none of these holds, and an allocation failed.
pub fn retype(
    state: &mut State,
    caller: ObjId,
    untyped: u64,
    kind: MemoryKind,
    bits: u64,
    to: u64,
    offset: u64,
    count: u64,
) -> Result<Made, Unmade>
    requires well_formed { IsWellFormed state.old }
    ensures row { MakesWithMemory state.old state.new result
        (retype_of state.old caller untyped kind bits to offset count) }
    ensures well_formed { IsWellFormed state.new }
{
    // A law, so that the state stays well formed.
    retypes_keep_machines_well_formed();
    let making = plan(state, caller, untyped, kind, bits, to, offset, count)?;
    match make(state, making) {
        Ok(()) => Ok(Made::Done(Answer::Count(making.window.count))),
        Err(_) => Err(Unmade::OutOfMemory),
    }
}

/// Returns why [`retype`] is refused, however much memory there is, or `None` if it isn't.
pub fn retype_refusal(
    state: &State,
    caller: ObjId,
    untyped: u64,
    kind: MemoryKind,
    bits: u64,
    to: u64,
    offset: u64,
    count: u64,
) -> Option<Refusal>
    requires { IsWellFormed state.now }
    ensures { result ≡ refusal_in (retype_of state.now caller untyped kind bits to offset count) }
{
    match plan(state, caller, untyped, kind, bits, to, offset, count) {
        Ok(_) => None,
        Err(cause) => Some(Refusal::from(cause)),
    }
}
