//! The calls ClearSpace and SetSpace, on the root of a thread's capability space.
ghost use Rattle.std.specs.Prelude.{◌≡◌, IsTrue, None, Some};
ghost use Rattle.machine.specs.{declared.cap.Cap.Cap as Held, Lookup.root_of, Machine.{cap_of, has_slot}, Makes.Makes};
ghost use Rattle.machine.specs.{Step.Space.{clear_space_of, set_space_of, with_root, without_root}, WellFormed.IsWellFormed};

use base::{Cause, ObjId, SlotRef};
use cnodeops::derive;
use cspace::find;
use machine::{Answer, Ends, Made, ObjectKind};
use objects::State;
use removal::remove;
use steps::{calls_keep_machines_well_formed, cleared_root_slots_can_be_filled};

/// The root slot of a thread.
fn root_of(thread: ObjId) -> SlotRef
    ensures { result ≡ root_of thread }
{
    SlotRef {
        holder: thread,
        index: 0,
    }
}

/// Removes the capability in a thread's root slot, if it is filled, and all that can't exist without it.
fn clear_root(state: &mut State, thread: ObjId)
    requires { IsWellFormed state.old }
    ensures changes { state.new ≡ without_root state.old thread }
    ensures well_formed { IsWellFormed state.new }
{
    // A law, so that the state stays well formed.
    cleared_root_slots_can_be_filled();
    let root = root_of(thread);
    if let Some(_) = state.cap(root) {
        remove(state, root);
    }
}

/// Fills a thread's empty root slot with a copy of what the slot `node` holds. Does nothing if that
/// slot is empty, or the slot `tcb` with the thread's capability is.
#[tactic(auto, unfolding(machine::specs::Step::Space::with_root))]
fn fill_root(state: &mut State, thread: ObjId, tcb: SlotRef, node: SlotRef)
    requires well_formed { IsWellFormed state.old }
    requires there { (of held : Held)
        → cap_of state.old tcb ≡ Some of
        → cap_of state.old node ≡ Some held
        → IsTrue (has_slot state.old (root_of thread)) }
    requires vacant { cap_of state.old (root_of thread) ≡ None }
    ensures { state.new ≡ with_root state.old thread tcb node }
{
    if let Some(_) = state.cap(tcb) {
        if let Some(held) = state.cap(node) {
            let ends = Ends {
                target: root_of(thread),
                source: node,
                held,
            };
            derive(state, ends, held.detail);
        }
    }
}

// The whole row of a clearing of a space.
#[tactic(auto, unfolding(machine::specs::Step::Space::clear_space_of))]
fn make_clear_space(state: &mut State, caller: ObjId, address: u64) -> Result<Made, Cause>
    requires { IsWellFormed state.old }
    ensures { Makes state.old state.new result (clear_space_of state.old caller address) }
{
    let (_, tcb) = find(state, ObjectKind::Tcb, caller, address)?;
    clear_root(state, tcb.object);
    Ok(Made::Done(Answer::Nothing))
}

/// Empties the root slot of the thread at an address (confine's own, a part of seL4's seL4_TCB_SetSpace).
///
/// If the slot is filled, its capability is removed, and all that can't exist without it. The
/// thread's look-ups fail from then on.
///
/// # Errors
///
/// Those of [`find`].
pub fn clear_space(state: &mut State, caller: ObjId, address: u64) -> Result<Made, Cause>
    requires well_formed { IsWellFormed state.old }
    ensures made { Makes state.old state.new result (clear_space_of state.old caller address) }
    ensures well_formed { IsWellFormed state.new }
{
    // A law, so that the state stays well formed.
    calls_keep_machines_well_formed();
    make_clear_space(state, caller, address)
}

// The whole row of a setting of a space.
#[tactic(auto, unfolding(machine::specs::Step::Space::set_space_of))]
fn make_set_space(state: &mut State, caller: ObjId, address: u64, space: u64) -> Result<Made, Cause>
    requires { IsWellFormed state.old }
    ensures { Makes state.old state.new result (set_space_of state.old caller address space) }
{
    // A law, so that the root slot can be filled.
    cleared_root_slots_can_be_filled();
    let (slot, tcb) = find(state, ObjectKind::Tcb, caller, address)?;
    let (node, _) = find(state, ObjectKind::CNode, caller, space)?;
    clear_root(state, tcb.object);
    fill_root(state, tcb.object, slot, node);
    Ok(Made::Done(Answer::Nothing))
}

/// Gives the thread at an address another root for its capability space (seL4 manual, seL4_TCB_SetSpace).
///
/// The new root is a copy of the CNode's capability at the address `space`. The old one is removed
/// first, as by [`clear_space`]. If that empties the slot of the thread's or of the CNode's
/// capability, or removes the thread itself, the call is done and the root slot stays empty.
///
/// # Errors
///
/// Those of [`find`], for the thread and then for the CNode.
pub fn set_space(state: &mut State, caller: ObjId, address: u64, space: u64) -> Result<Made, Cause>
    requires well_formed { IsWellFormed state.old }
    ensures made { Makes state.old state.new result (set_space_of state.old caller address space) }
    ensures well_formed { IsWellFormed state.new }
{
    // A law, so that the state stays well formed.
    calls_keep_machines_well_formed();
    make_set_space(state, caller, address, space)
}
