//! The limits of a kernel on objects, slots, threads and object numbers, which a retype keeps.
ghost use Rattle.std.specs.Prelude.{◌≡◌, ◌≤◌};
ghost use Rattle.{base.specs.declared.limits.TheConstants.MAX_MADE, machine.specs.Step.Retype.within_limits};

use base::{Cause, MAX_PRESENT, MAX_SLOTS, MAX_THREADS, OBJECT_NUMBERS};
use machine::Object;
use objects::State;

/// Refuses to make more objects than the limits of a kernel allow.
///
/// # Errors
///
/// [`Cause::TooMany`] (44) where there would be too many objects, slots, threads or object numbers.
pub fn within_limits(state: &State, object: &Object, count: u64) -> Result<(), Cause>
    requires { count ≤ MAX_MADE }
    ensures { result ≡ within_limits state.now object.now count }
{
    let slots = count * object.slot_count();
    let threads = count * object.thread_count();
    if state.object_count() + count <= MAX_PRESENT
        && state.slot_count() + slots <= MAX_SLOTS
        && state.thread_count() + threads <= MAX_THREADS
        && state.next_id() + count <= OBJECT_NUMBERS
    {
        Ok(())
    } else {
        Err(Cause::TooMany)
    }
}
