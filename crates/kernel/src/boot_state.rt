//! The boot state of a capability table.
ghost use Rattle.std.specs.Prelude.{◌≡◌, IfErr, IfOk};
ghost use Rattle.{base.specs.Refusals.plain, machine.specs.{Boot.{IsBoot, IsFresh, bound}, WellFormed.IsWellFormed}};
ghost use Rattle.{table.specs.Rules.IsLawful, kernel.specs.Parts.{objects_alone, without_tree}};

use base::{ObjId, Refusal};
use machine::{Context, Object, Tcb};
use objects::State;
use std::alloc::{AllocError, Global};
use table::{Table, boot_states_are_well_formed};

/// An initial object with the links that the table's bindings give it.
fn bound(table: &Table, id: ObjId, object: Object) -> Object
    ensures { result ≡ bound table.now id object }
{
    match object {
        Object::Tcb(thread) => Object::Tcb(Tcb {
            context: table.bound_context(id),
            ..thread
        }),
        Object::Context(context) => Object::Context(Context {
            thread: table.bound_thread(id),
            ..context
        }),
        _ => object,
    }
}

/// Returns a state with the table's objects, whose slots are empty.
fn with_objects(alloc: Global, table: &Table) -> Result<State, AllocError>
    ensures { IfOk result (IsBoot (objects_alone table.now)) }
{
    let mut state = State::new(alloc);
    let initials = table.objects();
    for initial in initials {
        let id = ObjId(state.next_id());
        state.add_object(bound(table, id, initial.object))?;
    }
    Ok(state)
}

/// Fills the slots of a state with the table's capabilities.
fn fill(state: &mut State, table: &Table)
    requires { IsBoot (objects_alone table.now) state.old }
    ensures { IsBoot (without_tree table.now) state.new }
{
    let caps = table.caps();
    for filled in caps {
        state.put_cap(filled.slot, filled.cap);
    }
}

/// Gives the children of the table's derivation tree their parents in a state.
fn derive(state: &mut State, table: &Table)
    requires { IsBoot (without_tree table.now) state.old }
    ensures booted { IsBoot table.now state.new }
    ensures lawful { IsLawful table.now }
{
    // A law, so that ranks rise along the pairs that are there at each turn.
    boot_states_are_well_formed();
    let pairs = table.pairs();
    for pair in pairs {
        state.caps_are_in_slots();
        state.attach(pair.child, pair.parent);
    }
}

/// Returns the boot state of a capability table.
///
/// The state is well formed, and follows the boot rule: nothing is made of untyped memory, nobody
/// waits or has received anything, each thread is ready or inactive as it was declared, no
/// notification has a word, replies are free, frames are zero, and a capability without a parent is
/// original.
///
/// # Errors
///
/// 40 if memory is refused.
pub fn boot(alloc: Global, table: &Table) -> Result<State, Refusal>
    ensures booted { IfOk result (IsBoot table.now) }
    ensures well_formed { IfOk result IsWellFormed }
    ensures fresh { IfOk result (IsFresh table.now) }
    ensures refused { IfErr result (λ refusal. refusal ≡ plain 40) }
{
    let mut state = with_objects(alloc, table)?;
    fill(&mut state, table);
    derive(&mut state, table);
    boot_states_are_well_formed();
    Ok(state)
}
