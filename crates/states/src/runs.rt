//! The states in which runs of a system end, as text.
ghost use Rattle.machine.specs.WellFormed.{IsWellFormed};

use crate::facts::tell_state;
use crate::failure::Failure;
use captext::read_table;
use evtext::read_script;
use kernel::{boot, run};
use machine::Event;
use objects::State;
use std::alloc::{AllocError, Global};
use table::Table;

/// The events of a script that are run.
#[derive(Clone, Copy)]
pub enum Asked {
    All,
    /// The first events, of this number.
    First(usize),
}

/// Returns the text of the state in which these events of a script end, run from the boot state of
/// a table.
///
/// # Errors
///
/// [`Failure::Table`] and [`Failure::Script`] with the first fault of the text, [`Failure::TooFew`]
/// where the script has fewer events, and [`Failure::Memory`] where memory is refused.
pub fn state_after(
    alloc: Global,
    table: &[u8],
    script: &[u8],
    asked: Asked,
) -> Result<String, Failure> {
    match read_table(alloc, table) {
        Ok(table) => {
            let told = state_of(alloc, &table, script, asked);
            drop(table);
            told
        }
        Err(fault) => Err(Failure::Table(fault)),
    }
}

fn state_of(alloc: Global, table: &Table, script: &[u8], asked: Asked) -> Result<String, Failure> {
    match read_script(alloc, script) {
        Ok(events) => after_events(alloc, table, asked_of(&events, asked)?),
        Err(fault) => Err(Failure::Script(fault)),
    }
}

/// The events that are run.
fn asked_of(events: &[Event], asked: Asked) -> Result<&[Event], Failure> {
    match asked {
        Asked::All => Ok(events),
        Asked::First(count) => events.get(..count).ok_or(Failure::TooFew),
    }
}

fn after_events(alloc: Global, table: &Table, events: &[Event]) -> Result<String, Failure> {
    match boot(alloc, table) {
        Ok(mut state) => {
            let told = after_run(alloc, table, &mut state, events);
            drop(state);
            told
        }
        Err(_) => Err(Failure::Memory),
    }
}

/// Runs the events in a state, and returns the text of the state after them.
fn after_run(
    alloc: Global,
    table: &Table,
    state: &mut State,
    events: &[Event],
) -> Result<String, Failure>
    requires { IsWellFormed state.old }
{
    let mut outcomes = Vec::new(alloc);
    let ran = run(state, events, &mut outcomes);
    drop(outcomes);
    match ran {
        Ok(()) => Ok(told(alloc, table, state)?),
        Err(_) => Err(Failure::Memory),
    }
}

/// The text of a state.
fn told(alloc: Global, table: &Table, state: &mut State) -> Result<String, AllocError> {
    let mut text = String::new(alloc);
    tell_state(&mut text, table, state)?;
    Ok(text)
}
