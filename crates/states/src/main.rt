//! Prints the state in which the events of a script end, or the first of them, run from the boot
//! state of a table: the number that the next object gets, and each object and each slot, a line
//! for each.
//!
//! The crate knows no policy and no verdict.
#![tactic(auto)]

mod facts;
mod failure;
mod runs;

use failure::Failure;
use runs::{Asked, state_after};
use std::env::Env;
use std::process::ExitCode;
use std::rt::Files;
use std::{env, fs, io};

fn main(rt: HostRuntime) -> io::Result<ExitCode> {
    match answer(&rt) {
        Ok(text) => {
            rt.print(&text)?;
            Ok(ExitCode::from(0))
        }
        Err(failure) => {
            eprintln!(rt; "states: {failure}")?;
            Ok(ExitCode::from(2))
        }
    }
}

/// The answer to the command line.
fn answer<R: Files + AllocGlobal + Env>(rt: &R) -> Result<String, Failure> {
    let words = arguments(rt)?;
    match words.as_slice() {
        [_, table, script] => answer_of(rt, table, script, Asked::All),
        [_, table, script, count] => answer_of(rt, table, script, first(count)?),
        _ => Err(Failure::Misused),
    }
}

/// The words of the command line; the first is the program's name.
fn arguments<R: Env + AllocGlobal>(rt: &R) -> io::Result<Vec<String>> {
    Ok(env::args(rt)?.collect(rt.alloc())?)
}

/// The number of events that this word says.
fn first(count: &str) -> Result<Asked, Failure> {
    match count.parse() {
        Ok(count) => Ok(Asked::First(count)),
        Err(_) => Err(Failure::Misused),
    }
}

/// The state after these events of a script.
fn answer_of<R: Files + AllocGlobal>(
    rt: &R,
    table: &str,
    script: &str,
    asked: Asked,
) -> Result<String, Failure> {
    let table = fs::read(rt, table)?;
    let script = fs::read(rt, script)?;
    state_after(rt.alloc(), &table, &script, asked)
}
