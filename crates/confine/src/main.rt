//! The program `confine`: what its command line asks for is done, and gives its exit status.
//!
//! It knows no engine, and no text of a file.
#![tactic(auto)]

ghost use Rattle.std.specs.Prelude.{◌≡◌, ◌≤◌, IfOk, IsErr, OnErr, false};
ghost use Rattle.{devices.specs.Watched.failed_of, requests.specs.Requests.{HasFewWorkers, OnInTurn}};

use clap::error::ErrorKind;
use requests::{CommandLine, Format, help, read_request};
use serving::{
    End, Open, Watched, answer, answer_short, answer_split, answer_split_short, open, tell,
};
use std::alloc::Global;
use std::env::Env;
use std::io::{Read, Write};
use std::process::ExitCode;
use std::rt::Clock;
use std::sync::Wait;
use std::thread::Threads;
use std::{env, io};

fn main(rt: HostRuntime) -> ExitCode {
    let opener = |path: &str| open(&rt, path);
    let words = words(&rt);
    let mut out = Watched::new(io::writer(&rt));
    let status = match asked(rt.alloc(), &words) {
        Ok(line) => serve(&rt, line, &opener, &mut out),
        Err(unasked) => refuse(&rt, unasked),
    };
    ExitCode::from(status)
}

/// Does what the command line asks for; gives the exit status.
fn serve<R, F, O, W>(rt: &R, line: CommandLine<'_>, opener: &O, out: &mut Watched<W>) -> u8
where
    R: Eprint + AllocGlobal + Clock + Threads + Wait + Sync,
    F: Read + Drop,
    O: Fn(&str) -> io::Result<F>,
    W: Write,
    requires opener { O.IsAlwaysCallable opener.now }
    requires limits { OnInTurn line HasFewWorkers }
    requires out { failed_of out.old ≡ false }
{
    match line {
        CommandLine::InTurn(invocation) => match invocation.manner.format {
            Format::Json => answer(rt, invocation, opener, &Open, out).0,
            Format::Short => answer_short(rt, invocation, opener, &Open, out).0,
        },
        CommandLine::Split(run) => match run.manner.format {
            Format::Json => answer_split(rt, run, opener, out).0,
            Format::Short => answer_split_short(rt, run, opener, out).0,
        },
    }
}

/// Why nothing is asked for.
#[derive(Drop)]
enum Unasked {
    NoMemory,
    /// A word of the command line isn't UTF-8.
    NotText,
    /// There is no word but the program's name.
    Nothing,
    /// The words ask for the version.
    Version(clap::Error),
    /// The words are no command of the program, or ask for help.
    Misused(clap::Error),
}

/// The words of the command line, of which the first is the program's name.
fn words<R: Env + AllocGlobal>(rt: &R) -> io::Result<Vec<String>> {
    Ok(env::args(rt)?.collect(rt.alloc())?)
}

/// What the words of the command line ask for.
fn asked<'a>(alloc: Global, words: &'a io::Result<Vec<String>>) -> Result<CommandLine<'a>, Unasked>
    ensures limits { IfOk result (λ line. OnInTurn line HasFewWorkers) }
    ensures unread { OnErr words.now (IsErr result) }
{
    match words {
        Ok(words) if words.len() < 2 => Err(Unasked::Nothing),
        Ok(words) => match read_request(alloc, words) {
            Ok(line) => Ok(line),
            Err(error) => Err(match error.kind() {
                ErrorKind::OutOfMemory => Unasked::NoMemory,
                ErrorKind::DisplayVersion => Unasked::Version(error),
                _ => Unasked::Misused(error),
            }),
        },
        Err(error) if error.kind() == io::ErrorKind::OutOfMemory => Err(Unasked::NoMemory),
        Err(_) => Err(Unasked::NotText),
    }
}

/// Says on standard error why nothing was done, or prints the version, if that was asked for; gives the
/// exit status.
fn refuse<R: Eprint + Print>(rt: &R, unasked: Unasked) -> u8
    ensures { result ≤ 2 }
{
    match unasked {
        Unasked::NoMemory => tell(rt, End::NoMemory),
        Unasked::NotText => misuse(rt, "confine: an argument isn't UTF-8\n"),
        Unasked::Nothing => misuse(rt, help::BEGINNING),
        Unasked::Version(version) => match rt.print(version) {
            Ok(()) => 0,
            Err(_) => tell(rt, End::CannotWrite),
        },
        Unasked::Misused(error) => misuse(rt, error),
    }
}

/// Says on standard error how the program is used; gives the exit status.
fn misuse<R: Eprint, D: std::fmt::Display + Drop>(rt: &R, text: D) -> u8
    ensures { result ≡ 2 }
{
    let _ = rt.eprint(text);
    2
}
