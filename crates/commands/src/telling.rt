//! The telling of an answer: the listener hears of it, and it is written.
ghost use Rattle.std.specs.Prelude.{◌≡◌, Err, None, Some, false};
ghost use Rattle.commands.specs.{Commands.{IsTold, IsWritten, output}, Ends.{IfMisused, IfNoLabel, unread_file}};
ghost use Rattle.commands.specs.{Hearing.HearsAnswer, declared.load.Stop.{Stop as stop}};

use crate::{Answer, End, Fault, File, Listener, Loaded, Sink, Stop};
use reptext::fault_report;
use std::alloc::Global;

/// Has the listener hear of the answer to what was loaded, which is let go, and writes the answer. If
/// there is no answer because of a fault, writes the report of the fault.
pub fn tell<X: Loaded, L: Listener, O: Sink>(
    alloc: Global,
    loaded: Result<X, Stop>,
    answer: Result<Answer, Stop>,
    listener: &mut L,
    out: &mut O,
) -> End
    requires { O.failed out.old ≡ false }
    ensures told { IsTold answer (output O.contents O.failed O.is_flushed out.old out.new) result }
    ensures heard { HearsAnswer L.Hears X.layout X.held loaded answer listener.old listener.new }
{
    announce(&loaded, &answer, listener);
    write(alloc, answer, out)
}

/// Has the listener hear of the answer to what was loaded, or of the label that its table lacks.
fn announce<X: Loaded, L: Listener>(
    loaded: &Result<X, Stop>,
    answer: &Result<Answer, Stop>,
    listener: &mut L,
)
    ensures { HearsAnswer L.Hears X.layout X.held loaded.now answer.now listener.old listener.new }
{
    match (loaded, answer) {
        (Ok(held), Ok(answer)) => listener.hear_answer(held.files(), answer),
        (Ok(held), Err(Stop::NoLabel(asked))) => listener.hear_unlabelled(held.table(), *asked),
        _ => {}
    }
}

/// Writes the answer, or the report of the fault for which there is none.
fn write<O: Sink>(alloc: Global, answer: Result<Answer, Stop>, out: &mut O) -> End
    requires { O.failed out.old ≡ false }
    ensures { IsTold answer (output O.contents O.failed O.is_flushed out.old out.new) result }
{
    match answer {
        Ok(answer) => write_text(&answer.text, answer.status, out),
        Err(Stop::Faulty(file, fault)) => write_fault(alloc, file, fault, out),
        Err(Stop::CannotRead(file)) => End::CannotRead(file),
        Err(Stop::NoLabel(asked)) => End::NoLabel(asked),
        Err(Stop::Misused(misuse)) => End::Misused(misuse),
        Err(Stop::NoMemory) => End::NoMemory,
    }
}

/// Writes the report of a fault.
fn write_fault<O: Sink>(alloc: Global, file: File, fault: Fault, out: &mut O) -> End
    requires { O.failed out.old ≡ false }
    ensures { IsTold (Err (stop.Faulty file fault)) (output O.contents O.failed O.is_flushed out.old out.new) result }
{
    match fault_report(alloc, fault.number, file, fault.line) {
        Ok(text) => write_text(&text, 2, out),
        Err(_) => End::NoMemory,
    }
}

/// Writes a text, which ends with this status.
fn write_text<O: Sink>(text: &[u8], status: u8, out: &mut O) -> End
    requires { O.failed out.old ≡ false }
    ensures written { IsWritten (Some (text.now, status))
        (output O.contents O.failed O.is_flushed out.old out.new) result }
    ensures unlabelled { IfNoLabel result (λ asked. ⊥) }
    ensures misused { IfMisused result (λ why. ⊥) }
    ensures unread { unread_file result ≡ None }
{
    match out.write_whole(text) {
        Ok(()) => End::Status(status),
        Err(_) => End::CannotWrite,
    }
}
