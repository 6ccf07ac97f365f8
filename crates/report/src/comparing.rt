//! The command `diff`: what changes between two systems of who may change, read and reach whom.
ghost use Rattle.std.specs.Prelude.{◌≡◌, ◌≤◌, IfErr, IfOk, false};
ghost use Rattle.base.specs.Refusals.{out_of_memory};
ghost use Rattle.commands.specs.{Commands.{IsDoneOnTwo, TwoIsJudged, input, output}, Hearing.TwoIsHeard};
ghost use Rattle.report.specs.Compared.{Compares, change_status, changes_told};

use crate::{End, Form, Listener, Sink, Source};
use base::Refusal;
use commands::{Answer, Stop, Taken, Two, load_two, tell};
use diff::{Change, adds_authority, changes, changes_text};
use reach::Reach;
use reptext::changes_report;
use std::alloc::{AllocError, Global};
use table::Table;

/// Reports what changes from one system to another.
///
/// Writes a line for each change, with status 1 if one adds authority, else 0; or the report of the
/// first fault with status 2.
pub fn compare<S, T, L, O>(
    alloc: Global,
    form: Form,
    taken: Taken,
    old: &mut S,
    new: &mut T,
    listener: &mut L,
    out: &mut O,
) -> End
where
    S: Source,
    T: Source,
    L: Listener,
    O: Sink,
    requires old { S.failed old.old ≡ false }
    requires new { T.failed new.old ≡ false }
    requires out { O.failed out.old ≡ false }
    ensures compared { IsDoneOnTwo taken (Compares form) (input S.remaining S.failed old.old old.new)
        (input T.remaining T.failed new.old new.new)
        (output O.contents O.failed O.is_flushed out.old out.new) result }
    ensures heard { TwoIsHeard L.Hears taken (Compares form) (S.remaining old.old) (T.remaining new.old)
        listener.old listener.new
        (output O.contents O.failed O.is_flushed out.old out.new) result }
{
    let two = load_two(alloc, taken, old, new, listener);
    let answer = compared(alloc, form, &two);
    tell(alloc, two, answer, listener, out)
}

fn compared(alloc: Global, form: Form, loaded: &Result<Two, Stop>) -> Result<Answer, Stop>
    ensures { TwoIsJudged (Compares form) loaded.now result }
{
    match loaded {
        Ok(two) => Ok(tables_compared(alloc, form, two.old.table(), two.new.table())?),
        Err(stop) => Err(*stop),
    }
}

/// The answer on what changes from one table to another.
fn tables_compared(alloc: Global, form: Form, old: &Table, new: &Table) -> Result<Answer, Refusal>
    ensures right { IfOk result (Compares form old.now new.now) }
    ensures exit { IfOk result (λ answer. answer.status ≤ 2) }
{
    let one = Reach::of(alloc, old)?;
    let other = Reach::of(alloc, new)?;
    let changes = changes(alloc, &one, &other)?;
    let text = told(alloc, form, old, new, &changes)?;
    Ok(Answer::plain(text, status_of(&changes)))
}

/// The text on changes.
fn told(
    alloc: Global,
    form: Form,
    old: &Table,
    new: &Table,
    changes: &[Change],
) -> Result<Vec<u8>, AllocError>
    ensures { IfOk result (λ text. text.items ≡ changes_told form old.now new.now changes.now) }
{
    match form {
        Form::Text => Ok(changes_text(alloc, old, new, changes)?.into_bytes()),
        Form::Json => changes_report(alloc, old, new, changes),
    }
}

/// The exit status: 1 if a change adds authority.
fn status_of(changes: &[Change]) -> u8
    ensures { result ≡ change_status changes.now }
{
    if adds_authority(changes) {
        return 1;
    }
    0
}
