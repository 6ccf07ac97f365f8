//! The lines that `--format short` prints on standard output: one for each finding, or one that says that there is none.
ghost use Rattle.std.specs.Prelude.{◌≡◌, ◌⊎◌, false};
ghost use Rattle.{devices.specs.Watched.failed_of, commands.specs.Ends.status_of};

use crate::explaining::Explainer;
use crate::opening::Opened;
use base::Refusal;
use claims::{Claim, Kept, kept_of};
use report::{Answer, Asked, End, Fault, File, Files, Finding, Listener, OnAccept, Sink, Watched};
use requests::{Check, Invocation, OfThree, Request};
use std::alloc::{AllocError, Global};
use std::io::Write;
use std::rt::Clock;
use std::thread::Threads;
use table::Table;

/// Hears what a command finds, and keeps a line for each finding. An [`Explainer`] hears it too.
#[derive(Drop)]
pub struct Shortener<'a, R> {
    explainer: Explainer<'a, R>,
    alloc: Global,
    request: Request<'a, &'a str>,
    printed: Printed,
}

/// The text that is printed.
#[derive(Drop)]
enum Printed {
    /// The answer, if it isn't a report.
    Answer,
    /// These lines, in place of a report.
    Lines(String),
    /// Nothing, as memory was refused to the lines.
    Nothing,
}

impl Printed {
    /// Returns a sentence or lines as printed text.
    fn of<E: Drop>(told: Result<String, E>) -> Printed {
        match told {
            Ok(lines) => Printed::Lines(lines),
            Err(_) => Printed::Nothing,
        }
    }
}

impl<'a, R: AllocGlobal + Clock + Eprint> Shortener<'a, R> {
    pub fn new(rt: &'a R, invocation: Invocation<'a>) -> Shortener<'a, R> {
        Shortener {
            explainer: Explainer::new(rt, invocation),
            alloc: rt.alloc(),
            request: invocation.request,
            printed: Printed::Answer,
        }
    }

    /// Tells which file couldn't be read, if one couldn't, and why.
    pub fn hear_end<F>(&self, end: End, files: &Request<'_, Opened<F>>) {
        self.explainer.hear_end(end, files);
    }

    /// Writes the lines, or the answer that was kept in memory in place of its output. Returns how writing ends.
    pub(crate) fn write<W: Write>(&self, end: End, kept: &[u8], out: &mut Watched<W>) -> End
        requires { failed_of out.old ≡ false }
        ensures { (status_of result ≡ status_of end) ⊎ (status_of result ≡ 2) }
    {
        let text = match (end, &self.printed) {
            (End::Status(_), Printed::Answer) => kept,
            (End::Status(_), Printed::Lines(lines)) => lines.as_bytes(),
            // Only memory is refused to kept text.
            (End::Status(_), Printed::Nothing) | (End::CannotWrite, _) => return End::NoMemory,
            _ => return end,
        };
        match out.write_whole(text) {
            Ok(()) => end,
            Err(_) => End::CannotWrite,
        }
    }

    /// Returns the line on what is wrong, or several lines.
    fn finding_lines(&self, files: Files<'_>, finding: &Finding) -> Result<String, Refusal> {
        let alloc = self.alloc;
        let sentence = self.explainer.sentence_on(files, finding)?;
        match finding {
            Finding::Broken(_) => Ok(sentence),
            _ => Ok(format!(in alloc; "{sentence}\n")?),
        }
    }

    /// Returns the line that says that nothing is wrong, if the answer is a report.
    fn accepted_line(&self, files: Files<'_>) -> Option<Result<String, AllocError>> {
        let alloc = self.alloc;
        match (self.request, files) {
            (
                Request::Check(
                    Check {
                        on_accept: OnAccept::Report,
                        ..
                    },
                    table,
                    _,
                ),
                _,
            ) => Some(format!(in alloc; "{table}: accepted\n")),
            (Request::OfThree(OfThree::Verify(_), _, _, certificate), _) => {
                Some(format!(in alloc; "{certificate}: accepted\n"))
            }
            (Request::OfThree(OfThree::Replay, _, _, log), _) => {
                Some(format!(in alloc; "{log}: legal, and ends within the policy\n"))
            }
            (Request::OfClaims(_, _, claims), Files::Claims(given, lines)) => {
                Some(holding_line(alloc, claims, given.table(), lines.as_slice()))
            }
            _ => None,
        }
    }
}

/// Returns the line that says that the claims of a file hold, and what claims on flows bound.
fn holding_line(
    alloc: Global,
    file: &str,
    table: &Table,
    lines: &[Option<Claim>],
) -> Result<String, AllocError> {
    let count = lines.iter().filter(|line| line.is_some()).count();
    let kept = if bounds_calls(table, lines) {
        "; `apart` and `through` also bound what calls return"
    } else {
        ""
    };
    match count {
        1 => format!(in alloc; "{file}: 1 claim holds{kept}\n"),
        _ => format!(in alloc; "{file}: {count} claims hold{kept}\n"),
    }
}

/// Returns whether a claim bounds what calls return.
fn bounds_calls(table: &Table, lines: &[Option<Claim>]) -> bool {
    kept_of(table) == Kept::Calls
        && lines
            .iter()
            .any(|line| matches!(line, Some(Claim::Through(_, _, _))))
}

impl<R: AllocGlobal + Clock + Eprint + Threads + Sync> Listener for Shortener<'_, R> {
    fn hear_fault(&mut self, file: File, text: &[u8], table: Option<&Table>, fault: Fault) {
        let alloc = self.alloc;
        let told = self.explainer.fault_told(file, text, table, fault);
        self.printed = Printed::of(match told {
            Ok(sentence) => format!(in alloc; "{sentence}\n"),
            Err(error) => Err(error),
        });
    }

    fn hear_answer(&mut self, files: Files<'_>, answer: &Answer) {
        if let Some(finding) = &answer.finding {
            self.printed = Printed::of(self.finding_lines(files, finding));
        } else if let Some(line) = self.accepted_line(files) {
            self.printed = Printed::of(line);
        }
        self.explainer.hear_answer(files, answer);
    }

    fn hear_unlabelled(&mut self, table: &Table, asked: Asked) {
        self.explainer.hear_unlabelled(table, asked);
    }
}
