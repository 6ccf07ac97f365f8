//! The reading of a certificate's text.
ghost use Rattle.std.specs.Prelude.{ℕ, ◌≡◌, ◌≢◌, Err, IfErr, IfOk, List, Ok};
ghost use Rattle.words.specs.{declared.faults.Wrong.Wrong, Fault.{fault_at, no_memory}, FirstFault.{IsFirstFault, TellsFirst}};
ghost use Rattle.words.specs.{Name.name_at, Parts.in_turn, Reading.{Gives, Reads, bind, ended_at}, Text.lines_of};
ghost use Rattle.certificate.specs.{declared.line.Line.Line as LineOf, Certificate.{IsCertificateOf, certificate_text}};
ghost use Rattle.certificate.specs.Reading as reading;

use crate::kinds::kinds;
use crate::line::{Certificate, Line};
use base::{Kinds, Label, ObjId, SlotRef};
use captext::{Place, fits_holder, is_thread_and_context, slot, slot_in};
use machine::ObjectKind;
use std::alloc::Global;
use table::Table;
use words::{Fault, LineError, Reader, Words, Wrong, read_text};

/// The labels of these names.
#[tactic(auto, unfolding(crate::specs::Reading::labels_named, words::specs::Reading::bind))]
fn labels_named(table: &Table, from: &str, to: &str) -> Result<(Label, Label), Wrong>
    ensures { result ≡ reading.labels_named table.now from.now to.now }
{
    let Some(from) = table.label_named(from) else {
        return Err(Wrong::UnknownName);
    };
    let Some(to) = table.label_named(to) else {
        return Err(Wrong::UnknownName);
    };
    Ok((from, to))
}

/// Whether the place is one in a CNode.
fn is_in_cnode(holder: Option<ObjectKind>, place: Place) -> bool
    ensures { result ≡ reading.is_in_cnode holder place }
{
    matches!((holder, place), (Some(ObjectKind::CNode), Place::Index(_)))
}

/// Whether the place is a thread's root slot.
fn is_root(holder: Option<ObjectKind>, place: Place) -> bool
    ensures { result ≡ reading.is_root holder place }
{
    matches!((holder, place), (Some(ObjectKind::Tcb), Place::Root))
}

/// The slot at a place of a holder, if the table declares it.
#[tactic(auto, unfolding(crate::specs::Reading::declared, table::specs::Building::declares_slot, words::specs::Reading::bind))]
fn declared(table: &Table, holder: ObjId, place: Place) -> Result<SlotRef, Wrong>
    ensures { result ≡ reading.declared table.now holder place }
{
    let slot = slot_in(holder, place);
    match table.object(holder) {
        Some(initial) if slot.index < initial.object.slot_count() => Ok(slot),
        _ => Err(Wrong::Limit),
    }
}

/// Takes the last two words of a line as the names of labels.
#[tactic(auto, unfolding(words::specs::Parts::in_turn, words::specs::Reading::bind))]
fn last_names<'a>(words: &mut Words<'a>) -> Result<(&'a str, &'a str), Wrong>
    ensures { Gives (λ names. (names.0.now, names.1.now)) result
        (bind (in_turn name_at name_at words.old) (λ names. bind (ended_at names.1) (λ _. Ok names.0))) }
{
    let from = words.name()?;
    let to = words.name()?;
    words.end()?;
    Ok((from, to))
}

/// The line of a capability in a slot of a CNode, by the names in it.
#[tactic(auto, unfolding(crate::specs::Reading::line_named, words::specs::Reading::bind))]
fn named_cap(
    table: &Table,
    slot: (&str, Place),
    kinds: Kinds,
    from: &str,
    to: &str,
) -> Result<Line, Wrong>
    ensures { result ≡ reading.line_named table.now
        (reading.NamedCap ((slot.entry.0.now, slot.entry.1), (from.now, (kinds, to.now)))) }
{
    let Some(holder) = table.object_named(slot.0) else {
        return Err(Wrong::UnknownName);
    };
    let (from, to) = labels_named(table, from, to)?;
    if !is_in_cnode(table.kind(holder), slot.1) {
        return Err(Wrong::WrongKind);
    }
    let slot = declared(table, holder, slot.1)?;
    Ok(Line::Cap {
        slot,
        from,
        kinds,
        to,
    })
}

/// Reads `SLOT LABEL KINDS LABEL`, after the word `cap`.
#[tactic(auto, unfolding(crate::specs::Reading::cap_at, crate::specs::Reading::line_by, words::specs::Parts::in_turn, words::specs::Parts::read_as, words::specs::Reading::bind))]
fn cap_line(table: &Table, words: &mut Words<'_>) -> Result<Line, Wrong>
    ensures { result ≡ reading.line_by reading.cap_at table.now words.old }
{
    let slot = slot(words)?;
    let from = words.name()?;
    let kinds = kinds(words)?;
    let to = words.name()?;
    words.end()?;
    named_cap(table, slot, kinds, from, to)
}

/// The line of a thread's root slot, by the names in it.
#[tactic(auto, unfolding(crate::specs::Reading::line_named, words::specs::Reading::bind))]
fn named_space(table: &Table, slot: (&str, Place), from: &str, to: &str) -> Result<Line, Wrong>
    ensures { result ≡ reading.line_named table.now
        (reading.NamedSpace ((slot.entry.0.now, slot.entry.1), (from.now, to.now))) }
{
    let Some(holder) = table.object_named(slot.0) else {
        return Err(Wrong::UnknownName);
    };
    let (from, to) = labels_named(table, from, to)?;
    if !is_root(table.kind(holder), slot.1) {
        return Err(Wrong::WrongKind);
    }
    let slot = declared(table, holder, slot.1)?;
    Ok(Line::Space { slot, from, to })
}

/// Reads `SLOT LABEL LABEL`, after the word `space`.
#[tactic(auto, unfolding(crate::specs::Reading::space_at, crate::specs::Reading::line_by, words::specs::Parts::in_turn, words::specs::Parts::read_as, words::specs::Reading::bind))]
fn space_line(table: &Table, words: &mut Words<'_>) -> Result<Line, Wrong>
    ensures { result ≡ reading.line_by reading.space_at table.now words.old }
{
    let slot = slot(words)?;
    let (from, to) = last_names(words)?;
    named_space(table, slot, from, to)
}

/// The line of a pair of the derivation tree, by the names in it.
#[tactic(auto, unfolding(crate::specs::Reading::line_named, words::specs::Reading::bind))]
fn named_derive(
    table: &Table,
    parent: (&str, Place),
    child: (&str, Place),
    from: &str,
    to: &str,
) -> Result<Line, Wrong>
    ensures { result ≡ reading.line_named table.now (reading.NamedDerive
        ((parent.entry.0.now, parent.entry.1), ((child.entry.0.now, child.entry.1), (from.now, to.now)))) }
{
    let Some(above) = table.object_named(parent.0) else {
        return Err(Wrong::UnknownName);
    };
    let Some(below) = table.object_named(child.0) else {
        return Err(Wrong::UnknownName);
    };
    let (from, to) = labels_named(table, from, to)?;
    let fit = fits_holder(table.kind(above), parent.1);
    if !(fit && fits_holder(table.kind(below), child.1)) {
        return Err(Wrong::WrongKind);
    }
    let parent = declared(table, above, parent.1)?;
    let child = declared(table, below, child.1)?;
    Ok(Line::Derive {
        parent,
        child,
        from,
        to,
    })
}

/// Reads `SLOT SLOT LABEL LABEL`, after the word `derive`.
#[tactic(auto, unfolding(crate::specs::Reading::derive_at, crate::specs::Reading::line_by, words::specs::Parts::in_turn, words::specs::Parts::read_as, words::specs::Reading::bind))]
fn derive_line(table: &Table, words: &mut Words<'_>) -> Result<Line, Wrong>
    ensures { result ≡ reading.line_by reading.derive_at table.now words.old }
{
    let parent = slot(words)?;
    let child = slot(words)?;
    let (from, to) = last_names(words)?;
    named_derive(table, parent, child, from, to)
}

/// The line of a binding, by the names in it.
#[tactic(auto, unfolding(crate::specs::Reading::line_named, words::specs::Reading::bind))]
fn named_runs(
    table: &Table,
    thread: &str,
    context: &str,
    from: &str,
    to: &str,
) -> Result<Line, Wrong>
    ensures { result ≡ reading.line_named table.now
        (reading.NamedRuns (thread.now, (context.now, (from.now, to.now)))) }
{
    let Some(thread) = table.object_named(thread) else {
        return Err(Wrong::UnknownName);
    };
    let Some(context) = table.object_named(context) else {
        return Err(Wrong::UnknownName);
    };
    let (from, to) = labels_named(table, from, to)?;
    if !is_thread_and_context(table.kind(thread), table.kind(context)) {
        return Err(Wrong::WrongKind);
    }
    Ok(Line::Runs {
        thread,
        context,
        from,
        to,
    })
}

/// Reads `TCB CONTEXT LABEL LABEL`, after the word `runs`.
#[tactic(auto, unfolding(crate::specs::Reading::runs_at, crate::specs::Reading::line_by, words::specs::Parts::in_turn, words::specs::Parts::read_as, words::specs::Reading::bind))]
fn runs_line(table: &Table, words: &mut Words<'_>) -> Result<Line, Wrong>
    ensures { result ≡ reading.line_by reading.runs_at table.now words.old }
{
    let thread = words.name()?;
    let context = words.name()?;
    let (from, to) = last_names(words)?;
    named_runs(table, thread, context, from, to)
}

/// Reads a line, by its first word.
#[tactic(auto, unfolding(crate::specs::Reading::named_line_at, crate::specs::Reading::line_by, words::specs::Parts::by_word, words::specs::Parts::keyed, words::specs::Reading::bind))]
fn line(table: &Table, words: &mut Words<'_>) -> Result<Line, Wrong>
    ensures { result ≡ reading.line_of table.now words.old }
{
    let keyword = words.word()?;
    if keyword == b"cap".as_slice() {
        cap_line(table, words)
    } else if keyword == b"space".as_slice() {
        space_line(table, words)
    } else if keyword == b"derive".as_slice() {
        derive_line(table, words)
    } else if keyword == b"runs".as_slice() {
        runs_line(table, words)
    } else {
        Err(Wrong::Syntax)
    }
}

/// The lines so far.
#[derive(Drop)]
struct Lines<'a> {
    table: &'a Table,
    certificate: Certificate,
}

impl<'a> Reader for Lines<'a> {
    ghost Seen = { List LineOf };

    ghost seen = { λ lines. lines.certificate };

    ghost step = { λ lines. reading.line_step lines.table.now };

    #[tactic(auto, unfolding(words::specs::Reading::bind))]
    fn take_line(&mut self, words: &mut Words<'_>) -> Result<(), LineError> {
        let line = line(self.table, words)?;
        self.certificate.push(line)?;
        Ok(())
    }
}

/// Reads the text of a certificate, whose slots, objects and labels are those of the table.
///
/// The certificate's lines may come in any order, and more than once.
///
/// # Errors
///
/// The fault of the first faulty line, or 40 where memory is refused.
pub fn read(alloc: Global, text: &[u8], table: &Table) -> Result<Certificate, Fault>
    ensures exact { Reads (λ lines. lines) result (reading.read_certificate_of table.now text.now) }

    // A text that is read is the certificate's, and the text of each certificate for the table is read
    // as it.
    ensures found { IfOk result
        (λ lines. IsCertificateOf table.now lines × (text.now ≡ certificate_text table.now lines)) }
    ensures only { (lines : List LineOf) → IsCertificateOf table.now lines
        → text.now ≡ certificate_text table.now lines → Reads (λ lines. lines) result (Ok lines) }

    // One that isn't read is refused for its first fault, unless memory was refused.
    ensures faults { IfErr result (λ fault. fault ≢ no_memory
        → TellsFirst (reading.certificate_format table.now) (lines_of text.now) fault) }
    ensures refused { (line : ℕ) (wrong : Wrong)
        → IsFirstFault (reading.certificate_format table.now) (lines_of text.now) line wrong
        → Reads (λ lines. lines) result (Err (fault_at line wrong)) }
{
    // A rule of tables: no two names are the same.
    table.keeps_rules();
    lines_of(alloc, text, table)
}

/// Reads the text of a certificate, by the definition alone.
#[tactic(auto, unfolding(crate::specs::Reading::read_certificate_of))]
fn lines_of(alloc: Global, text: &[u8], table: &Table) -> Result<Certificate, Fault>
    ensures { Reads (λ lines. lines) result (reading.read_certificate_of table.now text.now) }
{
    let mut lines = Lines {
        table,
        certificate: Certificate::of(Vec::new(alloc)),
    };
    read_text(&mut lines, b"confine-cert 1", text)?;
    Ok(lines.certificate)
}
