//! The command `import`: a system description becomes a capability table, or claims.
ghost use Rattle.std.specs.Prelude.{◌<◌, ◌≡◌, IfErr, IfOk, None, false, length};
ghost use Rattle.{base.specs.Refusals.out_of_memory, microkit.specs.LabelView.bytes_of};
ghost use Rattle.{captext.specs.PolicyText.label_name, separation.specs.Claims.claims_text};
ghost use Rattle.commands.specs.{Commands.{DescriptionIsJudged, Says, input, output}, Files.described_contents, Hearing.IsHeard};
ghost use Rattle.commands.specs.Hearing as held;
ghost use Rattle.report.specs.Imports as imports;

use crate::{End, Imported, Listener, OnImport, Sink, Source};
use base::{Label, Refusal};
use captext::{label_name, write_table};
use commands::{Answer, Described, Stop, load_description, tell};
use separation::write_claims;
use std::alloc::{AllocError, Global};
use table::Table;

/// Imports a system description of Microkit.
///
/// Writes its capability table or the claims that it makes with status 0, or the report of the first
/// fault with status 2. A fault of the table that it would become is one of the description, too.
pub fn import<D, L, O>(
    alloc: Global,
    on_import: OnImport,
    description: &mut D,
    listener: &mut L,
    out: &mut O,
) -> End
where
    D: Source,
    L: Listener,
    O: Sink,
    requires description { D.failed description.old ≡ false }
    requires out { O.failed out.old ≡ false }
    ensures imported { imports.IsImported on_import (input D.remaining D.failed description.old description.new)
        (output O.contents O.failed O.is_flushed out.old out.new) result }
    ensures heard { IsHeard L.Hears (λ d. d.table) held.description (λ d. None)
        (λ d. Says (imports.TellsImport on_import.writes d))
        (described_contents on_import.minting (D.remaining description.old)) listener.old listener.new
        (output O.contents O.failed O.is_flushed out.old out.new) result }
{
    let described = load_description(alloc, on_import.minting, description, listener);
    let answer = imported(alloc, on_import, &described);
    tell(alloc, described, answer, listener, out)
}

/// What is asked for of a description that was loaded.
fn imported(
    alloc: Global,
    on_import: OnImport,
    loaded: &Result<Described, Stop>,
) -> Result<Answer, Stop>
    ensures { DescriptionIsJudged (λ d. Says (imports.TellsImport on_import.writes d)) loaded.now result }
{
    match loaded {
        Ok(described) => Ok(Answer::plain(import_text(alloc, on_import, described)?, 0)),
        Err(stop) => Err(*stop),
    }
}

/// The text that is asked for of a description and its table.
fn import_text(
    alloc: Global,
    on_import: OnImport,
    described: &Described,
) -> Result<Vec<u8>, Refusal>
    ensures told { IfOk result (λ text. imports.TellsImport on_import.writes described.now text.items) }
    ensures memory { IfErr result (λ refusal. refusal ≡ out_of_memory) }
{
    match on_import.writes {
        Imported::Table => write_table(alloc, &described.table),
        Imported::Claims => Ok(claims_text(alloc, described)?),
    }
}

/// The text of the claims that a description makes, with the names of its table's labels.
fn claims_text(alloc: Global, described: &Described) -> Result<Vec<u8>, AllocError>
    ensures { IfOk result (λ text. text.items
        ≡ claims_text described.now.table.labels described.now.description) }
{
    let names = label_names(alloc, &described.table)?;
    let text = write_claims(alloc, &names, &described.description)?;
    Ok(text)
}

/// The names of a table's labels, in their order.
#[tactic(auto, using(crate::proofs::LabelNames::name_more))]
fn label_names(alloc: Global, table: &Table) -> Result<Vec<Vec<u8>>, AllocError>
    ensures { IfOk result (λ names. bytes_of names.items ≡ table.now.labels) }
{
    let mut names = Vec::new(alloc);
    for number in 0..table.label_count() {
        if let Some(label) = Label::new(number as u16) {
            let name = label_name(table, label);
            names.push(Vec::from_slice(alloc, name.as_bytes())?)?;
        }
    }
    Ok(names)
}
