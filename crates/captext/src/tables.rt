//! The reading of a capability table's text.
ghost use Rattle.std.specs.Prelude.{[], ℕ, ◌++◌, ◌+◌, ◌<◌, ◌^◌, ◌↔◌, ◌∷◌, ◌≡◌, ◌≢◌, Err, IfErr, IfOk, List, MatchResult, Ok, OnErr, length};
ghost use Rattle.words.specs.{declared.faults.Wrong.{TheVariants.Tree, Wrong}, Fault.{fault_at, no_memory}};
ghost use Rattle.words.specs.{FirstFault.{IsFirstFault, TellsFirst}, Reading.{Gives, GivesOrStops, Reads, header_at}};
ghost use Rattle.{words.specs.Text.{line_text, lines_of, words_of}, machine.specs.Layout.Layout};
ghost use Rattle.{table.specs.{Items.Item, Rules.{IsDraft, IsLawful}}, captext.specs.TableText.{IsLineOf, table_text}};
ghost use Rattle.captext.specs.TableText as texts;
ghost use Rattle.captext.specs.Tables as tables;

use crate::caps::{bind_line, cap_line, child_line};
use crate::objects::{label_line, object_line};
use machine::{ObjectKind, Version};
use std::alloc::Global;
use table::{Draft, Table, lawful_tables_are_built_up};
use words::{Fault, LineError, Lines, Words, Wrong};

/// Reads one line of a table, and adds its item. A line that is refused adds nothing.
#[tactic(auto, unfolding(crate::specs::Tables::table_line, crate::specs::Tables::line_by, crate::specs::Tables::declaration, words::specs::Reading::or_syntax, words::specs::Reading::bind))]
fn table_line(draft: &mut Draft, words: &mut Words<'_>) -> Result<(), LineError>
    ensures exact { GivesOrStops (λ _. draft.new) result (tables.table_line draft.old words.old) }
    ensures err { OnErr result (draft.new ≡ draft.old) }
{
    let keyword = words.word()?;
    if keyword == b"label".as_slice() {
        label_line(draft, words)
    } else if keyword == b"cap".as_slice() {
        cap_line(draft, words)
    } else if keyword == b"child".as_slice() {
        child_line(draft, words)
    } else if keyword == b"bind".as_slice() {
        bind_line(draft, words)
    } else {
        let kind = ObjectKind::from_name(keyword).ok_or(Wrong::Syntax)?;
        object_line(draft, kind, words)
    }
}

/// The table that a draft becomes, or the line of the first pair that breaks a rule of the derivation
/// tree.
#[tactic(auto, unfolding(crate::specs::Tables::grown))]
fn grown(draft: Draft) -> Result<Table, u64>
    ensures { MatchResult result
        (λ table. tables.grown draft ≡ Ok table)
        (λ line. tables.grown draft ≡ Err (line, Tree)) }
{
    let first = first_pair_line(&draft);
    match draft.into_table() {
        Ok(table) => Ok(table),
        Err(number) => Err(first + number as u64),
    }
}

/// The line of the first pair of the derivation tree.
fn first_pair_line(draft: &Draft) -> u64
    ensures line { result ≡ tables.pair_line draft.now 0 }
    ensures room { result + length draft.now.pairs < 2 ^ 64 }
{
    // The pairs are in memory, so that the number of each one's line fits.
    let _ = draft.pairs();
    let before = draft.label_count() + draft.object_count() + draft.caps().len();
    (before + 2) as u64
}

/// The header of the texts of a version.
pub(crate) fn table_header(version: Version) -> &'static str
    ensures words { words_of result.now ≡ texts.table_header version }
    ensures line { result.now ++ 10 ∷ [] ≡ line_text (texts.table_header version) }
{
    match version {
        Version::One => "confine-table 1",
        Version::Two => "confine-table 2",
    }
}

/// The version of a text, by its first line.
#[tactic(auto, unfolding(crate::specs::Tables::version_of))]
fn version_of(text: &[u8]) -> Version
    ensures { result ≡ tables.version_of (lines_of text.now) }
{
    match Lines::new(text).next_line() {
        Some(words) if words.is(table_header(Version::Two).as_bytes()) => Version::Two,
        _ => Version::One,
    }
}

/// Takes the header of the texts of a version.
fn take_header(lines: &mut Lines<'_>, version: Version) -> Result<(), Fault>
    ensures { Gives (λ _. lines.new) result (header_at (texts.table_header version) lines.old) }
{
    lines.header(table_header(version).as_bytes())
}

/// Reads the text of a capability table, by the definition alone.
#[tactic(auto, using(words::proofs::ReadingLaws::goes_on, words::proofs::ReadingLaws::ends_judged), unfolding(crate::specs::Tables::read_table_of, words::specs::Reading::bind))]
fn table_of(alloc: Global, text: &[u8]) -> Result<Table, Fault>
    ensures { Reads (λ table. table) result (tables.read_table_of text.now) }
{
    let version = version_of(text);
    let mut lines = Lines::new(text);
    take_header(&mut lines, version)?;
    let mut draft = Draft::new(alloc, version);
    while let Some(mut words) = lines.next_line() {
        if words.is(b"end") {
            return match grown(draft) {
                Ok(table) => match lines.end() {
                    Ok(()) => Ok(table),
                    Err(fault) => {
                        drop(table);
                        Err(fault)
                    }
                },
                Err(line) => Err(Fault::at(Wrong::Tree, line)),
            };
        }
        if let Err(error) = table_line(&mut draft, &mut words) {
            drop(draft);
            return Err(lines.stopped(error));
        }
    }
    drop(draft);
    Err(lines.after(Wrong::Syntax))
}

/// Reads the text of a capability table.
///
/// # Errors
///
/// The first fault of the text, 50 to 56; or 40, at line 0, where memory is refused.
pub fn read_table(alloc: Global, text: &[u8]) -> Result<Table, Fault>
    ensures exact { Reads (λ table. table) result (tables.read_table_of text.now) }

    // A text that is read is the table's, and each table's text is read as that table.
    ensures found { IfOk result (λ table. text.now ≡ table_text table) }
    ensures only { (t : Layout) → IsLawful t → text.now ≡ table_text t
        → Reads (λ table. table) result (Ok t) }

    // One that isn't read is refused for its first fault, unless memory was refused.
    ensures faults { IfErr result (λ fault. fault ≢ no_memory
        → TellsFirst (tables.table_format (lines_of text.now)) (lines_of text.now) fault) }
    ensures refused { (line : ℕ) (wrong : Wrong)
        → IsFirstFault (tables.table_format (lines_of text.now)) (lines_of text.now) line wrong
        → Reads (λ table. table) result (Err (fault_at line wrong)) }
{
    tables_are_read_back();
    table_of(alloc, text)
}

/// A law about a line of a draft: it is read just where it is the line of an item that the draft takes
/// next, and then adds that item.
pub fn lines_are_read_back()
    ensures { (t : Layout) (words : List (List ℕ)) (next : Layout) → IsDraft t
        → (tables.table_line t words ≡ Ok next) ↔ ((item : Item) × IsLineOf t words next item) }
{}

/// A law: a text is read as a table exactly where the table keeps the rules, and the text is its
/// text.
///
/// So different tables have different texts.
pub fn tables_are_read_back()
    ensures named { (bytes : List ℕ) (t : Layout) → (tables.read_table_of bytes ≡ Ok t)
        ↔ (IsLawful t × (bytes ≡ table_text t)) }
    ensures once { (one other : Layout) → IsLawful one → IsLawful other
        → table_text one ≡ table_text other → one ≡ other }
{
    lawful_tables_are_built_up();
}
