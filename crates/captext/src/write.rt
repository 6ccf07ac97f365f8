//! The writing of capability tables and policies.
ghost use Rattle.std.specs.{Fmt.decimal, List.AllByRecursion};
ghost use Rattle.std.specs.Prelude.{[], ℕ, ◌++◌, ◌∷◌, ◌≡◌, IfErr, IfOk, List, Ok, OnOk, Some, map, string_bytes};
ghost use Rattle.{base.specs.Refusals.out_of_memory, words.specs.Text.{line_text, text_of}};
ghost use Rattle.{machine.specs.Layout.Layout, table.specs.Rules.kind_at};
ghost use Rattle.captext.specs.{Policies.read_policy_of, PolicyText.{IsEdgeOf, edge_lines, edge_words, label_name, policy_text}};
ghost use Rattle.captext.specs.{Spelling.place_word, TableText.{binding_words, cap_words, content_words, detail_words, label_lines}};
ghost use Rattle.captext.specs.TableText.{object_lines, object_name, object_words, pair_words, place_in, share_words, slot_name};
ghost use Rattle.captext.specs.{TableText.{table_header as header_words, table_lines, table_text}, Tables.read_table_of};

use crate::shapes::Place;
use crate::tables::{table_header, tables_are_read_back};
use base::{Edge, Label, ObjId, Refusal, SlotRef};
use machine::{
    Binding, CNode, Context, Control, Detail, Endpoint, Filled, Frame, Initial, Notification,
    Object, ObjectKind, Pair, Reply, RunState, Share, Tcb, Untyped, Version,
};
use policy::Policy;
use std::alloc::{AllocError, Global};
use std::fmt;
use table::Table;

/// Returns the text of a capability table.
///
/// A text that was read as this table is this one.
///
/// # Errors
///
/// 40 where memory is refused.
pub fn write_table(alloc: Global, table: &Table) -> Result<Vec<u8>, Refusal>
    ensures text { IfOk result (λ text. text.items ≡ table_text table.now) }
    ensures memory { IfErr result (λ refusal. refusal ≡ out_of_memory) }

    // What is written is read as the table.
    ensures read_back { IfOk result (λ text. read_table_of text.items ≡ Ok table.now) }
{
    tables_are_read_back();
    table.keeps_rules();
    Ok(table_string(alloc, table)?.into_bytes())
}

/// Returns the text of a policy, with the names that its labels have in the table.
///
/// A label that the table lacks has no name there. A text that was read as this policy is this one.
///
/// # Errors
///
/// 40 where memory is refused.
#[tactic(auto, using(crate::proofs::PolicyLaws::policy_is_read))]
pub fn write_policy(alloc: Global, policy: &Policy, table: &Table) -> Result<Vec<u8>, Refusal>
    ensures text { IfOk result (λ text. text.items ≡ policy_text table.now policy.now) }
    ensures memory { IfErr result (λ refusal. refusal ≡ out_of_memory) }

    // What is written is read as the policy, if its edges are between labels of the table.
    ensures read_back { AllByRecursion (IsEdgeOf table.now) policy.now
        → IfOk result (λ text. read_policy_of table.now text.items ≡ Ok policy.now) }
{
    table.keeps_rules();
    policy.edges_rise();
    let edges = policy.edges(alloc)?;
    Ok(policy_string(alloc, &edges, table)?.into_bytes())
}

/// Returns the lines of edges as a policy has them, with the names that their labels have in the
/// table.
pub fn write_edges(alloc: Global, edges: &[Edge], table: &Table) -> Result<Vec<u8>, AllocError>
    ensures { IfOk result (λ text. text.items ≡ edge_lines table.now edges.now) }
{
    let mut text = String::new(alloc);
    write_lines(&mut text, table, edges)?;
    Ok(text.into_bytes())
}

// The header of the table's text.
fn header_of(table: &Table) -> &'static str
    ensures { result.now ++ 10 ∷ [] ≡ line_text (header_words table.now.version) }
{
    match table.version() {
        1 => table_header(Version::One),
        _ => table_header(Version::Two),
    }
}

fn table_string(alloc: Global, table: &Table) -> Result<String, AllocError>
    ensures { IfOk result (λ text. string_bytes text ≡ table_text table.now) }
{
    let mut text = String::from_str(alloc, header_of(table))?;
    text.push('\n')?;
    write_items(&mut text, table)?;
    text.push_str("end\n")?;
    Ok(text)
}

#[tactic(auto, using(crate::proofs::Written::sections))]
fn write_items(text: &mut String, table: &Table) -> Result<(), AllocError>
    ensures { OnOk result (string_bytes text.new ≡ string_bytes text.old ++ text_of (table_lines table.now)) }
{
    write_labels(text, table)?;
    write_objects(text, table)?;
    write_lines(text, table, table.caps())?;
    write_lines(text, table, table.pairs())?;
    write_lines(text, table, table.bindings())
}

fn policy_string(alloc: Global, edges: &[Edge], table: &Table) -> Result<String, AllocError>
    ensures { IfOk result (λ text. string_bytes text ≡ policy_text table.now edges.now) }
{
    let mut text = String::from_str(alloc, "confine-policy 1\n")?;
    write_lines(&mut text, table, edges)?;
    text.push_str("end\n")?;
    Ok(text)
}

/// What has a line, by the names that a table gives.
trait Line {
    // The words of the line.
    ghost words: { Layout → Self → List (List ℕ) };

    fn write(&self, text: &mut String, table: &Table) -> Result<(), AllocError>
        ensures { OnOk result (string_bytes text.new
            ≡ string_bytes text.old ++ line_text (words table.now self.now)) };
}

#[tactic(auto, using(crate::proofs::Written::line_more))]
fn write_lines<T: Line>(text: &mut String, table: &Table, items: &[T]) -> Result<(), AllocError>
    ensures { OnOk result (string_bytes text.new
        ≡ string_bytes text.old ++ text_of (map (T.words table.now) items.now)) }
{
    for item in items {
        item.write(text, table)?;
    }
    Ok(())
}

#[tactic(auto, using(crate::proofs::Written::line_more))]
fn write_labels(text: &mut String, table: &Table) -> Result<(), AllocError>
    ensures { OnOk result (string_bytes text.new ≡ string_bytes text.old ++ text_of (label_lines table.now)) }
{
    for number in 0..table.label_count() {
        if let Some(label) = Label::new(number as u16) {
            let name = label_name(table, label);
            writeln!(text, "label {name}")?;
        }
    }
    Ok(())
}

fn write_objects(text: &mut String, table: &Table) -> Result<(), AllocError>
    ensures { OnOk result (string_bytes text.new ≡ string_bytes text.old ++ text_of (object_lines table.now)) }
{
    for (id, initial) in table.objects().iter().enumerate() {
        write_object(text, table, ObjId(id as u64), initial)?;
    }
    Ok(())
}

/// Returns the label's name, which is empty where the table lacks the label.
#[tactic(auto, using(crate::proofs::Written::nameless))]
pub fn label_name(table: &Table, label: Label) -> &str
    ensures { result.now ≡ label_name table.now label }
{
    match table.label_name(label) {
        Some(name) => name,
        None => "",
    }
}

/// Returns the object's name, which is empty where the table lacks the object.
#[tactic(auto, using(crate::proofs::Written::nameless))]
pub fn object_name(table: &Table, id: ObjId) -> &str
    ensures { result.now ≡ object_name table.now id }
{
    match table.object_name(id) {
        Some(name) => name,
        None => "",
    }
}

/// A slot's place in its holder.
fn place_in(table: &Table, slot: SlotRef) -> Place
    ensures { result ≡ place_in (kind_at table.now slot.holder) slot.index }
{
    match table.kind(slot.holder) {
        Some(ObjectKind::Tcb) => Place::Root,
        _ => Place::Index(slot.index),
    }
}

impl fmt::Display for Place {
    ghost output = { λ place. Some (place_word place) };

    fn fmt<W: fmt::Write>(&self, f: &mut fmt::Formatter<W>) -> fmt::Result {
        match self {
            Place::Index(index) => write!(f, "{index}"),
            Place::Root => write!(f, "root"),
        }
    }
}

/// A slot by the name that a table gives it: `space.0`, or of a thread `main.root`.
#[derive(Clone, Copy)]
pub struct SlotName<'a> {
    pub table: &'a Table,
    pub slot: SlotRef,
}

impl fmt::Display for SlotName<'_> {
    ghost output = { λ name. Some (slot_name name.table.now name.slot) };

    fn fmt<W: fmt::Write>(&self, f: &mut fmt::Formatter<W>) -> fmt::Result {
        let holder = object_name(self.table, self.slot.holder);
        let place = place_in(self.table, self.slot);
        write!(f, "{holder}.{place}")
    }
}

#[tactic(auto, using(crate::proofs::Written::line_begun))]
fn write_object(
    text: &mut String,
    table: &Table,
    id: ObjId,
    initial: &Initial,
) -> Result<(), AllocError>
    ensures { OnOk result (string_bytes text.new
        ≡ string_bytes text.old ++ line_text (object_words table.now (object_name table.now id) initial.now)) }
{
    let kind = initial.object.kind().name();
    let name = object_name(table, id);
    let label = label_name(table, initial.label);
    write!(text, "{kind} {name} {label}")?;
    write_content(text, &initial.object)
}

/// Writes where an object lies and what else its kind needs, each word after a space, and ends
/// the line.
fn write_content(text: &mut String, object: &Object) -> Result<(), AllocError>
    ensures { OnOk result (string_bytes text.new ≡ string_bytes text.old ++ line_text ([] ∷ content_words object.now)) }
{
    if let Object::Control(Control { core }) = object {
        return write_last(text, core.number());
    }
    let address = object.address();
    write!(text, " 0x{address:x}")?;
    match object {
        Object::Untyped(Untyped { bits, .. }) => write_last(text, *bits),
        Object::CNode(CNode { radix, .. }) => write_last(text, radix.bits()),
        Object::Tcb(
            Tcb {
                state: RunState::Ready,
                ..
            },
        ) => text.push_str(" ready\n"),
        Object::Tcb(_) => text.push_str(" inactive\n"),
        Object::Context(Context { share, .. }) => write_share(text, *share),
        _ => text.push_str("\n"),
    }
}

/// Writes a number after a space, and ends the line.
fn write_last(text: &mut String, number: u8) -> Result<(), AllocError>
    ensures { OnOk result (string_bytes text.new ≡ string_bytes text.old ++ line_text ([] ∷ decimal number ∷ [])) }
{
    writeln!(text, " {number}")
}

/// Writes the share of a context after a space, and ends the line.
fn write_share(text: &mut String, share: Option<Share>) -> Result<(), AllocError>
    ensures { OnOk result (string_bytes text.new ≡ string_bytes text.old ++ line_text ([] ∷ share_words share)) }
{
    let Some(
        Share {
            core,
            budget,
            period,
        },
    ) = share
    else {
        return text.push_str(" -\n");
    };
    writeln!(text, " {core} {budget} {period}")
}

impl Line for Filled {
    ghost words = { cap_words };

    #[tactic(auto, using(crate::proofs::Written::line_begun))]
    fn write(&self, text: &mut String, table: &Table) -> Result<(), AllocError> {
        let slot = SlotName {
            table,
            slot: self.slot,
        };
        let object = object_name(table, self.cap.object);
        write!(text, "cap {slot} {object}")?;
        write_detail(text, &self.cap.detail)
    }
}

/// Writes what a capability says beside its object, each word after a space, and ends the line.
fn write_detail(text: &mut String, detail: &Detail) -> Result<(), AllocError>
    ensures { OnOk result (string_bytes text.new ≡ string_bytes text.old ++ line_text ([] ∷ detail_words detail.now)) }
{
    match detail {
        Detail::CNode(guard) => writeln!(text, " {} 0x{:x}", guard.size, guard.value),
        Detail::Endpoint(end) | Detail::Notification(end) => {
            writeln!(text, " {} {}", end.rights, end.badge)
        }
        Detail::Frame(rights) => writeln!(text, " {rights}"),
        Detail::Untyped | Detail::Tcb | Detail::Reply | Detail::Context | Detail::Control => {
            text.push_str("\n")
        }
    }
}

impl Line for Pair {
    ghost words = { pair_words };

    fn write(&self, text: &mut String, table: &Table) -> Result<(), AllocError> {
        let parent = SlotName {
            table,
            slot: self.parent,
        };
        let child = SlotName {
            table,
            slot: self.child,
        };
        writeln!(text, "child {parent} {child}")
    }
}

impl Line for Binding {
    ghost words = { binding_words };

    fn write(&self, text: &mut String, table: &Table) -> Result<(), AllocError> {
        let thread = object_name(table, self.thread);
        let context = object_name(table, self.context);
        writeln!(text, "bind {thread} {context}")
    }
}

impl Line for Edge {
    ghost words = { edge_words };

    fn write(&self, text: &mut String, table: &Table) -> Result<(), AllocError> {
        let from = label_name(table, self.from);
        let kind = self.kind;
        let to = label_name(table, self.to);
        writeln!(text, "edge {from} {kind} {to}")
    }
}
