//! Notes on an accepted table: what is no fault, but may not be meant.
use base::{Kind, Label, Labels, ObjId, Rights, SlotRef};
use bitflags::Flags;
use captext::{SlotName, label_name, object_name};
use explain_rules::{Sheet, Start};
use machine::{Detail, Filled, Initial, Object, ObjectKind};
use reach::Reach;
use std::alloc::{AllocError, Global};
use std::fmt;
use table::Table;

/// The largest number of notes of a kind, and of roots with fewer than 64 bits that are looked at.
const MOST: usize = 16;

/// A note on a table.
#[derive(Clone, Copy)]
struct Note {
    /// The line in the table's text.
    line: Option<usize>,
    matter: Matter,
}

/// The text of a note on a table.
#[derive(Clone, Copy)]
struct Told<'a> {
    table: &'a Table,
    matter: Matter,
}

/// The matter of a note.
#[derive(Clone, Copy)]
enum Matter {
    /// No object has this label.
    Unused(Label),
    /// No capability is for this object.
    Unnamed(ObjId),
    /// This thread has no root.
    Rootless(ObjId),
    /// This thread runs on no context; whether somebody may give it one.
    Unbound(ObjId, bool),
    /// The capability of this slot receives calls, and its holder has no capability for a reply object.
    Unanswering(SlotRef),
    /// The capabilities of these slots signal or send with one badge.
    Alike(SlotRef, SlotRef),
    /// The lookups from this root end after this many bits of an address.
    Short(SlotRef, u64),
}

/// Returns the notes on a table with this reach, each with its line. Those of one kind are at most 16.
pub fn explain_notes(
    alloc: Global,
    sheet: Sheet<'_>,
    reach: &Reach<'_>,
) -> Result<String, AllocError> {
    let mut matters = Vec::new(alloc);
    add_notes(alloc, &mut matters, reach)?;
    let notes = notes_of(alloc, sheet, &matters)?;
    lines_of(alloc, sheet, &notes)
}

/// The notes on these, by their lines.
fn notes_of(alloc: Global, sheet: Sheet<'_>, matters: &[Matter]) -> Result<Vec<Note>, AllocError> {
    let mut notes = Vec::new(alloc);
    for matter in matters {
        notes.push(Note {
            line: line_of(sheet, *matter),
            matter: *matter,
        })?;
    }
    notes.sort_by_key(|note| note.line)?;
    Ok(notes)
}

/// The line of the matter of a note.
fn line_of(sheet: Sheet<'_>, matter: Matter) -> Option<usize> {
    match matter {
        Matter::Unused(label) => sheet.line_of_label(label),
        Matter::Unnamed(id) | Matter::Rootless(id) | Matter::Unbound(id, _) => {
            sheet.line_of_object(id)
        }
        Matter::Unanswering(slot) | Matter::Alike(slot, _) | Matter::Short(slot, _) => {
            sheet.line_of_slot(slot)
        }
    }
}

/// A line for each note.
fn lines_of(alloc: Global, sheet: Sheet<'_>, notes: &[Note]) -> Result<String, AllocError> {
    let Sheet { file, table, .. } = sheet;
    let mut lines = String::new(alloc);
    for Note { line, matter } in notes {
        let start = Start { file, line: *line };
        let told = Told {
            table,
            matter: *matter,
        };
        writeln!(lines, "{start}note: {told}")?;
    }
    Ok(lines)
}

impl fmt::Display for Told<'_> {
    fn fmt<W: fmt::Write>(&self, f: &mut fmt::Formatter<W>) -> fmt::Result {
        let table = self.table;
        let (before, name, after) = match self.matter {
            Matter::Unused(label) => ("no object has the label ", label_name(table, label), ""),
            Matter::Unnamed(object) => (
                "there is no capability for ",
                object_name(table, object),
                ", so no thread can use it",
            ),
            Matter::Rootless(thread) => (
                "",
                object_name(table, thread),
                " has no root: it finds no capabilities, and each call that needs one is refused 6 1",
            ),
            Matter::Unbound(thread, true) => (
                "",
                object_name(table, thread),
                " has no context: each of its calls is refused 32 0 until it has one",
            ),
            Matter::Unbound(thread, false) => (
                "",
                object_name(table, thread),
                " never runs: it has no context, and no label whose threads make calls may control it",
            ),
            Matter::Unanswering(slot) => return tell_unanswering(f, table, slot),
            Matter::Alike(slot, other) => return tell_alike(f, table, slot, other),
            Matter::Short(slot, bits) => return tell_short(f, table, slot, bits),
        };
        write!(f, "{before}`{name}`{after}")
    }
}

/// Says that calls arrive through a slot, and aren't answered.
fn tell_unanswering<W: fmt::Write>(
    f: &mut fmt::Formatter<W>,
    table: &Table,
    slot: SlotRef,
) -> fmt::Result {
    let holder = object_name(table, slot.holder);
    let slot = SlotName { table, slot };
    write!(
        f,
        "calls arrive through `{slot}`, but `{holder}` has no capability for a reply object: these calls \
         are never answered"
    )
}

/// Says that two slots have one badge.
fn tell_alike<W: fmt::Write>(
    f: &mut fmt::Formatter<W>,
    table: &Table,
    slot: SlotRef,
    other: SlotRef,
) -> fmt::Result {
    let slot = SlotName { table, slot };
    let other = SlotName { table, slot: other };
    write!(
        f,
        "`{slot}` has the same badge as `{other}`: a receiver can't tell the two senders apart"
    )
}

/// Says that lookups from a root end after this many bits.
fn tell_short<W: fmt::Write>(
    f: &mut fmt::Formatter<W>,
    table: &Table,
    slot: SlotRef,
    bits: u64,
) -> fmt::Result {
    let slot = SlotName { table, slot };
    let unread = 64u64.saturating_sub(bits);
    write!(
        f,
        "the guard and the radix of `{slot}` take {bits} of the 64 bits of an address, and leave the low \
         {unread} unread: addresses that differ only there find the same slot"
    )
}

fn add_notes(alloc: Global, notes: &mut Vec<Matter>, reach: &Reach<'_>) -> Result<(), AllocError> {
    let table = reach.table();
    add_labels(notes, table)?;
    add_objects(alloc, notes, table)?;
    add_threads(notes, reach)?;
    add_receivers(alloc, notes, table)?;
    add_badges(alloc, notes, table)?;
    add_roots(notes, table)
}

/// Adds the labels without an object.
fn add_labels(notes: &mut Vec<Matter>, table: &Table) -> Result<(), AllocError> {
    let mut unused = table.labels();
    for initial in table.objects() {
        unused = unused.difference(Labels::only(initial.label));
    }
    for label in unused.iter().take(MOST) {
        notes.push(Matter::Unused(label))?;
    }
    Ok(())
}

/// Objects that are listed by the capabilities.
#[derive(Clone, Copy)]
enum Listed {
    /// Those that capabilities are for.
    Named,
    /// The endpoints that may be called.
    Called,
    /// The holders of capabilities for reply objects.
    Answering,
}

/// The objects of such a list, rising.
fn list_of(alloc: Global, table: &Table, listed: Listed) -> Result<Vec<ObjId>, AllocError> {
    let mut list = Vec::new(alloc);
    for filled in table.caps() {
        list.extend(object_by(filled, listed))?;
    }
    list.sort()?;
    Ok(list)
}

/// The object that a capability adds to such a list, if it adds one.
fn object_by(filled: &Filled, listed: Listed) -> Option<ObjId> {
    let (is_there, object) = match listed {
        Listed::Named => (true, filled.cap.object),
        Listed::Called => (calls(filled), filled.cap.object),
        Listed::Answering => {
            (
                filled.cap.detail.kind() == ObjectKind::Reply,
                filled.slot.holder,
            )
        }
    };
    if is_there { Some(object) } else { None }
}

/// Adds the endpoints, notifications, frames and untyped memories for which there is no capability.
fn add_objects(alloc: Global, notes: &mut Vec<Matter>, table: &Table) -> Result<(), AllocError> {
    let named = list_of(alloc, table, Listed::Named)?;
    add_unnamed(notes, table, &named)
}

/// Adds the endpoints, notifications, frames and untyped memories that aren't in `named`, the objects with capabilities.
fn add_unnamed(notes: &mut Vec<Matter>, table: &Table, named: &[ObjId]) -> Result<(), AllocError> {
    let mut told = 0;
    for (id, initial) in table.objects().iter().enumerate() {
        let id = ObjId(id as u64);
        if told < MOST && is_for_use(initial.object.kind()) && named.binary_search(&id).is_err() {
            told += 1;
            notes.push(Matter::Unnamed(id))?;
        }
    }
    Ok(())
}

/// Whether an object of this kind is of use by a capability alone.
fn is_for_use(kind: ObjectKind) -> bool {
    match kind {
        ObjectKind::Untyped | ObjectKind::Endpoint | ObjectKind::Notification | ObjectKind::Frame =>
            true,
        _ => false,
    }
}

/// Adds what threads lack.
fn add_threads(notes: &mut Vec<Matter>, reach: &Reach<'_>) -> Result<(), AllocError> {
    let table = reach.table();
    let controlled = controlled(reach);
    let mut told = 0;
    for (id, initial) in table.objects().iter().enumerate() {
        if initial.object.kind() == ObjectKind::Tcb && told < MOST {
            let id = ObjId(id as u64);
            let before = notes.len();
            add_thread(notes, table, id, controlled.has(initial.label))?;
            if notes.len() > before {
                told += 1;
            }
        }
    }
    Ok(())
}

/// The labels of threads that a label whose threads make calls may control.
fn controlled(reach: &Reach<'_>) -> Labels {
    reach.policy().targets(reach.actors(), &[Kind::Control])
}

/// Adds what a thread lacks. A label whose threads make calls may control it, or none may.
fn add_thread(
    notes: &mut Vec<Matter>,
    table: &Table,
    thread: ObjId,
    is_controlled: bool,
) -> Result<(), AllocError> {
    let root = SlotRef {
        holder: thread,
        index: 0,
    };
    if table.cap(root).is_none() {
        notes.push(Matter::Rootless(thread))?;
    }
    if table.bound_context(thread).is_none() {
        notes.push(Matter::Unbound(thread, is_controlled))?;
    }
    Ok(())
}

/// Adds the capabilities by which calls arrive if their holder has no capability for a reply object.
fn add_receivers(alloc: Global, notes: &mut Vec<Matter>, table: &Table) -> Result<(), AllocError> {
    let called = list_of(alloc, table, Listed::Called)?;
    let answering = list_of(alloc, table, Listed::Answering)?;
    add_unanswering(notes, table, &called, &answering)
}

/// Adds the capabilities that receive at one of `called`, and whose holder isn't in `answering`.
fn add_unanswering(
    notes: &mut Vec<Matter>,
    table: &Table,
    called: &[ObjId],
    answering: &[ObjId],
) -> Result<(), AllocError> {
    let mut told = 0;
    for filled in table.caps() {
        if told < MOST
            && receives(filled)
            && called.binary_search(&filled.cap.object).is_ok()
            && answering.binary_search(&filled.slot.holder).is_err()
        {
            told += 1;
            notes.push(Matter::Unanswering(filled.slot))?;
        }
    }
    Ok(())
}

/// Whether a capability calls at an endpoint.
fn calls(filled: &Filled) -> bool {
    match filled.cap.detail {
        Detail::Endpoint(sender) => {
            let rights = sender.rights;
            let answered = rights.contains(Rights::GRANT) || rights.contains(Rights::GRANT_REPLY);
            rights.contains(Rights::WRITE) && answered
        }
        _ => false,
    }
}

/// Whether a capability receives at an endpoint.
fn receives(filled: &Filled) -> bool {
    match filled.cap.detail {
        Detail::Endpoint(receiver) => receiver.rights.contains(Rights::READ),
        _ => false,
    }
}

/// A capability that signals or sends: its object, its badge, and its slot.
#[derive(Clone, Copy)]
struct Sender {
    object: ObjId,
    badge: u64,
    slot: SlotRef,
}

/// Adds the capabilities that signal or send with the badge of another holder's.
fn add_badges(alloc: Global, notes: &mut Vec<Matter>, table: &Table) -> Result<(), AllocError> {
    let senders = senders_of(alloc, table)?;
    add_alike(notes, table, &senders)
}

/// Adds each of `senders`, which are ordered by object and badge, with the badge of another holder's before it.
fn add_alike(notes: &mut Vec<Matter>, table: &Table, senders: &[Sender]) -> Result<(), AllocError> {
    let mut told = 0;
    let mut last: Option<Sender> = None;
    for sender in senders {
        match last {
            Some(last) if told < MOST && are_alike(last, *sender) => {
                told += 1;
                notes.push(Matter::Alike(sender.slot, last.slot))?;
            }
            _ => {}
        }
        last = Some(*sender);
    }
    Ok(())
}

/// Whether two holders signal or send alike.
fn are_alike(one: Sender, other: Sender) -> bool {
    one.object == other.object && one.badge == other.badge && one.slot.holder != other.slot.holder
}

/// The capabilities that signal or send, by object and badge.
fn senders_of(alloc: Global, table: &Table) -> Result<Vec<Sender>, AllocError> {
    let mut senders = Vec::new(alloc);
    for filled in table.caps() {
        if let Some(badge) = badge_of_sender(filled) {
            senders.push(Sender {
                object: filled.cap.object,
                badge,
                slot: filled.slot,
            })?;
        }
    }
    senders.sort_by_key(|sender| (sender.object.0, sender.badge))?;
    Ok(senders)
}

/// The badge of a capability that signals or sends.
fn badge_of_sender(filled: &Filled) -> Option<u64> {
    match filled.cap.detail {
        Detail::Endpoint(sender) | Detail::Notification(sender)
            if sender.rights.contains(Rights::WRITE) => Some(sender.badge),
        _ => None,
    }
}

/// Adds the roots whose lookups end before the last bit of an address, so that several addresses find
/// each slot, and address 1 may be no slot 1. A CNode with capabilities for CNodes may be meant to be
/// such a root, and isn't noted.
fn add_roots(notes: &mut Vec<Matter>, table: &Table) -> Result<(), AllocError> {
    let mut short = 0;
    for filled in table.caps() {
        match bits_read(table, filled) {
            Some(bits) if bits < 64 && short < MOST => {
                short += 1;
                if !leads_on(table, filled.cap.object) {
                    notes.push(Matter::Short(filled.slot, bits))?;
                }
            }
            _ => {}
        }
    }
    Ok(())
}

/// The number of bits of an address that the guard and the radix of a root take, if a slot is a root.
fn bits_read(table: &Table, filled: &Filled) -> Option<u64> {
    let Detail::CNode(guard) = filled.cap.detail else {
        return None;
    };
    match table.object(filled.cap.object) {
        Some(
            Initial {
                object: Object::CNode(node),
                ..
            },
        ) if table.kind(filled.slot.holder) == Some(ObjectKind::Tcb) => {
            Some(u64::from(guard.size).saturating_add(node.radix.bits().into()))
        }
        _ => None,
    }
}

/// Whether a slot of a CNode has the capability for a CNode.
fn leads_on(table: &Table, node: ObjId) -> bool {
    table.caps().iter().any(|filled| filled.slot.holder == node
        && filled.cap.detail.kind() == ObjectKind::CNode)
}
