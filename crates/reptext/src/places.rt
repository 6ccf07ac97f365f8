//! The names at the place of a denial.
ghost use Rattle.std.specs.Prelude.{[], ◌∷◌, ◌≡◌, IfOk, Option, map, string_bytes};
ghost use Rattle.base.specs.{declared.ids.ObjId.ObjId as Id, Kinds.kind_name};
ghost use Rattle.{machine.specs.{declared.object.ObjectKind.ObjectKind as KindOfObject, WellFormed.kind_of}, table.specs.Rules.kind_at};
ghost use Rattle.captext.specs.PolicyText as policy_text;
ghost use Rattle.reptext.specs.Places as places;

use base::{Kind, Label, ObjId, SlotRef};
use machine::ObjectKind;
use objects::State;
use policy::Broken;
use sharp::SharpBroken;
use std::alloc::{AllocError, Global};
use table::Table;
use verdict::Denial;

/// A source of the kinds of objects: a table for the initial ones, a state for all that exist.
pub trait KindsOfObjects {
    // The kind of the object of each number.
    ghost kinds: { Self → Id → Option KindOfObject };

    /// The kind of the object of this number.
    fn object_kind(&self, id: ObjId) -> Option<ObjectKind>
        ensures { result ≡ kinds self.now id };
}

impl KindsOfObjects for Table {
    ghost kinds = { kind_at };

    fn object_kind(&self, id: ObjId) -> Option<ObjectKind> {
        self.kind(id)
    }
}

impl KindsOfObjects for State {
    ghost kinds = { kind_of };

    fn object_kind(&self, id: ObjId) -> Option<ObjectKind> {
        match self.object(id) {
            Some(object) => Some(object.kind()),
            None => None,
        }
    }
}

/// Returns the names at the place of a denial. Slots are spelled by the kinds of their holders.
pub fn place_names<K: KindsOfObjects>(
    alloc: Global,
    table: &Table,
    kinds: &K,
    denial: &Denial,
) -> Result<Vec<String>, AllocError>
    ensures { IfOk result (λ names.
        map string_bytes names.items ≡ places.place_names_by (K.kinds kinds.now) table.now denial.now) }
{
    match denial {
        Denial::Policy(broken) => broken_names(alloc, table, broken),
        Denial::Sharp(broken) => sharp_names(alloc, table, broken),
        Denial::Capability { slot, kind, label } => {
            let holder = kinds.object_kind(slot.holder);
            slot_names(alloc, table, holder, *slot, *kind, *label)
        }
        Denial::Root { slot, label } => {
            let holder = kinds.object_kind(slot.holder);
            slot_names(alloc, table, holder, *slot, Kind::Space, *label)
        }
        Denial::Pair { child, parent } => {
            let holder = kinds.object_kind(parent.holder);
            let holder_of_child = kinds.object_kind(child.holder);
            pair_names(alloc, table, holder, *parent, holder_of_child, *child)
        }
        Denial::Binding {
            thread: first,
            context: second,
        }
        | Denial::Holding {
            reply: first,
            thread: second,
        } => object_names(alloc, table, *first, *second),
        Denial::Recorded {
            thread,
            kind,
            label,
        } => thread_names(alloc, table, *thread, *kind, *label),
        Denial::Certificate { line } => Ok(vec![in alloc; format!(in alloc; "{line}")?]?),
    }
}

fn slot_names(
    alloc: Global,
    table: &Table,
    holder: Option<ObjectKind>,
    slot: SlotRef,
    kind: Kind,
    label: Label,
) -> Result<Vec<String>, AllocError>
    ensures { IfOk result (λ names. map string_bytes names.items
        ≡ places.slot_name table.now holder slot ∷ kind_name kind ∷ policy_text.label_name table.now label ∷ []) }
{
    let names = vec![in alloc;
        slot_name(alloc, table, holder, slot)?,
        String::from_str(alloc, kind.name())?,
        label_name(alloc, table, label)?,
    ]?;
    Ok(names)
}

fn pair_names(
    alloc: Global,
    table: &Table,
    holder: Option<ObjectKind>,
    parent: SlotRef,
    holder_of_child: Option<ObjectKind>,
    child: SlotRef,
) -> Result<Vec<String>, AllocError>
    ensures { IfOk result (λ names. map string_bytes names.items
        ≡ places.slot_name table.now holder parent ∷ places.slot_name table.now holder_of_child child ∷ []) }
{
    let names = vec![in alloc;
        slot_name(alloc, table, holder, parent)?,
        slot_name(alloc, table, holder_of_child, child)?,
    ]?;
    Ok(names)
}

fn object_names(
    alloc: Global,
    table: &Table,
    first: ObjId,
    second: ObjId,
) -> Result<Vec<String>, AllocError>
    ensures { IfOk result (λ names. map string_bytes names.items
        ≡ places.object_name table.now first ∷ places.object_name table.now second ∷ []) }
{
    let names = vec![in alloc;
        object_name(alloc, table, first)?,
        object_name(alloc, table, second)?,
    ]?;
    Ok(names)
}

fn thread_names(
    alloc: Global,
    table: &Table,
    thread: ObjId,
    kind: Kind,
    label: Label,
) -> Result<Vec<String>, AllocError>
    ensures { IfOk result (λ names. map string_bytes names.items
        ≡ places.object_name table.now thread ∷ kind_name kind ∷ policy_text.label_name table.now label ∷ []) }
{
    let names = vec![in alloc;
        object_name(alloc, table, thread)?,
        String::from_str(alloc, kind.name())?,
        label_name(alloc, table, label)?,
    ]?;
    Ok(names)
}

fn broken_names(alloc: Global, table: &Table, broken: &Broken) -> Result<Vec<String>, AllocError>
    ensures { IfOk result (λ names.
        map string_bytes names.items ≡ places.broken_names table.now broken.now) }
{
    let names = match *broken {
        Broken::SubjectsDisagree {
            subject: first,
            other: second,
            kind,
            target,
        }
        | Broken::GrantLacks {
            giver: first,
            taker: second,
            kind,
            target,
        } => names_of_two(alloc, table, first, second, kind, target)?,
        Broken::ControlLacks {
            subject,
            kind,
            object,
        } => edge_names(alloc, table, subject, kind, object)?,
        Broken::DomainLacks { parent, child } | Broken::DeriveLacks { parent, child } => {
            edge_names(alloc, table, parent, Kind::Derive, child)?
        }
        Broken::ContextLacks {
            subject: runner,
            context,
        }
        | Broken::LentLacks {
            borrower: runner,
            context,
        } => edge_names(alloc, table, runner, Kind::Runs, context)?,
        Broken::ReplyLacks { reply, thread } => {
            edge_names(alloc, table, reply, Kind::Holds, thread)?
        }
    };
    Ok(names)
}

fn sharp_names(
    alloc: Global,
    table: &Table,
    broken: &SharpBroken,
) -> Result<Vec<String>, AllocError>
    ensures { IfOk result (λ names.
        map string_bytes names.items ≡ places.sharp_names table.now broken.now) }
{
    let names = match *broken {
        SharpBroken::SubjectLacks {
            subject: first,
            other: second,
            kind,
            target,
        }
        | SharpBroken::GrantLacks {
            giver: first,
            taker: second,
            kind,
            target,
        } => names_of_two(alloc, table, first, second, kind, target)?,
        SharpBroken::ControlLacks {
            subject,
            kind,
            object,
        } => edge_names(alloc, table, subject, kind, object)?,
        SharpBroken::DomainLacks { parent, child } | SharpBroken::DeriveLacks { parent, child } => {
            edge_names(alloc, table, parent, Kind::Derive, child)?
        }
        SharpBroken::ContextLacks {
            subject: runner,
            context,
        }
        | SharpBroken::LentLacks {
            borrower: runner,
            context,
        } => edge_names(alloc, table, runner, Kind::Runs, context)?,
        SharpBroken::ReplyLacks { reply, thread } => {
            edge_names(alloc, table, reply, Kind::Holds, thread)?
        }
    };
    Ok(names)
}

// The names of two labels, of which one has an edge that the other lacks.
fn names_of_two(
    alloc: Global,
    table: &Table,
    first: Label,
    second: Label,
    kind: Kind,
    target: Label,
) -> Result<Vec<String>, AllocError>
    ensures { IfOk result (λ names. map string_bytes names.items
        ≡ policy_text.label_name table.now first ∷ places.edge_names table.now second kind target) }
{
    let names = vec![in alloc;
        label_name(alloc, table, first)?,
        label_name(alloc, table, second)?,
        String::from_str(alloc, kind.name())?,
        label_name(alloc, table, target)?,
    ]?;
    Ok(names)
}

fn edge_names(
    alloc: Global,
    table: &Table,
    from: Label,
    kind: Kind,
    to: Label,
) -> Result<Vec<String>, AllocError>
    ensures { IfOk result (λ names.
        map string_bytes names.items ≡ places.edge_names table.now from kind to) }
{
    let names = vec![in alloc;
        label_name(alloc, table, from)?,
        String::from_str(alloc, kind.name())?,
        label_name(alloc, table, to)?,
    ]?;
    Ok(names)
}

pub(crate) fn label_name(alloc: Global, table: &Table, label: Label) -> Result<String, AllocError>
    ensures { IfOk result (λ name. string_bytes name ≡ policy_text.label_name table.now label) }
{
    String::from_str(alloc, captext::label_name(table, label))
}

fn object_name(alloc: Global, table: &Table, id: ObjId) -> Result<String, AllocError>
    ensures { IfOk result (λ name. string_bytes name ≡ places.object_name table.now id) }
{
    match table.object_name(id) {
        Some(name) => String::from_str(alloc, name),
        None => format!(in alloc; "#{}", id.0),
    }
}

fn slot_name(
    alloc: Global,
    table: &Table,
    holder: Option<ObjectKind>,
    slot: SlotRef,
) -> Result<String, AllocError>
    ensures { IfOk result (λ name. string_bytes name ≡ places.slot_name table.now holder slot) }
{
    let name = object_name(alloc, table, slot.holder)?;
    match holder {
        Some(ObjectKind::Tcb) => format!(in alloc; "{name}.root"),
        _ => format!(in alloc; "{name}.{}", slot.index),
    }
}
