//! The sentences on denials: why a rule is broken, and what mends it beside the edge.
use crate::closed_rules::{domain_of, premises};
use crate::domains::{tell_domain_exit, tell_domain_way};
use base::{Edge, Kind, Label, ObjId, SlotRef};
use captext::{SlotName, label_name, object_name};
use labels::declared_label;
use policy::{Broken, Policy};
use sharp::SharpBroken;
use std::fmt::{self, Display};
use table::Table;
use verdict::Denial;

/// An edge as a line of a policy has it.
#[derive(Clone, Copy)]
pub struct EdgeLine<'a> {
    pub table: &'a Table,
    pub edge: Edge,
}

impl fmt::Display for EdgeLine<'_> {
    fn fmt<W: fmt::Write>(&self, f: &mut fmt::Formatter<W>) -> fmt::Result {
        let from = label_name(self.table, self.edge.from);
        let kind = self.edge.kind;
        let to = label_name(self.table, self.edge.to);
        write!(f, "edge {from} {kind} {to}")
    }
}

/// An edge after some words, if there is one.
#[derive(Clone, Copy)]
pub struct EdgeAfter<'a> {
    pub words: &'a str,
    pub table: &'a Table,
    pub edge: Option<Edge>,
}

impl fmt::Display for EdgeAfter<'_> {
    fn fmt<W: fmt::Write>(&self, f: &mut fmt::Formatter<W>) -> fmt::Result {
        let (words, table) = (self.words, self.table);
        match self.edge {
            Some(edge) => {
                let edge = EdgeLine { table, edge };
                write!(f, "{words}`{edge}`")
            }
            None => Ok(()),
        }
    }
}

/// Edges as a sentence has them: as in `edge a send b`, `edge a call b` and `edge a read b`.
#[derive(Clone, Copy)]
pub struct EdgeList<'a> {
    pub table: &'a Table,
    pub edges: &'a [Edge],
}

impl fmt::Display for EdgeList<'_> {
    fn fmt<W: fmt::Write>(&self, f: &mut fmt::Formatter<W>) -> fmt::Result {
        for (number, edge) in self.edges.iter().enumerate() {
            let separator = separator(number, self.edges.len());
            let line = EdgeLine {
                table: self.table,
                edge: *edge,
            };
            write!(f, "{separator}`{line}`")?;
        }
        Ok(())
    }
}

/// Returns what stands before an item of a list of so many.
pub fn separator(number: usize, count: usize) -> &'static str {
    if number == 0 {
        ""
    } else if number < count.saturating_sub(1) {
        ", "
    } else {
        " and "
    }
}

/// The label of an object, by its name.
pub fn name_of_label<'a>(table: &'a Table, id: ObjId) -> &'a str {
    match declared_label(table, id) {
        Some(label) => label_name(table, label),
        None => "",
    }
}

/// What an edge of the kind lets a label do, before the name of another label.
pub fn verb(kind: Kind) -> &'static str {
    match kind {
        Kind::Control => "control",
        Kind::Reset => "reset",
        Kind::Send => "send to",
        Kind::Receive => "receive from",
        Kind::Grant => "grant over",
        Kind::Call => "call",
        Kind::Notify => "notify",
        Kind::Await => "await",
        Kind::Read => "read",
        Kind::Write => "write",
        Kind::Reply => "reply through",
        Kind::Context => "bind and configure",
        Kind::SchedControl => "configure contexts through",
        Kind::Space => "find capabilities in",
        Kind::Derive => "pass capabilities on to",
        Kind::Runs => "run on",
        Kind::Holds => "hold",
    }
}

/// Whether a capability gives the kind by its rights, and not whatever they are.
pub fn comes_by_right(kind: Kind) -> bool {
    matches!(
        kind,
        Kind::Send
            | Kind::Receive
            | Kind::Grant
            | Kind::Call
            | Kind::Notify
            | Kind::Await
            | Kind::Read
            | Kind::Write
    )
}

/// Why a rule is broken.
#[derive(Clone, Copy)]
pub struct Reason<'a> {
    pub table: &'a Table,
    pub denial: &'a Denial,
}

impl fmt::Display for Reason<'_> {
    fn fmt<W: fmt::Write>(&self, f: &mut fmt::Formatter<W>) -> fmt::Result {
        let table = self.table;
        match *self.denial {
            Denial::Policy(broken) => tell_rule(f, table, &broken),
            Denial::Sharp(broken) => tell_required(f, table, &broken),
            Denial::Capability { slot, kind, label } => {
                tell_capability(f, table, slot, kind, label)
            }
            Denial::Root { slot, label } => tell_root(f, table, slot, label),
            Denial::Pair { child, parent } => tell_derived(f, table, child, parent),
            Denial::Binding { thread, context } => {
                tell_objects(f, table, "thread", thread, "runs on the context", context)
            }
            Denial::Holding { reply, thread } => {
                tell_objects(f, table, "reply", reply, "holds the thread", thread)
            }
            Denial::Recorded {
                thread,
                kind,
                label,
            } => tell_waiting(f, table, thread, kind, label),
            Denial::Certificate { line } => tell_certificate(f, line),
        }
    }
}

/// Which edge a sharp rule requires. On which grounds it does so, the policy shows.
fn tell_required<W: fmt::Write>(
    f: &mut fmt::Formatter<W>,
    table: &Table,
    broken: &SharpBroken,
) -> fmt::Result {
    let rule = broken.rule();
    let edge = EdgeLine {
        table,
        edge: broken.edge(),
    };
    write!(f, "{rule} requires `{edge}`")
}

/// What the capability in a slot lets the label of its holder do.
fn tell_capability<W: fmt::Write>(
    f: &mut fmt::Formatter<W>,
    table: &Table,
    slot: SlotRef,
    kind: Kind,
    label: Label,
) -> fmt::Result {
    let lets = Lets { table, slot };
    let deed = Deed { table, kind, label };
    write!(f, "{lets} {deed}")
}

/// Where a thread finds its capabilities.
fn tell_root<W: fmt::Write>(
    f: &mut fmt::Formatter<W>,
    table: &Table,
    slot: SlotRef,
    label: Label,
) -> fmt::Result {
    let from = name_of_label(table, slot.holder);
    let to = label_name(table, label);
    let slot = SlotName { table, slot };
    write!(
        f,
        "a thread of `{from}` finds its capabilities in `{to}` through `{slot}`"
    )
}

/// That one capability is derived from another.
fn tell_derived<W: fmt::Write>(
    f: &mut fmt::Formatter<W>,
    table: &Table,
    child: SlotRef,
    parent: SlotRef,
) -> fmt::Result {
    let child = OwnedSlot { table, slot: child };
    let parent = OwnedSlot {
        table,
        slot: parent,
    };
    write!(
        f,
        "the capability in {child} is derived from the one in {parent}"
    )
}

/// What an object does with another.
fn tell_objects<W: fmt::Write>(
    f: &mut fmt::Formatter<W>,
    table: &Table,
    what: &str,
    one: ObjId,
    does: &str,
    other: ObjId,
) -> fmt::Result {
    let one = Owned { table, id: one };
    let other = Owned { table, id: other };
    write!(f, "the {what} {one} {does} {other}")
}

/// Which right a thread keeps while it waits.
fn tell_waiting<W: fmt::Write>(
    f: &mut fmt::Formatter<W>,
    table: &Table,
    thread: ObjId,
    kind: Kind,
    label: Label,
) -> fmt::Result {
    let thread = Owned { table, id: thread };
    let deed = Deed { table, kind, label };
    write!(f, "the thread {thread} waits and keeps the right to {deed}")
}

/// Which line of a certificate is wrong.
fn tell_certificate<W: fmt::Write>(f: &mut fmt::Formatter<W>, line: usize) -> fmt::Result {
    write!(
        f,
        "line {line} after the certificate's header differs from what the table gives, is missing, \
         or is one line too many"
    )
}

/// The beginning of what the capability in a slot lets the label of its holder do.
#[derive(Clone, Copy)]
pub struct Lets<'a> {
    pub table: &'a Table,
    pub slot: SlotRef,
}

impl fmt::Display for Lets<'_> {
    fn fmt<W: fmt::Write>(&self, f: &mut fmt::Formatter<W>) -> fmt::Result {
        let index = self.slot.index;
        let holder = object_name(self.table, self.slot.holder);
        let from = name_of_label(self.table, self.slot.holder);
        write!(f, "slot {index} of `{holder}` lets `{from}`")
    }
}

/// What an edge of the kind lets a label do to another.
#[derive(Clone, Copy)]
pub(crate) struct Deed<'a> {
    pub table: &'a Table,
    pub kind: Kind,
    pub label: Label,
}

impl fmt::Display for Deed<'_> {
    fn fmt<W: fmt::Write>(&self, f: &mut fmt::Formatter<W>) -> fmt::Result {
        let verb = verb(self.kind);
        let name = label_name(self.table, self.label);
        write!(f, "{verb} `{name}`")
    }
}

/// A slot, and its holder's label.
#[derive(Clone, Copy)]
struct OwnedSlot<'a> {
    table: &'a Table,
    slot: SlotRef,
}

impl fmt::Display for OwnedSlot<'_> {
    fn fmt<W: fmt::Write>(&self, f: &mut fmt::Formatter<W>) -> fmt::Result {
        let label = name_of_label(self.table, self.slot.holder);
        let slot = SlotName {
            table: self.table,
            slot: self.slot,
        };
        write!(f, "`{slot}` of `{label}`")
    }
}

/// An object, and its label.
#[derive(Clone, Copy)]
struct Owned<'a> {
    table: &'a Table,
    id: ObjId,
}

impl fmt::Display for Owned<'_> {
    fn fmt<W: fmt::Write>(&self, f: &mut fmt::Formatter<W>) -> fmt::Result {
        let name = object_name(self.table, self.id);
        let label = name_of_label(self.table, self.id);
        write!(f, "`{name}` of `{label}`")
    }
}

/// Why a rule of closed policies is broken.
fn tell_rule<W: fmt::Write>(
    f: &mut fmt::Formatter<W>,
    table: &Table,
    broken: &Broken,
) -> fmt::Result {
    let (one, two) = names_of_ends(table, broken);
    tell_words(f, &rule_words(broken, one, two))?;
    tell_rule_end(f, table, broken, one)
}

/// These words, with nothing between them.
fn tell_words<W: fmt::Write>(f: &mut fmt::Formatter<W>, words: &[&str]) -> fmt::Result {
    for word in words {
        f.write_str(word)?;
    }
    Ok(())
}

/// The words on why a rule is broken, with the names of the two labels in their places, up to the end.
fn rule_words<'a>(broken: &Broken, one: &'a str, two: &'a str) -> [&'a str; 5] {
    match *broken {
        Broken::SubjectsDisagree { .. } => [
            "`",
            two,
            "` is in the domain of `",
            one,
            "`, but only one of the two may ",
        ],
        Broken::ControlLacks { .. } => ["`", one, "` controls `", two, "`, and so may get to "],
        Broken::GrantLacks { .. } => [
            "`",
            one,
            "` may grant its capabilities to `",
            two,
            "`, including one to ",
        ],
        Broken::DomainLacks { parent, child } if parent == child => [
            "`",
            one,
            "` is in the domain of a label, and that label may copy capabilities of `",
            one,
            "` within ",
        ],
        Broken::DomainLacks { .. } => [
            "`",
            one,
            "` and `",
            two,
            "` are in the domain of one label, which may copy capabilities from one to the other",
        ],
        Broken::DeriveLacks { .. } => [
            "capabilities of `",
            two,
            "` may be derived from capabilities of `",
            one,
            "`, by a grant or in two steps",
        ],
        Broken::ContextLacks { .. } => [
            "`",
            one,
            "` may bind a context of `",
            two,
            "` and then runs on it",
        ],
        Broken::ReplyLacks { .. } => [
            "a reply object of `",
            one,
            "` may get to hold a thread of `",
            two,
            "`, which receives with that object or calls a thread that does",
        ],
        Broken::LentLacks { .. } => [
            "`",
            one,
            "` may be lent a context of `",
            two,
            "` by a thread that runs on it and calls where ",
        ],
    }
}

/// The end of the words on why a rule is broken: what the rule lets a label do to another, if it is on one kind.
fn tell_rule_end<W: fmt::Write>(
    f: &mut fmt::Formatter<W>,
    table: &Table,
    broken: &Broken,
    one: &str,
) -> fmt::Result {
    let (kind, label) = match *broken {
        Broken::SubjectsDisagree { kind, target, .. } | Broken::GrantLacks { kind, target, .. } => {
            (kind, target)
        }
        Broken::ControlLacks { object, kind, .. } => (kind, object),
        Broken::DomainLacks { parent, child } if parent == child => return write!(f, "`{one}`"),
        Broken::LentLacks { .. } => return write!(f, "`{one}` receives"),
        _ => return Ok(()),
    };
    Deed { table, kind, label }.fmt(f)
}

/// Where a rule is broken, by names.
#[derive(Clone, Copy)]
pub struct PlaceNames<'a> {
    pub table: &'a Table,
    pub denial: &'a Denial,
}

impl fmt::Display for PlaceNames<'_> {
    fn fmt<W: fmt::Write>(&self, f: &mut fmt::Formatter<W>) -> fmt::Result {
        let table = self.table;
        let (one, two) = match *self.denial {
            Denial::Policy(broken) => names_of_ends(table, &broken),
            Denial::Sharp(broken) => names_of_sharp_ends(table, &broken),
            Denial::Capability { slot, .. } | Denial::Root { slot, .. } => {
                return SlotName { table, slot }.fmt(f);
            }
            Denial::Pair { child, parent } => return tell_pair(f, table, child, parent),
            Denial::Binding { thread, context } => {
                (object_name(table, thread), object_name(table, context))
            }
            Denial::Holding { reply, thread } => {
                (object_name(table, reply), object_name(table, thread))
            }
            Denial::Recorded { thread, .. } => return f.write_str(object_name(table, thread)),
            Denial::Certificate { line } => return write!(f, "{line}"),
        };
        write!(f, "{one} {two}")
    }
}

/// The slots of a parent and a child.
fn tell_pair<W: fmt::Write>(
    f: &mut fmt::Formatter<W>,
    table: &Table,
    child: SlotRef,
    parent: SlotRef,
) -> fmt::Result {
    let child = SlotName { table, slot: child };
    let parent = SlotName {
        table,
        slot: parent,
    };
    write!(f, "{parent} {child}")
}

/// The names of the two labels between which a rule of closed policies is broken.
fn names_of_ends<'a>(table: &'a Table, broken: &Broken) -> (&'a str, &'a str) {
    let (one, two) = ends(broken);
    (label_name(table, one), label_name(table, two))
}

/// The names of the two labels between which a sharp rule is broken.
fn names_of_sharp_ends<'a>(table: &'a Table, broken: &SharpBroken) -> (&'a str, &'a str) {
    let (one, two) = match *broken {
        SharpBroken::SubjectLacks { subject, other, .. } => (subject, other),
        SharpBroken::ControlLacks {
            subject,
            object,
            ..
        } => (subject, object),
        SharpBroken::GrantLacks { giver, taker, .. } => (giver, taker),
        SharpBroken::DomainLacks { parent, child } | SharpBroken::DeriveLacks { parent, child } => {
            (parent, child)
        }
        SharpBroken::ContextLacks { subject, context } => (subject, context),
        SharpBroken::ReplyLacks { reply, thread } => (reply, thread),
        SharpBroken::LentLacks { borrower, context } => (borrower, context),
    };
    (label_name(table, one), label_name(table, two))
}

/// The two labels between which a rule of closed policies is broken.
pub(crate) fn ends(broken: &Broken) -> (Label, Label) {
    match *broken {
        Broken::SubjectsDisagree { subject, other, .. } => (subject, other),
        Broken::ControlLacks {
            subject,
            object,
            ..
        } => (subject, object),
        Broken::GrantLacks { giver, taker, .. } => (giver, taker),
        Broken::DomainLacks { parent, child } | Broken::DeriveLacks { parent, child } => {
            (parent, child)
        }
        Broken::ContextLacks { subject, context } => (subject, context),
        Broken::ReplyLacks { reply, thread } => (reply, thread),
        Broken::LentLacks { borrower, context } => (borrower, context),
    }
}

/// What mends a denial in place of the edge.
#[derive(Clone, Copy)]
pub struct OtherWay<'a> {
    pub table: &'a Table,
    pub policy: &'a Policy,
    pub denial: &'a Denial,
}

impl fmt::Display for OtherWay<'_> {
    fn fmt<W: fmt::Write>(&self, f: &mut fmt::Formatter<W>) -> fmt::Result {
        let (table, policy) = (self.table, self.policy);
        let words = match *self.denial {
            Denial::Policy(broken) => return tell_rule_way(f, table, policy, &broken),
            Denial::Sharp(_) => "Remove an edge by which the rule requires it",
            Denial::Capability { .. } => "Give the capability fewer rights",
            Denial::Root { .. } => {
                "Make the root a CNode of a label to which the policy has such an edge"
            }
            Denial::Pair { child, parent } => return tell_no_child(f, table, child, parent),
            Denial::Binding { .. } => {
                "Bind the thread to a context of a label to which the policy has such an edge"
            }
            Denial::Holding { .. } => {
                "Let the reply hold a thread of a label to which the policy has such an edge"
            }
            Denial::Recorded { .. } => "Let the thread wait where its label has such an edge",
            Denial::Certificate { .. } => "Write the certificate again with `confine check --cert`",
        };
        f.write_str(words)
    }
}

/// What makes a slot no child.
fn tell_no_child<W: fmt::Write>(
    f: &mut fmt::Formatter<W>,
    table: &Table,
    child: SlotRef,
    parent: SlotRef,
) -> fmt::Result {
    let child = SlotName { table, slot: child };
    let parent = SlotName {
        table,
        slot: parent,
    };
    write!(f, "Remove `child {parent} {child}` from the table")
}

/// What mends a broken rule of closed policies in place of the edge.
fn tell_rule_way<W: fmt::Write>(
    f: &mut fmt::Formatter<W>,
    table: &Table,
    policy: &Policy,
    broken: &Broken,
) -> fmt::Result {
    match *broken {
        Broken::SubjectsDisagree { subject, other, .. } => {
            let [_, twin, _, _] = premises(policy, *broken);
            tell_domain_way(f, table, policy, subject, other, twin)
        }
        Broken::DomainLacks { parent, child } => match domain_of(policy, parent, child) {
            Some(subject) => tell_domain_exit(f, table, policy, subject, parent, child),
            None => tell_way_words(f, table, broken),
        },
        _ => tell_way_words(f, table, broken),
    }
}

/// What mends a broken rule in place of the edge, with no more than the names of two labels.
fn tell_way_words<W: fmt::Write>(
    f: &mut fmt::Formatter<W>,
    table: &Table,
    broken: &Broken,
) -> fmt::Result {
    let (one, two) = names_of_ends(table, broken);
    tell_words(f, &way_words(broken, one, two))
}

/// The words on what mends a broken rule in place of the edge, with the names of the two labels in their places.
fn way_words<'a>(broken: &Broken, one: &'a str, two: &'a str) -> [&'a str; 5] {
    match *broken {
        Broken::ControlLacks { .. } => ["Remove `edge ", one, " control ", two, "`"],
        Broken::ContextLacks { .. } => ["Remove `edge ", one, " context ", two, "`"],
        Broken::GrantLacks { .. } => [
            "Give `",
            one,
            "` no `grant` edge to a label to which `",
            two,
            "` has a `receive` edge",
        ],
        Broken::DomainLacks { parent, child } if parent == child => {
            ["Take `", one, "` out of that domain", "", ""]
        }
        Broken::DomainLacks { .. } => {
            [
                "Take one of the two labels out of that domain",
                "",
                "",
                "",
                "",
            ]
        }
        Broken::DeriveLacks { .. } => ["Remove the grant or one of the steps", "", "", "", ""],
        Broken::ReplyLacks { .. } => [
            "Remove the `reply`, `call` or `receive` edge by which it may",
            "",
            "",
            "",
            "",
        ],
        Broken::LentLacks { .. } => [
            "Remove the `call`, `receive` or `runs` edge by which it may",
            "",
            "",
            "",
            "",
        ],
        Broken::SubjectsDisagree { .. } => [""; 5],
    }
}
