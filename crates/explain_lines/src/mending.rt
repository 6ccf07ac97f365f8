//! The words on a policy that `confine close` mends: which command does, and what it dropped.
use base::Kind;
use std::alloc::{AllocError, Global};
use table::Table;

/// Adds behind the sentence on a flaw what `confine close` does to the policy.
pub(crate) fn push_mending(
    lines: &mut String,
    system: &str,
    policy: &str,
    does: &str,
) -> Result<(), AllocError> {
    // A question has no full stop.
    let stop = if lines.ends_with("?") { "" } else { "." };
    write!(lines, "{stop} `confine close {system} {policy}` {does}.")
}

/// A line of a policy that was dropped: its number, and what it names.
#[derive(Clone, Copy)]
pub struct DroppedEdge<'a> {
    pub line: u64,
    pub from: &'a str,
    pub kind: Kind,
    pub to: &'a str,
}

/// Says that a line of the policy called `name` was dropped, since the table lacks a label that it names.
pub fn explain_dropped(
    alloc: Global,
    name: &str,
    table: &Table,
    dropped: DroppedEdge<'_>,
) -> Result<String, AllocError> {
    let DroppedEdge {
        line,
        from,
        kind,
        to,
    } = dropped;
    let label = match table.label_named(from) {
        Some(_) => to,
        None => from,
    };
    format!(in alloc;
        "{name}:{line}: dropped `edge {from} {kind} {to}`: the system has no label `{label}`."
    )
}
