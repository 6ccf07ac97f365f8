//! The sentences on a run that leaves a policy that breaks a rule on policies, or that no such run was found.
use crate::scripts::push_run;
use base::{Edge, Kind, Refusal};
use captext::label_name;
use explain_denials::{EdgeLine, Reason, asked_edge};
use explain_rules::Sheet;
use labels::label_of;
use machine::Event;
use objects::State;
use policy::Policy;
use runs::{MOST_CALLS, leaves, place_outside, reach};
use search::find_escape;
use std::alloc::{AllocError, Global};
use table::Table;
use verdict::Denial;

/// How many calls a search for a run tries.
const STEPS: u64 = 2_000;

/// Returns lines on a run that leaves a policy, or that no such run was found.
///
/// The lines say who makes each call and what the call changes, and which authority lies outside the policy afterwards.
/// There are none if the table's boot state already lies outside the policy.
///
/// # Errors
///
/// 40 where memory is refused.
pub fn explain_escape(alloc: Global, sheet: Sheet<'_>, policy: &Policy) -> Result<String, Refusal> {
    let mut lines = String::new(alloc);
    if !leaves(alloc, sheet.table, policy, &[])? {
        push_found(alloc, &mut lines, sheet, policy)?;
    }
    Ok(lines)
}

/// Adds what a search for a run that leaves the policy finds.
fn push_found(
    alloc: Global,
    lines: &mut String,
    sheet: Sheet<'_>,
    policy: &Policy,
) -> Result<(), Refusal> {
    let found = find_escape(alloc, sheet.table, policy, STEPS)?;
    match &found.script {
        Some(script) => push_escape(alloc, lines, sheet, policy, script),
        None => {
            let steps = found.steps;
            writeln!(
                lines,
                "no run of at most {MOST_CALLS} calls that leaves the policy was found ({steps} calls tried). The rule \
                 is broken all the same: the rules exclude such runs, but a broken rule doesn't mean that there is one."
            )?;
            Ok(())
        }
    }
}

/// Adds the calls of a run, and which authority lies outside the policy afterwards.
fn push_escape(
    alloc: Global,
    lines: &mut String,
    sheet: Sheet<'_>,
    policy: &Policy,
    script: &[Event],
) -> Result<(), Refusal> {
    let table = sheet.table;
    let count = script.len();
    let calls = if count == 1 { "call" } else { "calls" };
    writeln!(lines, "a run of {count} {calls} leaves the policy:")?;
    push_run(alloc, lines, sheet, script)?;
    let place = place_outside(alloc, table, policy, script)?;
    if let (Some(place), Some(state)) = (place, reach(alloc, table, script)?) {
        push_excess(lines, table, &state, &place)?;
    }
    Ok(())
}

/// Adds which authority lies outside a policy in a state.
fn push_excess(
    lines: &mut String,
    table: &Table,
    state: &State,
    place: &Denial,
) -> Result<(), Refusal> {
    if let Some(edge) = asked_edge(table, place) {
        let reason = Reason {
            table,
            denial: place,
        };
        let edge = EdgeLine { table, edge };
        writeln!(lines, "then {reason}, but the policy has no `{edge}`")?;
    } else if let Some(edge) = edge_in(table, state, place) {
        push_made(lines, table, edge)?;
    }
    Ok(())
}

/// Adds that an edge is missing for an object that the run made.
fn push_made(lines: &mut String, table: &Table, edge: Edge) -> Result<(), AllocError> {
    let (from, to) = (label_name(table, edge.from), label_name(table, edge.to));
    let kind = edge.kind;
    let edge = EdgeLine { table, edge };
    writeln!(
        lines,
        "then `{from}` has `{kind}` on `{to}` through an object that the run made, but the policy has no `{edge}`"
    )
}

/// The edge that a place outside of a policy asks for, by the labels that objects have in a state.
fn edge_in(table: &Table, state: &State, place: &Denial) -> Option<Edge> {
    let (from, kind, to) = match *place {
        Denial::Capability { slot, kind, label } => (slot.holder, kind, Some(label)),
        Denial::Root { slot, label } => (slot.holder, Kind::Space, Some(label)),
        Denial::Pair { child, parent } => {
            (
                parent.holder,
                Kind::Derive,
                label_of(table, state, child.holder),
            )
        }
        Denial::Binding { thread, context } => {
            (thread, Kind::Runs, label_of(table, state, context))
        }
        Denial::Holding { reply, thread } => (reply, Kind::Holds, label_of(table, state, thread)),
        Denial::Recorded {
            thread,
            kind,
            label,
        } => (thread, kind, Some(label)),
        Denial::Policy(_) | Denial::Sharp(_) | Denial::Certificate { .. } => return None,
    };
    Some(Edge {
        from: label_of(table, state, from)?,
        kind,
        to: to?,
    })
}
