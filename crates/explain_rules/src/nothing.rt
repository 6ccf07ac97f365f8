//! The sentence on why a label has no authority on another.
use crate::sentences::EdgeList;
use base::{Edge, Label, Labels, Refusal};
use captext::label_name;
use machine::ObjectKind;
use policy::Policy;
use reach::Reach;
use std::alloc::{AllocError, Global};
use table::Table;

/// What joins labels by the reach of a table, before what it lets the one do.
const BY_REACH: &str = "no authority that the table can lead to lets";

/// What joins labels by a policy.
const BY_POLICY: &str = "no edges of the policy let";

/// Adds why threads of `actor` can neither change objects of `object` nor make them smaller in any run of a table.
pub fn push_nothing(
    alloc: Global,
    lines: &mut String,
    reach: &Reach<'_>,
    actor: Label,
    object: Label,
) -> Result<(), Refusal> {
    let table = reach.table();
    let name = label_name(table, actor);
    if reach.actors().has(actor) {
        push_unkept(lines, reach.keepers())?;
        push_harmless(alloc, lines, BY_REACH, table, reach.policy(), actor, object)?;
    } else if may_have_threads(table, actor) {
        writeln!(
            lines,
            "no thread of `{name}` ever runs: at boot none is both ready and bound to a context, and no label \
             whose threads run has a `control` edge to `{name}`"
        )?;
    } else {
        writeln!(
            lines,
            "`{name}` has no thread, and no untyped memory from which to make one"
        )?;
    }
    Ok(())
}

/// Adds that capabilities stay where they are, if no label keeps one for a CNode.
fn push_unkept(lines: &mut String, keepers: Labels) -> Result<(), AllocError> {
    if keepers != Labels::none() {
        return Ok(());
    }
    lines.push_str("no thread can receive or copy a capability: no CNode holds one for a CNode\n")
}

/// Adds why a policy allows threads of `actor` neither to change objects of `object` nor to make them smaller.
pub fn push_not_allowed(
    alloc: Global,
    lines: &mut String,
    table: &Table,
    policy: &Policy,
    actor: Label,
    object: Label,
) -> Result<(), Refusal> {
    push_harmless(alloc, lines, BY_POLICY, table, policy, actor, object)
}

/// Returns whether a label has a thread, or memory of which threads can be made.
fn may_have_threads(table: &Table, label: Label) -> bool {
    table.objects().iter().any(|initial| initial.label == label
        && matches!(initial.object.kind(), ObjectKind::Tcb | ObjectKind::Untyped))
}

/// Adds that no edges give the authority, and which edges of the policy join the two labels nevertheless. The words `none` begin
/// the sentence.
fn push_harmless(
    alloc: Global,
    lines: &mut String,
    none: &str,
    table: &Table,
    policy: &Policy,
    actor: Label,
    object: Label,
) -> Result<(), Refusal> {
    let joining = edges_between(alloc, policy, actor, object)?;
    push_none_by(lines, none, table, actor, object, &joining)?;
    Ok(())
}

/// Returns the edges of a policy from one label to another, in the policy's order.
fn edges_between(
    alloc: Global,
    policy: &Policy,
    from: Label,
    to: Label,
) -> Result<Vec<Edge>, Refusal> {
    let mut between = Vec::new(alloc);
    for edge in policy.edges(alloc)?.iter() {
        if edge.from == from && edge.to == to {
            between.push(*edge)?;
        }
    }
    Ok(between)
}

/// Adds the sentence on two labels that these edges join.
fn push_none_by(
    lines: &mut String,
    none: &str,
    table: &Table,
    actor: Label,
    object: Label,
    joining: &[Edge],
) -> Result<(), AllocError> {
    let (actor, object) = (label_name(table, actor), label_name(table, object));
    let even = if joining.is_empty() {
        ""
    } else {
        ", not even "
    };
    let edges = EdgeList {
        table,
        edges: joining,
    };
    writeln!(
        lines,
        "{none} `{actor}` change objects of `{object}` or make them smaller{even}{edges}"
    )
}
