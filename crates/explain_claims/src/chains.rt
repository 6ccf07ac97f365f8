//! The words on chains of flows from one label to another, step by step.
use base::{Edge, Kind, Label, Labels, Refusal};
use captext::label_name;
use explain_denials::{EdgeList, Origins};
use explain_rules::Sheet;
use flows::{Flows, Link};
use policy::Why;
use reach::Reach;
use search::edges_of;
use std::alloc::{AllocError, Global};
use table::Table;

/// The kinds of edges each of which alone lets a label see objects of another.
const SEEING: [Kind; 7] = [
    Kind::Await,
    Kind::Read,
    Kind::Runs,
    Kind::Send,
    Kind::Receive,
    Kind::Reply,
    Kind::Space,
];

/// The kinds of edges that let a label see objects of another together with other edges.
const SEEING_BESIDE: [Kind; 3] = [Kind::Context, Kind::Control, Kind::Notify];

/// Returns a line for each flow of a shortest chain from the label of one name to that of another: by which edges it
/// goes. Then it returns a line for each of these edges: where it comes from. It returns nothing if nothing flows. The
/// reach is that of the sheet's table.
///
/// # Errors
///
/// 40 where memory is refused.
pub fn explain_flows(
    alloc: Global,
    sheet: Sheet<'_>,
    reach: &Reach<'_>,
    from: &str,
    to: &str,
) -> Result<String, Refusal> {
    let mut lines = String::new(alloc);
    let table = reach.table();
    if let (Some(from), Some(to)) = (table.label_named(from), table.label_named(to)) {
        push_steps(alloc, &mut lines, sheet, reach, from, to)?;
    }
    Ok(lines)
}

/// Adds the lines on the flows of a chain, and on their edges.
fn push_steps(
    alloc: Global,
    lines: &mut String,
    sheet: Sheet<'_>,
    reach: &Reach<'_>,
    from: Label,
    to: Label,
) -> Result<(), Refusal> {
    let mut edges = Vec::new(alloc);
    if let Some(links) = plainest_chain(alloc, reach, from, to)? {
        for link in &links {
            push_step(alloc, lines, reach, *link, &mut edges)?;
        }
    }
    let origins = Origins::of(alloc, sheet, reach)?;
    origins.push_lines(alloc, lines, &mut edges)
}

/// Returns a shortest chain of flows from one label to another, if there is one: by preference one that goes through no
/// other program and by no object of one.
fn plainest_chain(
    alloc: Global,
    reach: &Reach<'_>,
    from: Label,
    to: Label,
) -> Result<Option<Vec<Link>>, Refusal> {
    let flows = Flows::of(alloc, reach)?;
    let direct = flows.chain(alloc, from, to, programs_beside(reach, from, to))?;
    if direct.is_some() {
        return Ok(direct);
    }
    Ok(flows.chain(alloc, from, to, Labels::none())?)
}

/// Returns the programs but for two labels.
pub(crate) fn programs_beside(reach: &Reach<'_>, from: Label, to: Label) -> Labels {
    let ends = Labels::only(from).union(Labels::only(to));
    reach.actors().difference(ends)
}

/// Adds the line on a flow, and its edges to the others.
fn push_step(
    alloc: Global,
    lines: &mut String,
    reach: &Reach<'_>,
    link: Link,
    edges: &mut Vec<Edge>,
) -> Result<(), Refusal> {
    push_change(alloc, lines, reach, link, edges)?;
    if link.object != link.to {
        push_sight(alloc, lines, reach, link, edges)?;
    }
    Ok(lines.push_str(".\n")?)
}

/// Adds what the first label of a flow may do, and by which edges, which are added to the others.
fn push_change(
    alloc: Global,
    lines: &mut String,
    reach: &Reach<'_>,
    link: Link,
    edges: &mut Vec<Edge>,
) -> Result<(), Refusal> {
    let table = reach.table();
    let why = reach.why(alloc, link.from, link.object)?;
    let does = match &why {
        Why::Take(_) => "may take from",
        _ => "may change objects of",
    };
    let reason = edges_of(alloc, why);
    let from = label_name(table, link.from);
    let object = label_name(table, link.object);
    write!(lines, "`{from}` {does} `{object}`")?;
    push_by(lines, table, &reason)?;
    Ok(push_new(edges, &reason)?)
}

/// Adds that the last label of a flow sees what was changed, and by which edges, which are added to the others.
fn push_sight(
    alloc: Global,
    lines: &mut String,
    reach: &Reach<'_>,
    link: Link,
    edges: &mut Vec<Edge>,
) -> Result<(), Refusal> {
    let table = reach.table();
    let sight = sight(alloc, reach, link.to, link.object)?;
    let to = label_name(table, link.to);
    write!(lines, "; `{to}` sees these")?;
    push_by(lines, table, &sight)?;
    Ok(push_new(edges, &sight)?)
}

/// Adds by which edges something is so, if there are any.
fn push_by(lines: &mut String, table: &Table, edges: &[Edge]) -> Result<(), AllocError> {
    if edges.is_empty() {
        return Ok(());
    }
    let list = EdgeList { table, edges };
    write!(lines, " by {list}")
}

/// Adds the edges that aren't there.
fn push_new(edges: &mut Vec<Edge>, more: &[Edge]) -> Result<(), AllocError> {
    for edge in more {
        if !edges.contains(edge) {
            edges.push(*edge)?;
        }
    }
    Ok(())
}

/// Returns the edges of one way in which a label sees objects of another: none where it may answer calls of the other.
fn sight(
    alloc: Global,
    reach: &Reach<'_>,
    label: Label,
    object: Label,
) -> Result<Vec<Edge>, AllocError> {
    let mut edges = Vec::new(alloc);
    if add_first(&mut edges, reach, label, &SEEING, object)? {
        return Ok(edges);
    }
    if add_meeting(&mut edges, reach, label, object)? {
        return Ok(edges);
    }
    add_first(&mut edges, reach, label, &SEEING_BESIDE, object)?;
    Ok(edges)
}

/// Adds the first edge from one label to another that has one of these kinds. Returns whether there is one.
fn add_first(
    edges: &mut Vec<Edge>,
    reach: &Reach<'_>,
    from: Label,
    kinds: &[Kind],
    to: Label,
) -> Result<bool, AllocError> {
    for kind in kinds {
        let kind = *kind;
        if has_edge(reach, from, kind, to) {
            edges.push(Edge { from, kind, to })?;
            return Ok(true);
        }
    }
    Ok(false)
}

/// Adds the edges by which a label receives where another sends, or calls where the other receives. Returns whether
/// there are such edges.
fn add_meeting(
    edges: &mut Vec<Edge>,
    reach: &Reach<'_>,
    label: Label,
    other: Label,
) -> Result<bool, AllocError> {
    for number in 0..Label::COUNT {
        if let Some(endpoint) = Label::new(number) {
            if add_both(
                edges,
                reach,
                label,
                Kind::Receive,
                other,
                Kind::Send,
                endpoint,
            )? {
                return Ok(true);
            }
            if add_both(
                edges,
                reach,
                label,
                Kind::Call,
                other,
                Kind::Receive,
                endpoint,
            )? {
                return Ok(true);
            }
        }
    }
    Ok(false)
}

/// Adds the edges from two labels to a third, each of its kind, if both are there. Returns whether they are.
fn add_both(
    edges: &mut Vec<Edge>,
    reach: &Reach<'_>,
    label: Label,
    kind: Kind,
    other: Label,
    other_kind: Kind,
    to: Label,
) -> Result<bool, AllocError> {
    if !has_edge(reach, label, kind, to) || !has_edge(reach, other, other_kind, to) {
        return Ok(false);
    }
    edges.push(Edge {
        from: label,
        kind,
        to,
    })?;
    edges.push(Edge {
        from: other,
        kind: other_kind,
        to,
    })?;
    Ok(true)
}

/// Returns whether the reach has an edge.
pub(crate) fn has_edge(reach: &Reach<'_>, from: Label, kind: Kind, to: Label) -> bool {
    reach.policy().has(Edge { from, kind, to })
}

/// Adds the flows of a shortest chain from one label to another that goes through no filter.
pub(crate) fn push_chain(
    alloc: Global,
    lines: &mut String,
    reach: &Reach<'_>,
    from: Label,
    to: Label,
    filters: Labels,
) -> Result<(), Refusal> {
    if let Some(links) = chain(alloc, reach, from, to, filters)? {
        push_links(lines, reach.table(), &links)?;
    }
    Ok(lines.push_str(
        ". Change the claim, or change what makes one of these steps possible. \
         `confine why` prints the edges of a step.\n",
    )?)
}

/// A shortest chain from one label to another that goes through no filter.
fn chain(
    alloc: Global,
    reach: &Reach<'_>,
    from: Label,
    to: Label,
    filters: Labels,
) -> Result<Option<Vec<Link>>, AllocError> {
    Flows::of(alloc, reach)?.chain(alloc, from, to, filters)
}

/// Adds the flows of a chain.
fn push_links(lines: &mut String, table: &Table, links: &[Link]) -> Result<(), AllocError> {
    let mut separator = "";
    for link in links {
        lines.push_str(separator)?;
        push_link(lines, table, *link)?;
        separator = ", ";
    }
    Ok(())
}

/// Adds by whose objects what a label does may come to another.
pub(crate) fn push_link(lines: &mut String, table: &Table, link: Link) -> Result<(), AllocError> {
    let from = label_name(table, link.from);
    let object = label_name(table, link.object);
    write!(
        lines,
        "`{from}` may change objects of `{object}` or take from them"
    )?;
    if link.object != link.to {
        let to = label_name(table, link.to);
        write!(lines, ", which `{to}` sees")?;
    }
    Ok(())
}
