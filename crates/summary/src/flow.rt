//! The text on the flows from one label to another.
ghost use Rattle.std.specs.Prelude.{◌≡◌, IfOk, string_bytes};
ghost use Rattle.{reach.specs.Extents.limits_of, summary.specs.FlowText.{AreAvoided, IsFlowText, reached_text}};

use crate::flow_lines::{write_links, write_smallest};
use base::{Label, Labels};
use flows::{FlowGraph, Flows, Link, Smallest};
use reach::Reach;
use std::alloc::{AllocError, Global};
use table::Table;

/// The most sets of programs that a text names.
pub const MOST_SETS: usize = 10;

/// Returns the text on what flows from the label `from` to the label `to`.
///
/// It is `none` if nothing does. Else it has a line for each of the smallest sets of programs through which all of
/// it goes, of at most [`MOST_SETS`], or `direct` if no set of programs is one, and then a chain of flows. Where it is
/// `direct` the chain goes through no other program and by no object of one.
pub fn flow_text(
    alloc: Global,
    reach: &Reach<'_>,
    from: Label,
    to: Label,
) -> Result<Vec<u8>, AllocError>
    ensures { IfOk result (λ text. IsFlowText reach.now from to text.items) }
{
    let graph = FlowGraph::of(alloc, reach)?;
    let smallest = graph.smallest_filters(alloc, from, to, MOST_SETS)?;
    let avoided = avoided(reach, from, to, &smallest);
    let flows = Flows::of(alloc, reach)?;
    match flows.chain(alloc, from, to, avoided)? {
        Some(links) => Ok(reached_string(alloc, reach.table(), &smallest, &links)?.into_bytes()),
        None => Ok(String::from_str(alloc, "none\n")?.into_bytes()),
    }
}

// The programs that the chain avoids.
fn avoided(reach: &Reach<'_>, from: Label, to: Label, smallest: &Smallest) -> Labels
    ensures { AreAvoided (limits_of reach.now) from to smallest.now result }
{
    match smallest {
        Smallest::Direct => {
            let ends = Labels::only(from).union(Labels::only(to));
            reach.actors().difference(ends)
        }
        _ => Labels::none(),
    }
}

// The text where something flows from the one label to the other.
fn reached_string(
    alloc: Global,
    table: &Table,
    smallest: &Smallest,
    links: &[Link],
) -> Result<String, AllocError>
    ensures { IfOk result (λ text. string_bytes text ≡ reached_text table.now smallest.now links.now) }
{
    let mut text = String::new(alloc);
    write_smallest(alloc, &mut text, table, smallest)?;
    write_links(&mut text, table, links)?;
    Ok(text)
}
