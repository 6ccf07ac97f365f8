//! The sentences on denials by the sharp rules: why a rule is broken, and what may be done.
use crate::origins::push_edge;
use base::{Edge, Kind};
use captext::label_name;
use explain_rules::{EdgeLine, EdgeList, Grounds, View, WayWords, grounds_at, verb};
use policy::Policy;
use sharp::SharpBroken;
use std::alloc::{AllocError, Global};
use std::fmt;
use table::Table;

/// Returns the edges by which a sharp rule requires another, each once.
pub(crate) fn edges_of(alloc: Global, grounds: &Grounds) -> Result<Vec<Edge>, AllocError> {
    let mut edges = Vec::new(alloc);
    for ground in &grounds.edges {
        if let Some(edge) = ground {
            push_edge(&mut edges, *edge)?;
        }
    }
    Ok(edges)
}

/// Adds why a sharp rule is broken, and what may be done.
pub(crate) fn push_sharp(
    alloc: Global,
    sentence: &mut String,
    table: &Table,
    policy: &Policy,
    broken: &SharpBroken,
) -> Result<(), AllocError> {
    match grounds_at(&View::of(table, policy), broken) {
        Some(grounds) => push_reason(alloc, sentence, table, &grounds, broken),
        // A broken rule has grounds.
        None => {
            let follows = Follows {
                table,
                edge: broken.edge(),
            };
            let edge = EdgeLine {
                table,
                edge: broken.edge(),
            };
            write!(
                sentence,
                "{follows}, but the policy has no such edge. Add `{edge}`."
            )
        }
    }
}

/// Adds why a sharp rule is broken, which requires the edge on these grounds.
fn push_reason(
    alloc: Global,
    sentence: &mut String,
    table: &Table,
    grounds: &Grounds,
    broken: &SharpBroken,
) -> Result<(), AllocError> {
    let edges = edges_of(alloc, grounds)?;
    let way = WayWords {
        table,
        way: grounds.way,
    };
    let follows = Follows {
        table,
        edge: broken.edge(),
    };
    let one_of = if edges.len() == 1 { "" } else { "one of " };
    let list = EdgeList {
        table,
        edges: &edges,
    };
    let edge = EdgeLine {
        table,
        edge: broken.edge(),
    };
    write!(
        sentence,
        "{way}, and so {follows}, but the policy has no such edge. Remove {one_of}{list}, or add `{edge}`."
    )
}

/// What an edge says that a sharp rule requires.
#[derive(Clone, Copy)]
struct Follows<'a> {
    table: &'a Table,
    edge: Edge,
}

impl fmt::Display for Follows<'_> {
    fn fmt<W: fmt::Write>(&self, f: &mut fmt::Formatter<W>) -> fmt::Result {
        let from = label_name(self.table, self.edge.from);
        let to = label_name(self.table, self.edge.to);
        match self.edge.kind {
            Kind::Derive => {
                write!(
                    f,
                    "capabilities of `{to}` may be derived from capabilities of `{from}`"
                )
            }
            Kind::Holds => {
                write!(
                    f,
                    "a reply object of `{from}` may get to hold a thread of `{to}`"
                )
            }
            kind => {
                let verb = verb(kind);
                write!(f, "`{from}` may get to {verb} `{to}`")
            }
        }
    }
}
