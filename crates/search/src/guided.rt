//! The edges of a reason: a search tries first the calls that they name.
use base::{Edge, Kind, Label};
use policy::Why;
use std::alloc::Global;

/// Returns the edges of a reason; there are none if a label may do nothing to another.
pub fn edges_of(alloc: Global, why: Why) -> Vec<Edge> {
    match why {
        Why::Full(edges) | Why::Take(edges) => edges,
        Why::Nothing => Vec::new(alloc),
    }
}

/// Returns whether an edge of a reason gives a label authority of a kind over another.
///
/// No edge names an absent label.
pub fn names(reason: &[Edge], from: Option<Label>, kind: Kind, to: Option<Label>) -> bool {
    for edge in reason {
        if Some(edge.from) == from && edge.kind == kind && Some(edge.to) == to {
            return true;
        }
    }
    false
}

/// Returns whether an edge of a reason leads from a label to another.
pub fn joins(reason: &[Edge], from: Option<Label>, to: Option<Label>) -> bool {
    for edge in reason {
        if Some(edge.from) == from && Some(edge.to) == to {
            return true;
        }
    }
    false
}

/// Returns whether a reason has an edge of a kind.
pub fn has(reason: &[Edge], kind: Kind) -> bool {
    for edge in reason {
        if edge.kind == kind {
            return true;
        }
    }
    false
}

/// Returns whether an edge of a reason starts at a label.
pub fn is_of(reason: &[Edge], from: Option<Label>) -> bool {
    for edge in reason {
        if Some(edge.from) == from {
            return true;
        }
    }
    false
}
