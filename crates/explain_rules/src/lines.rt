//! The line of a file that an edge of a policy has, and the line of the place that a denial names.
use crate::sheet::Sheet;
use base::{Edge, Refusal};
use policy::Policy;
use std::alloc::Global;
use verdict::Denial;

/// Returns the line of an edge in a policy's text, from 1. `None` says that the policy lacks the edge.
///
/// # Errors
///
/// 40 where memory is refused.
pub fn line_of_edge(alloc: Global, policy: &Policy, edge: Edge) -> Result<Option<usize>, Refusal> {
    let edges = policy.edges(alloc)?;
    let place = edges.iter().position(|other| *other == edge);
    // The header is line 1.
    Ok(place.map(|place| place.saturating_add(2)))
}

/// Returns the line of the place that a denial by A1 to A4 names, from 1.
pub fn line_of_place(sheet: Sheet<'_>, denial: &Denial) -> Option<usize> {
    match *denial {
        Denial::Capability { slot, .. } | Denial::Root { slot, .. } => sheet.line_of_slot(slot),
        Denial::Pair { child, .. } => sheet.line_of_child(child),
        Denial::Binding { thread, .. } => sheet.line_of_binding(thread),
        _ => None,
    }
}
