//! Reasons for what a label may do to another's objects.
use base::Edge;

/// What a label may do to another's objects if only some labels act, and the edges of one reason.
///
/// [`Policy::why_among`](crate::Policy::why_among) finds it. Of the reasons with the fewest edges it
/// is the least. If the labels are the same, the reason has no edge.
#[derive(Drop)]
pub enum Why {
    /// Threads of the label may change the other's objects.
    Full(Vec<Edge>),
    /// Threads of the label may make the other's objects smaller, but not change them otherwise.
    Take(Vec<Edge>),
    /// Threads of the label may do nothing to the other's objects.
    Nothing,
}
