//! An edge of authority between two labels.
use crate::{Kind, Label};

/// An edge of authority: objects of the label `from` may use objects of the label `to` in the way that `kind` names.
///
/// Edges are ordered by `from`, then `kind`, then `to`.
#[derive(Clone, Copy, PartialEq, Eq, PartialOrd, Ord, Hash)]
pub struct Edge {
    pub from: Label,
    pub kind: Kind,
    pub to: Label,
}
