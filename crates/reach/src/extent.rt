//! Extents to which a label goes with another.

/// The extent to which a label goes with another: what its threads may do to the other's objects.
#[derive(Clone, Copy, PartialEq, Eq)]
pub enum Extent {
    /// Threads of the one may change objects of the other.
    Full,
    /// Each object of the other stays as it is, or shrinks.
    Take,
    /// No object of the other changes, is made or vanishes by what threads of the one do.
    Nothing,
}
