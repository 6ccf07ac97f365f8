//! Sets of rules by which a policy is judged.

/// The rules by which a policy is judged, beside A1 to A4.
#[derive(Clone, Copy, PartialEq, Eq)]
pub enum Rules {
    /// P1 to P8: the policy has to be closed ('seL4 Enforces Integrity', section 3).
    Closed,
    /// S1 to S8: the policy has to be sharply closed, with the labels as keepers that may keep
    /// capabilities for CNodes. Each closed policy is.
    Sharp,
}
