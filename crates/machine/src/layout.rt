//! The items that a capability table declares.
ghost use Rattle.std.specs.Prelude.{◌≡◌, ◌≤◌};
ghost use Rattle.base.specs.declared.label.TheConstants.Label as LabelLimits;
ghost use Rattle.machine.specs.Layout.{most_labels};

use crate::{Cap, Object};
use base::{Label, ObjId, SlotRef};

/// The version of a capability table, which its text begins with. The second has more labels.
#[derive(Clone, Copy, PartialEq, Eq)]
pub enum Version {
    One,
    Two,
}

impl Version {
    /// Returns the number of labels that a table of this version may have.
    pub fn most_labels(self) -> usize
        ensures most { result ≡ most_labels self }
        ensures limit { result ≤ LabelLimits.COUNT }
    {
        match self {
            Version::One => 64,
            Version::Two => usize::from(Label::COUNT),
        }
    }
}

/// An object that a capability table declares, as it is at boot before threads and contexts are bound.
#[derive(Clone, Copy, PartialEq, Eq)]
pub struct Initial {
    pub label: Label,
    pub object: Object,
}

/// A slot that a capability table fills.
#[derive(Clone, Copy, PartialEq, Eq)]
pub struct Filled {
    pub slot: SlotRef,
    pub cap: Cap,
}

/// A pair of the derivation tree: the capability in `child` was derived from that in `parent`.
#[derive(Clone, Copy, PartialEq, Eq)]
pub struct Pair {
    pub parent: SlotRef,
    pub child: SlotRef,
}

/// A thread and the scheduling context that it runs on.
#[derive(Clone, Copy, PartialEq, Eq)]
pub struct Binding {
    pub thread: ObjId,
    pub context: ObjId,
}
