//! The search for the first kind with labels.
ghost use Rattle.std.specs.Prelude.{ℕ, ◌≡◌};
ghost use Rattle.policy.specs.Search.{FindsCell};

use base::{Kind, Label, Labels};

/// The first kind at which there are any labels, and the least of them.
pub(crate) fn first_cell<F: Fn(Kind) -> Labels>(labels_at: F) -> Option<(Kind, Label)>
    requires { F.IsAlwaysCallable labels_at }
    ensures { FindsCell (F.post labels_at) result }
{
    for kind in Kind::ALL {
        if let Some(label) = labels_at(kind).first() {
            return Some((kind, label));
        }
    }
    None
}
