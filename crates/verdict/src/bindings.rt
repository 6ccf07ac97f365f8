//! The least place where the bindings of a table break A4, which asks for runs edges.
ghost use Rattle.std.specs.Prelude.{[], ◌∷◌, ◌≡◌, Some};
ghost use Rattle.{machine.specs.Layout.bound_context, policy.specs.{Places.FindsLeast, Policy.allows}};
ghost use Rattle.verdict.specs.{Rules.a4, Verdict.{BreaksUnder, place_of}};

use crate::Denial;
use base::{Edge, Kind};
use labels::declared_label;
use machine::Binding;
use policy::Policy;
use table::Table;

/// Returns the least place where A4 is broken.
///
/// By A4 threads have runs edges to the contexts that they are bound to.
pub fn first_binding(table: &Table, policy: &Policy) -> Option<Denial>
    ensures { FindsLeast place_of (BreaksUnder table.now (allows policy.now) (a4 ∷ [])) result }
{
    for binding in table.bindings() {
        if let Some(denial) = binding_excess(table, policy, binding) {
            return Some(denial);
        }
    }
    None
}

// The place of this thread, if A4 is broken there.
fn binding_excess(table: &Table, policy: &Policy, binding: &Binding) -> Option<Denial>
    requires { bound_context table.now binding.now.thread ≡ Some binding.now.context }
    ensures { FindsLeast place_of (BreaksUnder table.now (allows policy.now) (a4 ∷ binding.now.thread.0 ∷ [])) result }
{
    let edge = Edge {
        from: declared_label(table, binding.thread)?,
        kind: Kind::Runs,
        to: declared_label(table, binding.context)?,
    };
    if policy.has(edge) {
        return None;
    }
    Some(Denial::Binding {
        thread: binding.thread,
        context: binding.context,
    })
}
