//! The edge that a denial asks for.
ghost use Rattle.std.specs.Prelude.{◌≡◌, Some, false};
ghost use Rattle.{base.specs.declared.edge.Edge.Edge as EdgeOf, machine.specs.Layout.Layout, policy.specs.Domain.EdgeTest};
ghost use Rattle.verdict.specs.{declared.denial.Denial.Denial as DenialOf, Rules.joined, Verdict.{IsLeastBroken, edge_asked}};

use base::{Edge, Kind, Label};
use labels::declared_label;
use table::Table;
use verdict::Denial;

/// Returns the edge that a denial asks for, if one edge would mend it.
///
/// P1 doesn't tell which of two labels lacks the edge, and no edge mends a certificate.
pub fn asked_edge(table: &Table, denial: &Denial) -> Option<Edge>
    ensures { result ≡ edge_asked table.now denial.now }
{
    match *denial {
        Denial::Policy(broken) => broken.edge(),
        Denial::Sharp(broken) => Some(broken.edge()),
        Denial::Capability { slot, kind, label } => {
            joined(declared_label(table, slot.holder), kind, Some(label))
        }
        Denial::Root { slot, label } => joined(
            declared_label(table, slot.holder),
            Kind::Space,
            Some(label),
        ),
        Denial::Pair { child, parent } => joined(
            declared_label(table, parent.holder),
            Kind::Derive,
            declared_label(table, child.holder),
        ),
        Denial::Binding { thread, context } => joined(
            declared_label(table, thread),
            Kind::Runs,
            declared_label(table, context),
        ),
        Denial::Holding { reply, thread } => joined(
            declared_label(table, reply),
            Kind::Holds,
            declared_label(table, thread),
        ),
        Denial::Recorded {
            thread,
            kind,
            label,
        } => joined(declared_label(table, thread), kind, Some(label)),
        Denial::Certificate { .. } => None,
    }
}

// The edge between two labels, where there are both.
fn joined(from: Option<Label>, kind: Kind, to: Option<Label>) -> Option<Edge>
    ensures { result ≡ joined from kind to }
{
    Some(Edge {
        from: from?,
        kind,
        to: to?,
    })
}

/// Proves that the edge that the verdict's denial asks for is one that the policy lacks.
pub fn an_asked_edge_is_missing()
    ensures { (t : Layout) (allowed : EdgeTest) (denied : DenialOf) (edge : EdgeOf)
        → IsLeastBroken t allowed denied
        → edge_asked t denied ≡ Some edge
        → allowed edge.from edge.kind edge.to ≡ false }
{}
