//! The claims that don't hold of a table, and why.
ghost use Rattle.std.specs.{List.Contains, Prelude.{[], ℕ, ◌≡◌, IfNone, IfOk, IfSome, Some}};
ghost use Rattle.{machine.specs.Layout.Layout, table.specs.Names.AreLabelsOf, policy.specs.Policy.allows};
ghost use Rattle.{reach.specs.Extents.{Limits, limits_of}, flows.specs.Flowing.{IsClosedOff, FlowLeads}};
ghost use Rattle.noninterference.specs.Fixed.{IsFixed};
ghost use Rattle.claims.specs.{declared.claim.Claim.Claim as ClaimOf, Claims.is_one_of, Holding.{AreBroken, ClaimFails, FailsOnEdge}};
ghost use Rattle.claims.specs.{Holding.{FailsOnPair, Holds, HoldsOnEdges, HoldsOnPairs, ClaimIsKept}, Learning.IsKeptInCalls, Rows.AreRowsByLabel};
ghost use Rattle.claims.specs.declared.lines.TheConstants.ClaimLines as ClaimLines;

use crate::breaches::{Breach, first_breach};
use crate::claim::{Claim, LabelList};
use crate::edges::first_edge;
use crate::lines::ClaimLines;
use crate::rows::Rows;
use base::{Edge, Label, Labels};
use flows::Flows;
use noninterference::{others_act_through_filters, others_make_no_difference};
use policy::Policy;
use reach::Reach;
use std::alloc::{AllocError, Global};

/// Why a claim doesn't hold.
#[derive(Clone, Copy)]
pub enum Failure {
    /// The first pair of labels of which the one has more authority on the other than `none`, `take`, `only`
    /// or `within` leaves it.
    Pair(Breach),
    /// A chain of flows leads from the one label of `apart` or `through` to the other, beside all filters.
    Chain,
    /// The first edge of the reach that `readers` or `without` excludes.
    Edge(Edge),
}

/// A claim that doesn't hold.
#[derive(Clone, Copy)]
pub struct Broken {
    /// The number of its line in its text.
    pub line: usize,
    pub failure: Failure,
}

/// Returns which of the claims of a text don't hold of a table with this reach, in the order of their lines.
///
/// What the others claim is kept in every run.
pub fn all_broken(
    alloc: Global,
    reach: &Reach<'_>,
    lines: &ClaimLines,
) -> Result<Vec<Broken>, AllocError>
    ensures broken { IfOk result (λ broken.
        AreBroken reach.now.table (limits_of reach.now) ClaimLines.FIRST lines.now broken.items) }

    // In every run from the table's boot state, `none A B`: no step of a thread of A changes an object of B; `take A B`: nor other than by
    // shrinking it; `only B A`: no step of a thread of another label does; `within A B`: no step of a thread of A changes an object of
    // another label; `readers B A`: no state gives another label authority to read, receive or await on B.
    // `through A B F ..`, and `apart A B` without an F: there is a set of labels with B and without A and each F. Threads of labels
    // outside it, but for each F, never change an object of a label in it, or one that a label in it sees, but for objects of each F.
    // `without A KIND B`: no state gives A this authority on B.
    ensures kept { (claim : ClaimOf) → Holds reach.now.table (limits_of reach.now) claim
        → ClaimIsKept reach.now.table (limits_of reach.now) claim }
    ensures all_kept { IfOk result (λ broken. broken.items ≡ []
        → (claim : ClaimOf) → Contains lines.now (Some claim) → ClaimIsKept reach.now.table (limits_of reach.now) claim) }

    // In a fixed system `through A B F ..` and `apart A B` also bound what calls return to threads of the set that decides the claim.
    // `apart`: each event of such a thread has the same outcome in two runs from the boot state whose scripts differ, position by
    // position, only in events of threads of other labels. `through`: it does if what each F shows to the set is alike in both runs at
    // each position.
    ensures calls { IsFixed reach.now.table → (claim : ClaimOf) → Holds reach.now.table (limits_of reach.now) claim
        → IsKeptInCalls reach.now.table (limits_of reach.now) claim }
    ensures all_calls { IfOk result (λ broken. IsFixed reach.now.table → broken.items ≡ []
        → (claim : ClaimOf) → Contains lines.now (Some claim) → IsKeptInCalls reach.now.table (limits_of reach.now) claim) }
{
    reach.bounds_runs();
    others_make_no_difference();
    others_act_through_filters();
    let broken = broken_by(alloc, reach, lines.as_slice())?;
    Ok(broken)
}

/// Which of the claims don't hold by the reach.
fn broken_by(
    alloc: Global,
    reach: &Reach<'_>,
    lines: &[Option<Claim>],
) -> Result<Vec<Broken>, AllocError>
    ensures { IfOk result (λ broken.
        AreBroken reach.now.table (limits_of reach.now) ClaimLines.FIRST lines.now broken.items) }
{
    let rows = Rows::of(alloc, reach)?;
    let flows = Flows::of(alloc, reach)?;
    let labels = reach.table().labels();
    let mut broken = Vec::new(alloc);
    for (index, entry) in lines.iter().enumerate() {
        if let Some(claim) = entry {
            if let Some(failure) = failure_of(reach, &rows, &flows, labels, claim) {
                broken.push(Broken {
                    line: ClaimLines::FIRST + index,
                    failure,
                })?;
            }
        }
    }
    Ok(broken)
}

/// Why a claim on pairs doesn't hold, if it doesn't.
fn pair_failure(rows: &Rows, labels: Labels, claim: &Claim) -> Option<Failure>
    ensures some { IfSome result (λ told. (t : Layout) (limits : Limits) → AreLabelsOf t labels → AreRowsByLabel limits rows.now
        → FailsOnPair t limits claim.now told) }
    ensures none { IfNone result ((t : Layout) (limits : Limits) → AreLabelsOf t labels → AreRowsByLabel limits rows.now
        → HoldsOnPairs t limits claim.now) }
{
    match first_breach(rows, labels, claim) {
        Some(breach) => Some(Failure::Pair(breach)),
        None => None,
    }
}

/// Why a claim that excludes edges doesn't hold, if it doesn't.
fn edge_failure(policy: &Policy, labels: Labels, claim: &Claim) -> Option<Failure>
    ensures some { IfSome result (λ told. (t : Layout) → AreLabelsOf t labels
        → FailsOnEdge t (allows policy.now) claim.now told) }
    ensures none { IfNone result ((t : Layout) → AreLabelsOf t labels
        → HoldsOnEdges t (allows policy.now) claim.now) }
{
    match first_edge(policy, labels, claim) {
        Some(edge) => Some(Failure::Edge(edge)),
        None => None,
    }
}

/// Why a claim that keeps labels apart, but for filters, doesn't hold, if it doesn't.
fn through_failure(
    flows: &Flows<'_>,
    from: Label,
    to: Label,
    filters: &LabelList,
) -> Option<Failure>
    ensures some { IfSome result (λ told. (told ≡ Failure.Chain)
        × FlowLeads (limits_of flows.now) (is_one_of filters.now) from to) }
    ensures none { IfNone result (IsClosedOff (limits_of flows.now) (is_one_of filters.now) from to) }
{
    if flows.goes_through(from, to, filters.set()) {
        return None;
    }
    Some(Failure::Chain)
}

/// Why a claim doesn't hold, if it doesn't.
fn failure_of(
    reach: &Reach<'_>,
    rows: &Rows,
    flows: &Flows<'_>,
    labels: Labels,
    claim: &Claim,
) -> Option<Failure>
    requires flows { flows.now ≡ reach.now }
    requires labels { AreLabelsOf reach.now.table labels }
    requires rows { AreRowsByLabel (limits_of reach.now) rows.now }
    ensures some { IfSome result (ClaimFails reach.now.table (limits_of reach.now) claim.now) }
    ensures none { IfNone result (Holds reach.now.table (limits_of reach.now) claim.now) }
{
    match claim {
        Claim::AtMost(_, _, _) => pair_failure(rows, labels, claim),
        Claim::Only(_, _) => pair_failure(rows, labels, claim),
        Claim::Within(_, _) => pair_failure(rows, labels, claim),
        Claim::Readers(_, _) => edge_failure(reach.policy(), labels, claim),
        Claim::Through(from, to, filters) => through_failure(flows, *from, *to, filters),
        Claim::Without(_, _, _) => edge_failure(reach.policy(), labels, claim),
    }
}
