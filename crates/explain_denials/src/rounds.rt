//! The edges of the reach of a table in rounds: first those that the table gives, and in each later round those that the sharp rules
//! require by the rounds before.
use crate::closing::MOST_EDGES;
use base::{Edge, Kind, Label, Labels, Refusal};
use explain_rules::{Grounds, View, first_grounds};
use labels::authority;
use policy::Policy;
use reach::{Reach, node_holders};
use sharp::keepers;
use std::alloc::Global;
use table::Table;

/// The edges of the reach of a table in rounds. Each round has the edges of those before it.
#[derive(Drop)]
pub(crate) struct Rounds {
    rounds: Vec<Policy>,
}

impl Rounds {
    /// Returns the rounds of a reach.
    ///
    /// # Errors
    ///
    /// 40 where memory is refused.
    pub fn of(alloc: Global, reach: &Reach<'_>) -> Result<Rounds, Refusal> {
        let table = reach.table();
        let edges = reach.policy().edges(alloc)?;
        let given = authority(alloc, table)?;
        let mut rounds = Vec::new(alloc);
        rounds.push(with(alloc, &[], &given)?)?;
        for _ in 0..MOST_EDGES {
            match round_after(alloc, table, &edges, &rounds)? {
                Some(next) => rounds.push(next)?,
                None => break,
            }
        }
        Ok(Rounds { rounds })
    }

    /// Returns by which rule, and on which grounds, an edge of the reach is required, if the table doesn't give it.
    pub fn grounds_of(&self, table: &Table, edge: Edge) -> Option<Grounds> {
        let mut before: Option<&Policy> = None;
        for round in &self.rounds {
            if round.has(edge) {
                let view = View::of(table, before?);
                return first_grounds(&view, edge);
            }
            before = Some(round);
        }
        None
    }

    /// Returns by which edge, to or from another label that keeps, a label keeps a capability for a CNode, if it
    /// doesn't hold one at boot.
    pub fn keeping_of(&self, table: &Table, label: Label) -> Option<(Edge, Label)> {
        let held = node_holders(table);
        for round in &self.rounds {
            if keepers(round, held).has(label) {
                return keeping_in(round, held, label);
            }
        }
        None
    }

    /// Returns the edges by which a thread of a label may wait without a context.
    pub fn idling_of(&self, label: Label) -> Option<[Edge; 2]> {
        for round in &self.rounds {
            if round.idlers().has(label) {
                return idling_in(round, label);
            }
        }
        None
    }
}

/// A policy with these edges.
fn with(alloc: Global, edges: &[Edge], more: &[Edge]) -> Result<Policy, Refusal> {
    let mut policy = Policy::new(alloc);
    policy.extend(edges)?;
    policy.extend(more)?;
    Ok(policy)
}

/// The round after these, if it has more edges than the last of them.
fn round_after(
    alloc: Global,
    table: &Table,
    edges: &[Edge],
    rounds: &[Policy],
) -> Result<Option<Policy>, Refusal> {
    match rounds.last() {
        Some(last) => next_round(alloc, table, edges, last),
        None => Ok(None),
    }
}

/// The round after this one, if it has more edges.
fn next_round(
    alloc: Global,
    table: &Table,
    edges: &[Edge],
    last: &Policy,
) -> Result<Option<Policy>, Refusal> {
    let required = required_by(alloc, table, edges, last)?;
    if required.is_empty() {
        return Ok(None);
    }
    let old = last.edges(alloc)?;
    Ok(Some(with(alloc, &old, &required)?))
}

/// Those of these edges that a round lacks, and that the sharp rules require by it.
fn required_by(
    alloc: Global,
    table: &Table,
    edges: &[Edge],
    last: &Policy,
) -> Result<Vec<Edge>, Refusal> {
    let view = View::of(table, last);
    let mut required = Vec::new(alloc);
    for edge in edges {
        if !last.has(*edge) && first_grounds(&view, *edge).is_some() {
            required.push(*edge)?;
        }
    }
    Ok(required)
}

/// By which edge, and which other label, a label keeps, where the labels of `held` hold a capability for a CNode at
/// boot: of the labels that keep because others do, the nearest ones come first.
fn keeping_in(policy: &Policy, held: Labels, label: Label) -> Option<(Edge, Label)> {
    let mut near = held;
    for _ in 0..Label::COUNT {
        if near.has(label) {
            return None;
        }
        if let Some(found) = keeping_beside(policy, near, label) {
            return Some(found);
        }
        let finding = policy.sources(near, &[Kind::Space]);
        let handed = policy.targets(near, &[Kind::Control]);
        near = near.union(finding).union(handed);
    }
    None
}

/// By which edge, and which of these labels, a label keeps, since these do.
fn keeping_beside(policy: &Policy, near: Labels, label: Label) -> Option<(Edge, Label)> {
    if let Some(found) = policy.row(label, Kind::Space).intersection(near).first() {
        let edge = Edge {
            from: label,
            kind: Kind::Space,
            to: found,
        };
        return Some((edge, found));
    }
    let handing = policy.sources(Labels::only(label), &[Kind::Control]);
    let from = handing.intersection(near).first()?;
    let edge = Edge {
        from,
        kind: Kind::Control,
        to: label,
    };
    Some((edge, from))
}

/// The edges by which a thread of a label may wait without a context.
fn idling_in(policy: &Policy, label: Label) -> Option<[Edge; 2]> {
    let taken = policy.targets(Labels::all(), &[Kind::Context]);
    let context = policy.row(label, Kind::Runs).intersection(taken).first()?;
    let owning = policy.sources(Labels::only(context), &[Kind::Context]);
    let owner = owning.first()?;
    Some([
        Edge {
            from: label,
            kind: Kind::Runs,
            to: context,
        },
        Edge {
            from: owner,
            kind: Kind::Context,
            to: context,
        },
    ])
}
