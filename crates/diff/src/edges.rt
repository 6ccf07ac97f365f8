//! The edges that one system has and the other lacks, where no other change shows them.
ghost use Rattle.std.specs.{List.flat_map, Prelude.{◌++◌, ◌≡◌, OnOk}};
ghost use Rattle.diff.specs.Changes.{gained_edge, is_reading, is_told, lost_edge, same_named, shows_cell, shows_edge, shows_standing};
ghost use Rattle.diff.specs.Changes.{shows_use, turned};

use crate::change::{Change, Sign, Verb, adds_standing};
use crate::names::{Named, named_in_new, named_in_old};
use crate::side::Side;
use base::{Edge, Kind};
use std::alloc::{AllocError, Global};

/// Adds the edges that only the new system has.
pub(crate) fn push_gained(
    alloc: Global,
    changes: &mut Vec<Change>,
    old: &Side<'_>,
    new: &Side<'_>,
) -> Result<(), AllocError>
    ensures { OnOk result (changes.new.items
        ≡ changes.old.items ++ flat_map (gained_edge old.now new.now) new.now.reach.policy) }
{
    let edges = new.edges(alloc)?;
    push_gained_among(changes, old, new, &edges)?;
    Ok(())
}

/// Adds the edges that only the old system has.
pub(crate) fn push_lost(
    alloc: Global,
    changes: &mut Vec<Change>,
    old: &Side<'_>,
    new: &Side<'_>,
) -> Result<(), AllocError>
    ensures { OnOk result (changes.new.items
        ≡ changes.old.items ++ flat_map (lost_edge old.now new.now) old.now.reach.policy) }
{
    let edges = old.edges(alloc)?;
    push_lost_among(changes, old, new, &edges)?;
    Ok(())
}

#[tactic(auto, using(crate::proofs::Pieces::change_more))]
fn push_gained_among(
    changes: &mut Vec<Change>,
    old: &Side<'_>,
    new: &Side<'_>,
    edges: &[Edge],
) -> Result<(), AllocError>
    ensures { OnOk result (changes.new.items ≡ changes.old.items ++ flat_map (gained_edge old.now new.now) edges.now) }
{
    for edge in edges {
        push_gained_edge(changes, old, new, edge)?;
    }
    Ok(())
}

#[tactic(auto, using(crate::proofs::Pieces::change_more))]
fn push_lost_among(
    changes: &mut Vec<Change>,
    old: &Side<'_>,
    new: &Side<'_>,
    edges: &[Edge],
) -> Result<(), AllocError>
    ensures { OnOk result (changes.new.items ≡ changes.old.items ++ flat_map (lost_edge old.now new.now) edges.now) }
{
    for edge in edges {
        push_lost_edge(changes, old, new, edge)?;
    }
    Ok(())
}

// Adds an edge of the new system, if the old one lacks it and no other change shows it.
fn push_gained_edge(
    changes: &mut Vec<Change>,
    old: &Side<'_>,
    new: &Side<'_>,
    edge: &Edge,
) -> Result<(), AllocError>
    ensures { OnOk result (changes.new.items ≡ changes.old.items ++ gained_edge old.now new.now edge.now) }
{
    let from = named_in_new(old.table(), new.table(), edge.from);
    let to = named_in_new(old.table(), new.table(), edge.to);
    if is_told(old, new, &from, edge.kind, &to) {
        changes.push(Change::Edge(Sign::Gained, from, edge.kind, to))?;
    }
    Ok(())
}

// Adds an edge of the old system, if the new one lacks it and no other change shows it.
fn push_lost_edge(
    changes: &mut Vec<Change>,
    old: &Side<'_>,
    new: &Side<'_>,
    edge: &Edge,
) -> Result<(), AllocError>
    ensures { OnOk result (changes.new.items ≡ changes.old.items ++ lost_edge old.now new.now edge.now) }
{
    let from = named_in_old(old.table(), new.table(), edge.from);
    let to = named_in_old(old.table(), new.table(), edge.to);
    if is_told(new, old, &turned(&from), edge.kind, &turned(&to)) {
        changes.push(Change::Edge(Sign::Lost, from, edge.kind, to))?;
    }
    Ok(())
}

// A label as the same two systems have it, the other way round.
fn turned(named: &Named) -> Named
    ensures { result ≡ turned named.now }
{
    Named {
        old: named.new,
        new: named.old,
    }
}

// Whether the old system lacks an edge of the new one, and no other change shows it.
fn is_told(old: &Side<'_>, new: &Side<'_>, from: &Named, kind: Kind, to: &Named) -> bool
    ensures { result ≡ is_told old.now new.now from.now kind to.now }
{
    !old.has_edge(from.old, kind, to.old) && !shows_edge(old, new, from, kind, to)
}

// Whether another change shows an edge: one by which a label reads another is shown by that alone, each other edge by all
// that is new between its labels.
fn shows_edge(old: &Side<'_>, new: &Side<'_>, from: &Named, kind: Kind, to: &Named) -> bool
    ensures { result ≡ shows_edge old.now new.now from.now kind to.now }
{
    if is_reading(kind) && !same_named(from, to) {
        return shows_use(old, new, Verb::Reads, from, to);
    }
    shows_standing(old, new, from)
        || shows_standing(old, new, to)
        || shows_cell(old, new, from, to)
        || shows_use(old, new, Verb::Changes, from, to)
        || shows_use(old, new, Verb::Takes, from, to)
}

fn is_reading(kind: Kind) -> bool
    ensures { result ≡ is_reading kind }
{
    matches!(kind, Kind::Read | Kind::Receive | Kind::Await)
}

// Whether two labels are one.
fn same_named(from: &Named, to: &Named) -> bool
    ensures { result ≡ same_named from.now to.now }
{
    match (from.new, to.new) {
        (Some(from), Some(to)) => from.number() == to.number(),
        _ => false,
    }
}

// Whether a label is new, or has a thread now.
fn shows_standing(old: &Side<'_>, new: &Side<'_>, named: &Named) -> bool
    ensures { result ≡ shows_standing old.now new.now named.now }
{
    adds_standing(old.standing(named.old), new.standing(named.new))
}

// Whether threads of one program may do more to objects of another.
fn shows_cell(old: &Side<'_>, new: &Side<'_>, from: &Named, to: &Named) -> bool
    ensures { result ≡ shows_cell old.now new.now from.now to.now }
{
    let cell = new.cell(from.new, to.new);
    cell.add_to(old.cell(from.old, to.old))
}

// Whether a program does this to a label without a thread, and didn't.
fn shows_use(old: &Side<'_>, new: &Side<'_>, verb: Verb, from: &Named, to: &Named) -> bool
    ensures { result ≡ shows_use old.now new.now verb from.now to.now }
{
    new.uses(verb, from.new, to.new) && !old.uses(verb, from.old, to.old)
}
