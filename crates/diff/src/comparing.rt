//! The changes from one system to another: of labels, of cells, of what programs do to labels without a thread, and of roles.
ghost use Rattle.std.specs.{List.flat_map, Prelude.{[], ◌++◌, ◌≡◌, IfOk, OnOk}};
ghost use Rattle.diff.specs.Changes.{AreChanges, actor_change, cell_change, changes_among, keeper_change, role_change};
ghost use Rattle.diff.specs.Changes.{same_standing, standing_change, use_change, use_changes};

use crate::change::{Change, Role, Sign, Standing, Verb, adds_standing};
use crate::edges::{push_gained, push_lost};
use crate::names::{Named, names_of};
use crate::side::Side;
use reach::Reach;
use std::alloc::{AllocError, Global};

/// Returns the changes from one system to another, by their reaches.
///
/// They come in this order: what labels are, cells of the matrix, what programs do to labels without a thread, labels
/// that keep capabilities for CNodes, labels whose threads make calls, and edges which none of these shows. Each of
/// these has the labels of the new system in its order, and then those that only the old one has.
pub fn changes(alloc: Global, old: &Reach<'_>, new: &Reach<'_>) -> Result<Vec<Change>, AllocError>
    ensures { IfOk result (λ changes. AreChanges old.now new.now changes.items) }
{
    let old = Side::of(alloc, old)?;
    let new = Side::of(alloc, new)?;
    let names = names_of(alloc, old.table(), new.table())?;
    let mut changes = Vec::new(alloc);
    push_all(alloc, &mut changes, &old, &new, &names)?;
    Ok(changes)
}

// Adds all changes.
fn push_all(
    alloc: Global,
    changes: &mut Vec<Change>,
    old: &Side<'_>,
    new: &Side<'_>,
    names: &[Named],
) -> Result<(), AllocError>
    requires { changes.old.items ≡ [] }
    ensures { OnOk result (changes.new.items ≡ changes_among old.now new.now names.now) }
{
    push_standings(changes, old, new, names)?;
    push_cells(changes, old, new, names)?;
    push_uses(changes, old, new, names)?;
    push_keepers(changes, old, new, names)?;
    push_actors(changes, old, new, names)?;
    push_gained(alloc, changes, old, new)?;
    push_lost(alloc, changes, old, new)
}

// Adds what labels are.
#[tactic(auto, using(crate::proofs::Pieces::change_more))]
fn push_standings(
    changes: &mut Vec<Change>,
    old: &Side<'_>,
    new: &Side<'_>,
    names: &[Named],
) -> Result<(), AllocError>
    ensures { OnOk result (changes.new.items ≡ changes.old.items ++ flat_map (standing_change old.now new.now) names.now) }
{
    for named in names {
        push_standing(changes, old, new, named)?;
    }
    Ok(())
}

// Adds what a label is, if that changes.
fn push_standing(
    changes: &mut Vec<Change>,
    old: &Side<'_>,
    new: &Side<'_>,
    named: &Named,
) -> Result<(), AllocError>
    ensures { OnOk result (changes.new.items ≡ changes.old.items ++ standing_change old.now new.now named.now) }
{
    let one = old.standing(named.old);
    let other = new.standing(named.new);
    if same_standing(one, other) {
        return Ok(());
    }
    changes.push(Change::Standing(*named, one, other))?;
    Ok(())
}

// Adds the cells.
#[tactic(auto, using(crate::proofs::Pieces::change_more))]
fn push_cells(
    changes: &mut Vec<Change>,
    old: &Side<'_>,
    new: &Side<'_>,
    names: &[Named],
) -> Result<(), AllocError>
    ensures { OnOk result (changes.new.items
        ≡ changes.old.items ++ flat_map (λ from. flat_map (cell_change old.now new.now from) names.now) names.now) }
{
    for from in names {
        push_cells_of(changes, old, new, from, names)?;
    }
    Ok(())
}

// Adds the cells of the row of a label.
#[tactic(auto, using(crate::proofs::Pieces::change_more))]
fn push_cells_of(
    changes: &mut Vec<Change>,
    old: &Side<'_>,
    new: &Side<'_>,
    from: &Named,
    names: &[Named],
) -> Result<(), AllocError>
    ensures { OnOk result (changes.new.items ≡ changes.old.items ++ flat_map (cell_change old.now new.now from.now) names.now) }
{
    for to in names {
        push_cell(changes, old, new, from, to)?;
    }
    Ok(())
}

// Adds a cell, if it changes.
fn push_cell(
    changes: &mut Vec<Change>,
    old: &Side<'_>,
    new: &Side<'_>,
    from: &Named,
    to: &Named,
) -> Result<(), AllocError>
    ensures { OnOk result (changes.new.items ≡ changes.old.items ++ cell_change old.now new.now from.now to.now) }
{
    let one = old.cell(from.old, to.old);
    let other = new.cell(from.new, to.new);
    if other.is(one) {
        return Ok(());
    }
    changes.push(Change::Cell(*from, *to, one, other))?;
    Ok(())
}

// Adds what programs do to labels without a thread.
#[tactic(auto, using(crate::proofs::Pieces::change_more))]
fn push_uses(
    changes: &mut Vec<Change>,
    old: &Side<'_>,
    new: &Side<'_>,
    names: &[Named],
) -> Result<(), AllocError>
    ensures { OnOk result (changes.new.items
        ≡ changes.old.items ++ flat_map (λ from. flat_map (use_changes old.now new.now from) names.now) names.now) }
{
    for from in names {
        push_uses_of(changes, old, new, from, names)?;
    }
    Ok(())
}

// Adds what a program does to labels without a thread.
#[tactic(auto, using(crate::proofs::Pieces::change_more))]
fn push_uses_of(
    changes: &mut Vec<Change>,
    old: &Side<'_>,
    new: &Side<'_>,
    from: &Named,
    names: &[Named],
) -> Result<(), AllocError>
    ensures { OnOk result (changes.new.items ≡ changes.old.items ++ flat_map (use_changes old.now new.now from.now) names.now) }
{
    for to in names {
        push_uses_between(changes, old, new, from, to)?;
    }
    Ok(())
}

// Adds what a program does to a label without a thread.
fn push_uses_between(
    changes: &mut Vec<Change>,
    old: &Side<'_>,
    new: &Side<'_>,
    from: &Named,
    to: &Named,
) -> Result<(), AllocError>
    ensures { OnOk result (changes.new.items ≡ changes.old.items ++ use_changes old.now new.now from.now to.now) }
{
    push_use(changes, old, new, from, Verb::Changes, to)?;
    push_use(changes, old, new, from, Verb::Takes, to)?;
    push_use(changes, old, new, from, Verb::Reads, to)
}

// Adds whether a program does this to a label without a thread, if that changes.
fn push_use(
    changes: &mut Vec<Change>,
    old: &Side<'_>,
    new: &Side<'_>,
    from: &Named,
    verb: Verb,
    to: &Named,
) -> Result<(), AllocError>
    ensures { OnOk result (changes.new.items ≡ changes.old.items ++ use_change old.now new.now from.now to.now verb) }
{
    match (
        old.uses(verb, from.old, to.old),
        new.uses(verb, from.new, to.new),
    ) {
        (true, false) => changes.push(Change::Use(Sign::Lost, *from, verb, *to))?,
        (false, true) => changes.push(Change::Use(Sign::Gained, *from, verb, *to))?,
        _ => {}
    }
    Ok(())
}

// Adds the labels that keep capabilities for CNodes.
#[tactic(auto, using(crate::proofs::Pieces::change_more))]
fn push_keepers(
    changes: &mut Vec<Change>,
    old: &Side<'_>,
    new: &Side<'_>,
    names: &[Named],
) -> Result<(), AllocError>
    ensures { OnOk result (changes.new.items ≡ changes.old.items ++ flat_map (keeper_change old.now new.now) names.now) }
{
    for named in names {
        push_role(changes, old, new, Role::Keeper, named)?;
    }
    Ok(())
}

// Adds the labels whose threads make calls.
#[tactic(auto, using(crate::proofs::Pieces::change_more))]
fn push_actors(
    changes: &mut Vec<Change>,
    old: &Side<'_>,
    new: &Side<'_>,
    names: &[Named],
) -> Result<(), AllocError>
    ensures { OnOk result (changes.new.items ≡ changes.old.items ++ flat_map (actor_change old.now new.now) names.now) }
{
    for named in names {
        push_actor(changes, old, new, named)?;
    }
    Ok(())
}

// Adds whether threads of a label make calls, if that changes, and what the label is doesn't show it.
fn push_actor(
    changes: &mut Vec<Change>,
    old: &Side<'_>,
    new: &Side<'_>,
    named: &Named,
) -> Result<(), AllocError>
    ensures { OnOk result (changes.new.items ≡ changes.old.items ++ actor_change old.now new.now named.now) }
{
    let one = old.standing(named.old);
    let other = new.standing(named.new);
    match (
        old.has_role(Role::Actor, named.old),
        new.has_role(Role::Actor, named.new),
    ) {
        (true, false) if !adds_standing(other, one) => {
            changes.push(Change::Role(Sign::Lost, Role::Actor, *named))?;
        }
        (false, true) if !adds_standing(one, other) => {
            changes.push(Change::Role(Sign::Gained, Role::Actor, *named))?;
        }
        _ => {}
    }
    Ok(())
}

// Adds whether a label is this, if that changes.
fn push_role(
    changes: &mut Vec<Change>,
    old: &Side<'_>,
    new: &Side<'_>,
    role: Role,
    named: &Named,
) -> Result<(), AllocError>
    ensures { OnOk result (changes.new.items ≡ changes.old.items ++ role_change old.now new.now role named.now) }
{
    match (old.has_role(role, named.old), new.has_role(role, named.new)) {
        (true, false) => changes.push(Change::Role(Sign::Lost, role, *named))?,
        (false, true) => changes.push(Change::Role(Sign::Gained, role, *named))?,
        _ => {}
    }
    Ok(())
}

// Whether a label is the same in both systems.
fn same_standing(old: Standing, new: Standing) -> bool
    ensures { result ≡ same_standing old new }
{
    old == new
}
