//! The lines on a label's users: one for each label that may change another, or read it.
ghost use Rattle.std.specs.{List.flat_map, Prelude.{◌++◌, ◌≡◌, IfOk, OnOk, string_bytes}};
ghost use Rattle.{base.specs.Labels.members_of, policy.specs.Policy.allows, reach.specs.Extents.limits_of};
ghost use Rattle.captext.specs.PolicyText.{label_name};
ghost use Rattle.summary.specs.{Sharing.reads_of, UsersText.{AreUsers, IsChangersText, IsReadersText, change_line, extent_line, or_none}};
ghost use Rattle.summary.specs.UsersText.{read_line};

use base::{Edge, Kind, Label, Labels};
use captext::label_name;
use policy::Policy;
use reach::{Extent, Reach};
use std::alloc::{AllocError, Global};
use table::Table;

/// A label, and how far it goes with another.
#[derive(Clone, Copy)]
struct User {
    label: Label,
    extent: Extent,
}

/// Returns a line for each other label that may change objects of a label, or take something away from them: its name,
/// and `full` or `take`. The lines are in the order of labels. If there is none, the line is `none`.
pub fn changers_text(alloc: Global, reach: &Reach<'_>, object: Label) -> Result<Vec<u8>, AllocError>
    ensures { IfOk result (λ text. IsChangersText reach.now object text.items) }
{
    let labels = members(alloc, reach.table().labels())?;
    let users = users(alloc, reach, &labels, object)?;
    let mut lines = String::new(alloc);
    write_changers(&mut lines, reach.table(), &users, object)?;
    Ok(or_none(alloc, lines)?.into_bytes())
}

/// Returns a line for each other label that may read words, messages or signals of a label: its name, and `reads`.
/// The lines are in the order of labels. If there is none, the line is `none`.
pub fn readers_text(alloc: Global, reach: &Reach<'_>, object: Label) -> Result<Vec<u8>, AllocError>
    ensures { IfOk result (λ text. IsReadersText reach.now object text.items) }
{
    let labels = members(alloc, reach.table().labels())?;
    let mut lines = String::new(alloc);
    write_readers(&mut lines, reach.table(), reach.policy(), &labels, object)?;
    Ok(or_none(alloc, lines)?.into_bytes())
}

// The labels of a set, rising.
fn members(alloc: Global, set: Labels) -> Result<Vec<Label>, AllocError>
    ensures { IfOk result (λ list. list.items ≡ members_of set) }
{
    set.iter().collect(alloc)
}

// How far each of these labels goes with another.
fn users(
    alloc: Global,
    reach: &Reach<'_>,
    labels: &[Label],
    object: Label,
) -> Result<Vec<User>, AllocError>
    ensures { IfOk result (λ users. AreUsers (limits_of reach.now) labels.now object users.items) }
{
    let mut users = Vec::new(alloc);
    for label in labels {
        users.push(User {
            label: *label,
            extent: reach.extent(*label, object),
        })?;
    }
    Ok(users)
}

// Writes the lines of the labels that may change another.
#[tactic(auto, using(crate::proofs::OneMore::piece_more))]
fn write_changers(
    text: &mut String,
    table: &Table,
    users: &[User],
    object: Label,
) -> Result<(), AllocError>
    ensures { OnOk result (string_bytes text.new
        ≡ string_bytes text.old ++ flat_map (change_line table.now object) users.now) }
{
    for user in users {
        write_change(text, table, user, object)?;
    }
    Ok(())
}

// Writes the line of a label, if it may change another.
fn write_change(
    text: &mut String,
    table: &Table,
    user: &User,
    object: Label,
) -> Result<(), AllocError>
    ensures { OnOk result (string_bytes text.new ≡ string_bytes text.old ++ change_line table.now object user.now) }
{
    if user.label == object {
        Ok(())
    } else {
        write_extent(text, table, user.label, user.extent)
    }
}

// Writes the line of a label that goes this far.
fn write_extent(
    text: &mut String,
    table: &Table,
    label: Label,
    extent: Extent,
) -> Result<(), AllocError>
    ensures { OnOk result (string_bytes text.new ≡ string_bytes text.old ++ extent_line table.now label extent) }
{
    match extent {
        Extent::Full => write_line(text, table, label, " full\n"),
        Extent::Take => write_line(text, table, label, " take\n"),
        Extent::Nothing => Ok(()),
    }
}

// Writes the lines of the labels that may read another.
#[tactic(auto, using(crate::proofs::OneMore::piece_more))]
fn write_readers(
    text: &mut String,
    table: &Table,
    policy: &Policy,
    labels: &[Label],
    object: Label,
) -> Result<(), AllocError>
    ensures { OnOk result (string_bytes text.new
        ≡ string_bytes text.old ++ flat_map (read_line table.now (allows policy.now) object) labels.now) }
{
    for label in labels {
        write_read(text, table, policy, *label, object)?;
    }
    Ok(())
}

// Writes the line of a label, if it may read another.
fn write_read(
    text: &mut String,
    table: &Table,
    policy: &Policy,
    label: Label,
    object: Label,
) -> Result<(), AllocError>
    ensures { OnOk result (string_bytes text.new
        ≡ string_bytes text.old ++ read_line table.now (allows policy.now) object label) }
{
    if label == object {
        Ok(())
    } else if reads(policy, label, object) {
        write_line(text, table, label, " reads\n")
    } else {
        Ok(())
    }
}

// Whether a policy lets a label read another.
fn reads(policy: &Policy, from: Label, to: Label) -> bool
    ensures { result ≡ reads_of (allows policy.now) from to }
{
    has(policy, from, Kind::Read, to)
        || has(policy, from, Kind::Receive, to)
        || has(policy, from, Kind::Await, to)
}

// Whether a policy has an edge.
fn has(policy: &Policy, from: Label, kind: Kind, to: Label) -> bool
    ensures { result ≡ allows policy.now from kind to }
{
    policy.has(Edge { from, kind, to })
}

// Writes the name of a label and the end of its line.
fn write_line(text: &mut String, table: &Table, label: Label, end: &str) -> Result<(), AllocError>
    ensures { OnOk result (string_bytes text.new ≡ string_bytes text.old ++ (label_name table.now label ++ end.now)) }
{
    text.push_str(label_name(table, label))?;
    text.push_str(end)
}

// Lines, or the line `none`, if there are none.
fn or_none(alloc: Global, lines: String) -> Result<String, AllocError>
    ensures { IfOk result (λ text. string_bytes text ≡ or_none (string_bytes lines)) }
{
    if lines.is_empty() {
        return String::from_str(alloc, "none\n");
    }
    Ok(lines)
}
