//! The lines on the changes from one system to another.
ghost use Rattle.std.specs.{List.{flat_map, list_any}, Prelude.{◌++◌, ◌≡◌, IfOk, OnOk, string_bytes}};
ghost use Rattle.summary.specs.Padding.{given};
ghost use Rattle.diff.specs.Changes.{adds, sign_of_marks, sign_of_standing};
ghost use Rattle.diff.specs.Text.{cell_line, cell_text, change_line, change_text, changes_text, extent_text, marks_text, standing_line};

use crate::change::{Change, Marks, Sign, Standing, sign_of_marks, sign_of_standing};
use crate::names::Named;
use std::alloc::{AllocError, Global};
use table::Table;

/// Returns whether any change adds authority.
pub fn adds_authority(changes: &[Change]) -> bool
    ensures { result ≡ list_any adds changes.now }
{
    changes.iter().any(|change| change.adds())
}

/// Returns the text on the changes from one system to another: a line for each.
pub fn changes_text(
    alloc: Global,
    old: &Table,
    new: &Table,
    changes: &[Change],
) -> Result<String, AllocError>
    ensures { IfOk result (λ text. string_bytes text ≡ changes_text old.now new.now changes.now) }
{
    let mut text = String::new(alloc);
    write_changes(&mut text, old, new, changes)?;
    Ok(text)
}

#[tactic(auto, using(summary::proofs::OneMore::piece_more))]
fn write_changes(
    text: &mut String,
    old: &Table,
    new: &Table,
    changes: &[Change],
) -> Result<(), AllocError>
    ensures { OnOk result (string_bytes text.new ≡ string_bytes text.old ++ changes_text old.now new.now changes.now) }
{
    for change in changes {
        write_line(text, old, new, change)?;
    }
    Ok(())
}

// Writes the line of a change.
fn write_line(
    text: &mut String,
    old: &Table,
    new: &Table,
    change: &Change,
) -> Result<(), AllocError>
    ensures { OnOk result (string_bytes text.new ≡ string_bytes text.old ++ change_line old.now new.now change.now) }
{
    text.push_str(change.sign().as_str())?;
    write_change(text, old, new, change)?;
    text.push_str("\n")
}

// Writes what a line says behind its sign.
fn write_change(
    text: &mut String,
    old: &Table,
    new: &Table,
    change: &Change,
) -> Result<(), AllocError>
    ensures { OnOk result (string_bytes text.new ≡ string_bytes text.old ++ change_text old.now new.now change.now) }
{
    match change {
        Change::Standing(named, one, other) => write_standing(text, old, new, named, *one, *other),
        Change::Cell(from, to, one, other) => write_cell(text, old, new, from, to, *one, *other),
        Change::Use(_, from, verb, to) => {
            let (from, verb, to) = (from.name(old, new), verb.as_str(), to.name(old, new));
            write!(text, " {from} {verb} {to}")
        }
        Change::Role(_, role, named) => {
            let (role, name) = (role.as_str(), named.name(old, new));
            write!(text, " {role} {name}")
        }
        Change::Edge(_, from, kind, to) => {
            let (from, kind, to) = (from.name(old, new), kind.name(), to.name(old, new));
            write!(text, " edge {from} {kind} {to}")
        }
    }
}

// Writes what a label is.
fn write_standing(
    text: &mut String,
    old: &Table,
    new: &Table,
    named: &Named,
    one: Standing,
    other: Standing,
) -> Result<(), AllocError>
    ensures { OnOk result (string_bytes text.new
        ≡ string_bytes text.old ++ standing_line old.now new.now (sign_of_standing one other) named.now one other) }
{
    let name = named.name(old, new);
    let (was, is) = (one.as_str(), other.as_str());
    match sign_of_standing(one, other) {
        Sign::Gained => write!(text, " {is} {name}"),
        Sign::Lost => write!(text, " {was} {name}"),
        Sign::Differs => write!(text, " {name} {was} {is}"),
    }
}

// Writes a cell.
fn write_cell(
    text: &mut String,
    old: &Table,
    new: &Table,
    from: &Named,
    to: &Named,
    one: Marks,
    other: Marks,
) -> Result<(), AllocError>
    ensures { OnOk result (string_bytes text.new
        ≡ string_bytes text.old ++ cell_line old.now new.now (sign_of_marks one other) from.now to.now one other) }
{
    let (from, to) = (from.name(old, new), to.name(old, new));
    write!(text, " {from} {to} ")?;
    match sign_of_marks(one, other) {
        Sign::Gained => write_marks(text, other),
        Sign::Lost => write_marks(text, one),
        Sign::Differs => {
            write_marks(text, one)?;
            text.push_str(" ")?;
            write_marks(text, other)
        }
    }
}

/// Writes the marks of a cell, or a dot if there is none.
pub fn write_cell_marks(text: &mut String, marks: Marks) -> Result<(), AllocError>
    ensures { OnOk result (string_bytes text.new ≡ string_bytes text.old ++ cell_text marks) }
{
    if marks.any() {
        return write_marks(text, marks);
    }
    text.push_str(".")
}

// Writes the marks of a cell.
fn write_marks(text: &mut String, marks: Marks) -> Result<(), AllocError>
    ensures { OnOk result (string_bytes text.new ≡ string_bytes text.old ++ marks_text marks) }
{
    write_extent(text, marks)?;
    push_if(text, marks.shares, "m")
}

fn write_extent(text: &mut String, marks: Marks) -> Result<(), AllocError>
    ensures { OnOk result (string_bytes text.new ≡ string_bytes text.old ++ extent_text marks) }
{
    if !marks.changes {
        return push_if(text, marks.takes, "t");
    }
    push_if(text, marks.calls, "C")?;
    push_if(text, marks.answers, "A")?;
    push_if(text, marks.signals, "S")?;
    push_if(text, marks.others, "F")
}

fn push_if(text: &mut String, there: bool, piece: &str) -> Result<(), AllocError>
    ensures { OnOk result (string_bytes text.new ≡ string_bytes text.old ++ given there piece.now) }
{
    if there {
        text.push_str(piece)?;
    }
    Ok(())
}
