//! The lines of sets of programs, and of flows.
ghost use Rattle.std.specs.{List.flat_map, Prelude.{◌++◌, ◌≡◌, IfOk, OnOk, string_bytes}};
ghost use Rattle.{base.specs.Labels.members_of, summary.specs.FlowText.{link_line, set_line, smallest_text, spaced}};

use base::{Label, Labels};
use captext::label_name;
use flows::{Link, Smallest};
use std::alloc::{AllocError, Global};
use table::Table;

/// Writes the lines on the smallest sets.
pub(crate) fn write_smallest(
    alloc: Global,
    text: &mut String,
    table: &Table,
    smallest: &Smallest,
) -> Result<(), AllocError>
    ensures { OnOk result (string_bytes text.new ≡ string_bytes text.old ++ smallest_text table.now smallest.now) }
{
    match smallest {
        Smallest::Direct => text.push_str("direct\n"),
        Smallest::Larger => text.push_str("more than 5\n"),
        Smallest::Fewest(sets) => {
            write_sets(alloc, text, table, &sets.sets)?;
            if sets.all {
                return Ok(());
            }
            text.push_str("and more\n")
        }
    }
}

// Writes the lines of sets of programs.
fn write_sets(
    alloc: Global,
    text: &mut String,
    table: &Table,
    sets: &[Labels],
) -> Result<(), AllocError>
    ensures { OnOk result (string_bytes text.new ≡ string_bytes text.old ++ flat_map (set_line table.now) sets.now) }
{
    for set in sets {
        write_set(alloc, text, table, *set)?;
    }
    Ok(())
}

// Writes the line of a set of programs.
fn write_set(alloc: Global, text: &mut String, table: &Table, set: Labels) -> Result<(), AllocError>
    ensures { OnOk result (string_bytes text.new ≡ string_bytes text.old ++ set_line table.now set) }
{
    let members = members(alloc, set)?;
    text.push_str("through")?;
    write_names(text, table, &members)?;
    text.push_str("\n")
}

/// Returns the labels of a set, rising.
pub(crate) fn members(alloc: Global, set: Labels) -> Result<Vec<Label>, AllocError>
    ensures { IfOk result (λ list. list.items ≡ members_of set) }
{
    set.iter().collect(alloc)
}

// Writes the names of labels, each behind a space.
fn write_names(text: &mut String, table: &Table, labels: &[Label]) -> Result<(), AllocError>
    ensures { OnOk result (string_bytes text.new ≡ string_bytes text.old ++ flat_map (spaced table.now) labels.now) }
{
    for label in labels {
        let name = label_name(table, *label);
        write!(text, " {name}")?;
    }
    Ok(())
}

/// Writes the lines of flows.
pub(crate) fn write_links(
    text: &mut String,
    table: &Table,
    links: &[Link],
) -> Result<(), AllocError>
    ensures { OnOk result (string_bytes text.new ≡ string_bytes text.old ++ flat_map (link_line table.now) links.now) }
{
    for link in links {
        write_link(text, table, link)?;
    }
    Ok(())
}

// Writes the line of a flow.
fn write_link(text: &mut String, table: &Table, link: &Link) -> Result<(), AllocError>
    ensures { OnOk result (string_bytes text.new ≡ string_bytes text.old ++ link_line table.now link.now) }
{
    let from = label_name(table, link.from);
    let object = label_name(table, link.object);
    let to = label_name(table, link.to);
    writeln!(text, "link {from} {object} {to}")
}
