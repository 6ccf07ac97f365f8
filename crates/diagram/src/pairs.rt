//! The drawing of who may change or take from whom, for Graphviz.
ghost use Rattle.std.specs.{List.flat_map, Prelude.{[], ◌++◌, ◌<◌, ◌∷◌, ◌≡◌, IfOk, List, OnErr, OnOk, length, string_bytes}};
ghost use Rattle.reach.specs.Extents.{limits_by};
ghost use Rattle.diagram.specs.Drawing.{AddsArrows, IsDrawing, arrow_line, label_line, pairs_of, pairs_with};
ghost use Rattle.base.specs.declared.edge.Edge.{Edge as EdgeOf};

use base::{Edge, Label, Labels};
use captext::label_name;
use policy::{Policy, Why};
use std::alloc::{AllocError, Global};
use table::Table;

/// Returns the drawing of who may change or take from whom, for Graphviz. Threads of the labels
/// `actors` make calls.
///
/// It has the labels of the table, and from each an arrow to each other label whose objects it may
/// change or make smaller, with the first edge of the reason that [`Policy::why_among`] gives. The
/// arrow is solid if the label may change them, and dashed if it may only make them smaller.
pub fn write_drawing(
    alloc: Global,
    table: &Table,
    policy: &Policy,
    actors: Labels,
) -> Result<Vec<u8>, AllocError>
    ensures { IfOk result (λ text. IsDrawing table.now (limits_by policy.now actors) text.items) }
{
    let mut text = String::from_str(alloc, "digraph authority {\n")?;
    write_labels(&mut text, table)?;
    write_arrows(alloc, &mut text, table, policy, actors)?;
    text.push_str("}\n")?;
    Ok(text.into_bytes())
}

#[tactic(auto, using(summary::proofs::OneMore::piece_more))]
fn write_labels(text: &mut String, table: &Table) -> Result<(), AllocError>
    ensures { OnOk result (string_bytes text.new ≡ string_bytes text.old ++ flat_map label_line table.now.labels) }
{
    // By a rule of tables, their labels are few.
    table.keeps_rules();
    for number in 0..table.label_count() {
        if let Some(label) = Label::new(number as u16) {
            let name = label_name(table, label);
            writeln!(text, "  \"{name}\"")?;
        }
    }
    Ok(())
}

/// Writes the arrows between all labels.
fn write_arrows(
    alloc: Global,
    text: &mut String,
    table: &Table,
    policy: &Policy,
    actors: Labels,
) -> Result<(), AllocError>
    ensures { OnOk result (AddsArrows (limits_by policy.now actors) table.now (pairs_of (length table.now.labels))
        (string_bytes text.old) (string_bytes text.new)) }
{
    table.keeps_rules();
    for number in 0..table.label_count() {
        if let Some(actor) = Label::new(number as u16) {
            write_arrows_from(alloc, text, table, policy, actors, actor)?;
        }
    }
    Ok(())
}

/// Writes the arrows from a label.
fn write_arrows_from(
    alloc: Global,
    text: &mut String,
    table: &Table,
    policy: &Policy,
    actors: Labels,
    actor: Label,
) -> Result<(), AllocError>
    ensures { OnOk result (AddsArrows (limits_by policy.now actors) table.now
        (pairs_with (length table.now.labels) actor)
        (string_bytes text.old) (string_bytes text.new)) }
{
    table.keeps_rules();
    for number in 0..table.label_count() {
        if let Some(object) = Label::new(number as u16) {
            write_arrow_of(alloc, text, table, policy, actors, actor, object)?;
        }
    }
    Ok(())
}

/// Writes the arrow from a label to another, if there is one.
fn write_arrow_of(
    alloc: Global,
    text: &mut String,
    table: &Table,
    policy: &Policy,
    actors: Labels,
    actor: Label,
    object: Label,
) -> Result<(), AllocError>
    ensures { OnOk result (AddsArrows (limits_by policy.now actors) table.now ((actor, object) ∷ [])
        (string_bytes text.old) (string_bytes text.new)) }
{
    if actor == object {
        return Ok(());
    }
    // These tests are cheaper than a search for a reason.
    let changes = policy.may_change(actors, actor, object);
    if !changes && !policy.may_shrink(actors, actor, object) {
        return Ok(());
    }
    match policy.why_among(alloc, actors, actor, object)? {
        Why::Full(edges) => Ok(write_arrow(text, table, actor, object, "", &edges)?),
        Why::Take(edges) => Ok(write_arrow(text, table, actor, object, "style=dashed, ", &edges)?),
        Why::Nothing => Ok(()),
    }
}

/// Writes an arrow of this style, with the first edge of a reason.
fn write_arrow(
    text: &mut String,
    table: &Table,
    actor: Label,
    object: Label,
    style: &str,
    reason: &[Edge],
) -> Result<(), AllocError>
    requires { 0 < length reason.now }
    ensures { OnOk result ((edge : EdgeOf) (more : List EdgeOf) → reason.now ≡ edge ∷ more → string_bytes text.new
        ≡ string_bytes text.old ++ arrow_line table.now actor object style.now edge) }
{
    let edge = reason[0];
    let actor = label_name(table, actor);
    let object = label_name(table, object);
    let from = label_name(table, edge.from);
    let kind = edge.kind;
    let to = label_name(table, edge.to);
    writeln!(
        text,
        "  \"{actor}\" -> \"{object}\" [{style}label=\"{from} {kind} {to}\"]"
    )
}
