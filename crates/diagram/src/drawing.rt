//! The whole folded drawing.
ghost use Rattle.std.specs.Prelude.{◌≡◌, IfOk, string_bytes};
ghost use Rattle.{policy.specs.Policy.allows, reach.specs.Extents.limits_by, diagram.specs.Folded.{IsFoldedDrawing, rows_text}};

use crate::arrows::write_arrows;
use crate::boxes::write_boxes;
use base::{Label, Labels};
use policy::Policy;
use std::alloc::{AllocError, Global};
use summary::{Row, others, rows_of};
use table::Table;

/// What the drawing begins with.
const HEAD: &str = "\
digraph authority {
  node [shape=box]
  edge [fontsize=10]
  nodesep=0.1
  ranksep=0.4
";

/// Returns the folded drawing of who may change or take from whom where threads of the labels `actors` make
/// calls, as Graphviz reads it.
///
/// It has a box for each label with a thread in the table, in which the labels without a thread are named that
/// it alone uses. It has an arrow from each box to each other whose objects the one may change or make
/// smaller, or whose label uses a label without a thread of which that holds. An arrow is solid where objects
/// of the other may be changed, dashed where they may only be made smaller, and dotted where they may not.
/// A label uses another if it may change objects there or make them smaller, or reads from them.
pub fn write_programs(
    alloc: Global,
    table: &Table,
    policy: &Policy,
    actors: Labels,
) -> Result<Vec<u8>, AllocError>
    ensures { IfOk result (λ text. IsFoldedDrawing table.now (limits_by policy.now actors) text.items) }
{
    let rows = rows_of(alloc, table, policy, actors)?;
    let others = others(alloc, table)?;
    Ok(drawing_of(alloc, table, policy, &rows, &others)?.into_bytes())
}

fn drawing_of(
    alloc: Global,
    table: &Table,
    policy: &Policy,
    rows: &[Row],
    others: &[Label],
) -> Result<String, AllocError>
    ensures { IfOk result (λ text. string_bytes text ≡ rows_text table.now (allows policy.now) rows.now others.now) }
{
    let mut text = String::from_str(alloc, HEAD)?;
    write_boxes(alloc, &mut text, table, policy, rows, others)?;
    write_arrows(alloc, &mut text, table, policy, rows, others)?;
    text.push_str("}\n")?;
    Ok(text)
}
