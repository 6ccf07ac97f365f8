//! The graph of flows between programs.
ghost use Rattle.std.specs.Prelude.{ℕ, ◌↔◌, ◌≡◌, IfOk, true};
ghost use Rattle.{base.specs.Labels.is_in, reach.specs.Extents.limits_of, flows.specs.Ways.{FlowsDirectly, IsGraph}};

use crate::flowing::Flows;
use crate::rows::labels_are_few;
use base::{Label, Labels};
use reach::Reach;
use std::alloc::{AllocError, Global};
use std::marker::Model;

/// The flows between the labels of a table as a graph, in which sets of programs are looked for.
///
/// A program is a label that acts. An arrow is a flow by objects that no third program owns: a flow by those of a
/// third program also goes through that program itself.
#[derive(Drop)]
pub struct FlowGraph<'a> {
    pub(crate) reach: &'a Reach<'a>,
    pub(crate) rows: Vec<Labels>,
}

impl<'a> Model for FlowGraph<'a> {
    ghost use Rattle.{reach.specs.{Extents.limits_of, Reach.TableReach}, flows.specs.Ways.IsGraph};

    ghost Value = { TableReach };

    ghost view = { λ graph. graph.reach.now };

    ghost invariant = { λ graph. IsGraph (limits_of graph.reach.now) graph.rows.items };
}

impl<'a> FlowGraph<'a> {
    /// Returns the graph of the flows by the reach of a table.
    pub fn of(alloc: Global, reach: &'a Reach<'a>) -> Result<FlowGraph<'a>, AllocError>
        ensures { IfOk result (λ graph. graph ≡ reach.now) }
    {
        let flows = Flows::of(alloc, reach)?;
        let rows = arrow_rows(alloc, reach, &flows)?;
        Ok(FlowGraph { reach, rows })
    }
}

// For each label those to which an arrow leads from it.
fn arrow_rows(
    alloc: Global,
    reach: &Reach<'_>,
    flows: &Flows<'_>,
) -> Result<Vec<Labels>, AllocError>
    requires { flows.now ≡ reach.now }
    ensures { IfOk result (λ rows. IsGraph (limits_of reach.now) rows.items) }
{
    labels_are_few(reach.actors());
    let mut rows = Vec::with_capacity(alloc, Label::COUNT as usize)?;
    for number in 0..Label::COUNT {
        if let Some(from) = Label::new(number) {
            rows.push(arrows(reach, flows, from))?;
        }
    }
    Ok(rows)
}

// The labels to which an arrow leads from this one.
fn arrows(reach: &Reach<'_>, flows: &Flows<'_>, from: Label) -> Labels
    requires { flows.now ≡ reach.now }
    ensures { (y : ℕ) → (is_in result y ≡ true)
        ↔ FlowsDirectly (limits_of reach.now) from y }
{
    let others = reach.actors().difference(Labels::only(from));
    let beside = flows.next_beside(from, others);
    let changed = reach.changed_by(from);
    let shrunk = reach.shrunk_by(from);
    beside.union(changed).union(shrunk)
}
