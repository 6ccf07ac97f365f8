//! Flows between labels: to whom what a label does may come, and through whom.
ghost use Rattle.std.specs.Prelude.{ℕ, ◌↔◌, ◌≡◌, IfOk, IsTrue, false, true};
ghost use Rattle.{base.specs.Labels.is_in, reach.specs.Extents.limits_of};
ghost use Rattle.flows.specs.Flowing.{FlowsBeside, FlowsBy, FlowsTo, GoesOn, GoesThrough, IsClosedOff, IsShielded, FlowLeads, NeverDisturbs};

use crate::meeting::meeting;
use crate::rows::{affected_rows, labels_are_few, needed_rows};
use base::{Label, Labels};
use reach::{Reach, runs_keep_labels_apart};
use std::alloc::{AllocError, Global};
use std::marker::Model;

/// The flows between the labels of a table, by its reach.
///
/// What a label does flows to another if its threads may change or shrink an object that the other sees, or one
/// of the other's own. So it also flows to a label that doesn't act, as one of memory, and no further.
#[derive(Drop)]
pub struct Flows<'a> {
    reach: &'a Reach<'a>,
    affected: Vec<Labels>,
    needed: Vec<Labels>,
}

impl<'a> Model for Flows<'a> {
    ghost use Rattle.reach.specs.{Extents.limits_of, Reach.TableReach};
    ghost use Rattle.flows.specs.Rows.{AreFlowRows};

    ghost Value = { TableReach };

    ghost view = { λ flows. flows.reach.now };

    ghost invariant = { λ flows. AreFlowRows (limits_of flows.reach.now) flows.affected.items flows.needed.items };
}

impl<'a> Flows<'a> {
    /// Returns the flows by the reach of a table.
    pub fn of(alloc: Global, reach: &'a Reach<'a>) -> Result<Flows<'a>, AllocError>
        ensures { IfOk result (λ flows. flows ≡ reach.now) }
    {
        let affected = affected_rows(alloc, reach)?;
        let needed = needed_rows(alloc, reach)?;
        Ok(Flows {
            reach,
            affected,
            needed,
        })
    }

    /// Returns the labels to which what this one does may come at once.
    pub fn next(&self, from: Label) -> Labels
        ensures { (y : ℕ) → (is_in result y ≡ true) ↔ FlowsTo (limits_of self.now) from y }
    {
        self.next_beside(from, Labels::none())
    }

    /// Returns the labels to which what this one does may come at once, other than by objects of filters.
    pub fn next_beside(&self, from: Label, filters: Labels) -> Labels
        ensures { (y : ℕ) → (is_in result y ≡ true) ↔ FlowsBeside (limits_of self.now) (is_in filters) from y }
    {
        labels_are_few(self.reach.actors());
        let affected = self.affected[usize::from(from.number())];
        labels_are_few(affected);
        meeting(&self.needed, affected.difference(filters))
    }

    /// Returns the labels that do what may come to this one at once, other than by objects of filters.
    pub fn previous_beside(&self, to: Label, filters: Labels) -> Labels
        ensures { (x : ℕ) → (is_in result x ≡ true) ↔ FlowsBeside (limits_of self.now) (is_in filters) x to }
    {
        labels_are_few(self.reach.actors());
        let needed = self.needed[usize::from(to.number())];
        meeting(&self.affected, needed.difference(filters))
    }

    /// Returns the labels, but for filters, by whose objects what the one label does may come to the other.
    pub(crate) fn objects_between(&self, from: Label, to: Label, filters: Labels) -> Labels
        ensures { (l : ℕ) → (is_in result l ≡ true)
            ↔ (FlowsBy (limits_of self.now) from l to × (is_in filters l ≡ false)) }
    {
        let affected = self.affected[usize::from(from.number())];
        let needed = self.needed[usize::from(to.number())];
        affected.intersection(needed).difference(filters)
    }

    /// Returns the labels from which a chain of flows leads to this one, and the label itself.
    ///
    /// No label between the ends of the chain is a filter, and no flow of it is by an object of a filter.
    /// The filters among them are those through which something comes. In every run, threads of other
    /// labels never change that on which the label and those that lead to it depend, but for objects of filters.
    pub fn leading_to(&self, to: Label, filters: Labels) -> Labels
        ensures leads { (l : ℕ) → (is_in result l ≡ true) ↔ FlowLeads (limits_of self.now) (is_in filters) l to }
        ensures kept { (x y : ℕ) → is_in result x ≡ false → is_in result y ≡ true → GoesOn (is_in filters) to y
            → NeverDisturbs self.now.table (limits_of self.now) (is_in filters) x y }
    {
        runs_keep_labels_apart();
        self.reach.bounds_runs();
        self.sources_of(to, filters)
    }

    // The labels from which a chain of flows leads to this one, and the label itself.
    fn sources_of(&self, to: Label, filters: Labels) -> Labels
        ensures { (l : ℕ) → (is_in result l ≡ true) ↔ FlowLeads (limits_of self.now) (is_in filters) l to }
    {
        // `leading` has all labels that flow to those of `done`, unless a chain starts with them.
        let mut done = filters.difference(Labels::only(to));
        let mut leading = Labels::only(to);
        while let Some(label) = leading.difference(done).first() {
            // A label's number is below `Label::COUNT`.
            label.number();
            done = done.union(Labels::only(label));
            leading = leading.union(self.previous_beside(label, filters));
        }
        leading
    }

    /// Returns whether each chain of flows from one label to another goes through filters.
    ///
    /// It then passes a filter, or uses an object of one.
    pub fn goes_through(&self, from: Label, to: Label, filters: Labels) -> bool
        ensures through { IsTrue result ↔ GoesThrough (limits_of self.now) (is_in filters) from to }
        ensures leads { result ≡ false → FlowLeads (limits_of self.now) (is_in filters) from to }
        ensures closed { IsTrue result → IsClosedOff (limits_of self.now) (is_in filters) from to }
        ensures kept { IsTrue result → IsShielded self.now.table (limits_of self.now) (is_in filters) from to }
    {
        runs_keep_labels_apart();
        self.reach.bounds_runs();
        !self.sources_of(to, filters).has(from)
    }
}
