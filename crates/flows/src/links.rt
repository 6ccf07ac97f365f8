//! Shortest chains of flows, link by link.
ghost use Rattle.std.specs.Prelude.{ℕ, ◌≡◌, IfOk, MatchOption, false, length, true};
ghost use Rattle.{base.specs.Labels.is_in, reach.specs.Extents.{Limits, limits_of}};
ghost use Rattle.flows.specs.{Chains.{AreFoundLinks, AreSources, IsChain, IsLinked, IsLink}, Flowing.{FilterTest, FlowsBeside, GoesThrough}};

use crate::flowing::Flows;
use base::{Label, Labels};
use std::alloc::{AllocError, Global};

/// A flow from one label to another.
#[derive(Clone, Copy)]
pub struct Link {
    pub from: Label,
    /// The label whose objects threads of `from` may change or shrink. They are those of `to`, or it sees them.
    pub object: Label,
    pub to: Label,
}

/// The labels from which a chain leads to one, and the links by which they were found.
#[derive(Drop)]
pub(crate) struct Sources {
    pub labels: Labels,
    pub links: Vec<Link>,
}

impl<'a> Flows<'a> {
    /// Returns a chain of flows from one label to another, if there is one.
    ///
    /// No label between the two is a filter, and no flow is by an object of a filter. No other chain has fewer
    /// links, but no contract says that.
    pub fn chain(
        &self,
        alloc: Global,
        from: Label,
        to: Label,
        filters: Labels,
    ) -> Result<Option<Vec<Link>>, AllocError>
        ensures { IfOk result (λ found. MatchOption found (GoesThrough (limits_of self.now) (is_in filters) from to)
            (λ links. IsChain (limits_of self.now) (is_in filters) from links.items to)) }
    {
        let sources = self.search(alloc, to, filters)?;
        if !sources.labels.has(from) {
            return Ok(None);
        }
        let links = links_from(alloc, &sources.links, from)?;
        Ok(Some(links))
    }

    // Searches the labels from which a chain leads to this one. Those with fewer links come first.
    fn search(&self, alloc: Global, to: Label, filters: Labels) -> Result<Sources, AllocError>
        ensures { IfOk result (AreSources (limits_of self.now) (is_in filters) to) }
    {
        // `labels` has all that flow to those of `done`, unless a chain starts with them.
        let mut done = filters.difference(Labels::only(to));
        let mut labels = Labels::only(to);
        let mut links = Vec::new(alloc);
        // The labels whose turn it is: those with one more link wait until all of these are done.
        let mut turn = labels;
        while let Some(label) = first_of(labels.difference(done), turn) {
            // A label's number is below `Label::COUNT`.
            label.number();
            match self.link_to(label, filters, labels) {
                Some(link) => {
                    link.from.number();
                    labels = labels.union(Labels::only(link.from));
                    links.push(link)?;
                }
                None => {
                    done = done.union(Labels::only(label));
                    turn = turn_after(turn, labels, done);
                }
            }
        }
        Ok(Sources { labels, links })
    }

    // A flow to this label from one that isn't known, if there is one.
    fn link_to(&self, to: Label, filters: Labels, known: Labels) -> Option<Link>
        ensures { MatchOption result ((x : ℕ) → FlowsBeside (limits_of self.now) (is_in filters) x to → is_in known x ≡ true)
            (λ link. IsLink (limits_of self.now) (is_in filters) link × (link.to ≡ to) × (is_in known link.from ≡ false)) }
    {
        let from = self.previous_beside(to, filters).difference(known).first()?;
        // There is such an object, since the one label flows to the other.
        let object = self.objects_between(from, to, filters).first()?;
        Some(Link { from, object, to })
    }
}

// The first of these labels, by preference one whose turn it is.
fn first_of(labels: Labels, turn: Labels) -> Option<Label>
    ensures { MatchOption result ((l : ℕ) → is_in labels l ≡ false) (λ label. is_in labels label ≡ true) }
{
    match labels.intersection(turn).first() {
        Some(label) => Some(label),
        None => labels.first(),
    }
}

// The turn of all that were found comes once all whose turn it is are done.
fn turn_after(turn: Labels, found: Labels, done: Labels) -> Labels {
    match turn.difference(done).first() {
        Some(_) => turn,
        None => found,
    }
}

// The links that lead from a label to the end of a search: of the last ones, which lead to earlier ones.
fn links_from(alloc: Global, links: &[Link], from: Label) -> Result<Vec<Link>, AllocError>
    ensures { IfOk result (λ chain. (limits : Limits) (filters : FilterTest) (to : ℕ) → AreFoundLinks limits filters to links.now
        → IsLinked to links.now (length links.now) from → IsChain limits filters from chain.items to) }
{
    let mut chain = Vec::new(alloc);
    let mut at = from;
    let mut left = links.len();
    while left > 0 {
        left -= 1;
        let link = links[left];
        let next = link.to;
        if link.from.number() == at.number() {
            chain.push(link)?;
            at = next;
        }
    }
    Ok(chain)
}
