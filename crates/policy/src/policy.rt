//! Policies as sets of edges.
ghost use Rattle.std.specs.Prelude.{[], ℕ, ◌++◌, ◌+◌, ◌<◌, ◌||◌, ◌↔◌, ◌∷◌, ◌≡◌, ◌≤◌, IfErr, IfOk, IsOk, List, OnErr, OnOk};
ghost use Rattle.std.specs.Prelude.{SomeIff, max, true, vec_len};
ghost use Rattle.base.specs.{declared.{edge.Edge.Edge, kind.Kind.Kind}, Labels.is_in, Refusals.out_of_memory};
ghost use Rattle.base.specs.declared.label.TheConstants.Label as Label;
ghost use Rattle.policy.specs.{Change.IsBeside, Policy.{IsAboveLast, IsRising, JoinsBelow, JoinsLabels, allows, is_edge, last_edge}};
ghost use Rattle.policy.specs.{Rows.{edge_at, edge_count, last_with, row_number, row_of}, Settling.Joins};

use base::{Edge, Kind, Label, Labels, Refusal};
use std::alloc::{AllocError, Global};
use std::marker::Model;

// The number of kinds, and the number of rows.
const KINDS: usize = Kind::ALL.len();

const ROWS: usize = Label::COUNT as usize * KINDS;

/// A set of edges of authority.
///
/// For each label and kind it keeps the set of the labels to which there is an edge. All of these rows are
/// made when the first edge is added. An edge is found, and added, in constant time.
#[derive(Drop)]
pub struct Policy {
    rows: Vec<Labels>,
    last: Option<Edge>,
    span: u16,
}

impl Model for Policy {
    ghost use Rattle.std.specs.Prelude.{List};
    ghost use Rattle.base.specs.declared.edge.Edge.{Edge};
    ghost use Rattle.policy.specs.Rows.{KeepsRows, edges_of_rows};

    ghost Value = { List Edge };

    ghost view = { λ policy. edges_of_rows policy.rows.items };

    ghost invariant = { λ policy. KeepsRows policy.rows.items policy.last policy.span };
}

impl Policy {
    /// Returns the policy with no edge, which takes no memory.
    pub fn new(alloc: Global) -> Policy
        ensures { result ≡ [] }
    {
        Policy {
            rows: Vec::new(alloc),
            last: None,
            span: 0,
        }
    }

    /// Adds an edge, if it isn't there.
    ///
    /// # Errors
    ///
    /// 40 if memory is refused.
    pub fn add(&mut self, edge: Edge) -> Result<(), Refusal>
        ensures rising { IsRising self.new }
        ensures added { OnOk result ((from : ℕ) (kind : Kind) (to : ℕ) →
            allows self.new from kind to ≡ (is_edge from kind to edge || allows self.old from kind to)) }
        ensures pushed { OnOk result (IsAboveLast self.old edge → self.new ≡ self.old ++ edge ∷ []) }
        ensures present { allows self.old edge.from edge.kind edge.to ≡ true → IsOk result }

        ensures err { OnErr result (self.new ≡ self.old) }
        ensures memory { IfErr result (λ refusal. refusal ≡ out_of_memory) }
    {
        Ok(self.insert(edge)?)
    }

    // As `add`, where want of memory is an error of its own.
    fn insert(&mut self, edge: Edge) -> Result<(), AllocError>
        ensures rising { IsRising self.new }
        ensures added { OnOk result ((from : ℕ) (kind : Kind) (to : ℕ) →
            allows self.new from kind to ≡ (is_edge from kind to edge || allows self.old from kind to)) }
        ensures pushed { OnOk result (IsAboveLast self.old edge → self.new ≡ self.old ++ edge ∷ []) }
        ensures present { allows self.old edge.from edge.kind edge.to ≡ true → IsOk result }
        ensures err { OnErr result (self.new ≡ self.old) }
    {
        joins_labels(&edge);
        if !self.contains(&edge) {
            set(&mut self.rows, &edge)?;
            self.last = Some(later(self.last, edge));
            self.span = span_with(self.span, &edge);
        }
        Ok(())
    }

    /// Adds each of these edges that isn't there.
    ///
    /// # Errors
    ///
    /// [`AllocError`] where memory is refused. Some of the edges may then be added.
    pub fn extend(&mut self, edges: &[Edge]) -> Result<(), AllocError>
        ensures { OnOk result ((from : ℕ) (kind : Kind) (to : ℕ) →
            allows self.new from kind to ≡ (allows edges.now from kind to || allows self.old from kind to)) }
    {
        for edge in edges {
            self.insert(*edge)?;
        }
        Ok(())
    }

    /// Adds the edges of this kind from the label to each label of `to`.
    ///
    /// # Errors
    ///
    /// [`AllocError`] where memory is refused. Some of the edges may then be added.
    pub fn add_row(&mut self, from: Label, kind: Kind, to: Labels) -> Result<(), AllocError>
        ensures { OnOk result (Joins self.old self.new from kind to) }
    {
        for number in 0..Label::COUNT {
            if let Some(label) = Label::new(number) {
                if to.has(label) {
                    self.insert(Edge {
                        from,
                        kind,
                        to: label,
                    })?;
                }
            }
        }
        Ok(())
    }

    /// Returns whether the edge is in the policy.
    pub fn has(&self, edge: Edge) -> bool
        ensures { result ≡ allows self.now edge.from edge.kind edge.to }
    {
        self.contains(&edge)
    }

    // `has`, for an edge by reference.
    fn contains(&self, edge: &Edge) -> bool
        ensures { result ≡ allows self.now edge.now.from edge.now.kind edge.now.to }
    {
        self.row(edge.from, edge.kind).has(edge.to)
    }

    /// Returns the labels to which the label has an edge of this kind.
    ///
    /// The call takes constant time, whatever the number of edges.
    pub fn row(&self, from: Label, kind: Kind) -> Labels
        ensures { (to : ℕ) → is_in result to ≡ allows self.now from kind to }
    {
        match self.rows.get(number_of(from, kind)) {
            Some(row) => *row,
            None => Labels::none(),
        }
    }

    /// Returns the labels to which the label has an edge of this kind, if it has an edge of the other kind.
    pub fn row_with(&self, from: Label, kind: Kind, other: Kind) -> Labels
        ensures { (to : ℕ) → (is_in result to ≡ true) ↔ IsBeside (allows self.now) kind other from to }
    {
        if self.row(from, other).first().is_some() {
            self.row(from, kind)
        } else {
            Labels::none()
        }
    }

    /// Returns the edges in rising order.
    pub fn edges(&self, alloc: Global) -> Result<Vec<Edge>, AllocError>
        ensures { IfOk result (λ edges. edges.items ≡ self.now) }
    {
        self.edges_rise();
        let labels = usize::from(self.span());
        let mut edges = Vec::new(alloc);
        for number in 0..edges_between(labels) {
            if let Some(edge) = edge_numbered(labels, number) {
                if self.contains(&edge) {
                    edges.push(edge)?;
                }
            }
        }
        Ok(edges)
    }

    /// Returns the greatest edge, if there is one.
    pub fn last(&self) -> Option<Edge>
        ensures { result ≡ last_edge self.now }
    {
        self.last
    }

    /// Returns a number above each label that an edge joins, to end a loop over these labels.
    ///
    /// It is at most [`Label::COUNT`].
    pub fn span(&self) -> u16
        ensures few { result ≤ Label.COUNT }
        ensures joins { JoinsBelow result self.now }
    {
        self.span
    }

    /// A law about every policy, with nothing to run: its edges rise, and join labels that there can be.
    pub fn edges_rise(&self)
        ensures rising { IsRising self.now }
        ensures labels { JoinsLabels self.now }
    {
        // What the type keeps is known once a field is read.
        let _ = &self.rows;
    }
}

fn joins_labels(edge: &Edge)
    ensures from { edge.now.from < Label.COUNT }
    ensures to { edge.now.to < Label.COUNT }
{
    edge.from.number();
    edge.to.number();
}

// The place of the row of a label and a kind.
fn number_of(from: Label, kind: Kind) -> usize
    ensures value { result ≡ row_number from kind }
    ensures below { result < ROWS }
    ensures label { from < Label.COUNT }
{
    usize::from(from.number()) * KINDS + usize::from(kind.number())
}

// The number after the greatest label, including those that an edge joins.
fn span_with(span: u16, edge: &Edge) -> u16
    requires { span ≤ Label.COUNT }
    ensures greatest { result ≡ max span (max (edge.now.from + 1) (edge.now.to + 1)) }
    ensures few { result ≤ Label.COUNT }
{
    span.max((edge.from.number() + 1).max(edge.to.number() + 1))
}

// Adds an edge to rows, of which there are none or all.
fn set(rows: &mut Vec<Labels>, edge: &Edge) -> Result<(), AllocError>
    requires { vec_len rows.old ≤ ROWS }
    ensures added { OnOk result ((from : ℕ) (kind : Kind) (to : ℕ) →
        is_in (row_of rows.new.items from kind) to
        ≡ (is_edge from kind to edge.now || is_in (row_of rows.old.items from kind) to)) }
    ensures count { vec_len rows.new ≤ ROWS }
    ensures err { OnErr result (rows.new.items ≡ rows.old.items) }
{
    rows.resize(ROWS, Labels::none())?;
    let row = &mut rows[number_of(edge.from, edge.kind)];
    *row = row.union(Labels::only(edge.to));
    Ok(())
}

// The later of two edges.
fn later(last: Option<Edge>, edge: Edge) -> Edge
    ensures { result ≡ last_with last edge }
{
    match last {
        Some(last) if edge < last => last,
        _ => edge,
    }
}

// The number of possible edges between this many labels.
#[tactic(auto, unfolding(crate::specs::Rows::edge_count))]
fn edges_between(labels: usize) -> usize
    requires { labels ≤ Label.COUNT }
    ensures { result ≡ edge_count labels }
{
    labels * (labels * KINDS)
}

// The edge with this number, in the order of the possible edges between this many labels.
fn edge_numbered(labels: usize, number: usize) -> Option<Edge>
    requires { labels ≤ Label.COUNT }
    ensures { SomeIff result (number < edge_count labels) (edge_at labels number) }
{
    if number >= edges_between(labels) {
        return None;
    }
    let (row, to) = (number / labels, number % labels);
    Some(Edge {
        from: Label::new((row / KINDS) as u16)?,
        kind: Kind::ALL[row % KINDS],
        to: Label::new(to as u16)?,
    })
}
