//! The reading of a policy that is to be mended.
ghost use Rattle.std.specs.{BTreeSet.insert_key, Prelude.{[], ℕ, ◌≡◌, ◌≢◌, Err, IfErr, IfOk, List, Ok, OnOk}};
ghost use Rattle.base.specs.declared.edge.Edge.{Edge as EdgeOf};
ghost use Rattle.words.specs.{declared.faults.Wrong.Wrong, Fault.{fault_at, no_memory}, FirstFault.{IsFirstFault, TellsFirst}};
ghost use Rattle.{words.specs.{Reading.{GivesOrStops, Reads}, Text.lines_of}, machine.specs.Layout.Layout};
ghost use Rattle.{policy.specs.Policy.edge_cmp, captext.specs.{Drafts.Draft as DraftOf, Policies.read_policy_of}};
ghost use Rattle.captext.specs.Drafts as drafts;

use crate::policies::{NamedEdge, named_edge};
use base::{Edge, Kind};
use policy::Policy;
use std::alloc::{AllocError, Global};
use std::marker::Model;
use table::Table;
use words::{Fault, LineError, Reader, Words, Wrong, read_text};

/// A line that was dropped: its number, from 1, and what it names.
#[derive(Drop)]
pub struct DroppedLine {
    line: u64,
    from: String,
    kind: Kind,
    to: String,
}

impl Model for DroppedLine {
    ghost use Rattle.std.specs.Prelude.{string_bytes};
    ghost use Rattle.captext.specs.Drafts.{Dropped};

    ghost Value = { Dropped };

    ghost view = { λ dropped. record { line = dropped.line; from = string_bytes dropped.from; kind = dropped.kind; to = string_bytes dropped.to } };
}

impl DroppedLine {
    /// Returns the line of this number, which names these.
    fn new(alloc: Global, line: u64, named: &NamedEdge<'_>) -> Result<DroppedLine, AllocError>
        ensures { IfOk result (λ dropped. dropped ≡ drafts.dropped_line line (named.now.from.now, (named.now.kind, named.now.to.now))) }
    {
        Ok(DroppedLine {
            line,
            from: String::from_str(alloc, named.from)?,
            kind: named.kind,
            to: String::from_str(alloc, named.to)?,
        })
    }

    /// Returns the number of the line. The header is line 1.
    pub fn line(&self) -> u64
        ensures { result ≡ self.now.line }
    {
        self.line
    }

    /// Returns the name of the label from which the edge leads.
    pub fn from(&self) -> &str
        ensures { result.now ≡ self.now.from }
    {
        self.from.as_str()
    }

    /// Returns the kind of the edge.
    pub fn kind(&self) -> Kind
        ensures { result ≡ self.now.kind }
    {
        self.kind
    }

    /// Returns the name of the label to which the edge leads.
    pub fn to(&self) -> &str
        ensures { result.now ≡ self.now.to }
    {
        self.to.as_str()
    }
}

/// What the text of a policy says that is to be mended: its edges, and the lines that were dropped.
#[derive(Drop)]
pub struct PolicyDraft {
    policy: Policy,
    dropped: Vec<DroppedLine>,
    last: u64,
}

impl Model for PolicyDraft {
    ghost use Rattle.captext.specs.Drafts.{Draft};

    ghost Value = { Draft };

    ghost view = { λ draft. record { edges = draft.policy; dropped = draft.dropped.items; last = draft.last } };
}

impl PolicyDraft {
    /// Returns what a text says before any line but the header.
    fn new(alloc: Global) -> PolicyDraft
        ensures { result ≡ drafts.no_lines }
    {
        PolicyDraft {
            policy: Policy::new(alloc),
            dropped: Vec::new(alloc),
            last: 1,
        }
    }

    /// Returns the policy of the lines that were not dropped.
    pub fn policy(&self) -> &Policy
        ensures { result.now ≡ self.now.edges }
    {
        &self.policy
    }

    /// Returns the lines that were dropped, in their order.
    pub fn dropped(&self) -> &[DroppedLine]
        ensures { result.now ≡ self.now.dropped }
    {
        self.dropped.as_slice()
    }

    /// Adds the edge of the next line, or drops the line where there is none.
    ///
    /// # Errors
    ///
    /// [`LineError::Memory`] where memory is refused. There is no memory for a text with 2^64 lines.
    fn add(
        &mut self,
        alloc: Global,
        named: &NamedEdge<'_>,
        edge: Option<Edge>,
    ) -> Result<(), LineError>
        ensures added { OnOk result (self.new
            ≡ drafts.with_line self.old (named.now.from.now, (named.now.kind, named.now.to.now)) edge) }
        ensures memory { IfErr result (λ error. error ≡ LineError.Memory) }
    {
        let Some(line) = self.last.checked_add(1) else {
            return Err(LineError::Memory);
        };
        match edge {
            Some(edge) => add_edge(&mut self.policy, edge)?,
            None => self.dropped.push(DroppedLine::new(alloc, line, named)?)?,
        }
        self.last = line;
        Ok(())
    }
}

/// Adds an edge at its place, unless it is there.
fn add_edge(policy: &mut Policy, edge: Edge) -> Result<(), LineError>
    ensures added { OnOk result (policy.new ≡ insert_key edge_cmp policy.old edge) }
    ensures memory { IfErr result (λ error. error ≡ LineError.Memory) }
{
    policy.edges_rise();
    match policy.add(edge) {
        Ok(()) => Ok(()),
        Err(_) => Err(LineError::Memory),
    }
}

/// The edge between labels of these names, if the table has both.
#[tactic(auto, unfolding(crate::specs::Drafts::edge_between))]
fn edge_between(table: &Table, named: &NamedEdge<'_>) -> Option<Edge>
    ensures { result ≡ drafts.edge_between table.now (named.now.from.now, (named.now.kind, named.now.to.now)) }
{
    let from = table.label_named(named.from)?;
    let to = table.label_named(named.to)?;
    Some(Edge {
        from,
        kind: named.kind,
        to,
    })
}

/// Reads `edge LABEL KIND LABEL`, and adds the edge or drops the line.
#[tactic(auto, unfolding(crate::specs::Drafts::draft_line, words::specs::Reading::bind))]
fn draft_line(
    alloc: Global,
    table: &Table,
    draft: &mut PolicyDraft,
    words: &mut Words<'_>,
) -> Result<(), LineError>
    ensures { GivesOrStops (λ _. draft.new) result (drafts.draft_line table.now draft.old words.old) }
{
    let named = named_edge(words)?;
    words.end()?;
    let edge = edge_between(table, &named);
    draft.add(alloc, &named, edge)
}

/// Reads the text of a policy that is to be mended, whose labels are those of the table.
///
/// The edges may come in any order and more than once. A line is dropped if the table lacks a label that it names.
///
/// # Errors
///
/// The first fault of the text, 50; or 40, at line 0, where memory is refused.
pub fn read_draft(alloc: Global, text: &[u8], table: &Table) -> Result<PolicyDraft, Fault>
    ensures exact { Reads (λ draft. draft) result (drafts.read_draft_of table.now text.now) }
    ensures meaning { IfOk result (drafts.IsDraftOf table.now text.now) }

    // A text that isn't read is refused for its first fault, unless memory was refused.
    ensures faults { IfErr result (λ fault. fault ≢ no_memory
        → TellsFirst (drafts.draft_format table.now) (lines_of text.now) fault) }
    ensures refused { (line : ℕ) (wrong : Wrong)
        → IsFirstFault (drafts.draft_format table.now) (lines_of text.now) line wrong
        → Reads (λ draft. draft) result (Err (fault_at line wrong)) }
{
    draft_of(alloc, text, table)
}

/// Reads the text of a policy that is to be mended, by the definition alone.
#[tactic(auto, unfolding(crate::specs::Drafts::read_draft_of))]
fn draft_of(alloc: Global, text: &[u8], table: &Table) -> Result<PolicyDraft, Fault>
    ensures { Reads (λ draft. draft) result (drafts.read_draft_of table.now text.now) }
{
    let mut body = Body {
        alloc,
        table,
        draft: PolicyDraft::new(alloc),
    };
    match read_text(&mut body, b"confine-policy 1", text) {
        Ok(()) => Ok(body.draft),
        Err(fault) => Err(fault),
    }
}

/// The lines so far.
#[derive(Drop)]
struct Body<'a> {
    alloc: Global,
    table: &'a Table,
    draft: PolicyDraft,
}

impl<'a> Reader for Body<'a> {
    ghost Seen = { DraftOf };

    ghost seen = { λ body. body.draft };

    ghost step = { λ body. drafts.draft_line body.table.now };

    fn take_line(&mut self, words: &mut Words<'_>) -> Result<(), LineError> {
        draft_line(self.alloc, self.table, &mut self.draft, words)
    }
}

/// A law: a text that is read as a policy is also read as one that is to be mended, with the same edges and no dropped
/// line.
pub fn policies_are_read_as_drafts()
    ensures { (t : Layout) (text : List ℕ) (edges : List EdgeOf)
        → read_policy_of t text ≡ Ok edges
        → (draft : DraftOf) × (drafts.read_draft_of t text ≡ Ok draft) × (draft.edges ≡ edges) × (draft.dropped ≡ []) }
{}
