//! The reading of a policy's text.
ghost use Rattle.std.specs.Prelude.{ℕ, ◌<◌, ◌↔◌, ◌≡◌, ◌≢◌, Err, IfErr, IfOk, List, Ok, OnErr, Some, length};
ghost use Rattle.base.specs.declared.edge.Edge.{Edge as EdgeOf};
ghost use Rattle.words.specs.{declared.faults.Wrong.Wrong, Fault.{fault_at, no_memory}, FirstFault.{IsFirstFault, TellsFirst}};
ghost use Rattle.{words.specs.{Reading.{Gives, GivesOrStops, Reads}, Text.lines_of}, machine.specs.Layout.Layout};
ghost use Rattle.{table.specs.{Names.label_named, Rules.IsLawful}, captext.specs.PolicyText.{IsPolicyOf, label_name, policy_text}};
ghost use Rattle.captext.specs.Policies as policies;

use base::{Edge, Kind, Label};
use policy::Policy;
use std::alloc::Global;
use table::Table;
use words::{Fault, LineError, Reader, Words, Wrong, read_text};

/// The next word as a kind of authority.
#[tactic(auto, unfolding(crate::specs::Policies::kind_at, words::specs::Reading::word_at, words::specs::Reading::or_syntax, words::specs::Reading::bind))]
fn kind(words: &mut Words<'_>) -> Result<Kind, Wrong>
    ensures { Gives (λ kind. (kind, words.new)) result (policies.kind_at words.old) }
{
    let word = words.word()?;
    Kind::from_name(word).ok_or(Wrong::Syntax)
}

/// An edge by the names of its labels.
#[derive(Drop)]
pub(crate) struct NamedEdge<'a> {
    pub(crate) from: &'a str,
    pub(crate) kind: Kind,
    pub(crate) to: &'a str,
}

/// Reads `edge LABEL KIND LABEL`.
#[tactic(auto, unfolding(crate::specs::Policies::named_edge_at, words::specs::Parts::by_word, words::specs::Parts::in_turn, words::specs::Parts::keyed, words::specs::Reading::bind))]
pub(crate) fn named_edge<'a>(words: &mut Words<'a>) -> Result<NamedEdge<'a>, Wrong>
    ensures { Gives (λ edge. ((edge.from.now, (edge.kind, edge.to.now)), words.new)) result (policies.named_edge_at words.old) }
{
    let word = words.word()?;
    if word != b"edge".as_slice() {
        return Err(Wrong::Syntax);
    }
    let from = words.name()?;
    let kind = kind(words)?;
    let to = words.name()?;
    Ok(NamedEdge { from, kind, to })
}

/// Whether an edge from this label of this kind may come after the last one.
fn may_follow(last: Option<Edge>, from: Label, kind: Kind) -> bool
    ensures { result ≡ policies.may_follow last from kind }
{
    match last {
        None => true,
        Some(last) => {
            last.from.number() < from.number()
                || last.from.number() == from.number() && last.kind.number() <= kind.number()
        }
    }
}

/// Whether an edge rises above the last one.
fn follows(last: Option<Edge>, edge: &Edge) -> bool
    ensures { result ≡ policies.follows last edge.now }
{
    match last {
        None => true,
        Some(last) => last < *edge,
    }
}

/// Adds an edge that rises above the last one.
#[tactic(auto, unfolding(crate::specs::Policies::with_edge, words::specs::Reading::bind))]
fn add_edge(policy: &mut Policy, edge: Edge) -> Result<(), LineError>
    ensures exact { GivesOrStops (λ _. policy.new) result (policies.with_edge policy.old edge) }
    ensures err { OnErr result (policy.new ≡ policy.old) }
{
    if !follows(policy.last(), &edge) {
        return Err(LineError::Text(Wrong::Syntax));
    }
    match policy.add(edge) {
        Ok(()) => Ok(()),
        Err(_) => Err(LineError::Memory),
    }
}

/// Reads `edge LABEL KIND LABEL`, and adds the edge.
#[tactic(auto, unfolding(crate::specs::Policies::edge_line, crate::specs::Policies::labelled_edge, words::specs::Reading::bind))]
fn edge_line(table: &Table, policy: &mut Policy, words: &mut Words<'_>) -> Result<(), LineError>
    ensures exact { GivesOrStops (λ _. policy.new) result (policies.edge_line table.now policy.old words.old) }
    ensures err { OnErr result (policy.new ≡ policy.old) }
{
    let NamedEdge { from, kind, to } = named_edge(words)?;
    words.end()?;
    let from = table.label_named(from).ok_or(Wrong::UnknownName)?;
    if !may_follow(policy.last(), from, kind) {
        return Err(LineError::Text(Wrong::Syntax));
    }
    let to = table.label_named(to).ok_or(Wrong::UnknownName)?;
    add_edge(policy, Edge { from, kind, to })
}

/// Reads the text of a policy, whose labels are those of the table.
///
/// # Errors
///
/// The first fault of the text, 50 or 51; or 40, at line 0, where memory is refused.
pub fn read_policy(alloc: Global, text: &[u8], table: &Table) -> Result<Policy, Fault>
    ensures exact { Reads (λ policy. policy) result (policies.read_policy_of table.now text.now) }

    // A text that is read is the policy's, and the text of each policy for the table is read as it.
    ensures found { IfOk result
        (λ policy. IsPolicyOf table.now policy × (text.now ≡ policy_text table.now policy)) }
    ensures only { (edges : List EdgeOf) → IsPolicyOf table.now edges
        → text.now ≡ policy_text table.now edges → Reads (λ policy. policy) result (Ok edges) }

    // One that isn't read is refused for its first fault, unless memory was refused.
    ensures faults { IfErr result (λ fault. fault ≢ no_memory
        → TellsFirst (policies.policy_format table.now) (lines_of text.now) fault) }
    ensures refused { (line : ℕ) (wrong : Wrong)
        → IsFirstFault (policies.policy_format table.now) (lines_of text.now) line wrong
        → Reads (λ policy. policy) result (Err (fault_at line wrong)) }
{
    // A rule of tables: no two labels have one name.
    table.keeps_rules();
    edges_of(alloc, text, table)
}

/// Reads the text of a policy, by the definition alone.
#[tactic(auto, unfolding(crate::specs::Policies::read_policy_of))]
fn edges_of(alloc: Global, text: &[u8], table: &Table) -> Result<Policy, Fault>
    ensures { Reads (λ policy. policy) result (policies.read_policy_of table.now text.now) }
{
    let mut edges = Edges {
        table,
        policy: Policy::new(alloc),
    };
    read_text(&mut edges, b"confine-policy 1", text)?;
    Ok(edges.policy)
}

/// The edges of the lines so far.
#[derive(Drop)]
struct Edges<'a> {
    table: &'a Table,
    policy: Policy,
}

impl<'a> Reader for Edges<'a> {
    ghost Seen = { List EdgeOf };

    ghost seen = { λ edges. edges.policy };

    ghost step = { λ edges. policies.edge_line edges.table.now };

    fn take_line(&mut self, words: &mut Words<'_>) -> Result<(), LineError> {
        edge_line(self.table, &mut self.policy, words)
    }
}

/// A law: for a table, a text is read as a policy exactly where it is that policy's text.
///
/// A name is read as a label exactly where it is that label's own. So different policies have
/// different texts.
pub fn policies_are_read_back()
    ensures label { (t : Layout) (name : List ℕ) (label : ℕ) → IsLawful t
        → (label_named t name ≡ Some label) ↔ ((name ≡ label_name t label) × (label < length t.labels)) }
    ensures named { (t : Layout) (text : List ℕ) (edges : List EdgeOf) → IsLawful t
        → (policies.read_policy_of t text ≡ Ok edges)
        ↔ (IsPolicyOf t edges × (text ≡ policy_text t edges)) }
    ensures once { (t : Layout) (one other : List EdgeOf) → IsLawful t
        → IsPolicyOf t one → IsPolicyOf t other → policy_text t one ≡ policy_text t other → one ≡ other }
{}
