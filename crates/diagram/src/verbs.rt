//! Labels without a thread: what programs do to them, and which of them they use.
ghost use Rattle.std.specs.Prelude.{◌||◌, ◌≡◌, IfOk};
ghost use Rattle.{base.specs.{declared.kind.Kind.TheVariants.Write, Labels.is_in}, policy.specs.Policy.allows};
ghost use Rattle.diagram.specs.{Folded.verb_word, Programs.program_of, Regions.{between, does, is_between}};

use base::{Edge, Kind, Label};
use policy::Policy;
use std::alloc::{AllocError, Global};
use summary::Row;

/// What a program does to labels without a thread.
#[derive(Clone, Copy)]
pub enum Verb {
    /// It may change objects there, and has an edge to write.
    Writes,
    /// It may change objects there, and has no edge to write.
    Changes,
    /// It may only make objects there smaller.
    Takes,
}

/// Returns the word for what is done.
pub(crate) fn verb_word(verb: Verb) -> &'static str
    ensures { result.now ≡ verb_word verb }
{
    match verb {
        Verb::Writes => "writes ",
        Verb::Changes => "changes ",
        Verb::Takes => "takes from ",
    }
}

/// Returns whether a program may change objects of a label or make them smaller, or reads them.
pub(crate) fn uses(row: &Row, label: Label) -> bool
    ensures { result ≡ ((is_in row.now.changes label || is_in row.now.shrinks label) || is_in row.now.reads label) }
{
    (row.changes.has(label) || row.shrinks.has(label)) || row.reads.has(label)
}

/// Returns whether this is what a program does to a label.
pub(crate) fn does(policy: &Policy, row: &Row, verb: Verb, label: Label) -> bool
    ensures { result ≡ does (program_of (allows policy.now) row.now) verb label }
{
    match verb {
        Verb::Writes => row.changes.has(label) && writes(policy, row.label, label),
        Verb::Changes => row.changes.has(label) && !writes(policy, row.label, label),
        Verb::Takes => row.shrinks.has(label) && !row.changes.has(label),
    }
}

// Whether a label has an edge to write to another.
fn writes(policy: &Policy, from: Label, to: Label) -> bool
    ensures { result ≡ allows policy.now from Write to }
{
    let kind = Kind::Write;
    policy.has(Edge { from, kind, to })
}

// Whether a program does this to a label that another uses.
fn is_between(policy: &Policy, row: &Row, other: &Row, verb: Verb, label: Label) -> bool
    ensures { result ≡ is_between (program_of (allows policy.now) row.now)
        (program_of (allows policy.now) other.now) verb label }
{
    does(policy, row, verb, label) && uses(other, label)
}

/// Returns the labels to which a program does this and which another uses.
#[tactic(auto, using(summary::proofs::Pieces::kept_more, summary::proofs::Pieces::kept_same))]
pub(crate) fn between(
    alloc: Global,
    policy: &Policy,
    others: &[Label],
    row: &Row,
    other: &Row,
    verb: Verb,
) -> Result<Vec<Label>, AllocError>
    ensures { IfOk result (λ labels. labels.items
        ≡ between others.now (program_of (allows policy.now) row.now) (program_of (allows policy.now) other.now) verb) }
{
    let mut found = Vec::new(alloc);
    for label in others {
        if is_between(policy, row, other, verb, *label) {
            found.push(*label)?;
        }
    }
    Ok(found)
}
