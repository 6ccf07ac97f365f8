//! The claims that a description makes, and their text.
ghost use Rattle.std.specs.Prelude.{◌++◌, ◌≡◌, IfOk, OnOk};
ghost use Rattle.microkit.specs.{LabelView.bytes_of, View.description_of};
ghost use Rattle.separation.specs.Claims.{all_pairs, claim_line, claims_text, is_apart, lines_of, name_at, pairs_at};
ghost use Rattle.separation.specs.Claims.{pairs_of, pairs_with, text_of, user_of};

use crate::joined::is_joined;
use crate::lending::all_runners;
use importing::labelled_of;
use microkit::{Description, Subject, User};
use std::alloc::{AllocError, Global};

/// Two labels that are kept apart, by their numbers.
#[derive(Clone, Copy)]
pub(crate) struct Pair {
    pub actor: usize,
    pub object: usize,
}

/// Returns the text of the claims that a description makes, with these names of labels.
///
/// It has a claim `none A B` for each label A of a domain or a virtual machine, and each label B to
/// which A isn't joined.
pub fn write_claims(
    alloc: Global,
    names: &[Vec<u8>],
    description: &Description,
) -> Result<Vec<u8>, AllocError>
    ensures { IfOk result (λ text. text.items
        ≡ claims_text (bytes_of names.now) (description_of description.now)) }
{
    let pairs = all_pairs(alloc, description)?;
    text_of(alloc, names, &pairs)
}

// All pairs of labels that a description keeps apart.
fn all_pairs(alloc: Global, description: &Description) -> Result<Vec<Pair>, AllocError>
    ensures { IfOk result (λ pairs. pairs.items ≡ all_pairs (description_of description.now)) }
{
    let runners = all_runners(alloc, description)?;
    let subjects = labelled_of(alloc, description)?;
    pairs_of(alloc, description, &runners, &subjects)
}

// The text of claims.
fn text_of(alloc: Global, names: &[Vec<u8>], pairs: &[Pair]) -> Result<Vec<u8>, AllocError>
    ensures { IfOk result (λ text. text.items ≡ text_of (bytes_of names.now) pairs.now) }
{
    let mut text = Vec::new(alloc);
    text.extend_from_slice(b"confine-claims 2\n")?;
    add_lines(&mut text, names, pairs)?;
    text.extend_from_slice(b"end\n")?;
    Ok(text)
}

#[tactic(auto, unfolding(crate::specs::Claims::user_of))]
fn user_of(subject: Subject) -> Option<User>
    ensures { result ≡ user_of subject }
{
    match subject {
        Subject::Domain(n) => Some(User::Domain(n)),
        Subject::Machine(n) => Some(User::Machine(n)),
        Subject::Time(_) | Subject::Region(_) => None,
    }
}

// Whether a user is kept apart from the label of this number.
#[tactic(auto, unfolding(crate::specs::Claims::is_apart))]
fn is_apart(
    description: &Description,
    runners: &[Vec<usize>],
    subjects: &[Subject],
    one: User,
    object: usize,
) -> bool
    ensures { result
        ≡ is_apart (description_of description.now) (bytes_of runners.now) subjects.now one object }
{
    match subjects.get(object) {
        Some(subject) => !is_joined(description, runners, one, *subject),
        None => false,
    }
}

// The labels from which the label of a user is kept apart.
fn pairs_with(
    alloc: Global,
    description: &Description,
    runners: &[Vec<usize>],
    subjects: &[Subject],
    actor: usize,
    one: User,
) -> Result<Vec<Pair>, AllocError>
    ensures { IfOk result (λ pairs. pairs.items
        ≡ pairs_with (description_of description.now) (bytes_of runners.now) subjects.now actor one) }
{
    (0..subjects.len())
        .filter(|object| {
            *object != actor && is_apart(description, runners, subjects, one, *object)
        })
        .map(|object| Pair { actor, object })
        .collect(alloc)
}

fn pairs_at(
    alloc: Global,
    description: &Description,
    runners: &[Vec<usize>],
    subjects: &[Subject],
    actor: usize,
) -> Result<Vec<Pair>, AllocError>
    ensures { IfOk result (λ pairs. pairs.items
        ≡ pairs_at (description_of description.now) (bytes_of runners.now) subjects.now actor) }
{
    let user = match subjects.get(actor) {
        Some(subject) => user_of(*subject),
        None => None,
    };
    match user {
        Some(one) => pairs_with(alloc, description, runners, subjects, actor, one),
        None => Ok(Vec::new(alloc)),
    }
}

// All pairs of labels that are kept apart, by the subjects of labels.
#[tactic(auto, using(importing::proofs::Numbers::flat_more))]
fn pairs_of(
    alloc: Global,
    description: &Description,
    runners: &[Vec<usize>],
    subjects: &[Subject],
) -> Result<Vec<Pair>, AllocError>
    ensures { IfOk result (λ pairs. pairs.items
        ≡ pairs_of (description_of description.now) (bytes_of runners.now) subjects.now) }
{
    let mut pairs = Vec::new(alloc);
    for actor in 0..subjects.len() {
        let more = pairs_at(alloc, description, runners, subjects, actor)?;
        pairs.extend_from_slice(&more)?;
    }
    Ok(pairs)
}

#[tactic(auto, using(importing::proofs::Items::get_seen))]
fn name_at(names: &[Vec<u8>], number: usize) -> &[u8]
    ensures { result.now ≡ name_at (bytes_of names.now) number }
{
    match names.get(number) {
        Some(name) => name,
        None => b"",
    }
}

fn add_line(text: &mut Vec<u8>, names: &[Vec<u8>], pair: Pair) -> Result<(), AllocError>
    ensures { OnOk result (text.new.items ≡ text.old.items ++ claim_line (bytes_of names.now) pair) }
{
    text.extend_from_slice(b"none ")?;
    text.extend_from_slice(name_at(names, pair.actor))?;
    text.extend_from_slice(b" ")?;
    text.extend_from_slice(name_at(names, pair.object))?;
    text.extend_from_slice(b"\n")?;
    Ok(())
}

#[tactic(auto, using(crate::proofs::Lines::line_more))]
fn add_lines(text: &mut Vec<u8>, names: &[Vec<u8>], pairs: &[Pair]) -> Result<(), AllocError>
    ensures { OnOk result (text.new.items ≡ text.old.items ++ lines_of (bytes_of names.now) pairs.now) }
{
    for pair in pairs {
        add_line(text, names, *pair)?;
    }
    Ok(())
}
