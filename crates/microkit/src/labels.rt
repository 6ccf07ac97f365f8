//! Labels of the table that a description becomes, and their names.
ghost use Rattle.std.specs.{List.{AllByRecursion, AllPairs, list_any, range_with_len}, Option.option_map};
ghost use Rattle.std.specs.{Prelude.{[], ℕ, ◌≡◌, ◌≢◌, IfOk, filter, length, map, take}, Str.bytes_eq};
ghost use Rattle.words.specs.Reading.{Gives, Reads};
ghost use Rattle.microkit.specs.{declared.names.TheConstants.MAX_TRIES, LabelView.bytes_of, Labels.{ending_of, is_mapped}};
ghost use Rattle.microkit.specs.Labels.{label_at, line_of, may_call, name_of, named_at, names_from, names_of, or_limit, subjects_of};
ghost use Rattle.microkit.specs.{Names.{IsLabelName, free_from, is_known, plain_name}, View.description_of};
ghost use Rattle.microkit.specs.declared.labels.Subject.TheVariants as subject;

use crate::description::{Channel, Description, Map};
use crate::names::{MAX_TRIES, candidate, plain_name};
use std::alloc::{AllocError, Global};
use words::{Fault, Wrong};

/// A part of a description that has a label, by its number there.
#[derive(Clone, Copy)]
pub enum Subject {
    Domain(usize),
    Machine(usize),
    /// The time of a domain that may call another.
    Time(usize),
    Region(usize),
}

/// Returns the parts of a description that have a label, in the order of the labels.
///
/// These are each domain, each virtual machine, the time of each domain that may call another, and
/// each region that somebody maps.
#[tactic(auto, unfolding(crate::specs::Labels::subjects_of))]
pub fn subjects_of(alloc: Global, description: &Description) -> Result<Vec<Subject>, AllocError>
    ensures { IfOk result (λ subjects. subjects.items ≡ subjects_of (description_of description.now)) }
{
    let mut subjects = domains_of(alloc, description.domains.len())?;
    let machines = machines_of(alloc, description.machines.len())?;
    subjects.extend_from_slice(&machines)?;
    let times = times_of(alloc, &description.channels, description.domains.len())?;
    subjects.extend_from_slice(&times)?;
    let regions = regions_of(alloc, &description.maps, description.regions.len())?;
    subjects.extend_from_slice(&regions)?;
    Ok(subjects)
}

fn domains_of(alloc: Global, count: usize) -> Result<Vec<Subject>, AllocError>
    ensures { IfOk result (λ found. found.items ≡ map (λ n. subject.Domain n) (range_with_len 0 count)) }
{
    (0..count).map(|n| Subject::Domain(n)).collect(alloc)
}

fn machines_of(alloc: Global, count: usize) -> Result<Vec<Subject>, AllocError>
    ensures { IfOk result (λ found. found.items ≡ map (λ n. subject.Machine n) (range_with_len 0 count)) }
{
    (0..count).map(|n| Subject::Machine(n)).collect(alloc)
}

fn times_of(alloc: Global, channels: &[Channel], count: usize) -> Result<Vec<Subject>, AllocError>
    ensures { IfOk result (λ found. found.items
        ≡ map (λ n. subject.Time n) (filter (may_call channels.now) (range_with_len 0 count))) }
{
    (0..count)
        .filter(|n| may_call(channels, *n))
        .map(|n| Subject::Time(n))
        .collect(alloc)
}

fn regions_of(alloc: Global, maps: &[Map], count: usize) -> Result<Vec<Subject>, AllocError>
    ensures { IfOk result (λ found. found.items
        ≡ map (λ n. subject.Region n) (filter (is_mapped maps.now) (range_with_len 0 count))) }
{
    (0..count)
        .filter(|n| is_mapped(maps, *n))
        .map(|n| Subject::Region(n))
        .collect(alloc)
}

fn may_call(channels: &[Channel], domain: usize) -> bool
    ensures { result ≡ may_call channels.now domain }
{
    channels.iter().any(|channel| {
        (channel.first.may_call && channel.first.id.domain == domain)
            || (channel.second.may_call && channel.second.id.domain == domain)
    })
}

fn is_mapped(maps: &[Map], region: usize) -> bool
    ensures { result ≡ is_mapped maps.now region }
{
    maps.iter().any(|map| map.region == region)
}

/// Returns the name of each label, in the order of the labels.
///
/// # Errors
///
/// 54 with the line of a subject if too many labels have its name, and 40 if memory is refused.
#[tactic(auto, using(crate::proofs::Distinct::names_distinct, crate::proofs::LabelNames::names_are))]
pub fn label_names(alloc: Global, description: &Description) -> Result<Vec<Vec<u8>>, Fault>
    ensures exact { Reads (λ names. bytes_of names.items) result (names_of (description_of description.now)) }
    // Each is a name of a table, and leaves room for the part of an object. No two are the same.
    ensures names { IfOk result (λ names. AllByRecursion IsLabelName (bytes_of names.items)) }
    ensures distinct { IfOk result (λ names. AllPairs (λ one other. one ≢ other) (bytes_of names.items)) }
{
    all_names(alloc, description)
}

#[tactic(auto, unfolding(crate::specs::Labels::names_of))]
fn all_names(alloc: Global, description: &Description) -> Result<Vec<Vec<u8>>, Fault>
    ensures { Reads (λ names. bytes_of names.items) result (names_of (description_of description.now)) }
{
    let subjects = subjects_of(alloc, description)?;
    names_of(alloc, description, &subjects)
}

#[tactic(auto, using(crate::proofs::LabelSteps::none_left))]
fn names_of(
    alloc: Global,
    description: &Description,
    subjects: &[Subject],
) -> Result<Vec<Vec<u8>>, Fault>
    ensures { Reads (λ names. bytes_of names.items) result
        (names_from (description_of description.now) [] subjects.now) }
{
    let mut names = Vec::new(alloc);
    for subject in subjects {
        add_name(alloc, description, &mut names, *subject)?;
    }
    Ok(names)
}

// Adds the name of the next label.
#[tactic(auto, using(crate::proofs::Items::seen_more), unfolding(crate::specs::Labels::named_at, words::specs::Reading::bind))]
fn add_name(
    alloc: Global,
    description: &Description,
    names: &mut Vec<Vec<u8>>,
    subject: Subject,
) -> Result<(), Fault>
    ensures { Reads (λ _. bytes_of names.new.items) result
        (named_at (description_of description.now) (bytes_of names.old.items) subject) }
{
    let name = label_at(alloc, description, names, subject)?;
    names.push(name)?;
    Ok(())
}

#[tactic(auto, unfolding(crate::specs::Labels::label_at))]
fn label_at(
    alloc: Global,
    description: &Description,
    names: &[Vec<u8>],
    subject: Subject,
) -> Result<Vec<u8>, Fault>
    ensures { Reads (λ name. name.items) result
        (label_at (description_of description.now) (bytes_of names.now) subject) }
{
    let name = plain_name(alloc, name_of(description, subject))?;
    let domains = first_names(names, description.domains.len());
    let ending = ending_of(alloc, domains, &name, subject)?;
    let found = free_name(alloc, names, &name, ending)?;
    or_limit(found, line_of(description, subject))
}

#[tactic(auto, unfolding(crate::specs::Labels::or_limit))]
fn or_limit(found: Option<Vec<u8>>, line: u64) -> Result<Vec<u8>, Fault>
    ensures { Gives (λ name. name.items) result (or_limit line (option_map (λ name. name.items) found)) }
{
    match found {
        Some(name) => Ok(name),
        None => Err(Fault::at(Wrong::Limit, line)),
    }
}

// The first `count` names, or all if there are fewer.
#[tactic(auto, using(crate::proofs::Items::take_seen))]
fn first_names(names: &[Vec<u8>], count: usize) -> &[Vec<u8>]
    ensures { bytes_of result.now ≡ take count (bytes_of names.now) }
{
    if count < names.len() {
        &names[..count]
    } else {
        names
    }
}

// The end of a label's name.
#[tactic(auto, unfolding(crate::specs::Labels::ending_of))]
fn ending_of(
    alloc: Global,
    domains: &[Vec<u8>],
    name: &[u8],
    subject: Subject,
) -> Result<&'static str, AllocError>
    ensures { IfOk result (λ ending. ending.now ≡ ending_of (bytes_of domains.now) name.now subject) }
{
    match subject {
        Subject::Time(_) => Ok("_time"),
        Subject::Region(_) => {
            let first = candidate(alloc, name, "", 1)?;
            if is_known(domains, &first) {
                Ok("_mr")
            } else {
                Ok("")
            }
        }
        _ => Ok(""),
    }
}

// The first free name.
#[tactic(auto, using(crate::proofs::LabelSteps::try_more, crate::proofs::LabelSteps::try_found, crate::proofs::LabelSteps::tries_over))]
fn free_name(
    alloc: Global,
    names: &[Vec<u8>],
    name: &[u8],
    ending: &str,
) -> Result<Option<Vec<u8>>, AllocError>
    ensures { IfOk result (λ found. option_map (λ name. name.items) found
        ≡ free_from (bytes_of names.now) name.now ending.now 1 MAX_TRIES) }
{
    for k in 1..MAX_TRIES + 1 {
        let found = candidate(alloc, name, ending, k)?;
        if !is_known(names, &found) {
            return Ok(Some(found));
        }
    }
    Ok(None)
}

fn is_known(names: &[Vec<u8>], name: &[u8]) -> bool
    ensures { result ≡ is_known (bytes_of names.now) name.now }
{
    has_name(names, name)
}

// `is_known`, stated of the names as stored.
fn has_name(names: &[Vec<u8>], name: &[u8]) -> bool
    ensures { result ≡ list_any (λ one. bytes_eq one.items name.now) names.now }
{
    names.iter().any(|one| one.as_slice() == name)
}

#[tactic(auto, using(crate::proofs::Items::get_seen), unfolding(crate::specs::Labels::name_of))]
fn name_of(description: &Description, subject: Subject) -> &[u8]
    ensures { result.now ≡ name_of (description_of description.now) subject }
{
    match subject {
        Subject::Domain(n) | Subject::Time(n) => match description.domains.get(n) {
            Some(domain) => &domain.name,
            None => b"",
        },
        Subject::Machine(n) => match description.machines.get(n) {
            Some(machine) => &machine.name,
            None => b"",
        },
        Subject::Region(n) => match description.regions.get(n) {
            Some(region) => &region.name,
            None => b"",
        },
    }
}

#[tactic(auto, using(crate::proofs::Items::get_seen), unfolding(crate::specs::Labels::line_of))]
fn line_of(description: &Description, subject: Subject) -> u64
    ensures { result ≡ line_of (description_of description.now) subject }
{
    match subject {
        Subject::Domain(n) | Subject::Time(n) => match description.domains.get(n) {
            Some(domain) => domain.line,
            None => 0,
        },
        Subject::Machine(n) => match description.machines.get(n) {
            Some(machine) => machine.line,
            None => 0,
        },
        Subject::Region(n) => match description.regions.get(n) {
            Some(region) => region.line,
            None => 0,
        },
    }
}
