//! Regions that share a label, if a table would have more labels than it may.
ghost use Rattle.std.specs.{List.{filter_map, list_all, list_any, range_with_len}, Option.option_map_or};
ghost use Rattle.std.specs.Prelude.{[], ◌&&◌, ◌==◌, ◌||◌, ◌≡◌, IfOk, false, filter, length, map, not, position, slice_get, unwrap_or};
ghost use Rattle.microkit.specs.{Labels.subjects_of, View.description_of};
ghost use Rattle.importing.specs.Groups.{are_alike, are_met_by, first_alike, is_met_by, labelled_of, leader_of, leaders_at};
ghost use Rattle.importing.specs.{Groups.{leads, line_at, places_of, uses_at, uses_in, uses_of}, PlanView.maps_of};

use crate::maps::is_user;
use crate::plan::{line_of, same_subject};
use base::Label;
use microkit::{Description, Map, Subject, subjects_of};
use std::alloc::{AllocError, Global};

// The maps of a region.
fn uses_of(alloc: Global, maps: &[Map], region: usize) -> Result<Vec<Map>, AllocError>
    ensures { IfOk result (λ uses. uses.items ≡ uses_of maps.now region) }
{
    maps.iter()
        .filter(|map| map.region == region)
        .copied()
        .collect(alloc)
}

// Whether a user may do by the other map all that it may do by the one.
fn is_met_by(one: &Map, other: &Map) -> bool
    ensures { result ≡ is_met_by one.now other.now }
{
    is_user(other.user, one.user) && (other.writable || !one.writable)
}

fn is_met(one: &Map, others: &[Map]) -> bool
    ensures { result ≡ list_any (is_met_by one.now) others.now }
{
    others.iter().any(|other| is_met_by(one, other))
}

fn are_met_by(uses: &[Map], others: &[Map]) -> bool
    ensures { result ≡ are_met_by uses.now others.now }
{
    uses.iter().all(|one| is_met(one, others))
}

// Whether the same users have the same rights by some maps as by others.
#[tactic(auto, unfolding(crate::specs::Groups::are_alike))]
fn are_alike(uses: &[Map], others: &[Map]) -> bool
    ensures { result ≡ are_alike uses.now others.now }
{
    are_met_by(uses, others) && are_met_by(others, uses)
}

/// Returns the maps of each region, if a table would have more labels than it may; else nothing.
#[tactic(auto, using(crate::proofs::Items::length_seen), unfolding(crate::specs::Groups::uses_in))]
pub(crate) fn uses_in(
    alloc: Global,
    description: &Description,
    subjects: &[Subject],
) -> Result<Vec<Vec<Map>>, AllocError>
    requires { subjects.now ≡ subjects_of (description_of description.now) }
    ensures { IfOk result (λ uses. maps_of uses.items ≡ uses_in (description_of description.now)) }
{
    if subjects.len() <= usize::from(Label::COUNT) {
        Ok(Vec::new(alloc))
    } else {
        all_uses(alloc, &description.maps, description.regions.len())
    }
}

// The maps of each of this many regions.
#[tactic(auto, using(crate::proofs::Numbers::map_more, crate::proofs::Items::seen_more))]
fn all_uses(alloc: Global, maps: &[Map], count: usize) -> Result<Vec<Vec<Map>>, AllocError>
    ensures { IfOk result (λ uses. maps_of uses.items ≡ map (uses_of maps.now) (range_with_len 0 count)) }
{
    let mut uses = Vec::new(alloc);
    for region in 0..count {
        uses.push(uses_of(alloc, maps, region)?)?;
    }
    Ok(uses)
}

#[tactic(auto, using(crate::proofs::Items::get_seen))]
fn uses_at(uses: &[Vec<Map>], region: usize) -> &[Map]
    ensures { result.now ≡ uses_at (maps_of uses.now) region }
{
    match uses.get(region) {
        Some(found) => found,
        None => &[],
    }
}

#[tactic(auto, using(crate::proofs::Items::position_seen))]
fn place_alike(uses: &[Vec<Map>], own: &[Map]) -> Option<usize>
    ensures { result ≡ position (are_alike own.now) (maps_of uses.now) }
{
    found_alike(uses, own)
}

// `place_alike`, stated of the maps as stored.
fn found_alike(uses: &[Vec<Map>], own: &[Map]) -> Option<usize>
    ensures { result ≡ position (λ one. are_alike own.now one.items) uses.now }
{
    uses.iter().position(|one| are_alike(own, one))
}

// The first region that the same users map with the same rights.
fn first_alike(uses: &[Vec<Map>], region: usize) -> usize
    ensures { result ≡ first_alike (maps_of uses.now) region }
{
    let own = uses_at(uses, region);
    match place_alike(uses, own) {
        Some(first) => first,
        None => region,
    }
}

/// Returns the subject whose label a subject has: itself, or the first region like it.
#[tactic(auto, unfolding(crate::specs::Groups::leader_of))]
pub(crate) fn leader_of(uses: &[Vec<Map>], subject: Subject) -> Subject
    ensures { result ≡ leader_of (maps_of uses.now) subject }
{
    match subject {
        Subject::Region(region) => Subject::Region(first_alike(uses, region)),
        _ => subject,
    }
}

// Whether the subject at a place has a label of its own.
fn leads(uses: &[Vec<Map>], subjects: &[Subject], place: usize) -> bool
    ensures { result ≡ leads (maps_of uses.now) subjects.now place }
{
    match subjects.get(place) {
        Some(subject) => same_subject(leader_of(uses, *subject), *subject),
        None => false,
    }
}

/// Returns the places of the subjects that have a label of their own.
#[tactic(auto, unfolding(crate::specs::Groups::places_of))]
pub(crate) fn places_of(
    alloc: Global,
    uses: &[Vec<Map>],
    subjects: &[Subject],
) -> Result<Vec<usize>, AllocError>
    ensures { IfOk result (λ places. places.items ≡ places_of (maps_of uses.now) subjects.now) }
{
    (0..subjects.len())
        .filter(|place| leads(uses, subjects, *place))
        .collect(alloc)
}

fn subject_at(subjects: &[Subject], place: usize) -> Option<Subject>
    ensures { result ≡ slice_get subjects.now place }
{
    subjects.get(place).copied()
}

/// Returns the subjects at some places.
pub(crate) fn leaders_at(
    alloc: Global,
    subjects: &[Subject],
    places: &[usize],
) -> Result<Vec<Subject>, AllocError>
    ensures { IfOk result (λ leaders. leaders.items ≡ leaders_at subjects.now places.now) }
{
    places
        .iter()
        .filter_map(|place| subject_at(subjects, *place))
        .collect(alloc)
}

/// Returns the subjects with a label of their own, in the order of the labels.
///
/// These are all subjects, if there are at most 256. Otherwise regions that the same users map with
/// the same rights share the label of the first of them.
#[tactic(auto, unfolding(crate::specs::Groups::labelled_of))]
pub fn labelled_of(alloc: Global, description: &Description) -> Result<Vec<Subject>, AllocError>
    ensures { IfOk result (λ labelled. labelled.items ≡ labelled_of (description_of description.now)) }
{
    let subjects = subjects_of(alloc, description)?;
    let uses = uses_in(alloc, description, &subjects)?;
    let places = places_of(alloc, &uses, &subjects)?;
    leaders_at(alloc, &subjects, &places)
}

/// Returns the line of the subject at a place.
pub(crate) fn line_at(subjects: &[Subject], description: &Description, place: usize) -> u64
    ensures { result ≡ line_at subjects.now (description_of description.now) place }
{
    match subjects.get(place) {
        Some(subject) => line_of(description, *subject),
        None => 0,
    }
}
