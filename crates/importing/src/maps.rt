//! Capabilities in successive slots of CNodes: the maps of a domain, from slot 458 on, and all of a
//! virtual machine's.
ghost use Rattle.std.specs.Prelude.{[], ◌&&◌, ◌++◌, ◌==◌, ◌||◌, ◌≡◌, ◌≤◌, IfOk, length, map, not, take};
ghost use Rattle.microkit.specs.View.{description_of};
ghost use Rattle.importing.specs.Maps.{fault_of, faults_held, frame_held, frame_line, frame_rights, giving_map, guest_held};
ghost use Rattle.importing.specs.Maps.{is_mapped_by, is_new, is_user, is_written_by, maps_held, user_code, user_number};

use crate::pieces::{Form, Minting};
use crate::slots::{Held, capability, parent_held, read_write};
use base::Rights;
use machine::Detail;
use microkit::{Description, Map, Processor, User};
use std::alloc::{AllocError, Global};

fn user_code(user: User) -> u64
    ensures { result ≡ user_code user }
{
    match user {
        User::Domain(_) => 0,
        User::Machine(_) => 1,
    }
}

fn user_number(user: User) -> usize
    ensures { result ≡ user_number user }
{
    match user {
        User::Domain(n) | User::Machine(n) => n,
    }
}

/// Whether two users are the same.
pub(crate) fn is_user(one: User, other: User) -> bool
    ensures { result ≡ is_user one other }
{
    user_code(one) == user_code(other) && user_number(one) == user_number(other)
}

// Whether a user maps a region by one of these maps.
fn is_mapped_by(maps: &[Map], user: User, region: usize) -> bool
    ensures { result ≡ is_mapped_by maps.now user region }
{
    maps.iter()
        .any(|map| is_user(map.user, user) && map.region == region)
}

// Whether a user may write to a region by one of these maps.
fn may_write(maps: &[Map], user: User, region: usize) -> bool
    ensures { result ≡ is_written_by maps.now user region }
{
    maps.iter().any(|map| is_user(map.user, user) && map.region == region && map.writable)
}

fn frame_rights(maps: &[Map], user: User, region: usize) -> Rights
    ensures { result ≡ frame_rights maps.now user region }
{
    if may_write(maps, user, region) {
        read_write()
    } else {
        Rights::READ
    }
}

// Whether a map of a user gives all the rights that the user has for a region.
fn gives_rights(one: &Map, user: User, region: usize, written: bool) -> bool
    ensures { result ≡ (is_user one.now.user user && (one.now.region == region && (one.now.writable || not written))) }
{
    is_user(one.user, user) && one.region == region && (one.writable || !written)
}

// The first map of a user that gives all the rights that the user has for a region.
fn giving_map(maps: &[Map], user: User, region: usize) -> Option<usize>
    ensures { result ≡ giving_map maps.now user region }
{
    let written = may_write(maps, user, region);
    maps.iter()
        .position(|one| gives_rights(one, user, region, written))
}

fn frame_line(maps: &[Map], user: User, region: usize) -> u64
    ensures { result ≡ frame_line maps.now user region }
{
    match giving_map(maps, user, region) {
        Some(number) => match maps.get(number) {
            Some(map) => map.line,
            None => 0,
        },
        None => 0,
    }
}

fn frame_held(maps: &[Map], user: User, region: usize) -> Held
    ensures { result ≡ frame_held maps.now user region }
{
    capability(
        frame_line(maps, user, region),
        Form::Frame,
        region,
        Detail::Frame(frame_rights(maps, user, region)),
    )
}

// Whether a user maps a region by one of these maps, and by none before it.
fn is_new(maps: &[Map], user: User, i: usize, map: &Map) -> bool
    requires { i ≤ length maps.now }
    ensures { result ≡ is_new maps.now user i map.now }
{
    is_user(map.user, user) && !is_mapped_by(&maps[..i], user, map.region)
}

/// Returns the capabilities for the regions that a user maps, one for each region.
#[tactic(auto, using(crate::proofs::Regions::found_more, crate::proofs::Regions::found_same, crate::proofs::Regions::found_all))]
pub(crate) fn maps_held(alloc: Global, maps: &[Map], user: User) -> Result<Vec<Held>, AllocError>
    ensures { IfOk result (λ found. found.items ≡ maps_held maps.now user) }
{
    let mut found = Vec::new(alloc);
    for (i, map) in maps.iter().enumerate() {
        if is_new(maps, user, i, map) {
            found.push(frame_held(maps, user, map.region))?;
        }
    }
    Ok(found)
}

fn fault_of(minting: Minting, machine: usize, processor: &Processor) -> Option<Held>
    ensures { result ≡ fault_of minting machine processor.now }
{
    if processor.machine == machine {
        parent_held(minting, processor.line, processor.id)
    } else {
        None
    }
}

fn faults_held(
    alloc: Global,
    minting: Minting,
    machine: usize,
    processors: &[Processor],
) -> Result<Vec<Held>, AllocError>
    ensures { IfOk result (λ found. found.items ≡ faults_held minting machine processors.now) }
{
    processors
        .iter()
        .filter_map(|processor| fault_of(minting, machine, processor))
        .collect(alloc)
}

/// Returns the capabilities of a virtual machine: its maps, then an endpoint for each virtual processor.
#[tactic(auto, unfolding(crate::specs::Maps::guest_held))]
pub(crate) fn guest_held(
    alloc: Global,
    description: &Description,
    minting: Minting,
    machine: usize,
) -> Result<Vec<Held>, AllocError>
    ensures { IfOk result (λ found. found.items ≡ guest_held (description_of description.now) minting machine) }
{
    let mut found = maps_held(alloc, &description.maps, User::Machine(machine))?;
    let faults = faults_held(alloc, minting, machine, &description.processors)?;
    found.extend_from_slice(&faults)?;
    Ok(found)
}
