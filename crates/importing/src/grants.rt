//! Capabilities in the CNodes of domains and virtual machines.
ghost use Rattle.std.specs.{List.{filter_map, flat_map, range_with_len}, Prelude.{◌≡◌, ◌≤◌, IfOk, length}};
ghost use Rattle.microkit.specs.View.{description_of};
ghost use Rattle.importing.specs.Grants.{domain_grants, domain_root, grant, grants_of, guest_grants, guest_space_of};
ghost use Rattle.importing.specs.Grants.{numbered, processor_root, root_of, roots_of, slot_grant, slot_grants, space_of};

use crate::maps::{guest_held, maps_held};
use crate::objects::radix_of;
use crate::pieces::{Form, Grant, Minting, Piece};
use crate::plan::{domain_line, machine_number, processor_line};
use crate::slots::{Held, MAPS, slot_held};
use machine::{Detail, Guard};
use microkit::{Description, User};
use std::alloc::{AllocError, Global};

fn grant(holder: Piece, index: u64, held: Held) -> Grant
    ensures { result ≡ grant holder index held }
{
    Grant {
        holder,
        index,
        target: held.target,
        detail: held.detail,
        line: held.line,
    }
}

// Capabilities in the slots of a holder from one on.
#[tactic(auto, using(crate::proofs::Numbers::one_more, crate::proofs::Numbers::none_left))]
fn numbered(
    alloc: Global,
    holder: Piece,
    first: u64,
    helds: &[Held],
) -> Result<Vec<Grant>, AllocError>
    requires { first ≤ 458 }
    ensures { IfOk result (λ grants. grants.items ≡ numbered holder first helds.now) }
{
    let mut grants = Vec::new(alloc);
    for (i, held) in helds.iter().enumerate() {
        grants.push(grant(holder, first + i as u64, *held))?;
    }
    Ok(grants)
}

/// Returns the CNode of a domain.
pub(crate) fn space_of(number: usize) -> Piece
    ensures { result ≡ space_of number }
{
    Piece {
        form: Form::Space,
        number,
    }
}

/// Returns the CNode of a virtual machine.
pub(crate) fn guest_space_of(number: usize) -> Piece
    ensures { result ≡ guest_space_of number }
{
    Piece {
        form: Form::GuestSpace,
        number,
    }
}

fn slot_grant(
    description: &Description,
    minting: Minting,
    domain: usize,
    index: u64,
) -> Option<Grant>
    ensures { result ≡ slot_grant (description_of description.now) minting domain index }
{
    match slot_held(description, minting, domain, index) {
        Some(held) => Some(grant(space_of(domain), index, held)),
        None => None,
    }
}

// The capabilities below those of the maps.
fn slot_grants(
    alloc: Global,
    description: &Description,
    minting: Minting,
    domain: usize,
) -> Result<Vec<Grant>, AllocError>
    ensures { IfOk result (λ grants. grants.items
        ≡ slot_grants (description_of description.now) minting domain) }
{
    (0..MAPS)
        .filter_map(|index| slot_grant(description, minting, domain, index))
        .collect(alloc)
}

#[tactic(auto, unfolding(crate::specs::Grants::domain_grants))]
fn domain_grants(
    alloc: Global,
    description: &Description,
    minting: Minting,
    domain: usize,
) -> Result<Vec<Grant>, AllocError>
    ensures { IfOk result (λ grants. grants.items
        ≡ domain_grants (description_of description.now) minting domain) }
{
    let mut grants = slot_grants(alloc, description, minting, domain)?;
    let maps = maps_held(alloc, &description.maps, User::Domain(domain))?;
    let mapped = numbered(alloc, space_of(domain), MAPS, &maps)?;
    grants.extend_from_slice(&mapped)?;
    Ok(grants)
}

#[tactic(auto, unfolding(crate::specs::Grants::guest_grants))]
fn guest_grants(
    alloc: Global,
    description: &Description,
    minting: Minting,
    machine: usize,
) -> Result<Vec<Grant>, AllocError>
    ensures { IfOk result (λ grants. grants.items ≡ guest_grants (description_of description.now) minting machine) }
{
    let found = guest_held(alloc, description, minting, machine)?;
    numbered(alloc, guest_space_of(machine), 1, &found)
}

/// Returns the capabilities in all CNodes.
#[tactic(auto, unfolding(crate::specs::Grants::grants_of))]
pub(crate) fn grants_of(
    alloc: Global,
    description: &Description,
    minting: Minting,
) -> Result<Vec<Grant>, AllocError>
    ensures { IfOk result (λ grants. grants.items ≡ grants_of (description_of description.now) minting) }
{
    let mut grants = all_domain_grants(alloc, description, minting)?;
    let guests = all_guest_grants(alloc, description, minting)?;
    grants.extend_from_slice(&guests)?;
    Ok(grants)
}

#[tactic(auto, using(crate::proofs::Numbers::flat_more))]
fn all_domain_grants(
    alloc: Global,
    description: &Description,
    minting: Minting,
) -> Result<Vec<Grant>, AllocError>
    ensures { IfOk result (λ grants. grants.items
        ≡ flat_map (domain_grants (description_of description.now) minting)
        (range_with_len 0 (length description.now.domains.items))) }
{
    let mut grants = Vec::new(alloc);
    for n in 0..description.domains.len() {
        let more = domain_grants(alloc, description, minting, n)?;
        grants.extend_from_slice(&more)?;
    }
    Ok(grants)
}

#[tactic(auto, using(crate::proofs::Numbers::flat_more))]
fn all_guest_grants(
    alloc: Global,
    description: &Description,
    minting: Minting,
) -> Result<Vec<Grant>, AllocError>
    ensures { IfOk result (λ grants. grants.items
        ≡ flat_map (guest_grants (description_of description.now) minting)
        (range_with_len 0 (length description.now.machines.items))) }
{
    let mut grants = Vec::new(alloc);
    for n in 0..description.machines.len() {
        let more = guest_grants(alloc, description, minting, n)?;
        grants.extend_from_slice(&more)?;
    }
    Ok(grants)
}

// The root of a thread.
fn root_of(line: u64, grants: &[Grant], thread: Piece, space: Piece) -> Option<Grant>
    ensures { result ≡ root_of line grants.now thread space }
{
    match radix_of(grants, space) {
        Some(radix) => Some(Grant {
            holder: thread,
            index: 0,
            target: space,
            detail: Detail::CNode(Guard {
                size: 64 - radix.bits(),
                value: 0,
            }),
            line,
        }),
        None => None,
    }
}

fn domain_root(description: &Description, grants: &[Grant], domain: usize) -> Option<Grant>
    ensures { result ≡ domain_root (description_of description.now) grants.now domain }
{
    let thread = Piece {
        form: Form::Main,
        number: domain,
    };
    let line = domain_line(description, domain);
    root_of(line, grants, thread, space_of(domain))
}

fn processor_root(description: &Description, grants: &[Grant], processor: usize) -> Option<Grant>
    ensures { result ≡ processor_root (description_of description.now) grants.now processor }
{
    let thread = Piece {
        form: Form::Processor,
        number: processor,
    };
    let machine = machine_number(description, processor);
    let line = processor_line(description, processor);
    root_of(line, grants, thread, guest_space_of(machine))
}

/// Returns the roots of all threads.
#[tactic(auto, unfolding(crate::specs::Grants::roots_of))]
pub(crate) fn roots_of(
    alloc: Global,
    description: &Description,
    grants: &[Grant],
) -> Result<Vec<Grant>, AllocError>
    ensures { IfOk result (λ roots. roots.items ≡ roots_of (description_of description.now) grants.now) }
{
    let mut roots = domain_roots(alloc, description, grants)?;
    let processors = processor_roots(alloc, description, grants)?;
    roots.extend_from_slice(&processors)?;
    Ok(roots)
}

fn domain_roots(
    alloc: Global,
    description: &Description,
    grants: &[Grant],
) -> Result<Vec<Grant>, AllocError>
    ensures { IfOk result (λ roots. roots.items
        ≡ filter_map (domain_root (description_of description.now) grants.now)
        (range_with_len 0 (length description.now.domains.items))) }
{
    (0..description.domains.len())
        .filter_map(|n| domain_root(description, grants, n))
        .collect(alloc)
}

fn processor_roots(
    alloc: Global,
    description: &Description,
    grants: &[Grant],
) -> Result<Vec<Grant>, AllocError>
    ensures { IfOk result (λ roots. roots.items
        ≡ filter_map (processor_root (description_of description.now) grants.now)
        (range_with_len 0 (length description.now.processors.items))) }
{
    (0..description.processors.len())
        .filter_map(|n| processor_root(description, grants, n))
        .collect(alloc)
}
