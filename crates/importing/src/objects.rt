//! Objects of a description at boot, and where they lie.
ghost use Rattle.std.specs.{List.list_all, Option.option_map};
ghost use Rattle.std.specs.Prelude.{◌%◌, ◌<◌, ◌^◌, ◌||◌, ◌≡◌, ◌≤◌, IfSome, None, Some, nat_lt, not, slice_get};
ghost use Rattle.base.specs.declared.limits.TheConstants.{ADDRESS_END};
ghost use Rattle.{microkit.specs.View.{description_of, domain_of, machine_of}, table.specs.Rules.{IsAtRest, IsWithinLimits}};
ghost use Rattle.importing.specs.Objects.{FitsFrom, aligned_up, cnode_of, context_of, domain_share, endpoint_at};
ghost use Rattle.importing.specs.Objects.{fits_radix, frame_of, machine_share, notification_at, object_of};
ghost use Rattle.importing.specs.{Objects.{processor_share, radix_of, reply_at, share_of, thread_of}, Pieces.same_piece};

use crate::pieces::{Form, Grant, Piece, same_piece};
use base::{CoreNo, MAX_PERIOD};
use machine::{
    CNode, Context, Endpoint, Frame, Inbox, Notification, Object, Radix, Reply, ReplyState,
    RunState, Share, Tcb,
};
use microkit::{Description, Schedule};

/// Returns the object of a piece, at the next multiple of its size from an address on.
///
/// The result is `None` if a limit of objects of its kind is passed.
#[tactic(auto, unfolding(crate::specs::Objects::object_of))]
pub(crate) fn object_of(
    description: &Description,
    grants: &[Grant],
    piece: Piece,
    next: u64,
) -> Option<Object>
    requires { next ≤ ADDRESS_END }
    ensures exact { result ≡ object_of (description_of description.now) grants.now piece next }
    ensures placed { IfSome result (λ object. FitsFrom next object) }
{
    match piece.form {
        Form::Space | Form::GuestSpace => cnode_of(grants, piece, next),
        Form::Main => Some(thread_of(RunState::Ready, next)),
        Form::Processor => Some(thread_of(RunState::Inactive, next)),
        Form::Bell => Some(notification_at(next)),
        Form::Answer => Some(reply_at(next)),
        Form::Entry => Some(endpoint_at(next)),
        Form::Time => context_of(domain_share(description, piece.number), next),
        Form::ProcessorTime => context_of(processor_share(description, piece.number), next),
        Form::Frame => Some(frame_of(next)),
    }
}

// The next multiple of a power of two.
#[tactic(auto, using(crate::proofs::Alignment::is_above, crate::proofs::Alignment::is_multiple))]
fn aligned_up(next: u64, bits: u8) -> u64
    requires address { next ≤ ADDRESS_END }
    requires size { bits ≤ 17 }
    ensures exact { result ≡ aligned_up next bits }
    ensures above { next ≤ result }
    ensures multiple { result % 2 ^ bits ≡ 0 }
{
    let size: u64 = 1 << bits;
    (next + (size - 1)) / size * size
}

fn cnode_of(grants: &[Grant], piece: Piece, next: u64) -> Option<Object>
    requires { next ≤ ADDRESS_END }
    ensures exact { result ≡ cnode_of grants.now piece next }
    ensures placed { IfSome result (λ object. FitsFrom next object) }
{
    match radix_of(grants, piece) {
        Some(radix) => Some(Object::CNode(CNode {
            address: aligned_up(next, radix.bits() + 5),
            radix,
        })),
        None => None,
    }
}

/// Returns the least radix, from 9 up, with which a CNode has all the slots that it needs.
#[tactic(auto, unfolding(crate::specs::Objects::radix_of))]
pub(crate) fn radix_of(grants: &[Grant], piece: Piece) -> Option<Radix>
    ensures { result ≡ radix_of grants.now piece }
{
    if fits_radix(grants, piece, 9) {
        return Radix::new(9);
    }
    if fits_radix(grants, piece, 10) {
        return Radix::new(10);
    }
    if fits_radix(grants, piece, 11) {
        return Radix::new(11);
    }
    if fits_radix(grants, piece, 12) {
        return Radix::new(12);
    }
    None
}

// Whether a CNode of this radix has all the slots that it needs.
fn fits_radix(grants: &[Grant], piece: Piece, radix: u8) -> bool
    requires { radix ≤ 12 }
    ensures { result ≡ fits_radix grants.now piece radix }
{
    let slots: u64 = 1 << radix;
    has_slots(grants, piece, slots)
}

fn has_slots(grants: &[Grant], piece: Piece, slots: u64) -> bool
    ensures { result ≡ list_all (λ grant. not (same_piece grant.holder piece) || nat_lt grant.index slots) grants.now }
{
    grants.iter().all(|grant| !same_piece(grant.holder, piece) || grant.index < slots)
}

fn thread_of(state: RunState, next: u64) -> Object
    requires address { next ≤ ADDRESS_END }
    requires rest { IsAtRest state }
    ensures exact { result ≡ thread_of state next }
    ensures placed { FitsFrom next result }
{
    Object::Tcb(Tcb {
        address: aligned_up(next, 10),
        state,
        inbox: Inbox::Empty,
        context: None,
    })
}

fn notification_at(next: u64) -> Object
    requires { next ≤ ADDRESS_END }
    ensures exact { result ≡ notification_at next }
    ensures placed { FitsFrom next result }
{
    Object::Notification(Notification {
        address: aligned_up(next, 5),
        pending: None,
    })
}

fn reply_at(next: u64) -> Object
    requires { next ≤ ADDRESS_END }
    ensures exact { result ≡ reply_at next }
    ensures placed { FitsFrom next result }
{
    Object::Reply(Reply {
        address: aligned_up(next, 5),
        state: ReplyState::Free,
    })
}

fn endpoint_at(next: u64) -> Object
    requires { next ≤ ADDRESS_END }
    ensures exact { result ≡ endpoint_at next }
    ensures placed { FitsFrom next result }
{
    Object::Endpoint(Endpoint {
        address: aligned_up(next, 4),
    })
}

fn frame_of(next: u64) -> Object
    requires { next ≤ ADDRESS_END }
    ensures exact { result ≡ frame_of next }
    ensures placed { FitsFrom next result }
{
    Object::Frame(Frame {
        address: aligned_up(next, 12),
    })
}

fn context_of(share: Option<Share>, next: u64) -> Option<Object>
    requires address { next ≤ ADDRESS_END }
    requires share { IfSome share (λ share. IsWithinLimits (Some share)) }
    ensures exact { result ≡ context_of share next }
    ensures placed { IfSome result (λ object. FitsFrom next object) }
{
    match share {
        Some(share) => Some(Object::Context(Context {
            address: aligned_up(next, 8),
            share: Some(share),
            thread: None,
        })),
        None => None,
    }
}

// The share of a core's time, if it is within the limits.
#[tactic(auto, unfolding(crate::specs::Objects::share_of))]
fn share_of(core: u64, schedule: Schedule) -> Option<Share>
    ensures exact { result ≡ share_of core schedule }
    ensures limits { IfSome result (λ share. IsWithinLimits (Some share)) }
{
    let budget = schedule.budget;
    let period = schedule.period;
    if !(1 <= budget && budget <= period && period <= MAX_PERIOD) {
        return None;
    }
    match CoreNo::new(core) {
        Some(core) => Some(Share {
            core,
            budget,
            period,
        }),
        None => None,
    }
}

#[tactic(auto, using(crate::proofs::Items::get_seen), unfolding(crate::specs::Objects::domain_share))]
fn domain_share(description: &Description, domain: usize) -> Option<Share>
    ensures exact { result ≡ domain_share (description_of description.now) domain }
    ensures limits { IfSome result (λ share. IsWithinLimits (Some share)) }
{
    match description.domains.get(domain) {
        Some(domain) => share_of(domain.core, domain.schedule),
        None => None,
    }
}

#[tactic(auto, unfolding(crate::specs::Objects::processor_share))]
fn processor_share(description: &Description, processor: usize) -> Option<Share>
    ensures exact { result ≡ processor_share (description_of description.now) processor }
    ensures limits { IfSome result (λ share. IsWithinLimits (Some share)) }
{
    match description.processors.get(processor) {
        Some(processor) => machine_share(description, processor.machine, processor.core),
        None => None,
    }
}

// The share of a virtual machine's processor on this core.
#[tactic(auto, using(crate::proofs::Items::get_seen), unfolding(crate::specs::Objects::machine_share))]
fn machine_share(description: &Description, machine: usize, core: u64) -> Option<Share>
    ensures exact { result ≡ machine_share (description_of description.now) machine core }
    ensures limits { IfSome result (λ share. IsWithinLimits (Some share)) }
{
    match description.machines.get(machine) {
        Some(machine) => share_of(core, machine.schedule),
        None => None,
    }
}
