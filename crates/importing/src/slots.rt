//! The capability in each slot of a domain's CNode, except the maps.
ghost use Rattle.std.specs.{List.position, Option.option_map_or};
ghost use Rattle.std.specs.Prelude.{◌&&◌, ◌-◌, ◌<◌, ◌==◌, ◌^◌, ◌≡◌, IfSome, Some, is_some, nat_lt, slice_get};
ghost use Rattle.{base.specs.Rights.rights_with, microkit.specs.View.{description_of, domain_of, domains_of}};
ghost use Rattle.importing.specs.Slots.{answer_held, bell_held, call_held, calling_held, capability, channel_at, child_held};
ghost use Rattle.importing.specs.Slots.{child_number, end_at, end_in, endpoint_rights, entry_held, fault_held, id_held};
ghost use Rattle.importing.specs.Slots.{input_held, is_child, is_end, notification_rights, notified_held, notify_held};
ghost use Rattle.importing.specs.Slots.{own_bell_held, parent_held, processor_held, processor_number, slot_held};

use crate::pieces::{Form, Minting, Piece, is_called};
use crate::plan::{domain_line, processor_line};
use base::Rights;
use bitflags::Flags;
use machine::{Badged, Detail};
use microkit::{Channel, Description, Domain, End, Id, Processor};

/// A capability: the object that it is for, and its detail.
#[derive(Clone, Copy)]
pub struct Held {
    pub target: Piece,
    pub detail: Detail,
    /// The line of the element that it comes from.
    pub line: u64,
}

/// The first slot of notifications of channels.
pub const BELLS: u64 = 10;

/// The first slot of endpoints of channels.
pub const CALLS: u64 = 74;

/// The first slot of the threads of children.
pub const CHILDREN: u64 = 202;

/// The first slot of the threads of virtual processors.
pub const PROCESSORS: u64 = 266;

/// The first slot of maps.
pub const MAPS: u64 = 458;

/// The number of ids of channels, children and virtual processors.
pub const IDS: u64 = 62;

/// Returns the capability in a slot of a domain's CNode, below those of the maps, if there is one.
#[tactic(auto, unfolding(crate::specs::Slots::slot_held))]
pub(crate) fn slot_held(
    description: &Description,
    minting: Minting,
    domain: usize,
    index: u64,
) -> Option<Held>
    ensures { result ≡ slot_held (description_of description.now) minting domain index }
{
    match index {
        1 => Some(input_held(description, minting, domain)),
        2 => fault_held(description, minting, domain),
        3 => own_bell_held(description, minting, domain),
        4 => Some(answer_held(description, domain)),
        _ => id_held(description, minting, domain, index),
    }
}

// What a slot in a row of ids has.
#[tactic(auto, unfolding(crate::specs::Slots::id_held))]
fn id_held(description: &Description, minting: Minting, domain: usize, index: u64) -> Option<Held>
    ensures { result ≡ id_held (description_of description.now) minting domain index }
{
    if index < BELLS {
        None
    } else if index < BELLS + IDS {
        notify_held(description, minting, domain, index - BELLS)
    } else if index < CALLS {
        None
    } else if index < CALLS + IDS {
        call_held(description, minting, domain, index - CALLS)
    } else if index < CHILDREN {
        None
    } else if index < CHILDREN + IDS {
        child_held(description, domain, index - CHILDREN)
    } else if index < PROCESSORS {
        None
    } else if index < PROCESSORS + IDS {
        processor_held(description, domain, index - PROCESSORS)
    } else {
        None
    }
}

/// Returns a capability that comes from the element of a line.
pub(crate) fn capability(line: u64, form: Form, number: usize, detail: Detail) -> Held
    ensures { result ≡ capability line form number detail }
{
    Held {
        target: Piece { form, number },
        detail,
        line,
    }
}

fn read() -> Rights
    ensures { result ≡ rights_with 1 }
{
    Rights::READ
}

fn write() -> Rights
    ensures { result ≡ rights_with 2 }
{
    Rights::WRITE
}

/// Returns the rights to read and to write.
pub(crate) fn read_write() -> Rights
    ensures { result ≡ rights_with 3 }
{
    Rights::READ.union(Rights::WRITE)
}

// The rights to send and to be answered.
fn write_reply() -> Rights
    ensures { result ≡ rights_with 10 }
{
    Rights::WRITE.union(Rights::GRANT_REPLY)
}

fn every_right() -> Rights
    ensures { result ≡ rights_with 15 }
{
    read_write().union(Rights::GRANT).union(Rights::GRANT_REPLY)
}

fn bell_held(minting: Minting, line: u64, domain: usize, rights: Rights, badge: u64) -> Held
    ensures { result ≡ bell_held minting line domain rights.0 badge }
{
    let rights = match minting {
        Minting::Least => rights,
        Minting::All => read_write(),
    };
    capability(
        line,
        Form::Bell,
        domain,
        Detail::Notification(Badged { rights, badge }),
    )
}

fn entry_held(minting: Minting, line: u64, domain: usize, rights: Rights, badge: u64) -> Held
    ensures { result ≡ entry_held minting line domain rights.0 badge }
{
    let rights = match minting {
        Minting::Least => rights,
        Minting::All => every_right(),
    };
    capability(
        line,
        Form::Entry,
        domain,
        Detail::Endpoint(Badged { rights, badge }),
    )
}

#[tactic(auto, unfolding(crate::specs::Slots::input_held))]
fn input_held(description: &Description, minting: Minting, domain: usize) -> Held
    ensures { result ≡ input_held (description_of description.now) minting domain }
{
    let line = domain_line(description, domain);
    if is_called(description, domain) {
        entry_held(minting, line, domain, read(), 0)
    } else {
        bell_held(minting, line, domain, read(), 0)
    }
}

/// Returns the capability for the endpoint at which a parent gets faults, if the id is one.
pub(crate) fn parent_held(minting: Minting, line: u64, id: Id) -> Option<Held>
    ensures { result ≡ parent_held minting line id }
{
    if id.number < IDS {
        Some(entry_held(
            minting,
            line,
            id.domain,
            write_reply(),
            (1 << 62) + id.number,
        ))
    } else {
        None
    }
}

#[tactic(auto, using(crate::proofs::Items::get_seen), unfolding(crate::specs::Slots::fault_held))]
fn fault_held(description: &Description, minting: Minting, domain: usize) -> Option<Held>
    ensures { result ≡ fault_held (description_of description.now) minting domain }
{
    match description.domains.get(domain) {
        Some(domain) => match domain.parent {
            Some(id) => parent_held(minting, domain.line, id),
            None => None,
        },
        None => None,
    }
}

#[tactic(auto, unfolding(crate::specs::Slots::own_bell_held))]
fn own_bell_held(description: &Description, minting: Minting, domain: usize) -> Option<Held>
    ensures { result ≡ own_bell_held (description_of description.now) minting domain }
{
    if is_called(description, domain) {
        let line = domain_line(description, domain);
        Some(bell_held(minting, line, domain, read(), 0))
    } else {
        None
    }
}

fn answer_held(description: &Description, domain: usize) -> Held
    ensures { result ≡ answer_held (description_of description.now) domain }
{
    let line = domain_line(description, domain);
    capability(line, Form::Answer, domain, Detail::Reply)
}

// The badge of a notification for an id.
fn badge_of(id: u64) -> u64
    requires { id < 62 }
    ensures { result ≡ 2 ^ id }
{
    1 << id
}

// Whether an end has this id in a domain, and the other end's id is one.
fn is_end(domain: usize, id: u64, own: End, other: End) -> bool
    ensures { result ≡ is_end domain id own other }
{
    own.id.domain == domain && own.id.number == id && other.id.number < IDS
}

// The end of this id in a domain, with the other end, if the channel has one.
fn end_in(domain: usize, id: u64, channel: &Channel) -> Option<(End, End)>
    ensures { result ≡ end_in domain id channel.now }
{
    if is_end(domain, id, channel.first, channel.second) {
        return Some((channel.first, channel.second));
    }
    if is_end(domain, id, channel.second, channel.first) {
        return Some((channel.second, channel.first));
    }
    None
}

fn channel_at(channels: &[Channel], domain: usize, id: u64) -> Option<usize>
    ensures { result ≡ channel_at channels.now domain id }
{
    channels
        .iter()
        .position(|channel| has_end(domain, id, channel))
}

fn has_end(domain: usize, id: u64, channel: &Channel) -> bool
    ensures { result ≡ is_some (end_in domain id channel.now) }
{
    end_in(domain, id, channel).is_some()
}

#[tactic(auto, unfolding(crate::specs::Slots::end_at))]
fn end_at(channels: &[Channel], domain: usize, id: u64) -> Option<(End, End)>
    ensures { result ≡ end_at channels.now domain id }
{
    match channel_at(channels, domain, id) {
        Some(number) => match channels.get(number) {
            Some(channel) => end_in(domain, id, channel),
            None => None,
        },
        None => None,
    }
}

#[tactic(auto, using(crate::proofs::Ids::other_is_id), unfolding(crate::specs::Slots::notify_held))]
fn notify_held(description: &Description, minting: Minting, domain: usize, id: u64) -> Option<Held>
    ensures { result ≡ notify_held (description_of description.now) minting domain id }
{
    match end_at(&description.channels, domain, id) {
        Some((own, other)) if own.may_notify => Some(bell_held(
            minting,
            own.line,
            other.id.domain,
            write(),
            badge_of(other.id.number),
        )),
        _ => None,
    }
}

#[tactic(auto, using(crate::proofs::Ids::other_is_id), unfolding(crate::specs::Slots::call_held))]
fn call_held(description: &Description, minting: Minting, domain: usize, id: u64) -> Option<Held>
    ensures { result ≡ call_held (description_of description.now) minting domain id }
{
    match end_at(&description.channels, domain, id) {
        Some((own, other)) if own.may_call => Some(entry_held(
            minting,
            own.line,
            other.id.domain,
            write_reply(),
            (1 << 63) + other.id.number,
        )),
        _ => None,
    }
}

fn is_child(domain: usize, id: u64, one: &Domain) -> bool
    ensures { result ≡ is_child domain id (domain_of one.now) }
{
    match one.parent {
        Some(parent) => parent.domain == domain && parent.number == id,
        None => false,
    }
}

fn child_number(domains: &[Domain], domain: usize, id: u64) -> Option<usize>
    ensures { result ≡ child_number (domains_of domains.now) domain id }
{
    place_of(domains, domain, id)
}

fn place_of(domains: &[Domain], domain: usize, id: u64) -> Option<usize>
    ensures { result ≡ position (λ one. is_child domain id (domain_of one)) domains.now }
{
    domains.iter().position(|one| is_child(domain, id, one))
}

#[tactic(auto, unfolding(crate::specs::Slots::child_held))]
fn child_held(description: &Description, domain: usize, id: u64) -> Option<Held>
    ensures { result ≡ child_held (description_of description.now) domain id }
{
    match child_number(&description.domains, domain, id) {
        Some(child) => {
            let line = domain_line(description, child);
            Some(capability(line, Form::Main, child, Detail::Tcb))
        }
        None => None,
    }
}

fn processor_number(processors: &[Processor], domain: usize, id: u64) -> Option<usize>
    ensures { result ≡ processor_number processors.now domain id }
{
    processors.iter().position(|processor| processor.id.domain == domain
        && processor.id.number == id)
}

#[tactic(auto, unfolding(crate::specs::Slots::processor_held))]
fn processor_held(description: &Description, domain: usize, id: u64) -> Option<Held>
    ensures { result ≡ processor_held (description_of description.now) domain id }
{
    match processor_number(&description.processors, domain, id) {
        Some(number) => {
            let line = processor_line(description, number);
            Some(capability(line, Form::Processor, number, Detail::Tcb))
        }
        None => None,
    }
}
