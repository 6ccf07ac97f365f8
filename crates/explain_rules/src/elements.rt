//! The elements of a description that the capabilities of an imported table come from.
use crate::naming::{UserName, domain_name, machine_name, region_name};
use crate::remedies::{Remedy, remedy_of};
use base::{Kind, Rights};
use importing::{BELLS, CALLS, Form, Grant};
use machine::{Badged, Detail};
use microkit::{Description, Processor, User};
use std::fmt;

/// An element of a description, by what it gives to a domain or a virtual machine.
///
/// The words for a person are, for example: `plugin` maps `plugin_in` (rw).
#[derive(Clone, Copy)]
pub struct Element<'a> {
    pub(crate) description: &'a Description,
    pub(crate) gift: Gift,
    line: u64,
}

/// What an element gives. Domains, virtual machines and their processors are named by their numbers.
#[derive(Clone, Copy)]
pub(crate) enum Gift {
    Map {
        user: User,
        region: usize,
        rights: Rights,
    },
    /// A capability for another domain's notification, by an end with this id.
    Notify {
        domain: usize,
        other: usize,
        id: u64,
    },
    /// A capability for another domain's endpoint, by an end with this id.
    Call {
        domain: usize,
        other: usize,
        id: u64,
    },
    /// The capabilities that a parent and its child have for each other.
    Child {
        child: usize,
        parent: usize,
    },
    /// The capabilities that a virtual machine and its domain have for each other.
    Processor(usize),
    /// The root of the thread of a virtual processor.
    ProcessorRoot(usize),
    /// The capabilities that a domain has for its own objects.
    Own {
        domain: usize,
        part: OwnPart,
    },
}

/// A domain's own object.
#[derive(Clone, Copy)]
pub(crate) enum OwnPart {
    Endpoint,
    Notification,
    Reply,
    Root,
}

impl<'a> Element<'a> {
    /// Returns the element that a capability comes from.
    pub(crate) fn of(description: &'a Description, grant: &Grant) -> Option<Element<'a>> {
        let gift = gift_of(description, grant)?;
        Some(Element {
            description,
            gift,
            line: grant.line,
        })
    }

    /// Returns the line of the element in the description, from 1.
    pub fn line(self) -> usize {
        self.line as usize
    }

    /// Returns what to change in the description so that it no longer gives authority of this kind.
    ///
    /// It is `None` if the element gives no such authority, or only to a domain over itself.
    pub fn remedy(self, kind: Kind) -> Option<Remedy<'a>> {
        remedy_of(self, kind)
    }
}

// The gift of a capability, by its holder, slot and object.
fn gift_of(description: &Description, grant: &Grant) -> Option<Gift> {
    let (holder, target) = (grant.holder.number, grant.target.number);
    match (grant.holder.form, grant.target.form) {
        (Form::Space, Form::Frame) => map_gift(User::Domain(holder), grant),
        (Form::GuestSpace, Form::Frame) => map_gift(User::Machine(holder), grant),
        (Form::Space, Form::Bell) => Some(bell_gift(holder, grant)),
        (Form::Space, Form::Entry) => Some(entry_gift(holder, grant)),
        (Form::Space, Form::Main) => Some(Gift::Child {
            child: target,
            parent: holder,
        }),
        (Form::Space, Form::Processor) => Some(Gift::Processor(target)),
        (Form::GuestSpace, Form::Entry) => fault_gift(description, holder, grant),
        (Form::Space, Form::Answer) => Some(own(holder, OwnPart::Reply)),
        (Form::Main, Form::Space) => Some(own(holder, OwnPart::Root)),
        (Form::Processor, Form::GuestSpace) => Some(Gift::ProcessorRoot(holder)),
        _ => None,
    }
}

fn own(domain: usize, part: OwnPart) -> Gift {
    Gift::Own { domain, part }
}

fn map_gift(user: User, grant: &Grant) -> Option<Gift> {
    match grant.detail {
        Detail::Frame(rights) => Some(Gift::Map {
            user,
            region: grant.target.number,
            rights,
        }),
        _ => None,
    }
}

// A domain has its own notification in slot 1 or 3, and others for its channels.
fn bell_gift(domain: usize, grant: &Grant) -> Gift {
    match grant.index.checked_sub(BELLS) {
        Some(id) => Gift::Notify {
            domain,
            other: grant.target.number,
            id,
        },
        None => own(domain, OwnPart::Notification),
    }
}

// A domain has its own endpoint in slot 1, a child its parent's in slot 2, and others for their channels.
fn entry_gift(domain: usize, grant: &Grant) -> Gift {
    let other = grant.target.number;
    match grant.index.checked_sub(CALLS) {
        Some(id) => Gift::Call { domain, other, id },
        None => match grant.index {
            2 => Gift::Child {
                child: domain,
                parent: other,
            },
            _ => own(domain, OwnPart::Endpoint),
        },
    }
}

// The virtual processor of a machine whose faults have the badge of this capability.
fn fault_gift(description: &Description, machine: usize, grant: &Grant) -> Option<Gift> {
    let badge = badge_of(&grant.detail)?;
    let number = description
        .processors
        .iter()
        .position(|processor| is_told_by(processor, machine, badge))?;
    Some(Gift::Processor(number))
}

fn badge_of(detail: &Detail) -> Option<u64> {
    match *detail {
        Detail::Endpoint(Badged { badge, .. }) => Some(badge),
        _ => None,
    }
}

// The badge of a fault is the id of the virtual processor with bit 62 set.
fn is_told_by(processor: &Processor, machine: usize, badge: u64) -> bool {
    processor.machine == machine && badge.checked_sub(1 << 62) == Some(processor.id.number)
}

impl fmt::Display for Element<'_> {
    fn fmt<W: fmt::Write>(&self, f: &mut fmt::Formatter<W>) -> fmt::Result {
        let description = self.description;
        match self.gift {
            Gift::Map {
                user,
                region,
                rights,
            } => {
                let user = UserName { description, user };
                let region = region_name(description, region);
                write!(f, "{user} maps `{region}` ({rights})")
            }
            Gift::Notify { domain, other, id } => {
                tell_channel(f, description, domain, "notify", other, id)
            }
            Gift::Call { domain, other, id } => {
                tell_channel(f, description, domain, "call", other, id)
            }
            Gift::Child { child, parent } => {
                let child = domain_name(description, child);
                let parent = domain_name(description, parent);
                write!(f, "`{child}` is a child of `{parent}`")
            }
            Gift::Processor(number) | Gift::ProcessorRoot(number) => {
                tell_processor(f, description, number)
            }
            Gift::Own { domain, part } => {
                let domain = domain_name(description, domain);
                let deed = own_words(part);
                write!(f, "`{domain}` is a protection domain, which {deed}")
            }
        }
    }
}

fn tell_channel<W: fmt::Write>(
    f: &mut fmt::Formatter<W>,
    description: &Description,
    domain: usize,
    verb: &str,
    other: usize,
    id: u64,
) -> fmt::Result {
    let domain = domain_name(description, domain);
    let other = domain_name(description, other);
    write!(f, "`{domain}` may {verb} `{other}` by channel {id}")
}

fn tell_processor<W: fmt::Write>(
    f: &mut fmt::Formatter<W>,
    description: &Description,
    number: usize,
) -> fmt::Result {
    match description.processors.get(number) {
        Some(processor) => {
            let machine = machine_name(description, processor.machine);
            let domain = domain_name(description, processor.id.domain);
            let id = processor.id.number;
            write!(f, "`{domain}` runs virtual processor {id} of `{machine}`")
        }
        None => Ok(()),
    }
}

// The words for what a domain does with its own objects.
fn own_words(part: OwnPart) -> &'static str {
    match part {
        OwnPart::Endpoint => "receives calls",
        OwnPart::Notification => "receives notifications",
        OwnPart::Reply => "has a reply object",
        OwnPart::Root => "has a CNode",
    }
}
