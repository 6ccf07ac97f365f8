//! The changes of a description by which an element no longer gives an authority.
use crate::elements::{Element, Gift};
use crate::naming::{UserName, domain_name, machine_name, region_name};
use base::{Kind, Rights};
use bitflags::Flags;
use microkit::{Description, Map, User};
use std::fmt;

/// A change of a description, written in words that begin with what to do.
#[derive(Clone, Copy)]
pub struct Remedy<'a> {
    description: &'a Description,
    change: Change,
}

/// The element to change.
#[derive(Clone, Copy)]
enum Change {
    /// A map, which is to give less, or nothing.
    Map {
        user: User,
        region: usize,
        change: MapChange,
    },
    /// An end of a channel by which a domain notifies another one.
    Notify(u64),
    /// An end of a channel by which a domain calls this one.
    Call(usize),
    /// A child, by its number and its parent's.
    Child(usize, usize),
    /// The virtual machine of a virtual processor.
    Machine(usize),
}

/// The change of a map.
#[derive(Clone, Copy)]
enum MapChange {
    ReadOnly,
    Gone,
}

/// Returns the change by which an element gives no authority of a kind, if it gives some over others.
pub(crate) fn remedy_of<'a>(element: Element<'a>, kind: Kind) -> Option<Remedy<'a>> {
    let description = element.description;
    let change = change_of(description, element.gift, kind)?;
    Some(Remedy {
        description,
        change,
    })
}

fn change_of(description: &Description, gift: Gift, kind: Kind) -> Option<Change> {
    match gift {
        Gift::Map {
            user,
            region,
            rights,
        } => {
            let change = map_change(rights, kind)?;
            Some(Change::Map {
                user,
                region,
                change,
            })
        }
        Gift::Notify { id, .. } if is_of_notification(kind) => Some(Change::Notify(id)),
        Gift::Call { other, .. } if is_of_endpoint(kind) => Some(Change::Call(other)),
        Gift::Child { child, parent } if is_of_inner(kind) => Some(Change::Child(child, parent)),
        Gift::Processor(number) if is_of_inner(kind) => {
            let processor = description.processors.get(number)?;
            Some(Change::Machine(processor.machine))
        }
        _ => None,
    }
}

fn map_change(rights: Rights, kind: Kind) -> Option<MapChange> {
    match kind {
        Kind::Write if rights.contains(Rights::WRITE) => Some(MapChange::ReadOnly),
        Kind::Read | Kind::Reset => Some(MapChange::Gone),
        _ => None,
    }
}

fn is_of_notification(kind: Kind) -> bool {
    matches!(kind, Kind::Notify | Kind::Await | Kind::Reset)
}

fn is_of_endpoint(kind: Kind) -> bool {
    matches!(
        kind,
        Kind::Send | Kind::Receive | Kind::Grant | Kind::Call | Kind::Reset
    )
}

// Whether authority of this kind is a parent's over what is in it, by the thread; or that over the
// parent, by the endpoint for faults.
fn is_of_inner(kind: Kind) -> bool {
    is_of_endpoint(kind) || matches!(kind, Kind::Control)
}

impl fmt::Display for Remedy<'_> {
    fn fmt<W: fmt::Write>(&self, f: &mut fmt::Formatter<W>) -> fmt::Result {
        let description = self.description;
        match self.change {
            Change::Map {
                user,
                region,
                change,
            } => tell_map(f, description, user, region, change),
            Change::Notify(id) => write!(
                f,
                "set `notify=\"false\"` at this end of channel {id}, or leave out the channel"
            ),
            Change::Call(server) => tell_call(f, description, server),
            Change::Child(child, parent) => {
                let child = domain_name(description, child);
                let parent = domain_name(description, parent);
                write!(f, "make `{child}` a domain of its own, outside `{parent}`")
            }
            Change::Machine(machine) => {
                let machine = machine_name(description, machine);
                write!(
                    f,
                    "move the virtual machine `{machine}` to a domain of its own"
                )
            }
        }
    }
}

// The change of a map, or of each one by which the user has the authority.
fn tell_map<W: fmt::Write>(
    f: &mut fmt::Formatter<W>,
    description: &Description,
    user: User,
    region: usize,
    change: MapChange,
) -> fmt::Result {
    let maps = Maps {
        description,
        user,
        region,
        change,
    };
    let user = UserName { description, user };
    match change {
        MapChange::ReadOnly => write!(
            f,
            "make {maps} `perms=\"r\"`, or give {user} a region of its own"
        ),
        MapChange::Gone => write!(f, "leave out {maps}, or give {user} a region of its own"),
    }
}

/// The maps to change: one map, or each map of the region by the user.
#[derive(Clone, Copy)]
struct Maps<'a> {
    description: &'a Description,
    user: User,
    region: usize,
    change: MapChange,
}

impl Maps<'_> {
    // The number of maps that give the authority.
    fn count(&self) -> usize {
        self.description
            .maps
            .iter()
            .filter(|map| self.has(map))
            .count()
    }

    fn has(&self, map: &Map) -> bool {
        let gives = match self.change {
            MapChange::ReadOnly => map.writable,
            MapChange::Gone => true,
        };
        gives && map.region == self.region && is_same(map.user, self.user)
    }
}

impl fmt::Display for Maps<'_> {
    fn fmt<W: fmt::Write>(&self, f: &mut fmt::Formatter<W>) -> fmt::Result {
        if self.count() > 1 {
            let user = UserName {
                description: self.description,
                user: self.user,
            };
            let region = region_name(self.description, self.region);
            write!(f, "each map of `{region}` in {user}")
        } else {
            f.write_str("the map")
        }
    }
}

fn is_same(one: User, other: User) -> bool {
    match (one, other) {
        (User::Domain(one), User::Domain(other)) => one == other,
        (User::Machine(one), User::Machine(other)) => one == other,
        _ => false,
    }
}

// The change of who may call: at an end, or by the server and the priorities.
fn tell_call<W: fmt::Write>(
    f: &mut fmt::Formatter<W>,
    description: &Description,
    server: usize,
) -> fmt::Result {
    let serves = match description.domains.get(server) {
        Some(domain) => domain.serves.unwrap_or(false),
        None => false,
    };
    if serves {
        let server = domain_name(description, server);
        write!(f, "leave out the channel, or `pp=\"true\"` of `{server}`")
    } else {
        f.write_str("leave out `pp=\"true\"` at this end")
    }
}
