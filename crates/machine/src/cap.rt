//! Capabilities, and the authority that they give.
ghost use Rattle.std.specs.Prelude.{◌<◌, ◌^◌, ◌≡◌, filter};
ghost use Rattle.base.specs.{declared.kind.{Kind.Kind as KindOf, TheConstants.Kind.ALL}, Kinds.is_among};
ghost use Rattle.machine.specs.Capabilities.{badge_of, badged_of, gives, kind_of_detail};

use crate::ObjectKind;
use base::{Kind, Kinds, ObjId, Rights, kind_names_are_read_back};

/// The bits that an address must begin with: the low `size` bits of `value` (seL4 manual, "CNode Guards").
#[derive(Clone, Copy, PartialEq, Eq)]
pub struct Guard {
    /// 0 to 64.
    pub size: u8,
    pub value: u64,
}

/// The rights of a capability, and a badge that tells its users apart (seL4 manual, "Badges").
#[derive(Clone, Copy, PartialEq, Eq)]
pub struct Badged {
    pub rights: Rights,
    pub badge: u64,
}

/// The part of a capability that depends on the kind of its object.
#[derive(Clone, Copy, PartialEq, Eq)]
pub enum Detail {
    Untyped,
    CNode(Guard),
    Tcb,
    Endpoint(Badged),
    Notification(Badged),
    Reply,
    Context,
    /// A frame's rights.
    Frame(Rights),
    Control,
}

/// A capability.
#[derive(Clone, Copy, PartialEq, Eq)]
pub struct Cap {
    pub object: ObjId,
    pub detail: Detail,
    /// Whether copies of it are its children in the derivation tree.
    pub original: bool,
}

impl Detail {
    /// Returns the kind of object that the capability is for.
    pub fn kind(&self) -> ObjectKind
        ensures { result ≡ kind_of_detail self.now }
    {
        match self {
            Detail::Untyped => ObjectKind::Untyped,
            Detail::CNode(_) => ObjectKind::CNode,
            Detail::Tcb => ObjectKind::Tcb,
            Detail::Endpoint(_) => ObjectKind::Endpoint,
            Detail::Notification(_) => ObjectKind::Notification,
            Detail::Reply => ObjectKind::Reply,
            Detail::Context => ObjectKind::Context,
            Detail::Frame(_) => ObjectKind::Frame,
            Detail::Control => ObjectKind::Control,
        }
    }

    /// Returns the badge; a kind without badges has badge 0.
    pub fn badge(&self) -> u64
        ensures { result ≡ badge_of self.now }
    {
        match self {
            Detail::Endpoint(end) | Detail::Notification(end) => end.badge,
            _ => 0,
        }
    }

    /// Returns the rights and the badge; a kind without them has no rights, and badge 0.
    pub fn badged(&self) -> Badged
        ensures { result ≡ badged_of self.now }
    {
        use bitflags::Flags;

        match self {
            Detail::Endpoint(end) | Detail::Notification(end) => *end,
            Detail::Frame(rights) => Badged {
                rights: *rights,
                badge: 0,
            },
            _ => Badged {
                rights: Rights::empty(),
                badge: 0,
            },
        }
    }

    /// Returns the kinds of authority that such a capability may give from a slot of a CNode, in the order of their numbers.
    ///
    /// The capability's rights say which of them it gives.
    pub fn possible_kinds(&self) -> &'static [Kind]
        ensures { filter (gives self.now) result.now ≡ filter (gives self.now) ALL }
    {
        match self {
            Detail::Untyped | Detail::CNode(_) | Detail::Tcb => &[Kind::Control],
            Detail::Endpoint(_) => &[
                Kind::Reset,
                Kind::Send,
                Kind::Receive,
                Kind::Grant,
                Kind::Call,
            ],
            Detail::Notification(_) => &[Kind::Reset, Kind::Notify, Kind::Await],
            Detail::Frame(_) => &[Kind::Reset, Kind::Read, Kind::Write],
            Detail::Reply => &[Kind::Reply],
            Detail::Context => &[Kind::Context],
            Detail::Control => &[Kind::SchedControl],
        }
    }
}

impl Cap {
    /// Returns whether the capability, in a slot of a CNode, gives this kind of authority over its object.
    pub fn gives(&self, kind: Kind) -> bool
        ensures { result ≡ gives self.now.detail kind }
    {
        use bitflags::Flags;

        match (self.detail, kind) {
            (Detail::Untyped | Detail::CNode(_) | Detail::Tcb, Kind::Control) => true,
            (Detail::Endpoint(_) | Detail::Notification(_) | Detail::Frame(_), Kind::Reset) => true,
            (Detail::Endpoint(end), Kind::Send) => end.rights.contains(Rights::WRITE),
            (Detail::Endpoint(end), Kind::Receive) => end.rights.contains(Rights::READ),
            (Detail::Endpoint(end), Kind::Grant) => {
                end.rights.contains(Rights::WRITE) && end.rights.contains(Rights::GRANT)
            }
            (Detail::Endpoint(end), Kind::Call) => {
                end.rights.contains(Rights::WRITE)
                    && (end.rights.contains(Rights::GRANT)
                        || end.rights.contains(Rights::GRANT_REPLY))
            }
            (Detail::Notification(end), Kind::Notify) => end.rights.contains(Rights::WRITE),
            (Detail::Notification(end), Kind::Await) => end.rights.contains(Rights::READ),
            (Detail::Frame(rights), Kind::Read) => rights.contains(Rights::READ),
            (Detail::Frame(rights), Kind::Write) => rights.contains(Rights::WRITE),
            (Detail::Reply, Kind::Reply) => true,
            (Detail::Context, Kind::Context) => true,
            (Detail::Control, Kind::SchedControl) => true,
            _ => false,
        }
    }

    /// Returns all kinds of authority that the capability, in a slot of a CNode, gives over its object.
    pub fn kinds(&self) -> Kinds
        ensures each { (kind : KindOf) → is_among result.0 kind ≡ gives self.now.detail kind }
        ensures alone { result.0 < 2 ^ 17 }
    {
        use bitflags::Flags;

        kind_names_are_read_back();
        let mut kinds = Kinds::empty();
        for kind in &Kind::ALL {
            if self.gives(*kind) {
                kinds.insert(Kinds::from(*kind));
            }
        }
        kinds
    }
}
