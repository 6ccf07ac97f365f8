//! Lookups of calls: what a call looks up, and which capability it wants to find there.
use machine::Call;
use std::fmt;

/// The capability that a call wants to find at an address.
#[derive(Clone, Copy)]
pub(crate) struct Wanted {
    what: &'static str,
    address: u64,
}

/// The capabilities that a call wants to find, one or two.
#[derive(Clone, Copy)]
pub(crate) struct Wants(pub Option<(Wanted, Option<Wanted>)>);

impl fmt::Display for Wants {
    fn fmt<W: fmt::Write>(&self, f: &mut fmt::Formatter<W>) -> fmt::Result {
        match self.0 {
            Some((one, two)) => {
                let Wanted { what, address } = one;
                write!(f, "no {what} at address {address}")?;
                match two {
                    Some(Wanted { what, address }) => {
                        write!(f, ", or no {what} at address {address}")
                    }
                    None => Ok(()),
                }
            }
            None => f.write_str("no capability"),
        }
    }
}

const CNODE: &str = "capability for a CNode";

const TCB: &str = "capability for a thread";

const CONTEXT: &str = "capability for a context";

const REPLY: &str = "capability for a reply";

/// One capability.
fn one(what: &'static str, address: u64) -> Option<(Wanted, Option<Wanted>)> {
    Some((Wanted { what, address }, None))
}

/// One capability, and then another.
fn two(
    what: &'static str,
    address: u64,
    other: &'static str,
    place: u64,
) -> Option<(Wanted, Option<Wanted>)> {
    let second = Wanted {
        what: other,
        address: place,
    };
    Some((Wanted { what, address }, Some(second)))
}

/// What a call wants to find, in the order in which it is looked up; a source's slot isn't told.
pub(crate) fn wants_of(call: &Call) -> Option<(Wanted, Option<Wanted>)> {
    match *call {
        Call::Signal { address } => one(
            "capability with the right `w` for a notification",
            address,
        ),
        Call::Poll { address } | Call::Wait { address } => one(
            "capability with the right `r` for a notification",
            address,
        ),
        Call::Send { address, .. } | Call::Call { address, .. } => {
            one("capability with the right `w` for an endpoint", address)
        }
        Call::Receive { address, reply, .. } => {
            let what = "capability with the right `r` for an endpoint";
            match reply {
                Some(reply) => two(what, address, REPLY, reply),
                None => one(what, address),
            }
        }
        Call::Reply { address, .. } => one(REPLY, address),
        Call::Fetch => None,
        Call::Copy { to, .. } | Call::Mint { to, .. } | Call::Move { to, .. } => {
            one(CNODE, to.root)
        }
        Call::Delete { slot } | Call::Revoke { slot } => one(CNODE, slot.root),
        Call::Retype { untyped, .. } => one("capability for untyped memory", untyped),
        Call::Read { address, .. } => one("capability with the right `r` for a frame", address),
        Call::Write { address, .. } => one("capability with the right `w` for a frame", address),
        Call::SetSpace { thread, space } => two(TCB, thread, CNODE, space),
        Call::ClearSpace { thread } | Call::Suspend { thread } | Call::Resume { thread } => {
            one(TCB, thread)
        }
        Call::Configure {
            control,
            context,
            ..
        } => two("capability for a control", control, CONTEXT, context),
        Call::Bind { context, thread } => two(CONTEXT, context, TCB, thread),
        Call::Unbind { context } => one(CONTEXT, context),
    }
}

/// What a call looks up: its address, or that there are several.
#[derive(Clone, Copy)]
pub(crate) struct Looked<'a>(pub &'a Call);

impl fmt::Display for Looked<'_> {
    fn fmt<W: fmt::Write>(&self, f: &mut fmt::Formatter<W>) -> fmt::Result {
        match *self.0 {
            Call::Copy { .. }
            | Call::Mint { .. }
            | Call::Move { .. }
            | Call::Delete { .. }
            | Call::Revoke { .. } => return f.write_str("an address or an index"),
            Call::Retype { untyped, to, .. } => {
                return write!(f, "address {untyped} or {to}");
            }
            _ => {}
        }
        match wants_of(self.0) {
            Some((one, Some(two))) => {
                let (one, two) = (one.address, two.address);
                write!(f, "address {one} or {two}")
            }
            Some((one, None)) => {
                let address = one.address;
                write!(f, "address {address}")
            }
            None => f.write_str("an address"),
        }
    }
}
