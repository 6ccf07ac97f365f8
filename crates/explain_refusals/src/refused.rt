//! The sentences on calls that are refused: which condition isn't met.
ghost use Rattle.std.specs.Prelude.{◌≡◌, IfSome};
ghost use Rattle.base.specs.Refusals.{refusal_of};

use crate::calls::Caller;
use crate::sought::{Looked, Wants, wants_of};
use base::{Cause, LookupFailure, MAX_MADE, MAX_PERIOD, MAX_RADIX, Refusal};
use machine::{Call, CapData, Event, MemoryKind, ObjectKind, SlotAddress};
use std::fmt;

/// All that a condition of a call is refused for.
const CAUSES: [Cause; 14] = [
    Cause::InvalidArgument,
    Cause::InvalidCapability,
    Cause::IllegalOperation,
    Cause::RangeError,
    Cause::FailedLookup(LookupFailure::InvalidRoot),
    Cause::FailedLookup(LookupFailure::MissingCapability),
    Cause::FailedLookup(LookupFailure::DepthMismatch),
    Cause::FailedLookup(LookupFailure::GuardMismatch),
    Cause::DeleteFirst,
    Cause::NotEnoughMemory,
    Cause::NotRunnable,
    Cause::WrongCore,
    Cause::NoSuchThread,
    Cause::TooMany,
];

/// The cause that is written so; none where it is no condition's.
fn cause_of(refusal: Refusal) -> Option<Cause>
    ensures { IfSome result (λ cause. refusal_of cause ≡ refusal) }
{
    for cause in CAUSES {
        if Refusal::from(cause) == refusal {
            return Some(cause);
        }
    }
    None
}

/// Why a call is refused: of several conditions that are refused alike the ones that the call has.
#[derive(Clone, Copy)]
pub(crate) struct Refused<'a> {
    pub caller: Caller<'a>,
    pub event: &'a Event,
    pub refusal: Refusal,
}

impl fmt::Display for Refused<'_> {
    fn fmt<W: fmt::Write>(&self, f: &mut fmt::Formatter<W>) -> fmt::Result {
        let (caller, call) = (self.caller, &self.event.call);
        match cause_of(self.refusal) {
            Some(Cause::NoSuchThread) => write!(f, "{}", Threadless(caller)),
            Some(Cause::NotRunnable) => write!(
                f,
                "{caller} isn't ready to call, or doesn't run on a configured context"
            ),
            Some(Cause::WrongCore) => {
                let core = self.event.core;
                write!(f, "{caller} runs on a context of a core other than {core}")
            }
            Some(Cause::InvalidCapability) => {
                let wants = Wants(wants_of(call));
                write!(f, "{caller} finds {wants}")
            }
            Some(Cause::FailedLookup(failure)) => {
                write!(
                    f,
                    "{}",
                    Lost {
                        caller,
                        call,
                        failure
                    }
                )
            }
            Some(cause) => write!(
                f,
                "{}",
                Unmet {
                    caller,
                    call,
                    cause
                }
            ),
            None if self.refusal == Refusal::OUT_OF_MEMORY => {
                f.write_str("confine itself got no memory; nothing has changed")
            }
            None => f.write_str("no call is refused this way"),
        }
    }
}

/// That there is no thread that would call.
#[derive(Clone, Copy)]
struct Threadless<'a>(Caller<'a>);

impl fmt::Display for Threadless<'_> {
    fn fmt<W: fmt::Write>(&self, f: &mut fmt::Formatter<W>) -> fmt::Result {
        let caller = self.0;
        match caller.kind {
            Some(ObjectKind::Tcb) => write!(f, "{caller} no longer exists"),
            Some(_) => write!(f, "{caller} isn't a thread"),
            None => write!(f, "there is no {caller}"),
        }
    }
}

/// Why a lookup of a call fails.
#[derive(Clone, Copy)]
struct Lost<'a> {
    caller: Caller<'a>,
    call: &'a Call,
    failure: LookupFailure,
}

impl fmt::Display for Lost<'_> {
    fn fmt<W: fmt::Write>(&self, f: &mut fmt::Formatter<W>) -> fmt::Result {
        let caller = self.caller;
        let looked = Looked(self.call);
        match self.failure {
            LookupFailure::InvalidRoot => match source_of(self.call) {
                Some(from) => {
                    let root = from.root;
                    write!(
                        f,
                        "{caller} has no root, or finds no capability for a CNode at address {root}"
                    )
                }
                None => write!(f, "{caller} has no root in which to find capabilities"),
            },
            LookupFailure::MissingCapability => match *self.call {
                Call::Retype { to, .. } => {
                    write!(
                        f,
                        "{caller} finds no capability for a CNode at address {to}"
                    )
                }
                _ => match source_of(self.call) {
                    Some(from) => write!(f, "the slot {from} is empty"),
                    None => f.write_str("a slot is empty"),
                },
            },
            LookupFailure::DepthMismatch => write!(
                f,
                "{looked} doesn't end at a slot: a CNode takes more bits than are left, or some bits are left over"
            ),
            LookupFailure::GuardMismatch => {
                write!(f, "{looked} doesn't match the guard of a CNode on the way")
            }
        }
    }
}

/// The slot from which a call takes a capability.
fn source_of(call: &Call) -> Option<SlotAddress> {
    match *call {
        Call::Copy { from, .. } | Call::Mint { from, .. } | Call::Move { from, .. } => Some(from),
        _ => None,
    }
}

/// Which condition of a call isn't met, once all that it names is found.
#[derive(Clone, Copy)]
struct Unmet<'a> {
    caller: Caller<'a>,
    call: &'a Call,
    cause: Cause,
}

impl fmt::Display for Unmet<'_> {
    fn fmt<W: fmt::Write>(&self, f: &mut fmt::Formatter<W>) -> fmt::Result {
        match self.cause {
            Cause::InvalidArgument => f.write_str(
                "new untyped memory needs at least 4 bits, and a new CNode at least 1",
            ),
            Cause::IllegalOperation => write!(f, "{}", Illegal { of: *self }),
            Cause::RangeError => write!(f, "{}", OutOfRange(self.call)),
            Cause::DeleteFirst => write!(f, "{}", Filled(self.call)),
            Cause::NotEnoughMemory => match self.call {
                Call::Retype {
                    untyped,
                    kind,
                    count,
                    ..
                } => write!(
                    f,
                    "the untyped memory at address {untyped} has no room for {count} of kind {kind}"
                ),
                _ => f.write_str("untyped memory has no room"),
            },
            _ => f.write_str("there would be too many objects, slots, threads or object numbers"),
        }
    }
}

/// Which operation isn't allowed.
#[derive(Clone, Copy)]
struct Illegal<'a> {
    of: Unmet<'a>,
}

impl fmt::Display for Illegal<'_> {
    fn fmt<W: fmt::Write>(&self, f: &mut fmt::Formatter<W>) -> fmt::Result {
        let caller = self.of.caller;
        match self.of.call {
            Call::Fetch => write!(f, "the inbox of {caller} is empty"),
            Call::Mint {
                from,
                given: CapData::Badge(_),
                ..
            } => write!(
                f,
                "the capability in the slot {from} isn't for an endpoint or a notification, or already has a badge"
            ),
            Call::Mint {
                from,
                given: CapData::Guard { size, .. },
                ..
            } => write!(
                f,
                "the capability in the slot {from} isn't for a CNode, or {size} bits plus the radix are more than 64"
            ),
            Call::Copy { from, .. } => write!(
                f,
                "the capability in the slot {from} is for untyped memory, and can be moved but not copied"
            ),
            Call::Bind { context, thread } => write!(
                f,
                "the context at address {context} already runs a thread, or the thread at address {thread} \
                 already runs on a context"
            ),
            _ => f.write_str("the operation isn't allowed"),
        }
    }
}

/// Which number is out of its range.
#[derive(Clone, Copy)]
struct OutOfRange<'a>(&'a Call);

impl fmt::Display for OutOfRange<'_> {
    fn fmt<W: fmt::Write>(&self, f: &mut fmt::Formatter<W>) -> fmt::Result {
        match *self.0 {
            Call::Copy { to, from, .. } | Call::Mint { to, from, .. } | Call::Move { to, from } => {
                let depth = if is_depth(to.depth) {
                    from.depth
                } else {
                    to.depth
                };
                write!(f, "a depth is 1 to 64, not {depth}")
            }
            Call::Delete { slot } | Call::Revoke { slot } => {
                let depth = slot.depth;
                write!(f, "a depth is 1 to 64, not {depth}")
            }
            Call::Read { index, .. } | Call::Write { index, .. } => {
                write!(f, "a frame has the words 0 to 511, but no word {index}")
            }
            Call::Configure { .. } => {
                let most = MAX_PERIOD;
                write!(
                    f,
                    "a budget is at least 1 and at most its period, and a period is at most {most}"
                )
            }
            Call::Retype {
                kind,
                bits,
                to,
                offset,
                count,
                ..
            } => {
                let (most_bits, most_made) = (most_bits(kind), MAX_MADE);
                if bits > most_bits {
                    write!(
                        f,
                        "for kind {kind}, BITS is at most {most_bits}, not {bits}"
                    )
                } else if count == 0 || count > most_made {
                    write!(f, "1 to {most_made} objects are made at once, not {count}")
                } else {
                    write!(
                        f,
                        "the CNode at address {to} doesn't have {count} slots from slot {offset} on"
                    )
                }
            }
            _ => f.write_str("a number is out of its range"),
        }
    }
}

/// How many bits untyped memory has at most, and which radix a CNode; other kinds take any number.
fn most_bits(kind: MemoryKind) -> u64 {
    match kind {
        MemoryKind::Untyped => 47,
        MemoryKind::CNode => u64::from(MAX_RADIX),
        _ => u64::MAX,
    }
}

/// Whether a slot can be looked up at this depth.
fn is_depth(depth: u64) -> bool {
    1 <= depth && depth <= 64
}

/// Which slot is filled.
#[derive(Clone, Copy)]
struct Filled<'a>(&'a Call);

impl fmt::Display for Filled<'_> {
    fn fmt<W: fmt::Write>(&self, f: &mut fmt::Formatter<W>) -> fmt::Result {
        match *self.0 {
            Call::Copy { to, .. } | Call::Mint { to, .. } | Call::Move { to, .. } => {
                write!(f, "the slot {to} is already filled")
            }
            Call::Retype { to, offset, .. } => write!(
                f,
                "one of the slots to fill in the CNode at address {to}, from slot {offset} on, is already filled"
            ),
            _ => f.write_str("the slot is already filled"),
        }
    }
}
