//! Refusals: why a call isn't done, and the numbers by which that is written.
ghost use Rattle.std.specs.Prelude.{◌≡◌, ◌≢◌};
ghost use Rattle.base.specs.declared.refusal.{Cause.Cause as Why, LookupFailure.LookupFailure as Failure, Misuse.Misuse as Wrong};
ghost use Rattle.base.specs.Refusals.{IsOfCondition, failure_detail, misuse_refusal, out_of_memory, refusal_of};

use std::alloc::{AllocError, AllocFailed};

/// The reason why the lookup of an address failed (seL4 manual, "Lookup Failure Description").
#[derive(Clone, Copy, PartialEq, Eq)]
pub enum LookupFailure {
    /// The thread has no root, or its root is no CNode.
    InvalidRoot,
    /// The slot that was found is empty.
    MissingCapability,
    /// Bits are left where none may be, or too few are left for the next CNode.
    DepthMismatch,
    /// The guard of a CNode capability differs from the bits of the address.
    GuardMismatch,
}

/// The condition of a call that fails, so that the call is refused.
///
/// The first seven are the errors of the seL4 manual, "Error Codes".
#[derive(Clone, Copy, PartialEq, Eq)]
pub enum Cause {
    InvalidArgument,
    InvalidCapability,
    IllegalOperation,
    RangeError,
    FailedLookup(LookupFailure),
    DeleteFirst,
    NotEnoughMemory,
    /// The thread isn't ready, or has no context that is configured.
    NotRunnable,
    /// The thread's context is on another core.
    WrongCore,
    NoSuchThread,
    /// There would be too many objects, slots, threads or object numbers.
    TooMany,
}

/// The reason why what is asked of a running kernel, or of the checker, isn't begun.
///
/// No call of a thread is refused so.
#[derive(Clone, Copy, PartialEq, Eq)]
pub enum Misuse {
    /// The log of a running kernel is full.
    LogFull,
    /// A seat belongs to another kernel.
    ForeignSeat,
    /// The size of a log is outside 1 to 1,000,000.
    LogSize,
    /// The number of workers is outside 1 to 16.
    WorkerCount,
    /// The number of seats is outside 1 to 64.
    SeatCount,
}

/// A refusal as it is written: a code, and for a failed lookup a detail.
#[derive(Clone, Copy, PartialEq, Eq, Debug)]
pub struct Refusal {
    pub code: u64,
    pub detail: u64,
}

impl Refusal {
    /// The refusal of a call whose allocation failed: 40.
    pub const OUT_OF_MEMORY: Refusal = Refusal {
        code: 40,
        detail: 0,
    };
}

impl LookupFailure {
    /// Returns the number that stands for the failure in a [`Refusal`].
    pub fn detail(self) -> u64
        ensures { result ≡ failure_detail self }
    {
        match self {
            LookupFailure::InvalidRoot => 1,
            LookupFailure::MissingCapability => 2,
            LookupFailure::DepthMismatch => 3,
            LookupFailure::GuardMismatch => 4,
        }
    }
}

impl From<Cause> for Refusal {
    ghost from_gives = { λ cause refusal. refusal ≡ refusal_of cause };

    fn from(cause: Cause) -> Refusal {
        let code = match cause {
            Cause::InvalidArgument => 1,
            Cause::InvalidCapability => 2,
            Cause::IllegalOperation => 3,
            Cause::RangeError => 4,
            Cause::FailedLookup(failure) => {
                return Refusal {
                    code: 6,
                    detail: failure.detail(),
                };
            }
            Cause::DeleteFirst => 8,
            Cause::NotEnoughMemory => 10,
            Cause::NotRunnable => 32,
            Cause::WrongCore => 33,
            Cause::NoSuchThread => 34,
            Cause::TooMany => 44,
        };
        Refusal { code, detail: 0 }
    }
}

impl From<Misuse> for Refusal {
    ghost from_gives = { λ misuse refusal. refusal ≡ misuse_refusal misuse };

    fn from(misuse: Misuse) -> Refusal {
        let code = match misuse {
            Misuse::LogFull => 41,
            Misuse::ForeignSeat => 42,
            Misuse::LogSize => 43,
            Misuse::WorkerCount => 45,
            Misuse::SeatCount => 46,
        };
        Refusal { code, detail: 0 }
    }
}

impl From<AllocError> for Refusal {
    ghost from_gives = { λ error refusal. refusal ≡ out_of_memory };

    fn from(_error: AllocError) -> Refusal {
        Refusal::OUT_OF_MEMORY
    }
}

impl<T: Drop> From<AllocFailed<T>> for Refusal {
    ghost from_gives = { λ failed refusal. refusal ≡ out_of_memory };

    fn from(_failed: AllocFailed<T>) -> Refusal {
        Refusal::OUT_OF_MEMORY
    }
}

/// A law: different causes have different refusals, so a refusal tells its cause.
///
/// Different misuses have different refusals too, and different failures of a lookup have different
/// details. No condition is refused as a misuse or for lack of memory, and lack of memory isn't a
/// misuse.
pub fn a_refusal_tells_its_cause()
    ensures cause { (one other : Why) → refusal_of one ≡ refusal_of other → one ≡ other }
    ensures misuse { (one other : Wrong) → misuse_refusal one ≡ misuse_refusal other → one ≡ other }
    ensures failure { (one other : Failure) → failure_detail one ≡ failure_detail other → one ≡ other }
    ensures condition { (why : Why) → IsOfCondition (refusal_of why) }
    ensures apart { (why : Why) (wrong : Wrong) → refusal_of why ≢ misuse_refusal wrong }
    ensures lasting { (why : Why) → refusal_of why ≢ out_of_memory }
    ensures memory { (wrong : Wrong) → out_of_memory ≢ misuse_refusal wrong }
{}
