//! The verdict on a table and a policy.
ghost use Rattle.std.specs.Prelude.{ℕ, ◌<◌, ◌↔◌, ◌≡◌, ◌≤◌, Err, IfOk};
ghost use Rattle.policy.specs.Policy.{allows};
ghost use Rattle.integrity.specs.Safe.{GuardsBudgets, KeepsIntegrity, KeepsNarrowBounds, LabelsObjects, RefusesOthers, StaysConfined};
ghost use Rattle.checker.specs.Check.{IfAccepted, IsCheck, error_refusal};

use base::{Misuse, Refusal};
use certificate::{Certificate, make};
use deal::Gate;
use policy::Policy;
use std::alloc::Global;
use std::thread::Threads;
use table::Table;
use verdict::{Accepted, Denial, judge};

/// The decision on a capability table and a policy.
#[derive(Drop)]
pub enum Verdict<'a> {
    /// No rule is broken; with the table's certificate.
    Accept(Accepted<'a>, Certificate),
    /// A rule is broken.
    Deny(Denial),
}

/// The reason why there is no verdict.
#[derive(Clone, Copy, PartialEq, Eq)]
pub enum CheckError {
    /// Memory was refused.
    NoMemory,
    /// The number of workers is outside 1 to 16.
    WorkerCount,
}

impl From<CheckError> for Refusal {
    ghost from_gives = { λ error refusal. refusal ≡ error_refusal error };

    fn from(error: CheckError) -> Refusal {
        match error {
            CheckError::NoMemory => Refusal::OUT_OF_MEMORY,
            CheckError::WorkerCount => Refusal::from(Misuse::WorkerCount),
        }
    }
}

/// Returns the verdict on a capability table and a policy, which 1 to 16 workers find.
///
/// Each worker arrives at the gate first. The verdict is the same for every number of workers. With
/// an acceptance comes the table's certificate.
///
/// Where they are accepted, this holds after every list of kernel calls by any threads in any
/// interleaving:
///
/// - every capability lies within the policy
/// - no step changes an object of a label on which its caller's label has no modifying authority
/// - no step changes an object of a label that its caller's label may not change, unless the object
///   only shrinks and the caller's label may make it smaller
/// - a context's configured budget or period changes only by a caller whose label has the policy's
///   SchedControl edge
/// - each object that is there has a label, so that no authority is unseen.
///
/// # Errors
///
/// [`CheckError::WorkerCount`] (45) where the number of workers is outside 1 to 16, and
/// [`CheckError::NoMemory`] (40) where memory is refused.
pub fn check<'a, R: Threads + Sync, G: Gate + Sync>(
    rt: &R,
    alloc: Global,
    table: &'a Table,
    policy: &'a Policy,
    workers: usize,
    gate: &G,
) -> Result<Verdict<'a>, CheckError>
    ensures verdict { IfOk result (IsCheck table.now policy.now) }
    ensures labelled { IfOk result (λ verdict. IfAccepted verdict (LabelsObjects table.now)) }
    ensures confined { IfOk result (λ verdict. IfAccepted verdict (StaysConfined table.now (allows policy.now))) }
    ensures integrity { IfOk result (λ verdict. IfAccepted verdict (KeepsIntegrity table.now (allows policy.now))) }
    ensures narrow { IfOk result (λ verdict. IfAccepted verdict (KeepsNarrowBounds table.now (allows policy.now))) }
    ensures budgets { IfOk result (λ verdict. IfAccepted verdict (GuardsBudgets table.now (allows policy.now))) }
    ensures acting { IfOk result (λ verdict. IfAccepted verdict (RefusesOthers table.now (allows policy.now))) }
    ensures arrived { IfOk result (λ verdict. IfAccepted verdict ((worker : ℕ) → worker < workers → G.HasArrived gate.now worker)) }
    ensures workers { (result ≡ Err CheckError.WorkerCount) ↔ ¬ ((1 ≤ workers) × (workers ≤ 16)) }
{
    if workers < 1 || workers > 16 {
        return Err(CheckError::WorkerCount);
    }
    match judge(rt, alloc, table, policy, workers, gate) {
        Ok(Ok(accepted)) => match make(alloc, table) {
            Ok(certificate) => Ok(Verdict::Accept(accepted, certificate)),
            Err(_) => Err(CheckError::NoMemory),
        },
        Ok(Err(denial)) => Ok(Verdict::Deny(denial)),
        Err(_) => Err(CheckError::NoMemory),
    }
}
