//! The verdict on a table, a policy and a certificate.
ghost use Rattle.std.specs.Prelude.{◌↔◌, ◌≡◌, IfNone, IfOk, IfSome, IsTrue};
ghost use Rattle.policy.specs.Policy.{allows};
ghost use Rattle.integrity.specs.Safe.{GuardsBudgets, IsSafe, KeepsIntegrity, KeepsNarrowBounds, LabelsObjects};
ghost use Rattle.{integrity.specs.Safe.{RefusesOthers, StaysConfined}, certificate.specs.Right.right_certificate};
ghost use Rattle.checker.specs.Verified.{DiffersFirst, IsVerified, IsVerifiedBy};

use base::Refusal;
use certificate::{Certificate, Line, make};
use deal::Open;
use policy::Policy;
use std::alloc::Global;
use std::thread::Threads;
use table::Table;
use verdict::{Accepted, Denial, Rules, judge, judge_by};

/// The reason why a table, a policy and a certificate aren't accepted.
#[derive(Clone, Copy)]
pub enum NotAccepted {
    /// A rule is broken: P1 to P8, S1 to S8 or A1 to A4, or C1 where the certificate isn't the right one.
    Denied(Denial),
    /// Memory was refused.
    NoMemory,
}

/// Returns the acceptance of a capability table and a policy, if a certificate for the table is
/// right too.
///
/// The system is accepted if [`judge`] accepts the table with the policy and the certificate is the
/// one that [`make`] makes of the table.
///
/// What is promised of an accepted system is what `judge` promises.
///
/// # Errors
///
/// [`NotAccepted::Denied`] with the denial of the table and the policy, or with C1 and the first
/// line that differs; [`NotAccepted::NoMemory`] where memory is refused.
#[tactic(auto, using(crate::proofs::Differences::rules_deny))]
pub fn verify<'a, R: Threads + Sync>(
    rt: &R,
    alloc: Global,
    table: &'a Table,
    policy: &'a Policy,
    certificate: &Certificate,
) -> Result<Accepted<'a>, NotAccepted>
    ensures verdict { IsVerified table.now policy.now certificate.now result }
    ensures labelled { IfOk result (λ accepted. LabelsObjects table.now) }
    ensures confined { IfOk result (λ accepted. StaysConfined table.now (allows policy.now)) }
    ensures integrity { IfOk result (λ accepted. KeepsIntegrity table.now (allows policy.now)) }
    ensures narrow { IfOk result (λ accepted. KeepsNarrowBounds table.now (allows policy.now)) }
    ensures budgets { IfOk result (λ accepted. GuardsBudgets table.now (allows policy.now)) }
    ensures acting { IfOk result (λ accepted. RefusesOthers table.now (allows policy.now)) }
{
    let accepted = match judge(rt, alloc, table, policy, 1, &Open) {
        Ok(Ok(accepted)) => accepted,
        Ok(Err(denial)) => return Err(NotAccepted::Denied(denial)),
        Err(_) => return Err(NotAccepted::NoMemory),
    };
    match wrong_line(alloc, table, certificate) {
        Ok(None) => Ok(accepted),
        Ok(Some(line)) => Err(NotAccepted::Denied(Denial::Certificate { line })),
        Err(_) => Err(NotAccepted::NoMemory),
    }
}

/// Verifies a certificate with a capability table and a policy, which a set of rules judges, as
/// [`verify`] does by P1 to P8.
///
/// The rules of the set and A1 to A4 come first, as [`judge_by`] has them, and then C1. Every run from the table's boot
/// state is safe if all three are accepted.
///
/// # Errors
///
/// [`NotAccepted::Denied`] with the denial of the table and the policy, or with C1 and the first
/// line that differs; [`NotAccepted::NoMemory`] where memory is refused.
#[tactic(auto, using(crate::proofs::Differences::rules_deny_by))]
pub fn verify_by<R: Threads + Sync>(
    rt: &R,
    alloc: Global,
    table: &Table,
    policy: &Policy,
    rules: Rules,
    certificate: &Certificate,
) -> Result<(), NotAccepted>
    ensures verdict { IsVerifiedBy rules table.now policy.now certificate.now result }
    ensures safe { IfOk result (λ accepted. IsSafe table.now (allows policy.now)) }
{
    match judge_by(rt, alloc, table, policy, rules, 1, &Open) {
        Ok(Ok(())) => match wrong_line(alloc, table, certificate) {
            Ok(None) => Ok(()),
            Ok(Some(line)) => Err(NotAccepted::Denied(Denial::Certificate { line })),
            Err(_) => Err(NotAccepted::NoMemory),
        },
        Ok(Err(denial)) => Err(NotAccepted::Denied(denial)),
        Err(_) => Err(NotAccepted::NoMemory),
    }
}

/// The number, from 1, of the first line in which a certificate differs from the table's.
fn wrong_line(
    alloc: Global,
    table: &Table,
    certificate: &Certificate,
) -> Result<Option<usize>, Refusal>
    ensures some { IfOk result (λ found. IfSome found
        (λ line. DiffersFirst line certificate.now (right_certificate table.now))) }
    ensures none { IfOk result (λ found. IfNone found (certificate.now ≡ right_certificate table.now)) }
{
    let right = make(alloc, table)?;
    Ok(first_difference(certificate.lines(), right.lines()))
}

/// Whether two lines are the same.
fn is_same(line: &Line, other: &Line) -> bool
    ensures { IsTrue result ↔ (line.now ≡ other.now) }
{
    line == other
}

/// The number, from 1, of the first line that differs from the other list's, or that one of them lacks.
fn first_difference(lines: &[Line], others: &[Line]) -> Option<usize>
    ensures some { IfSome result (λ line. DiffersFirst line lines.now others.now) }
    ensures none { IfNone result (lines.now ≡ others.now) }
{
    let common = lines.len().min(others.len());
    for index in 0..common {
        if !is_same(&lines[index], &others[index]) {
            return Some(index + 1);
        }
    }
    if lines.len() == others.len() {
        None
    } else {
        Some(common + 1)
    }
}
