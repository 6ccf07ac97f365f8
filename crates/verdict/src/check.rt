//! The check of a capability table and a policy, with what it promises for those that it accepts.
ghost use Rattle.std.specs.Prelude.{ℕ, ◌<◌, ◌≡◌, ◌≤◌, IfErr, IfNone, IfOk};
ghost use Rattle.{base.specs.Refusals.out_of_memory, policy.specs.{Places.FindsLeast, Policy.allows}};
ghost use Rattle.sharp.specs.Broken.{IsSharplyBrokenAt, sharp_place};
ghost use Rattle.integrity.specs.{Keeping.MayKeep, Safe.{GuardsBudgets, IsSafe, KeepsIntegrity}};
ghost use Rattle.integrity.specs.Safe.{KeepsNarrowBounds, LabelsObjects, RefusesOthers, StaysConfined};
ghost use Rattle.verdict.specs.{ByRules.{BreaksBy, BreaksOwn, IsAcceptedBy, IsVerdictBy}, System.IsVerdict, Verdict.place_of};

use crate::bindings::first_binding;
use crate::safe::sharply_accepted_systems_are_safe;
use crate::slots::first_at_slots;
use crate::{Accepted, Denial, Rules};
use base::Refusal;
use deal::Gate;
use policy::{Policy, first_broken};
use reach::node_holders;
use sharp::{SharpBroken, keepers};
use std::alloc::Global;
use std::thread::Threads;
use table::Table;

/// Returns the verdict on a capability table and a policy, by the rules P1 to P8 and A1 to A4.
///
/// They are accepted, or denied with the first broken rule and the first place where it is broken.
/// The slots of the table are shared out among 1 to 16 workers, each of which arrives at the gate
/// first. The verdict is the same for every number of workers.
///
/// If they are accepted, this holds after every list of kernel calls by any threads in any
/// interleaving:
///
/// - every capability lies within the policy
/// - no step changes an object of a label on which its caller's label has no modifying authority
/// - no step changes an object of a label that its caller's label may not change, unless the object
///   only shrinks and the caller's label may make it smaller
/// - a context's configured budget or period changes only by a caller whose label has the policy's
///   SchedControl edge
/// - each existing object has a label, so that no authority is unseen.
///
/// # Errors
///
/// 40 where memory is refused.
pub fn judge<'a, R: Threads + Sync, G: Gate + Sync>(
    rt: &R,
    alloc: Global,
    table: &'a Table,
    policy: &'a Policy,
    workers: usize,
    gate: &G,
) -> Result<Result<Accepted<'a>, Denial>, Refusal>
    requires workers { (1 ≤ workers) × (workers ≤ 16) }
    ensures verdict { IfOk result (IsVerdict table.now policy.now) }
    ensures labelled { IfOk result (λ answer. IfOk answer (λ accepted. LabelsObjects table.now)) }
    ensures confined { IfOk result (λ answer. IfOk answer (λ accepted. StaysConfined table.now (allows policy.now))) }
    ensures integrity { IfOk result (λ answer. IfOk answer (λ accepted. KeepsIntegrity table.now (allows policy.now))) }
    ensures narrow { IfOk result (λ answer. IfOk answer (λ accepted. KeepsNarrowBounds table.now (allows policy.now))) }
    ensures budgets { IfOk result (λ answer. IfOk answer (λ accepted. GuardsBudgets table.now (allows policy.now))) }
    ensures acting { IfOk result (λ answer. IfOk answer (λ accepted. RefusesOthers table.now (allows policy.now))) }
    ensures arrived { IfOk result
        (λ answer. IfOk answer (λ accepted. (worker : ℕ) → worker < workers → G.HasArrived gate.now worker)) }
    ensures memory { IfErr result (λ refusal. refusal ≡ out_of_memory) }
{
    match first_denial(rt, alloc, table, policy, Rules::Closed, workers, gate)? {
        Some(denial) => Ok(Err(denial)),
        None => Ok(Ok(Accepted::of(table, policy))),
    }
}

/// Returns the verdict on a capability table and a policy, by a set of rules and A1 to A4, as [`judge`] does
/// by P1 to P8.
///
/// If they are accepted, every run from the table's boot state is safe: after every list of kernel
/// calls, what [`judge`] says holds.
///
/// # Errors
///
/// 40 where memory is refused.
pub fn judge_by<R: Threads + Sync, G: Gate + Sync>(
    rt: &R,
    alloc: Global,
    table: &Table,
    policy: &Policy,
    rules: Rules,
    workers: usize,
    gate: &G,
) -> Result<Result<(), Denial>, Refusal>
    requires workers { (1 ≤ workers) × (workers ≤ 16) }
    ensures verdict { IfOk result (IsVerdictBy rules table.now policy.now) }
    ensures safe { IfOk result (λ answer. IfOk answer (λ accepted. IsSafe table.now (allows policy.now))) }
    ensures arrived { IfOk result
        (λ answer. IfOk answer (λ accepted. (worker : ℕ) → worker < workers → G.HasArrived gate.now worker)) }
    ensures memory { IfErr result (λ refusal. refusal ≡ out_of_memory) }
{
    match first_denial(rt, alloc, table, policy, rules, workers, gate)? {
        Some(denial) => Ok(Err(denial)),
        None => {
            are_safe_by(table, policy, rules);
            Ok(Ok(()))
        }
    }
}

// The headline for this table and this policy, accepted by either set of rules.
fn are_safe_by(table: &Table, policy: &Policy, rules: Rules)
    requires { IsAcceptedBy rules table.now (allows policy.now) }
    ensures { IsSafe table.now (allows policy.now) }
{
    table.keeps_rules();
    sharply_accepted_systems_are_safe();
}

// The first place where a rule of the set, or one of A1 to A4, is broken: first the policy itself,
// then the slots, then the bindings.
fn first_denial<R: Threads + Sync, G: Gate + Sync>(
    rt: &R,
    alloc: Global,
    table: &Table,
    policy: &Policy,
    rules: Rules,
    workers: usize,
    gate: &G,
) -> Result<Option<Denial>, Refusal>
    requires workers { (1 ≤ workers) × (workers ≤ 16) }
    ensures least { IfOk result (FindsLeast place_of (BreaksBy rules table.now (allows policy.now))) }
    ensures arrived { IfOk result
        (λ found. IfNone found ((worker : ℕ) → worker < workers → G.HasArrived gate.now worker)) }
    ensures memory { IfErr result (λ refusal. refusal ≡ out_of_memory) }
{
    if let Some(denial) = first_rule(rt, table, policy, rules) {
        return Ok(Some(denial));
    }
    if let Some(denial) = first_at_slots(rt, alloc, table, policy, workers, gate)? {
        return Ok(Some(denial));
    }
    Ok(first_binding(table, policy))
}

// The first place where the policy itself breaks a rule of the set.
fn first_rule<R: Threads + Sync>(
    rt: &R,
    table: &Table,
    policy: &Policy,
    rules: Rules,
) -> Option<Denial>
    ensures { FindsLeast place_of (BreaksOwn rules table.now (allows policy.now)) result }
{
    match rules {
        Rules::Closed => first_broken(rt, policy).map(Denial::Policy),
        Rules::Sharp => first_sharply_broken(table, policy).map(Denial::Sharp),
    }
}

// The first place where the policy breaks a sharp rule. The keepers are the labels that may keep
// capabilities for CNodes.
fn first_sharply_broken(table: &Table, policy: &Policy) -> Option<SharpBroken>
    ensures { FindsLeast sharp_place
        (IsSharplyBrokenAt (allows policy.now) (MayKeep table.now (allows policy.now))) result }
{
    let held = node_holders(table);
    let keeping = keepers(policy, held);
    sharp::first_broken(policy, keeping)
}
