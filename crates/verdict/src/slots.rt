//! The first denial at the filled slots of a table, by the rules A1 to A3.
ghost use Rattle.std.specs.{List.find, Option.option_and_then, Prelude.{ℕ, ◌<◌, ◌≡◌, ◌≤◌, IfErr, IfOk, map}};
ghost use Rattle.{base.specs.Refusals.out_of_memory, policy.specs.{Places.FindsLeast, Policy.allows}};
ghost use Rattle.verdict.specs.{Slots.{BreaksSlots, denial_by, is_missing, missing_edge}, Verdict.place_of};

use crate::denial::{Denial, rule_number};
use base::{Edge, Kind, Refusal, SlotRef};
use deal::{Gate, Work, shares};
use labels::filled_edges;
use machine::Filled;
use policy::Policy;
use std::alloc::Global;
use std::thread::Threads;
use table::Table;

/// Returns the first place where one of the rules A1 to A3 is broken, by the least of these rules.
///
/// The slots are shared out among the workers.
///
/// # Errors
///
/// 40 where memory is refused.
pub fn first_at_slots<R: Threads + Sync, G: Gate + Sync>(
    rt: &R,
    alloc: Global,
    table: &Table,
    policy: &Policy,
    workers: usize,
    gate: &G,
) -> Result<Option<Denial>, Refusal>
    requires workers { (1 ≤ workers) × (workers ≤ 16) }
    ensures least { IfOk result (FindsLeast place_of (BreaksSlots table.now (allows policy.now))) }
    ensures arrived { IfOk result (λ found. (worker : ℕ) → worker < workers → G.HasArrived gate.now worker) }
    ensures memory { IfErr result (λ refusal. refusal ≡ out_of_memory) }
{
    let check = SlotCheck {
        alloc,
        table,
        policy,
    };
    let missing = shares(rt, alloc, table.caps(), workers, gate, &check)?;
    Ok(check.first_denial(&missing))
}

// The check of a filled slot: its capability by A1 or A2, and the pair whose child it is by A3.
#[derive(Drop)]
struct SlotCheck<'a> {
    alloc: Global,
    table: &'a Table,
    policy: &'a Policy,
}

impl SlotCheck<'_> {
    // The first denial of the least rule, given the edges that are missing at the filled slots.
    fn first_denial(&self, missing: &[Option<Edge>]) -> Option<Denial>
        requires { missing.now
            ≡ map (missing_edge self.now.table.now (allows self.now.policy.now)) self.now.table.now.caps }
        ensures { FindsLeast place_of (BreaksSlots self.now.table.now (allows self.now.policy.now)) result }
    {
        let caps = self.table.caps();
        let mut first = None;
        for index in 0..caps.len() {
            let denial = denial_of(self.table, &caps[index], missing[index]);
            if rule_number(&denial) < rule_number(&first) {
                first = denial;
            }
        }
        first
    }
}

impl<'a> Work<Filled> for SlotCheck<'a> {
    type Out = Option<Edge>;

    ghost answer = { λ check filled. missing_edge check.table.now (allows check.policy.now) filled };

    fn of(&self, filled: &Filled) -> Result<Option<Edge>, Refusal> {
        let edges = filled_edges(self.alloc, self.table, filled)?;
        Ok(first_missing(self.policy, &edges))
    }
}

// The first of these edges that the policy doesn't have.
fn first_missing(policy: &Policy, edges: &[Edge]) -> Option<Edge>
    ensures { result ≡ find (is_missing (allows policy.now)) edges.now }
{
    edges.iter().find(|edge| !policy.has(**edge)).copied()
}

// The denial of an edge that a filled slot gives and the policy doesn't have.
fn denial_of(table: &Table, filled: &Filled, missing: Option<Edge>) -> Option<Denial>
    ensures { result ≡ option_and_then (λ edge. denial_by table.now filled.now.slot edge.kind edge.to) missing }
{
    let slot = filled.slot;
    let edge = missing?;
    match edge.kind {
        Kind::Space => Some(Denial::Root {
            slot,
            label: edge.to,
        }),
        Kind::Derive => Some(Denial::Pair {
            child: slot,
            parent: table.parent(slot)?,
        }),
        kind => Some(Denial::Capability {
            slot,
            kind,
            label: edge.to,
        }),
    }
}
