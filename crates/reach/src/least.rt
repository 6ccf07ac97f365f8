//! The reach of a table.
ghost use Rattle.std.specs.Prelude.{ℕ, ◌↔◌, ◌≡◌, IfErr, IfOk, false, true};
ghost use Rattle.{base.specs.{Labels.is_in, Refusals.out_of_memory}, policy.specs.{ActorReasons.IsWhyAmong, Policy.allows, Sharp.MayIdle}};
ghost use Rattle.integrity.specs.{Apart.{NeverChanges, OnlyTakes}, Keeping.{HoldsNode, MayKeep}, Safe.IsSafe};
ghost use Rattle.reach.specs.{Acting.IsActor, Extents.{GoesTo, KeepsTo, MayChangeIn, MayShrinkIn, limits_of}};
ghost use Rattle.reach.specs.Reach.{IsReach, IsTableReach};

use crate::Extent;
use crate::acting::actors;
use crate::boot::node_holders;
use crate::laws::{runs_keep_labels_apart, runs_stay_in_reach};
use base::{Label, Labels, Refusal};
use labels::authority;
use policy::{Policy, Why};
use sharp::{close_sharply, keepers};
use std::alloc::{AllocError, Global};
use std::marker::Model;
use table::Table;

/// The reach of a capability table: no run leaves it, whatever calls the threads make.
///
/// It is the least sharply closed policy that has all authority of the boot state. So it lies within
/// each closed policy that has this authority. It may have edges that no run has.
#[derive(Drop)]
pub struct Reach<'a> {
    table: &'a Table,
    policy: Policy,
    keepers: Labels,
    idlers: Labels,
    actors: Labels,
}

impl<'a> Model for Reach<'a> {
    ghost use Rattle.reach.specs.Reach.{IsTableReach, TableReach};

    ghost Value = { TableReach };

    ghost view = { λ reach. record {
      table = reach.table.now;
      policy = reach.policy;
      keepers = reach.keepers;
      idlers = reach.idlers;
      actors = reach.actors;
    } };

    ghost invariant = { λ reach. IsTableReach (record {
      table = reach.table.now;
      policy = reach.policy;
      keepers = reach.keepers;
      idlers = reach.idlers;
      actors = reach.actors;
    }) };
}

impl<'a> Reach<'a> {
    /// Returns the reach of a table.
    ///
    /// # Errors
    ///
    /// 40 if memory is refused.
    pub fn of(alloc: Global, table: &'a Table) -> Result<Reach<'a>, Refusal>
        ensures table { IfOk result (λ reach. reach.table ≡ table.now) }
        ensures reach { IfOk result (λ reach. IsTableReach reach) }
        ensures memory { IfErr result (λ refusal. refusal ≡ out_of_memory) }
    {
        let held = node_holders(table);
        let policy = least_policy(alloc, table, held)?;
        let keepers = keepers(&policy, held);
        let idlers = policy.idlers();
        let actors = actors(table, &policy);
        Ok(Reach {
            table,
            policy,
            keepers,
            idlers,
            actors,
        })
    }

    /// Returns the table.
    pub fn table(&self) -> &'a Table
        ensures { result.now ≡ self.now.table }
    {
        self.table
    }

    /// Returns the policy, which has each edge of authority of every state of a run.
    pub fn policy(&self) -> &Policy
        ensures policy { result.now ≡ self.now.policy }
    {
        &self.policy
    }

    /// A law about every reach, with nothing to run: each run from the table's boot state keeps to its policy.
    pub fn bounds_runs(&self)
        ensures reach { IsTableReach self.now }
        ensures safe { IsSafe self.now.table (allows self.now.policy) }
    {
        runs_stay_in_reach();
        // What the type keeps is known once a field is read.
        let _ = &self.policy;
    }

    /// Returns the labels that may keep capabilities for CNodes.
    pub fn keepers(&self) -> Labels
        ensures keepers { result ≡ self.now.keepers }
        ensures keep { (a : ℕ) → (is_in result a ≡ true) ↔ MayKeep self.now.table (allows self.now.policy) a }
    {
        self.keepers
    }

    /// Returns the labels of which a thread may wait for a message without a context.
    pub fn idlers(&self) -> Labels
        ensures idlers { result ≡ self.now.idlers }
        ensures idle { (b : ℕ) → (is_in result b ≡ true) ↔ MayIdle (allows self.now.policy) b }
    {
        self.idlers
    }

    /// Returns the labels whose threads may make calls.
    ///
    /// These labels may act, and have threads in the table, or memory of which threads can be made.
    pub fn actors(&self) -> Labels
        ensures actors { result ≡ self.now.actors }
        ensures act { (a : ℕ) → (is_in result a ≡ true) ↔ IsActor self.now.table (allows self.now.policy) a }
    {
        self.actors
    }

    /// Returns the labels whose objects threads of the label `actor` may change.
    ///
    /// In no run does a step of such a thread change an object of a label that isn't among these, unless
    /// the object only shrinks.
    pub fn changed_by(&self, actor: Label) -> Labels
        ensures changed { (l : ℕ) → (is_in result l ≡ true) ↔ MayChangeIn (limits_of self.now) actor l }
        ensures kept { (l : ℕ) → is_in result l ≡ false → OnlyTakes self.now.table actor l }
    {
        runs_keep_labels_apart();
        self.bounds_runs();
        self.policy().change_labels(self.actors(), actor)
    }

    /// Returns the labels whose objects may shrink by what threads of the label `actor` do.
    ///
    /// In no run does a step of such a thread change an object of a label that isn't among these, unless
    /// the label is one of [`Reach::changed_by`].
    pub fn shrunk_by(&self, actor: Label) -> Labels
        ensures shrunk { (l : ℕ) → (is_in result l ≡ true) ↔ MayShrinkIn (limits_of self.now) actor l }
        ensures kept { (l : ℕ) → is_in result l ≡ false → ¬ MayChangeIn (limits_of self.now) actor l
            → NeverChanges self.now.table actor l }
    {
        runs_keep_labels_apart();
        self.bounds_runs();
        self.policy().shrink_labels(self.actors(), actor)
    }

    /// Returns how far the label `actor` goes with the label `object`.
    ///
    /// No step of a thread of `actor` goes further in any run.
    pub fn extent(&self, actor: Label, object: Label) -> Extent
        ensures extent { GoesTo (limits_of self.now) actor object result }
        ensures kept { KeepsTo self.now.table actor object result }
    {
        if self.changed_by(actor).has(object) {
            return Extent::Full;
        }
        if self.shrunk_by(actor).has(object) {
            return Extent::Take;
        }
        Extent::Nothing
    }

    /// Returns what threads of the label `actor` may do to objects of the label `object`, and why.
    pub fn why(&self, alloc: Global, actor: Label, object: Label) -> Result<Why, AllocError>
        ensures { IfOk result
            (λ why. IsWhyAmong (allows self.now.policy) (is_in self.now.actors) actor object why) }
    {
        self.policy().why_among(alloc, self.actors(), actor, object)
    }
}

// The least sharply closed policy that has all authority of a table's boot state, if these labels hold
// capabilities for CNodes.
fn least_policy(alloc: Global, table: &Table, held: Labels) -> Result<Policy, Refusal>
    requires { (a : ℕ) → (is_in held a ≡ true) ↔ HoldsNode table.now a }
    ensures least { IfOk result (λ policy. IsReach table.now policy) }
    ensures memory { IfErr result (λ refusal. refusal ≡ out_of_memory) }
{
    let edges = authority(alloc, table)?;
    let policy = close_sharply(alloc, &Policy::new(alloc), &edges, held)?;
    Ok(policy)
}
