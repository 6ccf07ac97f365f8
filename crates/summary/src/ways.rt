//! The ways in which threads of a label may change objects of others: a set of labels for each letter.
ghost use Rattle.std.specs.Prelude.{ℕ, ◌↔◌, ◌≡◌, ◌⊎◌, IfOk, true};
ghost use Rattle.{base.specs.Labels.is_in, policy.specs.{Change.{IsBeside, MayHoldCaller}, Policy.allows}, reach.specs.Extents.limits_by};
ghost use Rattle.summary.specs.{Letters.{HasLetter, by_answer, by_call, by_other, by_signal}, Ways.{IsCallers, IsHeldBy}};
ghost use Rattle.base.specs.declared.kind.Kind.TheVariants as authority;

use crate::sources::{Sources, join, waiting};
use base::{Kind, Label, Labels};
use policy::Policy;
use std::alloc::{AllocError, Global};
use std::marker::Model;

/// The sets of labels by which the ways to change others are found.
///
/// They are made of a policy and the labels whose threads make calls: for each label those that
/// have to do with it, and the labels that may lend a context or be lent one.
#[derive(Drop)]
pub(crate) struct Ways<'a> {
    policy: &'a Policy,
    actors: Labels,
    senders: Sources<'a>,
    receivers: Sources<'a>,
    waiters: Sources<'a>,
    callers: Vec<Labels>,
    lenders: Labels,
    borrowers: Labels,
}

impl<'a> Model for Ways<'a> {
    ghost use Rattle.summary.specs.Ways.{IsWays, WaysOf};

    ghost Value = { WaysOf };

    ghost view = { λ ways. record { edges = ways.policy.now; actors = ways.actors } };

    ghost invariant = { λ ways. IsWays ways.policy.now ways.actors
        ways.senders ways.receivers ways.waiters ways.callers.items ways.lenders ways.borrowers };
}

impl<'a> Ways<'a> {
    /// Returns the sets of a policy and the labels whose threads make calls.
    pub(crate) fn new(
        alloc: Global,
        policy: &'a Policy,
        actors: Labels,
    ) -> Result<Ways<'a>, AllocError>
        ensures { IfOk result (λ ways. ways ≡ record { edges = policy.now; actors = actors }) }
    {
        let senders = Sources::new(alloc, policy, Kind::Send)?;
        let receivers = Sources::new(alloc, policy, Kind::Receive)?;
        let waiters = Sources::new(alloc, policy, Kind::Await)?;
        let callers = callers_of_replies(alloc, policy, actors)?;
        Ok(Ways {
            policy,
            actors,
            senders,
            receivers,
            waiters,
            callers,
            lenders: policy.lenders(actors),
            borrowers: policy.borrowers(),
        })
    }

    /// Returns the labels that the label may change by a call or a send.
    pub(crate) fn calls(&self, actor: Label) -> Labels
        ensures { (l : ℕ) → (is_in result l ≡ true)
            ↔ HasLetter by_call (limits_by self.now.edges self.now.actors) actor l }
    {
        if !self.actors.has(actor) {
            return Labels::none();
        }
        let send = self.policy.row(actor, Kind::Send);
        let call = self.policy.row(actor, Kind::Call);
        let answerable = send.intersection(call);
        let callees = waiting(&self.receivers, answerable, self.actors);
        let reached = waiting(&self.receivers, send, self.actors);
        let linked = self.policy.targets(callees, &[Kind::Reply]);
        let met = send.union(reached);
        met.union(linked)
    }

    /// Returns the labels that the label may change by an answer, or by taking a call or a message.
    pub(crate) fn answers(&self, actor: Label) -> Labels
        ensures { (l : ℕ) → (is_in result l ≡ true)
            ↔ HasLetter by_answer (limits_by self.now.edges self.now.actors) actor l }
    {
        if !self.actors.has(actor) {
            return Labels::none();
        }
        let receive = self.policy.row(actor, Kind::Receive);
        let reply = self.policy.row(actor, Kind::Reply);
        let reached = waiting(&self.senders, receive, self.actors);
        let returned = row_among(self.policy, self.borrowers, actor, Kind::Runs);
        let answered = self.answered(reply);
        let own = receive.union(reply);
        let met = own.union(reached);
        let given_back = met.union(returned);
        given_back.union(answered)
    }

    /// Returns the labels that the label may change by a signal.
    pub(crate) fn signals(&self, actor: Label) -> Labels
        ensures { (l : ℕ) → (is_in result l ≡ true)
            ↔ HasLetter by_signal (limits_by self.now.edges self.now.actors) actor l }
    {
        if !self.actors.has(actor) {
            return Labels::none();
        }
        let notify = self.policy.row(actor, Kind::Notify);
        let woken = waiting(&self.waiters, notify, self.actors);
        notify.union(woken)
    }

    /// Returns the labels that the label may change in another way.
    pub(crate) fn others(&self, actor: Label) -> Labels
        ensures { (l : ℕ) → (is_in result l ≡ true)
            ↔ HasLetter by_other (limits_by self.now.edges self.now.actors) actor l }
    {
        if !self.actors.has(actor) {
            return Labels::none();
        }
        let control = self.policy.row(actor, Kind::Control);
        let poll = self.policy.row(actor, Kind::Await);
        let write = self.policy.row(actor, Kind::Write);
        let grant = self.policy.row(actor, Kind::Grant);
        let takers = waiting(&self.receivers, grant, self.actors);
        let granted = self.policy.targets(takers, &[Kind::Control]);
        let taken = control.union(poll);
        let own = taken.union(write);
        let lent = row_among(self.policy, self.lenders, actor, Kind::Runs);
        let used = own.union(contexts(self.policy, actor));
        let moved = used.union(lent);
        moved.union(granted)
    }

    // The labels whose threads these replies may hold since they called.
    fn answered(&self, replies: Labels) -> Labels
        ensures { (l : ℕ) → (is_in result l ≡ true)
            ↔ IsHeldBy (allows self.now.edges) (is_in self.now.actors) replies l }
    {
        self.policy.edges_rise();
        join(&self.callers, replies)
    }
}

// The labels whose contexts the label may configure or bind.
fn contexts(policy: &Policy, actor: Label) -> Labels
    ensures { (l : ℕ) → (is_in result l ≡ true)
        ↔ (IsBeside (allows policy.now) authority.Context authority.SchedControl actor l
        ⊎ IsBeside (allows policy.now) authority.Context authority.Control actor l) }
{
    let configured = policy.row_with(actor, Kind::Context, Kind::SchedControl);
    let bound = policy.row_with(actor, Kind::Context, Kind::Control);
    configured.union(bound)
}

// For each label, the labels whose threads replies of it may hold since they called.
fn callers_of_replies(
    alloc: Global,
    policy: &Policy,
    actors: Labels,
) -> Result<Vec<Labels>, AllocError>
    ensures { IfOk result (λ rows. IsCallers (allows policy.now) (is_in actors) rows.items) }
{
    let namers = Sources::new(alloc, policy, Kind::Reply)?;
    let callers = Sources::new(alloc, policy, Kind::Call)?;
    let mut rows = Vec::with_capacity(alloc, Label::COUNT as usize)?;
    for number in 0..Label::COUNT {
        if let Some(reply) = Label::new(number) {
            rows.push(callers_of(policy, actors, &namers, &callers, reply))?;
        }
    }
    Ok(rows)
}

// The labels whose threads replies of this label may hold since they called.
fn callers_of(
    policy: &Policy,
    actors: Labels,
    namers: &Sources<'_>,
    callers: &Sources<'_>,
    reply: Label,
) -> Labels
    requires namers { namers.now ≡ record { edges = policy.now; kind = authority.Reply } }
    requires callers { callers.now ≡ record { edges = policy.now; kind = authority.Call } }
    ensures { (l : ℕ) → (is_in result l ≡ true) ↔ MayHoldCaller (allows policy.now) (is_in actors) reply l }
{
    let itself = Labels::only(reply);
    let servers = waiting(namers, itself, actors);
    let endpoints = policy.targets(servers, &[Kind::Receive]);
    let calling = waiting(callers, endpoints, actors);
    let held = policy.row(reply, Kind::Holds);
    calling.intersection(held)
}

/// Returns the labels to which a label has an edge of a kind, if the label is in a set.
fn row_among(policy: &Policy, among: Labels, from: Label, kind: Kind) -> Labels
    ensures { (to : ℕ) → (is_in result to ≡ true)
        ↔ ((allows policy.now from kind to ≡ true) × (is_in among from ≡ true)) }
{
    if among.has(from) {
        policy.row(from, kind)
    } else {
        Labels::none()
    }
}
