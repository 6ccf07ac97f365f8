//! The labels whose objects a label may change if only some labels act.
ghost use Rattle.std.specs.Prelude.{ℕ, ◌↔◌, ◌≡◌, ◌⊎◌, IsTrue, true};
ghost use Rattle.base.specs.{declared.kind.Kind.TheVariants.Runs, Labels.is_in};
ghost use Rattle.policy.specs.Change.{MayAnswer, MayBorrow, MayChange, MayChangeContext, MayHoldCaller, MayLend};
ghost use Rattle.policy.specs.{Policy.allows, Sharp.MayIdle, Steps.{IsSource, is_joined}};

use crate::Policy;
use base::{Kind, Label, Labels};

/// The kinds whose use changes the object itself, which isn't a context.
pub(crate) const CHANGING: [Kind; 7] = [
    Kind::Control,
    Kind::Send,
    Kind::Receive,
    Kind::Notify,
    Kind::Await,
    Kind::Write,
    Kind::Reply,
];

impl Policy {
    /// Returns whether threads of the label `actor` may change objects of the label `object`, or move its threads.
    ///
    /// Only threads of the labels `actors` act.
    pub fn may_change(&self, actors: Labels, actor: Label, object: Label) -> bool
        ensures { IsTrue result ↔ MayChange (allows self.now) (is_in actors) actor object }
    {
        self.change_labels(actors, actor).has(object)
    }

    /// Returns the labels whose objects `actor` may change, each by [`Policy::may_change`].
    pub fn change_labels(&self, actors: Labels, actor: Label) -> Labels
        ensures { (object : ℕ)
            → (is_in result object ≡ true) ↔ MayChange (allows self.now) (is_in actors) actor object }
    {
        if !actors.has(actor) {
            return Labels::none();
        }
        let send = self.row(actor, Kind::Send);
        let receive = self.row(actor, Kind::Receive);
        let notify = self.row(actor, Kind::Notify);
        let grant = self.row(actor, Kind::Grant);
        let call = send.intersection(self.row(actor, Kind::Call));
        let callees = self.waiting(actors, call, &[Kind::Receive]);
        let takers = self.waiting(actors, grant, &[Kind::Receive]);
        Labels::only(actor)
            .union(self.row_of_kinds(actor, &CHANGING))
            .union(self.contexts(actors, actor))
            .union(self.waiting(actors, send, &[Kind::Receive]))
            .union(self.waiting(actors, receive, &[Kind::Send]))
            .union(self.waiting(actors, notify, &[Kind::Await]))
            .union(self.targets(callees, &[Kind::Reply]))
            .union(self.targets(takers, &[Kind::Control]))
            .union(self.answered(actors, actor))
    }

    /// The labels of `actors` that have an edge of one of these kinds to a label of the set.
    pub(crate) fn waiting(&self, actors: Labels, ends: Labels, kinds: &[Kind]) -> Labels
        ensures { (label : ℕ) → (is_in result label ≡ true)
            ↔ (IsSource (allows self.now) kinds.now ends label × (is_in actors label ≡ true)) }
    {
        self.sources(ends, kinds).intersection(actors)
    }

    fn contexts(&self, actors: Labels, actor: Label) -> Labels
        ensures { (object : ℕ)
            → (is_in result object ≡ true) ↔ MayChangeContext (allows self.now) (is_in actors) actor object }
    {
        let bound = self.row_beside(actor, Kind::Context, &[Kind::SchedControl, Kind::Control]);
        bound.union(self.moved(actors, actor))
    }

    /// The labels that the label may run on, if it may lend a context or give one back.
    pub(crate) fn moved(&self, actors: Labels, actor: Label) -> Labels
        ensures { (object : ℕ) → (is_in result object ≡ true)
            ↔ ((allows self.now actor Runs object ≡ true)
            × (MayLend (allows self.now) (is_in actors) actor ⊎ MayBorrow (allows self.now) actor)) }
    {
        let movers = self.lenders(actors).union(self.borrowers());
        self.targets(movers.intersection(Labels::only(actor)), &[Kind::Runs])
    }

    /// Returns the labels that may lend a context by a call, if only threads of the labels `actors` act.
    ///
    /// A label that acts and may be lent a context receives their calls.
    pub fn lenders(&self, actors: Labels) -> Labels
        ensures { (a : ℕ) → (is_in result a ≡ true) ↔ MayLend (allows self.now) (is_in actors) a }
    {
        let servers = self.borrowers().intersection(actors);
        let endpoints = self.targets(servers, &[Kind::Receive]);
        self.sources(endpoints, &[Kind::Call])
    }

    /// Returns the labels that may be lent a context.
    ///
    /// Each may wait for a message without one, and names a reply.
    pub fn borrowers(&self) -> Labels
        ensures { (b : ℕ) → (is_in result b ≡ true) ↔ MayBorrow (allows self.now) b }
    {
        self.edges_rise();
        let naming = self.sources(Labels::all(), &[Kind::Reply]);
        self.idlers().intersection(naming)
    }

    /// Returns the labels of which a thread may come to wait for a message without a context.
    ///
    /// Each may run on a context that some label may take from it.
    pub fn idlers(&self) -> Labels
        ensures { (b : ℕ) → (is_in result b ≡ true) ↔ MayIdle (allows self.now) b }
    {
        self.edges_rise();
        let contexts = self.targets(Labels::all(), &[Kind::Context]);
        self.sources(contexts, &[Kind::Runs])
    }

    /// The labels to which the label has an edge of this kind, if it has an edge of one of the others.
    pub(crate) fn row_beside(&self, from: Label, kind: Kind, others: &[Kind]) -> Labels
        ensures { (to : ℕ) → (is_in result to ≡ true)
            ↔ ((allows self.now from kind to ≡ true)
            × ((other : ℕ) × (is_joined (allows self.now) others.now from other ≡ true))) }
    {
        if self.row_of_kinds(from, others).first().is_some() {
            self.row(from, kind)
        } else {
            Labels::none()
        }
    }

    fn answered(&self, actors: Labels, actor: Label) -> Labels
        ensures { (object : ℕ)
            → (is_in result object ≡ true) ↔ MayAnswer (allows self.now) (is_in actors) actor object }
    {
        let replies = self.row(actor, Kind::Reply);
        let mut found = Labels::none();
        for number in 0..self.span() {
            if let Some(reply) = Label::new(number) {
                if replies.has(reply) {
                    found = found.union(self.callers(actors, reply));
                }
            }
        }
        found
    }

    /// The replies that may hold threads of the label that called.
    pub(crate) fn holding(&self, actors: Labels, caller: Label) -> Labels
        ensures { (reply : ℕ)
            → (is_in result reply ≡ true) ↔ MayHoldCaller (allows self.now) (is_in actors) reply caller }
    {
        if !actors.has(caller) {
            return Labels::none();
        }
        let servers = self.waiting(actors, self.row(caller, Kind::Call), &[Kind::Receive]);
        let holders = self.sources(Labels::only(caller), &[Kind::Holds]);
        self.targets(servers, &[Kind::Reply]).intersection(holders)
    }

    // The labels of `actors` that this reply holds and that call where it is named.
    fn callers(&self, actors: Labels, reply: Label) -> Labels
        ensures { (caller : ℕ)
            → (is_in result caller ≡ true) ↔ MayHoldCaller (allows self.now) (is_in actors) reply caller }
    {
        let servers = self.waiting(actors, Labels::only(reply), &[Kind::Reply]);
        let endpoints = self.targets(servers, &[Kind::Receive]);
        let callers = self.waiting(actors, endpoints, &[Kind::Call]);
        callers.intersection(self.row(reply, Kind::Holds))
    }
}
