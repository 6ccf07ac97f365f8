//! The labels whose objects may shrink by what a label does, if only some labels act.
ghost use Rattle.std.specs.Prelude.{ℕ, ◌↔◌, ◌≡◌, IsTrue, true};
ghost use Rattle.{base.specs.Labels.is_in, policy.specs.{NarrowTake.{MayHalt, MayHoldReceiver, MayShrink, TakesByControl}, Policy.allows}};

use crate::Policy;
use base::{Kind, Label, Labels};

/// The kinds of edges from a controlled label to one that loses something.
pub(crate) const REMOVED: [Kind; 5] = [
    Kind::Derive,
    Kind::Space,
    Kind::Runs,
    Kind::Reset,
    Kind::SchedControl,
];

/// The kinds of what a thread waits for.
pub(crate) const WAITING: [Kind; 3] = [Kind::Send, Kind::Receive, Kind::Await];

impl Policy {
    /// Returns whether objects of the label `object` may shrink by what threads of the label `actor` do.
    ///
    /// Only threads of the labels `actors` act.
    pub fn may_shrink(&self, actors: Labels, actor: Label, object: Label) -> bool
        ensures { IsTrue result ↔ MayShrink (allows self.now) (is_in actors) actor object }
    {
        self.shrink_labels(actors, actor).has(object)
    }

    /// Returns the labels whose objects may shrink by what `actor` does, each by [`Policy::may_shrink`].
    pub fn shrink_labels(&self, actors: Labels, actor: Label) -> Labels
        ensures { (object : ℕ)
            → (is_in result object ≡ true) ↔ MayShrink (allows self.now) (is_in actors) actor object }
    {
        if !actors.has(actor) {
            return Labels::none();
        }
        let contexts = self.row(actor, Kind::Context);
        let holders = self.waiting(actors, self.row(actor, Kind::Reply), &[Kind::Reply]);
        let receivers = self.waiting(actors, self.row(actor, Kind::Send), &[Kind::Receive]);
        contexts
            .union(self.sources(contexts, &[Kind::Runs]))
            .union(self.halted(actors, actor))
            .union(self.targets(holders, &[Kind::Receive]))
            .union(self.targets(receivers, &[Kind::Reply]))
            .union(self.taken(actors, actor))
    }

    // The labels from which the label may take through a label that it controls.
    fn taken(&self, actors: Labels, actor: Label) -> Labels
        ensures { (object : ℕ)
            → (is_in result object ≡ true) ↔ TakesByControl (allows self.now) (is_in actors) actor object }
    {
        let controlled = self.row(actor, Kind::Control);
        let callers = controlled.intersection(actors);
        let deleted = self.targets(controlled, &[Kind::Reset]);
        let receivers = self.waiting(actors, deleted, &[Kind::Receive]);
        self.targets(controlled, &REMOVED)
            .union(self.sources(callers, &[Kind::Holds]))
            .union(self.waiting(actors, deleted, &WAITING))
            .union(self.targets(receivers, &[Kind::Reply]))
    }

    // The labels whose threads may wait with a reply that the label may use.
    fn halted(&self, actors: Labels, actor: Label) -> Labels
        ensures { (object : ℕ) → (is_in result object ≡ true) ↔ MayHalt (allows self.now) (is_in actors) actor object }
    {
        let replies = self.row(actor, Kind::Reply);
        let mut found = Labels::none();
        for number in 0..self.span() {
            if let Some(reply) = Label::new(number) {
                if replies.has(reply) {
                    found = found.union(self.holders(actors, reply));
                }
            }
        }
        found
    }

    // The labels of `actors` that this reply holds and that name it.
    fn holders(&self, actors: Labels, reply: Label) -> Labels
        ensures { (holder : ℕ)
            → (is_in result holder ≡ true) ↔ MayHoldReceiver (allows self.now) (is_in actors) reply holder }
    {
        self.waiting(actors, Labels::only(reply), &[Kind::Reply])
            .intersection(self.row(reply, Kind::Holds))
    }
}
