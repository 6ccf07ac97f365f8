//! Full authority: the labels whose objects the acts of a label's threads may change.
ghost use Rattle.std.specs.Prelude.{ℕ, ◌↔◌, ◌≡◌, IsTrue, true};
ghost use Rattle.{base.specs.Labels.is_in, policy.specs.{Full.IsFull, Policy.allows}};

use crate::Policy;
use base::{Kind, Label, Labels};

// The kinds whose use changes the object itself.
const MODIFYING: [Kind; 9] = [
    Kind::Control,
    Kind::Send,
    Kind::Receive,
    Kind::Notify,
    Kind::Await,
    Kind::Write,
    Kind::Reply,
    Kind::Context,
    Kind::Runs,
];

impl Policy {
    /// Returns whether the acts of threads of `actor` may change objects of the label `object`, or move its threads.
    pub fn full(&self, actor: Label, object: Label) -> bool
        ensures { IsTrue result ↔ IsFull (allows self.now) actor object }
    {
        self.full_labels(actor).has(object)
    }

    /// Returns the labels on which `actor` has full authority, each by [`Policy::full`].
    pub fn full_labels(&self, actor: Label) -> Labels
        ensures { (object : ℕ) → (is_in result object ≡ true) ↔ IsFull (allows self.now) actor object }
    {
        let receivers = self.sources(self.row(actor, Kind::Send), &[Kind::Receive]);
        let takers = self.sources(self.row(actor, Kind::Grant), &[Kind::Receive]);
        let replies = self.row(actor, Kind::Reply);
        Labels::only(actor)
            .union(self.row_of_kinds(actor, &MODIFYING))
            .union(receivers)
            .union(self.sources(self.row(actor, Kind::Receive), &[Kind::Send]))
            .union(self.sources(self.row(actor, Kind::Notify), &[Kind::Await]))
            .union(self.targets(receivers, &[Kind::Reply]))
            .union(self.targets(takers, &[Kind::Control]))
            .union(self.targets(replies, &[Kind::Holds]))
    }
}
