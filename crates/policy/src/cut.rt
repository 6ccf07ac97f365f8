//! Cut authority: the labels whose objects may shrink when threads of a label delete capabilities.
ghost use Rattle.std.specs.Prelude.{ℕ, ◌↔◌, ◌≡◌, IsTrue, true};
ghost use Rattle.{base.specs.Labels.is_in, policy.specs.{Cut.{IsBase, IsCut, IsNear}, Policy.allows, Steps.IsNearSome}};

use crate::Policy;
use base::{Kind, Label, Labels};

// The kinds by which a capability leads to its object.
const HOLDING: [Kind; 14] = [
    Kind::Control,
    Kind::Reset,
    Kind::Send,
    Kind::Receive,
    Kind::Grant,
    Kind::Call,
    Kind::Notify,
    Kind::Await,
    Kind::Read,
    Kind::Write,
    Kind::Reply,
    Kind::Context,
    Kind::SchedControl,
    Kind::Space,
];

// The kinds along which objects are linked.
const LINKS: [Kind; 7] = [
    Kind::Send,
    Kind::Receive,
    Kind::Await,
    Kind::Reply,
    Kind::Space,
    Kind::Runs,
    Kind::Holds,
];

impl Policy {
    /// Returns whether objects of the label `object` may shrink when threads of `actor` delete capabilities.
    pub fn cut(&self, actor: Label, object: Label) -> bool
        ensures { IsTrue result ↔ IsCut (allows self.now) actor object }
    {
        self.cut_labels(actor).has(object)
    }

    /// Returns the labels on which `actor` has cut authority, each by [`Policy::cut`].
    pub fn cut_labels(&self, actor: Label) -> Labels
        ensures { (object : ℕ) → (is_in result object ≡ true) ↔ IsCut (allows self.now) actor object }
    {
        let bases = self.bases(actor);
        let reached = bases.union(self.targets(bases, &HOLDING));
        self.near(self.near(reached))
    }

    // The labels from whose objects the label may remove capabilities.
    fn bases(&self, actor: Label) -> Labels
        ensures { (base : ℕ) → (is_in result base ≡ true) ↔ IsBase (allows self.now) actor base }
    {
        let controlled = Labels::only(actor).union(self.row(actor, Kind::Control));
        controlled.union(self.targets(controlled, &[Kind::Derive]))
    }

    /// The labels at most one step along a link away from a label of the set.
    pub(crate) fn near(&self, labels: Labels) -> Labels
        ensures { (other : ℕ) → (is_in result other ≡ true) ↔ IsNearSome (allows self.now) labels other }
    {
        labels
            .union(self.targets(labels, &LINKS))
            .union(self.sources(labels, &LINKS))
    }
}
