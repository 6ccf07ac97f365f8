//! The labels that may act in runs of an accepted system.
ghost use Rattle.std.specs.Prelude.{ℕ, ◌↔◌, ◌≡◌, false, true};
ghost use Rattle.{base.specs.Labels.is_in, policy.specs.Policy.allows};
ghost use Rattle.{integrity.specs.{Acting.MayAct, Apart.NeverChanges}, verdict.specs.Acting.RefusesAllBut};

use crate::Accepted;
use base::Labels;
use integrity::changes_are_of_labels_that_act;
use reach::labels_that_act;

impl Accepted<'_> {
    /// Returns the labels that may act: those with a thread that can run at boot, and those that such a label controls.
    ///
    /// In every run each call by a thread of another label is refused. Such a thread never changes,
    /// makes or removes an object.
    pub fn acting(&self) -> Labels
        ensures acting { (a : ℕ) → (is_in result a ≡ true) ↔ MayAct self.now.table (allows self.now.policy) a }
        ensures refused { RefusesAllBut self.now.table result }
        ensures kept { (a l : ℕ) → is_in result a ≡ false → NeverChanges self.now.table a l }
    {
        changes_are_of_labels_that_act();
        labels_that_act(self.table(), self.policy())
    }
}
