//! Theorems about a system that lies within another, with nothing to run.
ghost use Rattle.std.specs.{List.list_any, Prelude.{[], ℕ, ◌<◌, ◌≡◌, List, false, length, true}};
ghost use Rattle.{base.specs.Labels.is_in, machine.specs.Layout.Layout, table.specs.Rules.IsDraft};
ghost use Rattle.reach.specs.{Extents.{Limits, MayChangeIn, MayShrinkIn, limits_of}, Reach.{IsTableReach, TableReach}};
ghost use Rattle.flows.specs.{Flowing.{FilterTest, GoesThrough, FlowLeads}, Seeing.Sees};
ghost use Rattle.claims.specs.{declared.{claim.Claim.Claim, deciding.Failure.Failure}, Holding.{ClaimFails, Holds}};
ghost use Rattle.diff.specs.{declared.change.Change.Change, Changes.{AreChanges, adds}};
ghost use Rattle.diff.specs.{Twins.{AreAllNamed, twin_by_name}, Within.{AreTwins, LiesWithin, twin_claim}};

/// A law: labels change, shrink and see no more in a system that lies within another, and no more flows.
///
/// What a label may do in the one its twin may do in the other. So what is kept apart in the other is kept
/// apart in the one, beside the same filters.
pub fn lesser_systems_do_no_more()
    ensures changes { (twin : ℕ → ℕ) (inner outer : Limits) → LiesWithin twin inner outer
        → (a l : ℕ) → MayChangeIn inner a l → MayChangeIn outer (twin a) (twin l) }
    ensures shrinks { (twin : ℕ → ℕ) (inner outer : Limits) → LiesWithin twin inner outer
        → (a l : ℕ) → MayShrinkIn inner a l → MayShrinkIn outer (twin a) (twin l) }
    ensures sees { (twin : ℕ → ℕ) (inner outer : Limits) → LiesWithin twin inner outer
        → (a l : ℕ) → Sees inner a l → Sees outer (twin a) (twin l) }
    ensures leads { (twin : ℕ → ℕ) (inner outer : Limits) → LiesWithin twin inner outer
        → (filters others : FilterTest) → ((l : ℕ) → filters l ≡ false → others (twin l) ≡ false)
        → (from to : ℕ) → FlowLeads inner filters from to → FlowLeads outer others (twin from) (twin to) }
    ensures apart { (twin : ℕ → ℕ) (inner outer : Limits) → LiesWithin twin inner outer
        → (filters others : FilterTest) → ((l : ℕ) → filters l ≡ false → others (twin l) ≡ false)
        → (from to : ℕ) → GoesThrough outer others (twin from) (twin to) → GoesThrough inner filters from to }
{}

/// A law: no claim fails on a system that lies within another, if its twin holds of the other.
pub fn lesser_systems_keep_claims()
    ensures { (twin : ℕ → ℕ) (inner outer : Limits) (t u : Layout)
        → LiesWithin twin inner outer
        → AreTwins t u twin
        → (claim : Claim) → Holds u outer (twin_claim twin claim)
        → (told : Failure) → ¬ ClaimFails t inner claim told }
{}

/// A law: labels are twins by their names, if each name of the one table is one of the other.
pub fn labels_are_twins_by_name()
    ensures { (t u : Layout) → IsDraft t → AreAllNamed t u → AreTwins t u (twin_by_name t u) }
{}

/// A law: a system lies within another if no change from the other to it adds authority.
///
/// Each of its labels is one of the old system's by its name, and so is each label that may keep capabilities for
/// CNodes. Each claim that holds of the old system holds of the new one, as far as that has the labels.
pub fn systems_that_gain_nothing_lie_within()
    ensures within { (old new : TableReach) (changed : List Change) → IsTableReach old → IsTableReach new
        → AreChanges old new changed → list_any adds changed ≡ false
        → LiesWithin (twin_by_name new.table old.table) (limits_of new) (limits_of old) }
    ensures twins { (old new : TableReach) (changed : List Change) → IsTableReach old → IsTableReach new
        → AreChanges old new changed → list_any adds changed ≡ false
        → AreTwins new.table old.table (twin_by_name new.table old.table) }
    ensures keepers { (old new : TableReach) (changed : List Change) → IsTableReach old → IsTableReach new
        → AreChanges old new changed → list_any adds changed ≡ false
        → (a : ℕ) → is_in new.keepers a ≡ true → a < length new.table.labels
        → is_in old.keepers (twin_by_name new.table old.table a) ≡ true }
    ensures claims { (old new : TableReach) (changed : List Change) → IsTableReach old → IsTableReach new
        → AreChanges old new changed → list_any adds changed ≡ false
        → (claim : Claim) → Holds old.table (limits_of old) (twin_claim (twin_by_name new.table old.table) claim)
        → (told : Failure) → ¬ ClaimFails new.table (limits_of new) claim told }
{}

/// A law: no system has a change from itself.
pub fn no_system_differs_from_itself()
    ensures none { (reach : TableReach) (changed : List Change) → IsTableReach reach → AreChanges reach reach changed
        → changed ≡ [] }
{}
