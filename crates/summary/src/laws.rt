//! The law that each change between labels has a letter.
ghost use Rattle.std.specs.Prelude.{ℕ, ◌≡◌, ◌≢◌, ◌⊎◌};
ghost use Rattle.reach.specs.Extents.{Limits, MayChangeIn};
ghost use Rattle.summary.specs.Letters.{HasLetter, Letter, by_answer, by_call, by_other, by_signal};

/// Proves that a label may change another exactly if some reason has one of the four letters.
pub fn each_change_has_a_letter()
    ensures some { (limits : Limits) (a l : ℕ) → a ≢ l → MayChangeIn limits a l
        → (HasLetter by_call limits a l ⊎ HasLetter by_answer limits a l)
        ⊎ (HasLetter by_signal limits a l ⊎ HasLetter by_other limits a l) }
    ensures only { (limits : Limits) (a l : ℕ) (letter : Letter) → HasLetter letter limits a l → MayChangeIn limits a l }
{}
