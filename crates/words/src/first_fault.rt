//! Laws about the first fault of a text: a text is refused for it, and so is each text that is cut.
ghost use Rattle.std.specs.{List.count_by, Prelude.{ℕ, ◌++◌, ◌+◌, ◌<◌, ◌==◌, ◌↔◌, ◌≡◌, ◌⊎◌, Err, List, Ok, Result, length}};
ghost use Rattle.words.specs.{declared.faults.Wrong.{TheVariants.Syntax, Wrong}, Fault.fault_at};
ghost use Rattle.words.specs.{FirstFault.{IsFirstFault, IsText, TextLines}, Reading.{Format, read_format}, Text.lines_of};

/// A law: a text is refused for its first fault, by the fault's line and by what is wrong there.
///
/// A text is read exactly if it has no fault. So it is either read or refused, and for one fault
/// only.
pub fn a_text_is_refused_for_its_first_fault<S, T>()
    ensures refused { (f : Format S T) (lines : TextLines)
        (line : ℕ) (wrong : Wrong)
        → (read_format f lines ≡ Err (fault_at line wrong))
        ↔ IsFirstFault f lines line wrong }
    ensures read { (f : Format S T) (lines : TextLines)
        (value : T)
        → (read_format f lines ≡ Ok value)
        ↔ IsText f lines value }
    ensures either { (f : Format S T) (lines : TextLines)
        → ((value : T) × IsText f lines value)
        ⊎ ((line : ℕ) × (wrong : Wrong) × IsFirstFault f lines line wrong) }
    ensures never_both { (f : Format S T) (lines : TextLines)
        (value : T) (line : ℕ) (wrong : Wrong)
        → IsText f lines value
        → ¬ IsFirstFault f lines line wrong }
    ensures one { (f : Format S T) (lines : TextLines)
        (line other : ℕ) (wrong that : Wrong)
        → IsFirstFault f lines line wrong
        → IsFirstFault f lines other that
        → (line ≡ other) × (wrong ≡ that) }
{}

/// A law: each proper beginning of a text that is read is refused for its form.
///
/// The fault is at the line after the beginning's last line feed.
pub fn a_text_that_is_cut_is_refused<S, T>()
    ensures { (f : Format S T) (value : T)
        (beginning rest : List ℕ)
        → 0 < length rest
        → IsText f (lines_of (beginning ++ rest)) value
        → IsFirstFault f (lines_of beginning) (count_by (λ b. b == 10) beginning + 1) Syntax }
{}
