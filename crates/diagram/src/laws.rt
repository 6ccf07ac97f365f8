//! Theorems about folded drawings, with nothing to run.
ghost use Rattle.std.specs.Prelude.{ℕ, ◌≡◌, ◌⊎◌, List, true};
ghost use Rattle.{machine.specs.Layout.Layout, reach.specs.Extents.Limits};
ghost use Rattle.diagram.specs.{Folded.IsFoldedDrawing, Programs.Program, Regions.{StandsBetween, is_inside}};

/// Proves that a table has one folded drawing with a reach.
pub fn each_system_has_one_drawing()
    ensures { (t : Layout) (limits : Limits) (text other : List ℕ)
        → IsFoldedDrawing t limits text → IsFoldedDrawing t limits other → text ≡ other }
{}

/// Proves that a label that a program may change or make smaller stands inside the program, or in
/// the words of an arrow from it to another program.
pub fn folding_loses_no_label()
    ensures { (programs : List Program) (p : Program) (l : ℕ) → (p.changes l ≡ true) ⊎ (p.shrinks l ≡ true)
        → (is_inside programs p l ≡ true) ⊎ StandsBetween programs p l }
{}
