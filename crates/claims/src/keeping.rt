//! Claims that hold, and what they bound in the runs of a table.
ghost use Rattle.std.specs.Prelude.{◌≡◌};
ghost use Rattle.claims.specs.{Claims.kept_word, Learning.IsKeptSo};

use noninterference::is_fixed;
use table::Table;

/// What the claims `apart` and `through` bound in every run, where they hold.
#[derive(Clone, Copy)]
pub enum Kept {
    /// Changes of objects, and what calls return.
    Calls,
    /// Changes of objects.
    Changes,
}

impl Kept {
    /// Returns the word that reports have for it.
    pub fn word(self) -> &'static str
        ensures { result.now ≡ kept_word self }
    {
        match self {
            Kept::Calls => "calls",
            Kept::Changes => "changes",
        }
    }
}

/// Returns what `apart` and `through` bound in the runs of a table: what calls return too, if the system is fixed.
pub fn kept_of(table: &Table) -> Kept
    ensures { IsKeptSo table.now result }
{
    if is_fixed(table) {
        Kept::Calls
    } else {
        Kept::Changes
    }
}
