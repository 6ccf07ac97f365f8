//! Laws on reading.
ghost use Rattle.std.specs.Prelude.{ℕ, ◌≡◌, List, false};
ghost use Rattle.{base.specs.declared.{edge.Edge.Edge, kind.Kind.Kind}, machine.specs.Layout.Layout, table.specs.Rules.IsLawful};
ghost use Rattle.{policy.specs.{Domain.EdgeTest, Policy.allows}, integrity.specs.{Confined.IsConfined, Keeping.IsSharp}};
ghost use Rattle.reach.specs.Reach.{HasBootAuthority, IsReach};
ghost use Rattle.summary.specs.{Reading.{NeverPassesMemory, NeverReads, NeverUses}, Sharing.{SharesMemory, reads_of}};

use table::boot_states_are_well_formed;

/// A law: in every run of a table, threads of a label read and write words only of objects of labels to which the label
/// has the edge.
///
/// Without an edge `read` no read of a frame is ever done, and without an edge `write` no write. Without an edge `await`
/// no poll or wait is done or waits, and without an edge `receive` no receive. A call that is refused reads nothing.
/// This holds for the reach of the table, and for each sharply closed policy that has all authority of the boot state.
pub fn runs_read_within_reach()
    ensures reach { (t : Layout) (edges : List Edge) (a : ℕ) (by : Kind) (l : ℕ)
        → IsLawful t
        → IsReach t edges
        → allows edges a by l ≡ false
        → NeverUses t a by l }
    ensures policy { (t : Layout) (allowed : EdgeTest) (a : ℕ) (by : Kind) (l : ℕ)
        → IsLawful t
        → IsSharp t allowed
        → HasBootAuthority t allowed
        → allowed a by l ≡ false
        → NeverUses t a by l }
{
    boot_states_are_well_formed();
}

/// A law: what the summary of a table says of memory and of readers holds in every run.
///
/// If a cell has no `m`, threads of the row's label write no frame of a label whose frames threads of the column's
/// label read, whatever is made of untyped memory, except the frames of that label itself. A label that isn't
/// among those by which another is read never reads, polls, waits or receives there.
pub fn summaries_show_who_reads()
    ensures memory { (t : Layout) (edges : List Edge) (a l : ℕ)
        → IsLawful t
        → IsReach t edges
        → ¬ SharesMemory t (allows edges) a l
        → NeverPassesMemory t a l }
    ensures readers { (t : Layout) (edges : List Edge) (a l : ℕ)
        → IsLawful t
        → IsReach t edges
        → reads_of (allows edges) a l ≡ false
        → NeverReads t a l }
{
    boot_states_are_well_formed();
}
