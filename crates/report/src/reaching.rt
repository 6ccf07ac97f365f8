//! The reach of a table, by which questions are answered.
ghost use Rattle.std.specs.Prelude.{◌≡◌, IfErr, IfOk};
ghost use Rattle.{base.specs.Refusals.out_of_memory, reach.specs.{Extents.limits_of, Reach.IsReachOf}, report.specs.Questions.ReachIsKept};

use base::Refusal;
use reach::Reach;
use std::alloc::Global;
use table::Table;

/// Returns the reach of a table. In every run, threads of a label go no further with another than the reach says.
pub(crate) fn kept_reach(alloc: Global, table: &Table) -> Result<Reach<'_>, Refusal>
    ensures reach { IfOk result (IsReachOf table.now) }
    ensures kept { IfOk result (λ reach. ReachIsKept table.now (limits_of reach)) }
    ensures memory { IfErr result (λ refusal. refusal ≡ out_of_memory) }
{
    let reach = Reach::of(alloc, table)?;
    reach.bounds_runs();
    Ok(reach)
}
