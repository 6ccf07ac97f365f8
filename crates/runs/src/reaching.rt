//! The state to which a script leads.
ghost use Rattle.std.specs.Prelude.{◌↔◌, ◌≡◌, IfErr, IfNone, IfOk, IfSome, IsTrue, List};
ghost use Rattle.base.specs.Refusals.{out_of_memory, plain};
ghost use Rattle.machine.specs.{declared.call.{Event.Event as Ev, Outcome.TheVariants.Refused}, Layout.Layout, Machine.Machine};
ghost use Rattle.{machine.specs.WellFormed.IsWellFormed, runs.specs.Shown.{IsReachedBy, IsStopped}};

use base::Refusal;
use kernel::{boot, each_table_has_one_boot_state, step};
use machine::{Event, Outcome};
use objects::State;
use std::alloc::Global;
use table::Table;

/// Returns the state to which a script leads from a table's boot state.
///
/// The answer is `None` exactly if one of the script's calls is refused.
///
/// # Errors
///
/// 40 where memory is refused, to the boot or to a call.
pub fn reach(alloc: Global, table: &Table, script: &[Event]) -> Result<Option<State>, Refusal>
    ensures stopped { IfOk result (λ answer. IfNone answer (IsStopped table.now script.now)) }
    ensures reached { IfOk result (λ answer. IfSome answer (IsReachedBy table.now script.now)) }
    ensures well_formed { IfOk result (λ answer. IfSome answer IsWellFormed) }
    ensures refused { IfErr result (λ refusal. refusal ≡ plain 40) }
{
    let mut state = boot(alloc, table)?;
    for event in script {
        let outcome = step(&mut state, *event);
        if is_lack(&outcome) {
            return Err(Refusal::OUT_OF_MEMORY);
        }
        if let Outcome::Refused(_) = outcome {
            return Ok(None);
        }
    }
    Ok(Some(state))
}

// Whether a call was refused memory.
fn is_lack(outcome: &Outcome) -> bool
    ensures { IsTrue result ↔ (outcome.now ≡ Refused out_of_memory) }
{
    *outcome == Outcome::Refused(Refusal::OUT_OF_MEMORY)
}

/// Proves that a script leads to one state.
pub fn scripts_lead_to_one_state()
    ensures { (t : Layout) (script : List Ev) (m n : Machine)
        → IsReachedBy t script m → IsReachedBy t script n → m ≡ n }
{
    each_table_has_one_boot_state();
}
