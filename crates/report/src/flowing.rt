//! The command `flows`: what flows from one label to another, and through which programs.
ghost use Rattle.std.specs.Prelude.{◌≡◌, IfErr, IfOk};
ghost use Rattle.{base.specs.Refusals.out_of_memory, commands.specs.Commands.{IsJudgedSo, Says}};
ghost use Rattle.report.specs.{Flowing.{TellsAllFlows, TellsFlows}, Questions.unlabelled};

use crate::Asked;
use base::Refusal;
use commands::{Answer, Stop};
use reach::Reach;
use std::alloc::Global;
use summary::{flow_matrix, flow_text};
use table::Table;

/// The flows from one label to another; or the first of the two names that is no label of the table.
pub(crate) fn flows_told(alloc: Global, table: &Table, from: &str, to: &str) -> Result<Answer, Stop>
    ensures { IsJudgedSo (unlabelled table.now from.now to.now) (Says (TellsFlows from.now to.now table.now)) result }
{
    let Some(from) = table.label_named(from) else {
        return Err(Stop::NoLabel(Asked::Actor));
    };
    let Some(to) = table.label_named(to) else {
        return Err(Stop::NoLabel(Asked::Object));
    };
    let reach = Reach::of(alloc, table)?;
    Ok(Answer::plain(flow_text(alloc, &reach, from, to)?, 0))
}

/// The matrix of the flows between all programs of a table.
pub(crate) fn all_flows_told(alloc: Global, table: &Table) -> Result<Vec<u8>, Refusal>
    ensures text { IfOk result (λ text. TellsAllFlows table.now text.items) }
    ensures memory { IfErr result (λ refusal. refusal ≡ out_of_memory) }
{
    let reach = Reach::of(alloc, table)?;
    let text = flow_matrix(alloc, &reach)?;
    Ok(text)
}
