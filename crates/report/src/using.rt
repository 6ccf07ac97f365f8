//! The answer of the command `why` about all users of a label.
ghost use Rattle.std.specs.Prelude.{◌≡◌, IfOk};
ghost use Rattle.{commands.specs.Commands.{IsJudgedSo, Says}, report.specs.Using.{IsUsersText, TellsUsers, unlabelled_object}};

use crate::reaching::kept_reach;
use crate::{Asked, Use};
use base::Label;
use commands::{Answer, Stop};
use reach::Reach;
use std::alloc::{AllocError, Global};
use summary::{changers_text, readers_text};
use table::Table;

/// The labels that use a named one in this way; or that its name is no label of the table.
pub(crate) fn users_told(
    alloc: Global,
    table: &Table,
    usage: Use,
    object: &str,
) -> Result<Answer, Stop>
    ensures { IsJudgedSo (unlabelled_object table.now object.now) (Says (TellsUsers usage object.now table.now)) result }
{
    let Some(object) = table.label_named(object) else {
        return Err(Stop::NoLabel(Asked::Object));
    };
    let reach = kept_reach(alloc, table)?;
    Ok(Answer::plain(users_text(alloc, &reach, usage, object)?, 0))
}

// The lines of the labels that use one in this way.
fn users_text(
    alloc: Global,
    reach: &Reach<'_>,
    usage: Use,
    object: Label,
) -> Result<Vec<u8>, AllocError>
    ensures { IfOk result (λ text. IsUsersText usage reach.now object text.items) }
{
    match usage {
        Use::Changes => changers_text(alloc, reach, object),
        Use::Reads => readers_text(alloc, reach, object),
    }
}
