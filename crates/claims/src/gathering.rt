//! The strongest claims that hold of a table.
ghost use Rattle.std.specs.{List.{Contains, flat_map}, Prelude.{[], ◌++◌, ◌≡◌, IfOk, OnOk, Some, map}};
ghost use Rattle.{reach.specs.Extents.limits_of, summary.specs.Labelled.labels_of};
ghost use Rattle.claims.specs.{declared.claim.Claim.Claim as ClaimOf, Holding.{AreBroken, ClaimIsKept}, Rows.{extents_of, row_extent}};
ghost use Rattle.claims.specs.Strongest.{AreStrongest, affects, claims_among, claims_for, claims_on, is_user, only_these, users_of};
ghost use Rattle.claims.specs.declared.lines.TheConstants.ClaimLines as ClaimLines;

use crate::claim::{Claim, LabelList, Most, Who};
use crate::lines::ClaimLines;
use crate::rows::{Row, Rows};
use base::Label;
use reach::{Extent, Reach};
use std::alloc::{AllocError, Global};
use summary::{others, programs};
use table::Table;

/// Returns the strongest claims that hold of a table with this reach, one a line.
///
/// For labels that have a thread these are `none` and `take`, on each pair of them on which less than full
/// authority is left. For each label without a thread it is one `only` with all other labels that may change
/// or shrink its objects, or `none * B` where no other label may. Claims of other forms aren't among them.
///
/// What they claim is kept in every run.
pub fn strongest(alloc: Global, reach: &Reach<'_>) -> Result<ClaimLines, AllocError>
    ensures strongest { IfOk result (AreStrongest reach.now.table (limits_of reach.now)) }
    ensures hold { IfOk result (λ lines.
        AreBroken reach.now.table (limits_of reach.now) ClaimLines.FIRST lines []) }
    ensures kept { IfOk result (λ lines.
        (claim : ClaimOf) → Contains lines (Some claim) → ClaimIsKept reach.now.table (limits_of reach.now) claim) }
{
    reach.bounds_runs();
    let lines = strongest_by(alloc, reach.table(), reach)?;
    Ok(lines)
}

/// The strongest claims that hold by the reach, on the labels of a table.
fn strongest_by(alloc: Global, table: &Table, reach: &Reach<'_>) -> Result<ClaimLines, AllocError>
    ensures { IfOk result (AreStrongest table.now (limits_of reach.now)) }
{
    // A rule of tables: their labels are few.
    table.keeps_rules();
    let rows = Rows::of(alloc, reach)?;
    let programs = programs(alloc, table)?;
    let others = others(alloc, table)?;
    let mut lines = ClaimLines::new(alloc);
    add_claims_among(&mut lines, &rows, &programs)?;
    add_claims_for(alloc, &mut lines, table, &rows, &others)?;
    Ok(lines)
}

/// Adds the claims among labels.
fn add_claims_among(
    lines: &mut ClaimLines,
    rows: &Rows,
    programs: &[Label],
) -> Result<(), AllocError>
    ensures { OnOk result (lines.new ≡ lines.old ++ map Some (claims_among (extents_of rows.now) programs.now)) }
{
    for actor in programs {
        add_claims_of(lines, rows.row(*actor), *actor, programs)?;
    }
    Ok(())
}

/// Adds the claims of a label on these.
fn add_claims_of(
    lines: &mut ClaimLines,
    row: Row,
    actor: Label,
    objects: &[Label],
) -> Result<(), AllocError>
    ensures { OnOk result (lines.new ≡ lines.old ++ map Some (flat_map (claims_on (row_extent row) actor) objects.now)) }
{
    for object in objects {
        add_claim_on(lines, row, actor, *object)?;
    }
    Ok(())
}

/// Adds the claim of a label on another, if it leaves anything out.
fn add_claim_on(
    lines: &mut ClaimLines,
    row: Row,
    actor: Label,
    object: Label,
) -> Result<(), AllocError>
    ensures { OnOk result (lines.new ≡ lines.old ++ map Some (claims_on (row_extent row) actor object)) }
{
    if actor.number() == object.number() {
        return Ok(());
    }
    let most = match row.on(object) {
        Extent::Full => return Ok(()),
        Extent::Take => Most::Take,
        Extent::Nothing => Most::Nothing,
    };
    lines.push(Some(Claim::AtMost(most, Who::One(actor), Who::One(object))))
}

/// Adds the claim for each of these labels, by all labels of a table.
fn add_claims_for(
    alloc: Global,
    lines: &mut ClaimLines,
    table: &Table,
    rows: &Rows,
    others: &[Label],
) -> Result<(), AllocError>
    ensures { OnOk result (lines.new
        ≡ lines.old ++ map Some (claims_for (extents_of rows.now) (labels_of table.now) others.now)) }
{
    for object in others {
        let users = users_of(alloc, table, rows, *object)?;
        lines.push(Some(only_these(*object, users)))?;
    }
    Ok(())
}

/// The labels of a table that may change or shrink objects of another.
fn users_of(
    alloc: Global,
    table: &Table,
    rows: &Rows,
    object: Label,
) -> Result<LabelList, AllocError>
    ensures { IfOk result (λ users. users ≡ users_of (extents_of rows.now) (labels_of table.now) object) }
{
    // A rule of tables: their labels are few.
    table.keeps_rules();
    let mut users = LabelList::new(alloc);
    for number in 0..table.label_count() {
        if let Some(actor) = Label::new(number as u16) {
            if is_user(rows.row(actor), actor, object) {
                users.push(actor)?;
            }
        }
    }
    Ok(users)
}

/// Whether a label is another than this, and may change or shrink its objects.
fn is_user(row: Row, actor: Label, object: Label) -> bool
    ensures { result ≡ is_user (row_extent row) actor object }
{
    actor.number() != object.number() && affects(row.on(object))
}

/// Whether objects change or shrink.
fn affects(extent: Extent) -> bool
    ensures { result ≡ affects extent }
{
    match extent {
        Extent::Full => true,
        Extent::Take => true,
        Extent::Nothing => false,
    }
}

/// The claim that these labels alone change or shrink objects of another.
fn only_these(object: Label, users: LabelList) -> Claim
    ensures { result ≡ only_these object users }
{
    if users.as_slice().is_empty() {
        return Claim::AtMost(Most::Nothing, Who::Others, Who::One(object));
    }
    Claim::Only(object, users)
}
