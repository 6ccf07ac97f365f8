//! Rows of labels: how far each label goes with each, found once for all claims.
ghost use Rattle.std.specs.Prelude.{ℕ, ◌||◌, ◌≡◌, IfOk, Some, slice_get, vec_len};
ghost use Rattle.{base.specs.Labels.is_in, reach.specs.Extents.{GoesTo, Limits, limits_of}};
ghost use Rattle.base.specs.declared.label.TheConstants.Label as Label;

use base::{Label, Labels};
use reach::{Extent, Reach};
use std::alloc::{AllocError, Global};

/// How far a label goes with each label.
#[derive(Clone, Copy)]
pub(crate) struct Row {
    pub changed: Labels,
    pub shrunk: Labels,
}

impl Row {
    ghost use Rattle.claims.specs.Rows.{IsRow, row_extent};

    /// Returns how far a label goes in a system.
    fn of(reach: &Reach<'_>, actor: Label) -> Row
        ensures { IsRow (limits_of reach.now) actor result }
    {
        Row {
            changed: reach.changed_by(actor),
            shrunk: reach.shrunk_by(actor),
        }
    }

    /// Returns the labels whose objects change or shrink.
    pub fn affected(self) -> Labels
        ensures { (l : ℕ) → is_in result l ≡ (is_in self.changed l || is_in self.shrunk l) }
    {
        self.changed.union(self.shrunk)
    }

    /// Returns how far it goes with this label.
    pub fn on(self, object: Label) -> Extent
        ensures extent { result ≡ row_extent self object }
        ensures goes_to { (limits : Limits) (a : ℕ) → IsRow limits a self → GoesTo limits a object result }
    {
        if self.changed.has(object) {
            return Extent::Full;
        }
        if self.shrunk.has(object) {
            return Extent::Take;
        }
        Extent::Nothing
    }
}

/// How far each of the labels that there can be goes with each.
#[derive(Drop)]
pub(crate) struct Rows {
    rows: Vec<Row>,
    ghost counted: { vec_len rows ≡ Label.COUNT },
}

impl Rows {
    ghost use Rattle.claims.specs.Rows.{AreRowsByLabel};

    /// Returns how far each label goes in a system.
    pub fn of(alloc: Global, reach: &Reach<'_>) -> Result<Rows, AllocError>
        ensures { IfOk result (AreRowsByLabel (limits_of reach.now)) }
    {
        let mut rows = Vec::with_capacity(alloc, usize::from(Label::COUNT))?;
        for number in 0..Label::COUNT {
            if let Some(actor) = Label::new(number) {
                rows.push(Row::of(reach, actor))?;
            }
        }
        Ok(Rows { rows })
    }

    /// Returns how far this label goes.
    pub fn row(&self, actor: Label) -> Row
        ensures { slice_get self.now.rows.items actor ≡ Some result }
    {
        self.rows[usize::from(actor.number())]
    }
}
