//! The labels of objects.
ghost use Rattle.std.specs.Prelude.{◌≡◌};
ghost use Rattle.machine.specs.{Authority.label_of, Layout.declared_label};

use base::{Label, ObjId};
use objects::State;
use table::Table;

/// Returns the label that the table declares for an initial object, if it declares that object.
#[tactic(auto, unfolding(machine::specs::Layout::declared_label, machine::specs::Layout::initial_of))]
pub fn declared_label(table: &Table, id: ObjId) -> Option<Label>
    ensures { result ≡ declared_label table.now id }
{
    let initial = table.objects().get(id.0 as usize)?;
    Some(initial.label)
}

/// Returns the label of a present object.
///
/// An initial object's label is declared, and a made one's is that of the initial untyped memory that it lies in.
#[tactic(auto, unfolding(machine::specs::Authority::label_of))]
pub fn label_of(table: &Table, state: &State, id: ObjId) -> Option<Label>
    ensures { result ≡ label_of table.now state.now id }
{
    let object = state.object(id)?;
    if id.0 < table.object_count() as u64 {
        declared_label(table, id)
    } else {
        table.label_at(object.address())
    }
}
