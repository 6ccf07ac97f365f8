//! Copies of capabilities: what one says, and where it comes in the derivation tree.
ghost use Rattle.std.specs.Prelude.{◌≡◌, ◌≢◌, IsTrue, None, Some};
ghost use Rattle.machine.specs.{Capabilities.kind_of_detail, Machine.{cap_of, has_slot, parent_of}, Step.Copy.{copyable, masked}};
ghost use Rattle.machine.specs.{Tree.{copied, parent_of_copy, with_copy}, WellFormed.{IsWellFormed, kind_of}};
ghost use Rattle.machine.specs.declared.object.ObjectKind.TheVariants as kind;

use base::{Cause, Rights, SlotRef};
use bitflags::Flags;
use derivation::insert_child;
use machine::{Badged, Cap, Detail, Ends};
use objects::State;

/// Refuses to copy untyped memory (seL4 manual, "Capability Derivation Tree": it has one capability).
///
/// # Errors
///
/// [`Cause::IllegalOperation`] (3) for untyped memory.
pub fn copyable(detail: &Detail) -> Result<(), Cause>
    ensures { result ≡ copyable detail.now }
{
    match detail {
        Detail::Untyped => Err(Cause::IllegalOperation),
        _ => Ok(()),
    }
}

/// Returns what a capability says, with only those of its rights that are in the mask.
pub fn masked(mask: Rights, detail: Detail) -> Detail
    ensures { result ≡ masked mask detail }
{
    match detail {
        Detail::Endpoint(end) => Detail::Endpoint(Badged {
            rights: end.rights.intersection(mask),
            ..end
        }),
        Detail::Notification(end) => Detail::Notification(Badged {
            rights: end.rights.intersection(mask),
            ..end
        }),
        Detail::Frame(rights) => Detail::Frame(rights.intersection(mask)),
        _ => detail,
    }
}

/// A copy that says this.
fn copied(source: &Cap, detail: Detail) -> Cap
    ensures { result ≡ copied source.now detail }
{
    Cap {
        object: source.object,
        detail,
        original: detail.badge() != source.detail.badge(),
    }
}

/// The parent of a copy.
fn parent_of_copy(state: &State, slot: SlotRef, source: &Cap) -> Option<SlotRef>
    ensures { result ≡ parent_of_copy state.now slot source.now }
{
    if source.original {
        Some(slot)
    } else {
        state.parent(slot)
    }
}

/// Fills the target with a copy of what the source holds (seL4 manual, "Capability Derivation Tree").
///
/// The target is an empty slot that is there, and the copy says `detail`. In the derivation tree
/// the copy becomes a child of the source where that is original, else of the source's parent, if
/// it has one.
///
/// No memory is taken. The caller must see to it that the kind may be copied, and what the copy
/// says. Of the same kind, which isn't untyped memory, and in a root slot of a CNode, the copy
/// leaves the state well formed.
pub fn derive(state: &mut State, ends: Ends, detail: Detail)
    requires well_formed { IsWellFormed state.old }
    requires there { IsTrue (has_slot state.old ends.target) }
    requires vacant { cap_of state.old ends.target ≡ None }
    requires filled { cap_of state.old ends.source ≡ Some ends.held }
    ensures copy { state.new ≡ with_copy state.old ends.target ends.source ends.held detail }
    ensures well_formed { kind_of_detail detail ≡ kind_of_detail ends.held.detail
        → kind_of_detail ends.held.detail ≢ kind.Untyped
        → (kind_of state.old ends.target.holder ≡ Some kind.Tcb → kind_of_detail detail ≡ kind.CNode)
        → IsWellFormed state.new }
{
    add_copy(state, ends, detail);
}

// Fills the target, and joins it to the parent of a copy.
#[tactic(auto, unfolding(machine::specs::Tree::with_copy))]
fn add_copy(state: &mut State, ends: Ends, detail: Detail)
    requires well_formed { IsWellFormed state.old }
    requires there { IsTrue (has_slot state.old ends.target) }
    requires vacant { cap_of state.old ends.target ≡ None }
    requires filled { cap_of state.old ends.source ≡ Some ends.held }
    ensures { state.new ≡ with_copy state.old ends.target ends.source ends.held detail }
{
    let parent = parent_of_copy(state, ends.source, &ends.held);
    state.put_cap(ends.target, copied(&ends.held, detail));
    if let Some(parent) = parent {
        insert_child(state, ends.target, parent);
    }
}
