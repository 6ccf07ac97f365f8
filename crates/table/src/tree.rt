//! Look-ups in the derivation tree of a capability table, and the test of its rules.
ghost use Rattle.std.specs.{declared.cmp.Ordering.TheVariants.Less, List.find};
ghost use Rattle.std.specs.Prelude.{[], ℕ, ◌+◌, ◌≡◌, IsTrue, None, Some, option_map, slice_get};
ghost use Rattle.machine.specs.{declared.layout.Pair.Pair as Edge, Machine.{same_slot, slot_cmp}};
ghost use Rattle.table.specs.{Rules.{Rises, RisesByChild}, Tree.{tree_of, with_originals}};
ghost use Rattle.table.specs.Tree as tree;

use base::{Rights, SlotRef};
use bitflags::Flags;
use machine::{Cap, Detail, Filled, Pair};

/// A capability's rights; a kind without rights has none.
fn rights_of(detail: &Detail) -> Rights
    ensures { result.0 ≡ tree.rights_of detail.now }
{
    match detail {
        Detail::Endpoint(end) | Detail::Notification(end) => end.rights,
        Detail::Frame(rights) => *rights,
        _ => Rights::empty(),
    }
}

/// Returns the capability in a slot, if it is filled.
pub fn cap_in(caps: &[Filled], slot: SlotRef) -> Option<Cap>
    requires { Rises caps.now }
    ensures { result ≡ option_map (λ filled. filled.cap) (find (λ filled. same_slot filled.slot slot) caps.now) }
{
    match caps.binary_search_by_key(&slot, |filled| filled.slot) {
        Ok(index) => Some(caps[index].cap),
        Err(_) => None,
    }
}

/// Returns the parent of a slot, if it has one.
pub fn parent_in(pairs: &[Pair], slot: SlotRef) -> Option<SlotRef>
    requires { RisesByChild pairs.now }
    ensures { result ≡ option_map (λ pair. pair.parent) (find (λ pair. same_slot pair.child slot) pairs.now) }
{
    match pairs.binary_search_by_key(&slot, |pair| pair.child) {
        Ok(index) => Some(pairs[index].parent),
        Err(_) => None,
    }
}

/// Whether the pair before the number `near`, if there is one, comes before the slot.
fn is_past(pairs: &[Pair], near: usize, slot: SlotRef) -> bool
    ensures { IsTrue result → (k : ℕ) → near ≡ k + 1
        → (pair : Edge) × (slice_get pairs.now k ≡ Some pair) × (slot_cmp pair.child slot ≡ Less) }
{
    match near.checked_sub(1) {
        Some(last) => match pairs.get(last) {
            Some(pair) => pair.child < slot,
            None => false,
        },
        None => true,
    }
}

/// Whether the pair at the number `near`, if there is one, comes after the slot.
fn is_ahead(pairs: &[Pair], near: usize, slot: SlotRef) -> bool
    ensures { IsTrue result → (pair : Edge) → slice_get pairs.now near ≡ Some pair → slot_cmp slot pair.child ≡ Less }
{
    match pairs.get(near) {
        Some(pair) => slot < pair.child,
        None => true,
    }
}

/// The parent of a slot, looked for first at the number `near`.
fn parent_near(pairs: &[Pair], near: usize, slot: SlotRef) -> Option<SlotRef>
    requires { RisesByChild pairs.now }
    ensures { result ≡ option_map (λ pair. pair.parent) (find (λ pair. same_slot pair.child slot) pairs.now) }
{
    match pairs.get(near) {
        Some(pair) if pair.child == slot => Some(pair.parent),
        _ if is_past(pairs, near, slot) && is_ahead(pairs, near, slot) => None,
        _ => parent_in(pairs, slot),
    }
}

/// The number after `near` if the pair at `near` is that of the slot, or else `near`.
fn past(pairs: &[Pair], near: usize, slot: SlotRef) -> usize {
    match pairs.get(near) {
        Some(pair) if pair.child == slot => near + 1,
        _ => near,
    }
}

/// The capability in the parent of a slot, whose pair is looked for first at the number `near`.
#[tactic(auto, unfolding(crate::specs::Tree::source_of, machine::specs::Layout::initial_cap, machine::specs::Layout::initial_parent))]
fn source_of(caps: &[Filled], pairs: &[Pair], near: usize, slot: SlotRef) -> Option<Cap>
    requires caps { Rises caps.now }
    requires pairs { RisesByChild pairs.now }
    ensures { result ≡ tree.source_of (tree_of caps.now pairs.now) slot }
{
    let parent = parent_near(pairs, near, slot)?;
    cap_in(caps, parent)
}

/// Whether a capability is original in a slot, whose pair is looked for first at the number `near`.
#[tactic(auto, unfolding(crate::specs::Tree::is_original))]
fn is_original(caps: &[Filled], pairs: &[Pair], near: usize, slot: SlotRef, detail: &Detail) -> bool
    requires caps { Rises caps.now }
    requires pairs { RisesByChild pairs.now }
    ensures { result ≡ tree.is_original (tree_of caps.now pairs.now) slot detail.now }
{
    match source_of(caps, pairs, near, slot) {
        Some(source) => detail.badge() != source.detail.badge(),
        None => true,
    }
}

/// Marks each capability as original or not.
pub fn mark_originals(caps: &mut [Filled], pairs: &[Pair])
    requires caps { Rises caps.old }
    requires pairs { RisesByChild pairs.now }
    ensures { caps.new ≡ (with_originals (tree_of caps.old pairs.now)).caps }
{
    // Both lists rise, so the next slot that is a child is mostly that of the next pair.
    let mut near = 0;
    for i in 0..caps.len() {
        let filled = caps[i];
        let original = is_original(caps, pairs, near, filled.slot, &filled.cap.detail);
        caps[i].cap.original = original;
        near = past(pairs, near, filled.slot);
    }
}

/// Whether two capabilities may be parent and child. Capabilities for untyped memory may not: such
/// memory has one capability, and a capability that is its own parent isn't original.
fn are_kin(above: &Cap, below: &Cap) -> bool
    ensures { result ≡ tree.are_kin (Some above.now) (Some below.now) }
{
    above.object == below.object
        && above.original
        && (above.detail.badge() == 0 || above.detail.badge() == below.detail.badge())
        && rights_of(&above.detail).contains(rights_of(&below.detail))
}

/// The capability in a slot, looked for first at the number `near`.
fn cap_near(caps: &[Filled], near: usize, slot: SlotRef) -> Option<Cap>
    requires { Rises caps.now }
    ensures { result ≡ option_map (λ filled. filled.cap) (find (λ filled. same_slot filled.slot slot) caps.now) }
{
    match caps.get(near) {
        Some(filled) if filled.slot == slot => Some(filled.cap),
        _ => cap_in(caps, slot),
    }
}

/// The number of the first filled slot from `near` on that doesn't come before the slot.
fn forward(caps: &[Filled], mut near: usize, slot: SlotRef) -> usize {
    while near < caps.len() && caps[near].slot < slot {
        near += 1;
    }
    near
}

/// Whether the capabilities in the slots of a pair may be parent and child. The child is looked for
/// first at the number `near`.
#[tactic(auto, unfolding(crate::specs::Tree::is_kin, machine::specs::Layout::initial_cap))]
fn is_kin(caps: &[Filled], near: usize, pair: &Pair) -> bool
    requires { Rises caps.now }
    ensures { result ≡ tree.is_kin (tree_of caps.now []) pair.now }
{
    match (cap_in(caps, pair.parent), cap_near(caps, near, pair.child)) {
        (Some(above), Some(below)) => are_kin(&above, &below),
        _ => false,
    }
}

/// Returns the number of the first pair that breaks a rule of the tree, if one does.
#[tactic(auto, unfolding(crate::specs::Tree::tree_fault, crate::specs::Tree::is_kin, machine::specs::Layout::initial_cap))]
pub fn tree_fault(caps: &[Filled], pairs: &[Pair]) -> Option<usize>
    requires { Rises caps.now }
    ensures { result ≡ tree.tree_fault (tree_of caps.now pairs.now) }
{
    // Both lists rise, so the children are met in turn.
    let mut near = 0;
    for (number, pair) in pairs.iter().enumerate() {
        near = forward(caps, near, pair.child);
        if !is_kin(caps, near, pair) {
            return Some(number);
        }
    }
    None
}
