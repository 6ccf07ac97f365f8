//! The lines of a capability table from `cap` on: capabilities, pairs and bindings.
ghost use Rattle.std.specs.Prelude.{◌≡◌, OnErr, Some, true};
ghost use Rattle.{words.specs.Reading.GivesOrStops, table.specs.Building.{is_above_caps, is_above_pairs}, captext.specs.Spelling.AreTerms};
ghost use Rattle.captext.specs.Tables as text;

use crate::objects::{takes_caps, takes_pairs};
use crate::shapes::{Place, Term, names, slot, terms};
use base::{ObjId, Rights, SlotRef};
use bitflags::Flags;
use machine::{Badged, Binding, Cap, Detail, Filled, Guard, Object, ObjectKind, Pair, Radix};
use table::Draft;
use words::{LineError, Words, Wrong};

/// Returns the slot at a place of a holder.
pub fn slot_in(holder: ObjId, place: Place) -> SlotRef
    ensures { result ≡ text.slot_in holder place }
{
    let index = match place {
        Place::Index(index) => index,
        Place::Root => 0,
    };
    SlotRef { holder, index }
}

/// Whether the slot rises above those that are filled. That of an unknown holder isn't compared.
fn cap_rises(draft: &Draft, holder: Option<ObjId>, place: Place) -> bool
    ensures { result ≡ text.rises (is_above_caps draft.now) holder place }
{
    match holder {
        Some(holder) => draft.is_above_caps(slot_in(holder, place)),
        None => true,
    }
}

/// Returns whether a place fits its holder: an index a CNode, and the root slot a TCB.
pub fn fits_holder(holder: Option<ObjectKind>, place: Place) -> bool
    ensures { result ≡ text.fits_holder holder place }
{
    matches!(
        (holder, place),
        (Some(ObjectKind::CNode), Place::Index(_)) | (Some(ObjectKind::Tcb), Place::Root)
    )
}

/// Whether a capability to the target may be at the place: only a CNode's in a root slot.
fn fits_place(place: Place, target: Option<ObjectKind>) -> bool
    ensures { result ≡ text.fits_place place target }
{
    match place {
        Place::Index(_) => true,
        Place::Root => matches!(target, Some(ObjectKind::CNode)),
    }
}

/// Whether a capability to the target may be at the place of the holder, by their kinds.
fn may_fill(holder: Option<ObjectKind>, place: Place, target: Option<ObjectKind>) -> bool
    ensures { result ≡ text.may_fill holder place target }
{
    fits_holder(holder, place) && fits_place(place, target)
}

/// Whether rights are only `r` and `w`.
fn is_plain(rights: Rights) -> bool
    ensures { result ≡ text.is_plain rights }
{
    rights.bits() < 4
}

/// Whether a guard and the radix together take at most 64 bits, and the value fits the size.
fn is_guard(radix: Radix, size: u64, value: u64) -> bool
    ensures { result ≡ text.is_guard radix size value }
{
    let radix = u64::from(radix.bits());
    size <= 64 && size + radix <= 64 && value < 1 << size
}

/// A guard that fits the radix.
fn guarded(radix: Radix, size: u64, value: u64) -> Result<Detail, Wrong>
    ensures { result ≡ text.guarded radix size value }
{
    if is_guard(radix, size, value) {
        let size = size as u8;
        Ok(Detail::CNode(Guard { size, value }))
    } else {
        Err(Wrong::Limit)
    }
}

/// What a capability with these rights says, if they are only `r` and `w`.
fn plain(rights: Rights, detail: Detail) -> Result<Detail, Wrong>
    ensures { result ≡ text.plain rights detail }
{
    if is_plain(rights) {
        Ok(detail)
    } else {
        Err(Wrong::WrongKind)
    }
}

/// What a capability to an object says: a guard's size and value, rights and a badge, rights, or
/// nothing.
fn detail_of(target: &Object, first: Option<Term>, second: Option<Term>) -> Result<Detail, Wrong>
    ensures { result ≡ text.detail_of target.now first second }
{
    match (target, first, second) {
        (Object::CNode(node), Some(Term::Decimal(size)), Some(Term::Hexadecimal(value))) => {
            guarded(node.radix, size, value)
        }
        (Object::Endpoint(_), Some(Term::Rights(rights)), Some(Term::Decimal(badge))) => {
            Ok(Detail::Endpoint(Badged { rights, badge }))
        }
        (Object::Notification(_), Some(Term::Rights(rights)), Some(Term::Decimal(badge))) => {
            plain(rights, Detail::Notification(Badged { rights, badge }))
        }
        (Object::Frame(_), Some(Term::Rights(rights)), None) => plain(
            rights,
            Detail::Frame(rights),
        ),
        (Object::Untyped(_), None, None) => Ok(Detail::Untyped),
        (Object::Tcb(_), None, None) => Ok(Detail::Tcb),
        (Object::Reply(_), None, None) => Ok(Detail::Reply),
        (Object::Context(_), None, None) => Ok(Detail::Context),
        (Object::Control(_), None, None) => Ok(Detail::Control),
        _ => Err(Wrong::WrongKind),
    }
}

/// What a capability to an object of the table says.
#[tactic(auto, unfolding(crate::specs::Tables::detail_for, words::specs::Reading::bind))]
fn detail_for(
    draft: &Draft,
    target: ObjId,
    terms: (Option<Term>, Option<Term>),
) -> Result<Detail, Wrong>
    ensures { result ≡ text.detail_for draft.now target terms }
{
    match draft.object(target) {
        Some(initial) => detail_of(&initial.object, terms.0, terms.1),
        None => Err(Wrong::UnknownName),
    }
}

/// Whether the object is an untyped that has a capability.
fn is_claimed(draft: &Draft, target: ObjId) -> bool
    ensures { result ≡ text.is_claimed draft.now target }
{
    draft.kind(target) == Some(ObjectKind::Untyped) && draft.has_cap_to(target)
}

/// Adds a capability to the target in a slot of the holder.
#[tactic(auto, unfolding(crate::specs::Tables::filled, words::specs::Reading::bind))]
fn fill(
    draft: &mut Draft,
    holder: ObjId,
    place: Place,
    target: ObjId,
    terms: (Option<Term>, Option<Term>),
) -> Result<(), LineError>
    requires rises { is_above_caps draft.old (text.slot_in holder place) ≡ true }
    requires spelled { AreTerms terms }
    ensures exact { GivesOrStops (λ _. draft.new) result (text.filled draft.old holder place target terms) }
    ensures err { OnErr result (draft.new ≡ draft.old) }
{
    if is_claimed(draft, target) {
        return Err(LineError::Text(Wrong::Double));
    }
    if !may_fill(draft.kind(holder), place, draft.kind(target)) {
        return Err(LineError::Text(Wrong::WrongKind));
    }
    let detail = detail_for(draft, target, terms)?;
    let slot = slot_in(holder, place);
    if !draft.declares_slot(slot) {
        return Err(LineError::Text(Wrong::Limit));
    }
    let cap = Cap {
        object: target,
        detail,
        original: true,
    };
    draft.add_cap(Filled { slot, cap })?;
    Ok(())
}

/// The object of a name.
fn named(draft: &Draft, name: &str) -> Result<ObjId, Wrong>
    ensures { result ≡ text.named draft.now name.now }
{
    draft.object_named(name).ok_or(Wrong::UnknownName)
}

/// Adds a capability to the object of one name in a slot of the object of another.
#[tactic(auto, unfolding(crate::specs::Tables::capped, words::specs::Reading::bind))]
fn fill_named(
    draft: &mut Draft,
    holder: &str,
    place: Place,
    target: &str,
    terms: (Option<Term>, Option<Term>),
) -> Result<(), LineError>
    requires { AreTerms terms }
    ensures exact { GivesOrStops (λ _. draft.new) result
        (text.capped draft.old ((holder.now, place), (target.now, terms))) }
    ensures err { OnErr result (draft.new ≡ draft.old) }
{
    if !(takes_caps(draft) && cap_rises(draft, draft.object_named(holder), place)) {
        return Err(LineError::Text(Wrong::Syntax));
    }
    let holder = named(draft, holder)?;
    let target = named(draft, target)?;
    fill(draft, holder, place, target, terms)
}

/// Reads `SLOT NAME` and what the capability says, after the word `cap`.
///
/// # Errors
///
/// [`LineError::Text`] with the fault of the line, or [`LineError::Memory`] where memory is
/// refused. Then the draft hasn't changed.
#[tactic(auto, unfolding(crate::specs::Tables::cap_line, crate::specs::Tables::cap_at, words::specs::Parts::in_turn, words::specs::Reading::bind))]
pub fn cap_line(draft: &mut Draft, words: &mut Words<'_>) -> Result<(), LineError>
    ensures exact { GivesOrStops (λ _. draft.new) result (text.cap_line draft.old words.old) }
    ensures err { OnErr result (draft.new ≡ draft.old) }
{
    let (holder, place) = slot(words)?;
    let target = words.name()?;
    let terms = terms(words)?;
    words.end()?;
    fill_named(draft, holder, place, target, terms)
}

/// Whether the slot rises above those that are children. That of an unknown holder isn't compared.
fn child_rises(draft: &Draft, holder: Option<ObjId>, place: Place) -> bool
    ensures { result ≡ text.rises (is_above_pairs draft.now) holder place }
{
    match holder {
        Some(holder) => draft.is_above_pairs(slot_in(holder, place)),
        None => true,
    }
}

/// Makes the capability in one slot the parent of that in another.
#[tactic(auto, unfolding(crate::specs::Tables::paired, words::specs::Reading::bind))]
fn pair(draft: &mut Draft, parent: (ObjId, Place), child: (ObjId, Place)) -> Result<(), LineError>
    requires { is_above_pairs draft.old (text.slot_in child.0 child.1) ≡ true }
    ensures exact { GivesOrStops (λ _. draft.new) result (text.paired draft.old parent child) }
    ensures err { OnErr result (draft.new ≡ draft.old) }
{
    let fit = fits_holder(draft.kind(parent.0), parent.1);
    if !(fit && fits_holder(draft.kind(child.0), child.1)) {
        return Err(LineError::Text(Wrong::WrongKind));
    }
    let parent = slot_in(parent.0, parent.1);
    let child = slot_in(child.0, child.1);
    if !(draft.declares_slot(parent) && draft.declares_slot(child)) {
        return Err(LineError::Text(Wrong::Limit));
    }
    draft.add_pair(Pair { parent, child })?;
    Ok(())
}

/// Makes the capability in the slot of one name the parent of that in the slot of another.
#[tactic(auto, unfolding(crate::specs::Tables::derived, words::specs::Reading::bind))]
fn pair_named(
    draft: &mut Draft,
    parent: (&str, Place),
    child: (&str, Place),
) -> Result<(), LineError>
    ensures exact { GivesOrStops (λ _. draft.new) result
        (text.derived draft.old ((parent.entry.0.now, parent.entry.1), (child.entry.0.now, child.entry.1))) }
    ensures err { OnErr result (draft.new ≡ draft.old) }
{
    if !(takes_pairs(draft) && child_rises(draft, draft.object_named(child.0), child.1)) {
        return Err(LineError::Text(Wrong::Syntax));
    }
    let above = named(draft, parent.0)?;
    let below = named(draft, child.0)?;
    pair(draft, (above, parent.1), (below, child.1))
}

/// Reads `SLOT SLOT`, of a parent and its child, after the word `child`.
///
/// # Errors
///
/// [`LineError::Text`] with the fault of the line, or [`LineError::Memory`] where memory is
/// refused. Then the draft hasn't changed.
#[tactic(auto, unfolding(crate::specs::Tables::child_line, crate::specs::Tables::pair_at, words::specs::Parts::in_turn, words::specs::Reading::bind))]
pub fn child_line(draft: &mut Draft, words: &mut Words<'_>) -> Result<(), LineError>
    ensures exact { GivesOrStops (λ _. draft.new) result (text.child_line draft.old words.old) }
    ensures err { OnErr result (draft.new ≡ draft.old) }
{
    let parent = slot(words)?;
    let child = slot(words)?;
    words.end()?;
    pair_named(draft, parent, child)
}

/// Whether the thread rises above those that are bound. An unknown name isn't compared.
fn thread_rises(draft: &Draft, thread: Option<ObjId>) -> bool
    ensures { result ≡ text.thread_rises draft.now thread }
{
    match thread {
        Some(thread) => draft.is_above_bindings(thread),
        None => true,
    }
}

/// Returns whether the objects are a thread and a context.
pub fn is_thread_and_context(thread: Option<ObjectKind>, context: Option<ObjectKind>) -> bool
    ensures { result ≡ text.is_thread_and_context thread context }
{
    matches!(
        (thread, context),
        (Some(ObjectKind::Tcb), Some(ObjectKind::Context))
    )
}

/// Binds the thread of one name to the context of another.
#[tactic(auto, unfolding(crate::specs::Tables::bound, words::specs::Reading::bind))]
fn bind(draft: &mut Draft, thread: &str, context: &str) -> Result<(), LineError>
    ensures exact { GivesOrStops (λ _. draft.new) result (text.bound draft.old (thread.now, context.now)) }
    ensures err { OnErr result (draft.new ≡ draft.old) }
{
    if !thread_rises(draft, draft.object_named(thread)) {
        return Err(LineError::Text(Wrong::Syntax));
    }
    let thread = named(draft, thread)?;
    let context = named(draft, context)?;
    if draft.is_bound(context) {
        return Err(LineError::Text(Wrong::Double));
    }
    if !is_thread_and_context(draft.kind(thread), draft.kind(context)) {
        return Err(LineError::Text(Wrong::WrongKind));
    }
    draft.add_binding(Binding { thread, context })?;
    Ok(())
}

/// Reads `NAME NAME`, after the word `bind`.
///
/// # Errors
///
/// [`LineError::Text`] with the fault of the line, or [`LineError::Memory`] where memory is
/// refused. Then the draft hasn't changed.
#[tactic(auto, unfolding(crate::specs::Tables::bind_line, words::specs::Reading::bind))]
pub fn bind_line(draft: &mut Draft, words: &mut Words<'_>) -> Result<(), LineError>
    ensures exact { GivesOrStops (λ _. draft.new) result (text.bind_line draft.old words.old) }
    ensures err { OnErr result (draft.new ≡ draft.old) }
{
    let (thread, context) = names(words)?;
    words.end()?;
    bind(draft, thread, context)
}
