//! The tests whether objects fit (fault 55), and whether slots and guards are within limits (fault 54).
use crate::declared::{Declared, Row, Rows, Sought, power, radix_of};
use crate::names::holder_of;
use forms::{Form, decimal, hexadecimal};

/// An object of a kind that doesn't fit.
#[derive(Clone, Copy)]
pub(crate) struct KindFlaw<'a> {
    /// The object's name, or a slot.
    pub name: &'a str,
    /// The form of the object, or of the slot's holder.
    pub form: Form,
    pub misfit: Misfit,
}

/// The way in which an object doesn't fit.
#[derive(Clone, Copy)]
pub(crate) enum Misfit {
    /// A slot that its holder doesn't have.
    Slot,
    /// A root that isn't a CNode's capability.
    Root,
    /// Terms after a capability's object that aren't those of its kind.
    Terms,
    /// Rights that the kind of the object doesn't have.
    Rights,
    NoThread,
    NoContext,
    /// A slot that another kind of line in a certificate takes.
    SlotOf,
}

/// A slot or a guard past a limit.
#[derive(Clone, Copy)]
pub(crate) enum SlotFlaw<'a> {
    /// The index, the holder's name, and how many slots it has.
    Index(u64, &'a str, u64),
    /// The number of bits of guard and radix.
    Bits(u64),
    /// A guard's value and its size.
    Guard(&'a str, u64),
}

/// The first object of a line that doesn't fit.
pub(crate) fn kind_flaw<'a>(
    declared: Declared<'_>,
    form: Form,
    row: Row<'a>,
) -> Option<KindFlaw<'a>> {
    let (one, two) = (row.word(1), row.word(2));
    match form {
        Form::Bind | Form::CertifiedRuns => match pair_flaw(declared, one, Form::Tcb) {
            Some(flaw) => Some(flaw),
            None => pair_flaw(declared, two, Form::Context),
        },
        Form::Child | Form::CertifiedDerive => match holder_flaw(declared, one) {
            Some(flaw) => Some(flaw),
            None => holder_flaw(declared, two),
        },
        Form::CertifiedCap => certified_flaw(declared, one, Form::CNode),
        Form::CertifiedSpace => certified_flaw(declared, one, Form::Tcb),
        _ => match holder_flaw(declared, one) {
            Some(flaw) => Some(flaw),
            None => cap_flaw(declared, row),
        },
    }
}

// Whether an object is of the wanted form.
fn pair_flaw<'a>(declared: Declared<'_>, name: &'a str, wanted: Form) -> Option<KindFlaw<'a>> {
    let form = declared.object(name)?.form;
    if form == wanted {
        return None;
    }
    let misfit = match wanted {
        Form::Tcb => Misfit::NoThread,
        _ => Misfit::NoContext,
    };
    Some(KindFlaw { name, form, misfit })
}

// Whether a holder has the slot.
fn holder_flaw<'a>(declared: Declared<'_>, slot: &'a str) -> Option<KindFlaw<'a>> {
    let form = declared.object(holder_of(slot))?.form;
    match (form, slot.ends_with(".root")) {
        (Form::CNode, false) | (Form::Tcb, true) => None,
        _ => Some(KindFlaw {
            name: slot,
            form,
            misfit: Misfit::Slot,
        }),
    }
}

// Whether a slot of a certificate's line exists and has a holder of the line's form.
fn certified_flaw<'a>(declared: Declared<'_>, slot: &'a str, wanted: Form) -> Option<KindFlaw<'a>> {
    if let Some(flaw) = holder_flaw(declared, slot) {
        return Some(flaw);
    }
    let form = declared.object(holder_of(slot))?.form;
    if form == wanted {
        return None;
    }
    Some(KindFlaw {
        name: slot,
        form,
        misfit: Misfit::SlotOf,
    })
}

// Whether a capability fits its slot, and its terms fit its object.
fn cap_flaw<'a>(declared: Declared<'_>, row: Row<'a>) -> Option<KindFlaw<'a>> {
    let name = row.word(2);
    let form = declared.object(name)?.form;
    let misfit = cap_misfit(form, row)?;
    Some(KindFlaw { name, form, misfit })
}

// The way in which a capability for an object of a form doesn't fit.
fn cap_misfit(form: Form, row: Row<'_>) -> Option<Misfit> {
    if form != Form::CNode && row.word(1).ends_with(".root") {
        return Some(Misfit::Root);
    }
    let terms = row.word(3);
    if !has_terms(form, terms, row.word(4)) {
        return Some(Misfit::Terms);
    }
    match form {
        Form::Notification | Form::Frame if terms.contains('g') || terms.contains('y') => {
            Some(Misfit::Rights)
        }
        _ => None,
    }
}

// Whether two words are the terms of a capability for an object of a form.
fn has_terms(form: Form, one: &str, two: &str) -> bool {
    match form {
        Form::CNode => decimal(one).is_some() && hexadecimal(two).is_some(),
        Form::Endpoint | Form::Notification => is_rights(one) && decimal(two).is_some(),
        Form::Frame => is_rights(one) && two.is_empty(),
        _ => one.is_empty(),
    }
}

fn is_rights(word: &str) -> bool {
    match word.as_bytes().first() {
        Some(b'0'..=b'9') | None => false,
        _ => true,
    }
}

/// The slot or guard of a line that is past a limit.
pub(crate) fn slot_flaw<'a>(
    declared: Declared<'_>,
    form: Form,
    row: Row<'a>,
) -> Option<SlotFlaw<'a>> {
    if let Some(flaw) = index_flaw(declared, row.word(1)) {
        return Some(flaw);
    }
    match (form, declared) {
        (Form::Cap, Declared::Rows(rows)) => guard_flaw(rows, row),
        _ => index_flaw(declared, row.word(2)),
    }
}

fn index_flaw<'a>(declared: Declared<'_>, slot: &'a str) -> Option<SlotFlaw<'a>> {
    let (name, index) = slot.split_once('.')?;
    let index = decimal(index)?;
    let slots = declared.object(name)?.slots;
    if index < slots {
        return None;
    }
    Some(SlotFlaw::Index(index, name, slots))
}

fn guard_flaw<'a>(rows: Rows<'_>, row: Row<'a>) -> Option<SlotFlaw<'a>> {
    let radix = radix_of(rows.row(Sought::Object(row.word(2)))?.text)?;
    let size = decimal(row.word(3))?;
    let bits = size.saturating_add(radix);
    if bits > 64 {
        return Some(SlotFlaw::Bits(bits));
    }
    value_flaw(row.word(4), size)
}

// A guard's value that doesn't fit into so many bits.
fn value_flaw<'a>(word: &'a str, size: u64) -> Option<SlotFlaw<'a>> {
    let value = hexadecimal(word)?;
    if size < 64 && value >= power(size) {
        return Some(SlotFlaw::Guard(word, size));
    }
    None
}
