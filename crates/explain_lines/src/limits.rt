//! The test whether numbers are within limits (fault 54).
use crate::declared::{Row, Rows, Sought, address_of, slots_of};
use crate::memory::size_of;
use forms::{Form, decimal};

/// A number past its limit.
#[derive(Clone, Copy)]
pub(crate) enum LimitFlaw {
    Radix(u64),
    Bits(u64),
    Core(u64),
    Budget,
    /// A budget above its period.
    Share(u64, u64),
    Period(u64),
    End,
    /// Too many labels in a table of the first version.
    Labels,
    /// Too many labels in a table of the second version.
    LaterLabels,
    Objects,
    Threads,
    /// The number of slots with this object.
    Slots(u64),
    Events,
}

/// The number in an event's line that is past its limit.
pub(crate) fn event_flaw(row: Row<'_>) -> Option<LimitFlaw> {
    match core_flaw(decimal(row.word(0))?) {
        Some(flaw) => Some(flaw),
        None => Some(LimitFlaw::Events),
    }
}

/// The limit that a line passes which declares a label or an object.
pub(crate) fn limit_flaw(rows: Rows<'_>, form: Form, row: Row<'_>) -> Option<LimitFlaw> {
    match form {
        Form::Label if rows.is_later() => Some(LimitFlaw::LaterLabels),
        Form::Label => Some(LimitFlaw::Labels),
        _ => match own_flaw(form, row) {
            Some(flaw) => Some(flaw),
            None => object_flaw(rows, form, row),
        },
    }
}

fn core_flaw(core: u64) -> Option<LimitFlaw> {
    if core > 15 {
        Some(LimitFlaw::Core(core))
    } else {
        None
    }
}

// The limit of the object's kind that a line passes.
fn own_flaw(form: Form, row: Row<'_>) -> Option<LimitFlaw> {
    match form {
        Form::CNode => {
            let radix = decimal(row.word(4))?;
            if radix < 1 || radix > 12 {
                return Some(LimitFlaw::Radix(radix));
            }
            None
        }
        Form::Untyped => {
            let bits = decimal(row.word(4))?;
            if bits < 4 || bits > 47 {
                return Some(LimitFlaw::Bits(bits));
            }
            None
        }
        Form::Control => core_flaw(decimal(row.word(3))?),
        Form::Context => share_flaw(row),
        _ => None,
    }
}

fn share_flaw(row: Row<'_>) -> Option<LimitFlaw> {
    let core = decimal(row.word(4))?;
    let budget = decimal(row.word(5))?;
    let period = decimal(row.word(6))?;
    if core > 15 {
        return Some(LimitFlaw::Core(core));
    }
    if budget == 0 {
        return Some(LimitFlaw::Budget);
    }
    if budget > period {
        return Some(LimitFlaw::Share(budget, period));
    }
    if period > 3_600_000_000 {
        return Some(LimitFlaw::Period(period));
    }
    None
}

// The limit of all objects together that a line passes.
fn object_flaw(rows: Rows<'_>, form: Form, row: Row<'_>) -> Option<LimitFlaw> {
    if let (Some(address), Some(size)) = (address_of(row.text), size_of(form, row.text)) {
        if address.saturating_add(size) > 0x1_0000_0000_0000 {
            return Some(LimitFlaw::End);
        }
    }
    if rows.count(Sought::Objects) >= 4096 {
        return Some(LimitFlaw::Objects);
    }
    if form == Form::Tcb && rows.count(Sought::Form(Form::Tcb)) >= 1024 {
        return Some(LimitFlaw::Threads);
    }
    let slots = rows.slots().saturating_add(slots_of(row.text));
    if slots > 65_536 {
        return Some(LimitFlaw::Slots(slots));
    }
    None
}
