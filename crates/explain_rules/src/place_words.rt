//! The words on what gives an edge: of a description an element, of a table a slot or an object.
use crate::elements::Element;
use crate::remedies::Remedy;
use crate::sentences::{Deed, Reason, name_of_label};
use crate::sheet::Sheet;
use base::ObjId;
use captext::label_name;
use std::fmt;
use verdict::Denial;

/// Why the place of a denial gives an edge. Of a table that was made of a description, the words name no slot and no
/// object of the table.
#[derive(Clone, Copy)]
pub struct PlaceWords<'a> {
    pub sheet: Sheet<'a>,
    pub denial: &'a Denial,
}

impl fmt::Display for PlaceWords<'_> {
    fn fmt<W: fmt::Write>(&self, f: &mut fmt::Formatter<W>) -> fmt::Result {
        let PlaceWords { sheet, denial } = *self;
        if let Some(element) = element_of(sheet, denial) {
            return write!(f, "{element}");
        }
        if sheet.made.is_some() {
            return tell_without_names(f, sheet, denial);
        }
        let reason = Reason {
            table: sheet.table,
            denial,
        };
        write!(f, "{reason}")
    }
}

/// The element that the place of a denial comes from.
fn element_of<'a>(sheet: Sheet<'a>, denial: &Denial) -> Option<Element<'a>> {
    match *denial {
        Denial::Capability { slot, .. } | Denial::Root { slot, .. } => sheet.element_at(slot),
        _ => None,
    }
}

/// Returns what to change in a description so that the place of a denial gives no edge.
pub fn remedy_at<'a>(sheet: Sheet<'a>, denial: &Denial) -> Option<Remedy<'a>> {
    match *denial {
        Denial::Capability { slot, kind, .. } => sheet.element_at(slot)?.remedy(kind),
        _ => None,
    }
}

/// Tells why the place of a denial gives an edge, where there is no element.
fn tell_without_names<W: fmt::Write>(
    f: &mut fmt::Formatter<W>,
    sheet: Sheet<'_>,
    denial: &Denial,
) -> fmt::Result {
    let table = sheet.table;
    match *denial {
        Denial::Capability { slot, kind, label } => {
            let from = name_of_label(table, slot.holder);
            let deed = Deed { table, kind, label };
            write!(f, "a capability lets `{from}` {deed}")
        }
        Denial::Root { slot, label } => {
            let from = name_of_label(table, slot.holder);
            let to = label_name(table, label);
            write!(f, "a thread of `{from}` finds its capabilities in `{to}`")
        }
        Denial::Pair { child, parent } => {
            let child = name_of_label(table, child.holder);
            let parent = name_of_label(table, parent.holder);
            write!(
                f,
                "a capability of `{child}` is derived from one of `{parent}`"
            )
        }
        Denial::Binding { thread, context } => tell_binding(f, sheet, thread, context),
        _ => {
            let reason = Reason { table, denial };
            write!(f, "{reason}")
        }
    }
}

/// That a thread runs on a context, by what they belong to.
fn tell_binding<W: fmt::Write>(
    f: &mut fmt::Formatter<W>,
    sheet: Sheet<'_>,
    thread: ObjId,
    context: ObjId,
) -> fmt::Result {
    match (sheet.belonging(thread), sheet.belonging(context)) {
        (Some(thread), Some(context)) => write!(f, "{thread} runs on {context}"),
        _ => Ok(()),
    }
}
