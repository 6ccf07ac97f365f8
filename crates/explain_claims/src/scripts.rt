//! The lines on a run that was found: who makes each call, and what it changes.
use base::{ObjId, Refusal, SlotRef};
use captext::{label_name, object_name};
use evtext::write_script;
use explain_rules::{Element, Sheet};
use forms::{line_at, text_of};
use labels::label_of;
use machine::{Call, Event};
use objects::State;
use runs::{changes, reach};
use std::alloc::Global;
use std::fmt;

/// How many objects are told that a call changes.
const MOST: usize = 8;

/// Returns a line for each call of a script of which none is refused: who makes it, and which objects it changes.
///
/// It also says, for a description, which element the call uses.
///
/// # Errors
///
/// 40 where memory is refused.
pub fn explain_run(alloc: Global, sheet: Sheet<'_>, script: &[Event]) -> Result<String, Refusal> {
    let mut lines = String::new(alloc);
    push_run(alloc, &mut lines, sheet, script)?;
    Ok(lines)
}

/// Adds a line for each call of a script.
pub(crate) fn push_run(
    alloc: Global,
    lines: &mut String,
    sheet: Sheet<'_>,
    script: &[Event],
) -> Result<(), Refusal> {
    for (number, event) in script.iter().enumerate() {
        let before = &script[..number];
        let after = &script[..number + 1];
        push_call(alloc, lines, sheet, event, before, after)?;
    }
    Ok(())
}

/// Adds the line of a call, with the calls up to it, and those with it.
fn push_call(
    alloc: Global,
    lines: &mut String,
    sheet: Sheet<'_>,
    event: &Event,
    before: &[Event],
    after: &[Event],
) -> Result<(), Refusal> {
    match reach(alloc, sheet.table, before)? {
        Some(old) => push_call_at(alloc, lines, sheet, event, &old, after),
        None => Ok(()),
    }
}

/// Adds the line of a call in a state, with the calls up to it and itself.
fn push_call_at(
    alloc: Global,
    lines: &mut String,
    sheet: Sheet<'_>,
    event: &Event,
    old: &State,
    after: &[Event],
) -> Result<(), Refusal> {
    match reach(alloc, sheet.table, after)? {
        Some(new) => push_step(alloc, lines, sheet, event, old, &new),
        None => Ok(()),
    }
}

/// Adds the line of a call that leads from one state to another.
fn push_step<'a>(
    alloc: Global,
    lines: &mut String,
    sheet: Sheet<'a>,
    event: &Event,
    old: &'a State,
    new: &'a State,
) -> Result<(), Refusal> {
    let text = write_script(alloc, &[*event])?;
    let changed = changes(alloc, old, new)?;
    let line = event_line(&text);
    let element = element_called(sheet, event);
    let by = By { element };
    let caller = Named {
        sheet,
        state: old,
        id: event.thread,
    };
    let changed = Changed {
        sheet,
        old,
        new,
        ids: &changed,
    };
    writeln!(lines, "`{line}`{by}: {caller} changes {changed}")?;
    Ok(())
}

/// The first line of a script behind its header.
fn event_line(text: &[u8]) -> &str {
    match line_at(text, 2) {
        Some(line) => text_of(line.bytes),
        None => "",
    }
}

/// The element of a description that gives the capability that a call uses first, if there is such a call.
///
/// In the table of a description an address is the index of a slot of the caller's CNode, and no call of a run puts
/// another capability into the slot: no CNode has a capability for a CNode.
fn element_called<'a>(sheet: Sheet<'a>, event: &Event) -> Option<Element<'a>> {
    let index = address_of(&event.call)?;
    let root = sheet.table.cap(SlotRef {
        holder: event.thread,
        index: 0,
    })?;
    sheet.element_at(SlotRef {
        holder: root.object,
        index,
    })
}

/// The address of the capability that a call uses first. Calls on slots have none here.
fn address_of(call: &Call) -> Option<u64> {
    match *call {
        Call::Signal { address }
        | Call::Poll { address }
        | Call::Wait { address }
        | Call::Send { address, .. }
        | Call::Call { address, .. }
        | Call::Receive { address, .. }
        | Call::Reply { address, .. }
        | Call::Read { address, .. }
        | Call::Write { address, .. } => Some(address),
        Call::SetSpace { thread, .. }
        | Call::ClearSpace { thread }
        | Call::Suspend { thread }
        | Call::Resume { thread } => Some(thread),
        _ => None,
    }
}

/// The element whose capability a call uses, behind the call. Nothing, if there is none.
#[derive(Clone, Copy)]
struct By<'a> {
    element: Option<Element<'a>>,
}

impl fmt::Display for By<'_> {
    fn fmt<W: fmt::Write>(&self, f: &mut fmt::Formatter<W>) -> fmt::Result {
        match self.element {
            Some(element) => write!(f, ": {element}"),
            None => Ok(()),
        }
    }
}

/// The objects that a call changes, each once, or that there are none.
#[derive(Clone, Copy)]
struct Changed<'a> {
    sheet: Sheet<'a>,
    old: &'a State,
    new: &'a State,
    ids: &'a [ObjId],
}

impl fmt::Display for Changed<'_> {
    fn fmt<W: fmt::Write>(&self, f: &mut fmt::Formatter<W>) -> fmt::Result {
        let mut told = 0;
        for (number, id) in self.ids.iter().enumerate() {
            if told < MOST && !self.ids[..number].contains(id) {
                let separator = if told == 0 { "" } else { ", " };
                let is_old = self.old.object(*id).is_some();
                let object = Named {
                    sheet: self.sheet,
                    state: if is_old { self.old } else { self.new },
                    id: *id,
                };
                write!(f, "{separator}{object}")?;
                told += 1;
            }
        }
        if told == 0 {
            return f.write_str("nothing");
        }
        Ok(())
    }
}

/// An object by its name and its label, or by what it belongs to in a description; one that a call made has a number
/// alone.
#[derive(Clone, Copy)]
struct Named<'a> {
    sheet: Sheet<'a>,
    state: &'a State,
    id: ObjId,
}

impl fmt::Display for Named<'_> {
    fn fmt<W: fmt::Write>(&self, f: &mut fmt::Formatter<W>) -> fmt::Result {
        let (table, id) = (self.sheet.table, self.id);
        if let Some(belonging) = self.sheet.belonging(id) {
            return write!(f, "{belonging}");
        }
        if table.object(id).is_some() {
            let name = object_name(table, id);
            write!(f, "`{name}`")?;
        } else {
            let number = id.0;
            write!(f, "object {number}")?;
        }
        match label_of(table, self.state, id) {
            Some(label) => {
                let name = label_name(table, label);
                write!(f, " of `{name}`")
            }
            None => Ok(()),
        }
    }
}
