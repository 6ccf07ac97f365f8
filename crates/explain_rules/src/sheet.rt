//! The line that each part of a table comes from: a line of its text, or of the description that it was made of.
use crate::belongings::Belonging;
use crate::elements::Element;
use base::{Label, ObjId, SlotRef};
use importing::{Grant, Origins, piece_line};
use microkit::Description;
use table::Table;

/// A table as a person has it: its file's name, and, if it was made of a description, what each
/// part comes from.
///
/// Lines count from 1. They are lines of the table's text, or of the description's.
#[derive(Clone, Copy)]
pub struct Sheet<'a> {
    pub file: &'a str,
    pub table: &'a Table,
    pub made: Option<Made<'a>>,
}

/// The source of a table.
#[derive(Clone, Copy)]
pub struct Made<'a> {
    pub description: &'a Description,
    /// What [`origins_of`](importing::origins_of) returns for the description, and the rights of the table.
    pub origins: &'a Origins,
}

impl<'a> Sheet<'a> {
    /// Returns the line of a label in the table's text, or of the domain, virtual machine or region that has it.
    pub fn line_of_label(self, label: Label) -> Option<usize> {
        match self.made {
            Some(made) => made.line_of_object(first_object(self.table, label)?),
            None => {
                self.table.label_name(label)?;
                Some(line_after(0, usize::from(label.number())))
            }
        }
    }

    /// Returns the line of an object in the table's text, or of the element that it belongs to.
    ///
    /// Such an element is a domain, a virtual machine, a virtual processor or a region.
    pub fn line_of_object(self, id: ObjId) -> Option<usize> {
        let place = id.0 as usize;
        match self.made {
            Some(made) => made.line_of_object(place),
            None if place < self.table.object_count() => {
                Some(line_after(self.table.label_count(), place))
            }
            None => None,
        }
    }

    /// Returns the line that fills a slot in the table's text, or of the element that its capability comes from.
    ///
    /// It is `None` if the slot is empty.
    pub fn line_of_slot(self, slot: SlotRef) -> Option<usize> {
        let place = place_of_slot(self.table, slot)?;
        match self.made {
            Some(made) => Some(made.grant(place)?.line as usize),
            None => Some(line_after(before_caps(self.table), place)),
        }
    }

    /// Returns the line of a child in the derivation tree, in the table's text.
    ///
    /// It is `None` if the slot is no child, as in each table that was made of a description.
    pub fn line_of_child(self, child: SlotRef) -> Option<usize> {
        let table = self.table;
        let place = table.pairs().iter().position(|pair| pair.child == child)?;
        match self.made {
            Some(_) => None,
            None => {
                let before = before_caps(table).saturating_add(table.caps().len());
                Some(line_after(before, place))
            }
        }
    }

    /// Returns the line that binds a thread in the table's text, or of the domain or virtual processor of the thread.
    ///
    /// It is `None` if the thread isn't bound.
    pub fn line_of_binding(self, thread: ObjId) -> Option<usize> {
        let table = self.table;
        let place = table
            .bindings()
            .iter()
            .position(|binding| binding.thread == thread)?;
        match self.made {
            Some(made) => made.line_of_object(thread.0 as usize),
            None => {
                let pairs = table.caps().len().saturating_add(table.pairs().len());
                Some(line_after(before_caps(table).saturating_add(pairs), place))
            }
        }
    }

    /// Returns the element of the description that the capability in a slot comes from.
    ///
    /// It is `None` if the slot is empty, or the table wasn't made of a description.
    pub fn element_at(self, slot: SlotRef) -> Option<Element<'a>> {
        let made = self.made?;
        let place = place_of_slot(self.table, slot)?;
        Element::of(made.description, made.grant(place)?)
    }

    /// Returns what an object belongs to in the description.
    ///
    /// It is `None` if there is no such object, or the table wasn't made of a description.
    pub fn belonging(self, id: ObjId) -> Option<Belonging<'a>> {
        let made = self.made?;
        let piece = *made.origins.pieces.get(id.0 as usize)?;
        Some(Belonging {
            description: made.description,
            piece,
        })
    }
}

impl<'a> Made<'a> {
    // The line of the element that the object at a place belongs to.
    fn line_of_object(self, place: usize) -> Option<usize> {
        let piece = self.origins.pieces.get(place)?;
        Some(piece_line(self.description, *piece) as usize)
    }

    // The capability at a place of the filled slots.
    fn grant(self, place: usize) -> Option<&'a Grant> {
        self.origins.grants.get(place)
    }
}

// The place of the first object that has a label. The first frame of a label is of the region that has its name.
fn first_object(table: &Table, label: Label) -> Option<usize> {
    table
        .objects()
        .iter()
        .position(|initial| initial.label == label)
}

fn place_of_slot(table: &Table, slot: SlotRef) -> Option<usize> {
    table.caps().iter().position(|filled| filled.slot == slot)
}

// The number of lines of labels and objects after a table's header.
fn before_caps(table: &Table) -> usize {
    table.label_count().saturating_add(table.object_count())
}

// The line that follows a text's header, a number of other lines, and a number of lines of the same kind.
fn line_after(before: usize, place: usize) -> usize {
    before.saturating_add(place).saturating_add(2)
}
