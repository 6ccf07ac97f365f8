//! The declarations of a table, by its lines or as a value.
use forms::{File, Form, Lines, decimal, form_of, has_word, hexadecimal, text_of, word};
use machine::ObjectKind;
use table::Table;

/// The source of the names of a line.
#[derive(Clone, Copy)]
pub(crate) enum Declared<'a> {
    /// The lines of the line's own text.
    Rows(Rows<'a>),
    /// A table that was read.
    Table(&'a Table),
}

/// The lines of a table, or those above a line.
#[derive(Clone, Copy)]
pub(crate) struct Rows<'a> {
    pub text: &'a [u8],
    /// The number of the line above which they are.
    pub end: u64,
}

/// The property by which a line is searched.
#[derive(Clone, Copy)]
pub(crate) enum Sought<'a> {
    Label(&'a str),
    Object(&'a str),
    /// Any object.
    Objects,
    /// The capability in a slot.
    Cap(&'a str),
    /// A capability for an object.
    CapFor(&'a str),
    /// The parent of the slot.
    Child(&'a str),
    /// The binding of a context.
    Bound(&'a str),
    /// The control of a core.
    Control(&'a str),
    /// Any line of the form.
    Form(Form),
}

/// A line that was found, with its number.
#[derive(Clone, Copy)]
pub(crate) struct Row<'a> {
    pub line: u64,
    pub text: &'a str,
}

/// An object that a table declares.
#[derive(Clone, Copy)]
pub(crate) struct Object {
    pub form: Form,
    /// The number of its slots.
    pub slots: u64,
}

impl<'a> Row<'a> {
    /// Returns the word of this number, or an empty one.
    pub fn word(self, number: u64) -> &'a str {
        match word(self.text, number) {
            Some(word) => word,
            None => "",
        }
    }
}

impl Declared<'_> {
    /// Returns the number of the line that declares the label of this name, if there is one. Labels
    /// come first.
    pub fn label(self, name: &str) -> Option<u64> {
        match self {
            Declared::Rows(rows) => Some(rows.row(Sought::Label(name))?.line),
            Declared::Table(table) => Some(u64::from(table.label_named(name)?.number()) + 2),
        }
    }

    /// Returns the object of this name, if there is one. Objects follow the labels.
    pub fn object(self, name: &str) -> Option<Object> {
        match self {
            Declared::Rows(rows) => rows.object(name),
            Declared::Table(table) => {
                let id = table.object_named(name)?;
                let object = &table.objects().get(id.0 as usize)?.object;
                Some(Object {
                    form: form_of_kind(object.kind()),
                    slots: object.slot_count(),
                })
            }
        }
    }

    /// Returns the number of the object of this name, if there is one.
    pub fn number_of(self, name: &str) -> Option<u64> {
        match self {
            Declared::Rows(rows) => rows.number_of(name),
            Declared::Table(table) => Some(table.object_named(name)?.0),
        }
    }
}

// The form of the lines that declare objects of a kind.
fn form_of_kind(kind: ObjectKind) -> Form {
    match kind {
        ObjectKind::Untyped => Form::Untyped,
        ObjectKind::CNode => Form::CNode,
        ObjectKind::Tcb => Form::Tcb,
        ObjectKind::Endpoint => Form::Endpoint,
        ObjectKind::Notification => Form::Notification,
        ObjectKind::Reply => Form::Reply,
        ObjectKind::Context => Form::Context,
        ObjectKind::Frame => Form::Frame,
        ObjectKind::Control => Form::Control,
    }
}

impl<'a> Rows<'a> {
    /// Returns whether the table is of the second version.
    pub fn is_later(self) -> bool {
        File::Table.is_later(self.text)
    }

    /// Returns the first line with this property, if there is one.
    pub fn row(self, sought: Sought<'_>) -> Option<Row<'a>> {
        let mut lines = Lines::new(self.text);
        for line in 1..self.end {
            let text = text_of(lines.next_line()?);
            if is_sought(sought, text) {
                return Some(Row { line, text });
            }
        }
        None
    }

    /// Returns the number of lines with this property.
    pub fn count(self, sought: Sought<'_>) -> u64 {
        let mut count = 0u64;
        let mut lines = Lines::new(self.text);
        for _ in 1..self.end {
            let Some(bytes) = lines.next_line() else {
                return count;
            };
            if is_sought(sought, text_of(bytes)) {
                count = count.saturating_add(1);
            }
        }
        count
    }

    /// Returns the object of this name, if there is one.
    pub fn object(self, name: &str) -> Option<Object> {
        let row = self.row(Sought::Object(name))?;
        Some(Object {
            form: form_of(File::Table, row.text)?,
            slots: slots_of(row.text),
        })
    }

    /// Returns the number of the object of this name, if there is one. Objects follow the labels.
    pub fn number_of(self, name: &str) -> Option<u64> {
        let row = self.row(Sought::Object(name))?;
        let labels = self.count(Sought::Form(Form::Label));
        Some(row.line.saturating_sub(labels).saturating_sub(2))
    }

    /// Returns the number of slots of all objects.
    pub fn slots(self) -> u64 {
        let mut count = 0u64;
        let mut lines = Lines::new(self.text);
        for _ in 1..self.end {
            let Some(bytes) = lines.next_line() else {
                return count;
            };
            count = count.saturating_add(slots_of(text_of(bytes)));
        }
        count
    }
}

/// The number of slots of a line's object; 0 if it declares none.
pub(crate) fn slots_of(line: &str) -> u64 {
    match form_of(File::Table, line) {
        Some(Form::CNode) => match radix_of(line) {
            Some(radix) => power(radix),
            None => 0,
        },
        Some(Form::Tcb) => 1,
        _ => 0,
    }
}

/// The radix in the line of a CNode.
pub(crate) fn radix_of(line: &str) -> Option<u64> {
    decimal(word(line, 4)?)
}

/// 2 to this power, or a number larger than all that are compared with it.
pub(crate) fn power(exponent: u64) -> u64 {
    let mut power = 1u64;
    for _ in 0..exponent {
        power = power.saturating_mul(2);
        if power == u64::MAX {
            return power;
        }
    }
    power
}

/// The address in the line of an object.
pub(crate) fn address_of(line: &str) -> Option<u64> {
    hexadecimal(word(line, 3)?)
}

fn is_sought(sought: Sought<'_>, line: &str) -> bool {
    let Some(form) = form_of(File::Table, line) else {
        return false;
    };
    match sought {
        Sought::Label(name) => form == Form::Label && has_word(line, 1, name),
        Sought::Object(name) => form.section() == 1 && has_word(line, 1, name),
        Sought::Objects => form.section() == 1,
        Sought::Cap(slot) => form == Form::Cap && has_word(line, 1, slot),
        Sought::CapFor(name) => form == Form::Cap && has_word(line, 2, name),
        Sought::Child(slot) => form == Form::Child && has_word(line, 2, slot),
        Sought::Bound(context) => form == Form::Bind && has_word(line, 2, context),
        Sought::Control(core) => form == Form::Control && has_word(line, 3, core),
        Sought::Form(wanted) => form == wanted,
    }
}
