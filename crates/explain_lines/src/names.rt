//! The tests whether names are known (fault 51) and new (fault 52).
use crate::claims::has_list;
use crate::declared::{Declared, Row, Rows, Sought};
use forms::Form;

/// A name that isn't known.
#[derive(Clone, Copy)]
pub(crate) enum KnownFlaw<'a> {
    NoLabel(&'a str),
    /// An object's name in place of a label's. Its line isn't named: the table may be one of a description.
    ObjectForLabel(&'a str),
    NoObject(&'a str),
    /// A label's name in place of an object's, and the label's line.
    LabelForObject(&'a str, u64),
}

/// A repetition: the word that is there twice, and the line that has it first.
#[derive(Clone, Copy)]
pub(crate) struct TwiceFlaw<'a> {
    pub what: Twice,
    pub word: &'a str,
    pub line: u64,
}

/// The kind of a repetition.
#[derive(Clone, Copy)]
pub(crate) enum Twice {
    Label,
    Object,
    /// The control of a core.
    Control,
    /// The capability for untyped memory.
    Untyped,
    /// The binding of a context.
    Bound,
}

/// The first name of a line that isn't known.
pub(crate) fn known_flaw<'a>(
    declared: Declared<'_>,
    form: Form,
    row: Row<'a>,
) -> Option<KnownFlaw<'a>> {
    if has_list(form) {
        return labels_flaw(declared, row.text);
    }
    let mut at = 1u64;
    for role in roles(form).as_bytes() {
        let flaw = match *role {
            b'L' => label_flaw(declared, row.word(at)),
            b'O' => object_flaw(declared, row.word(at)),
            _ => None,
        };
        if flaw.is_some() {
            return flaw;
        }
        at = at.saturating_add(1);
    }
    None
}

// The names after the first word of a line: L for a label, O for an object.
fn roles(form: Form) -> &'static str {
    match form {
        Form::Cap | Form::Child | Form::Bind => "OO",
        Form::Edge | Form::ClaimWithout => "L-L",
        Form::ClaimNothing | Form::ClaimTake | Form::ClaimApart => "LL",
        Form::CertifiedCap => "OL-L",
        Form::CertifiedSpace => "OLL",
        Form::CertifiedDerive | Form::CertifiedRuns => "OOLL",
        _ => "-L",
    }
}

// The flaw of a line with only labels after its first word.
fn labels_flaw<'a>(declared: Declared<'_>, line: &'a str) -> Option<KnownFlaw<'a>> {
    for name in line.split(' ').skip(1) {
        let flaw = label_flaw(declared, name);
        if flaw.is_some() {
            return flaw;
        }
    }
    None
}

// The flaw of a label's name; `*` stands for all other labels.
fn label_flaw<'a>(declared: Declared<'_>, name: &'a str) -> Option<KnownFlaw<'a>> {
    if name == "*" || declared.label(name).is_some() {
        return None;
    }
    match declared.object(name) {
        Some(_) => Some(KnownFlaw::ObjectForLabel(name)),
        None => Some(KnownFlaw::NoLabel(name)),
    }
}

// The flaw of an object's name, or of a slot's holder.
fn object_flaw<'a>(declared: Declared<'_>, word: &'a str) -> Option<KnownFlaw<'a>> {
    let name = holder_of(word);
    if declared.object(name).is_some() {
        return None;
    }
    match declared.label(name) {
        Some(line) => Some(KnownFlaw::LabelForObject(name, line)),
        None => Some(KnownFlaw::NoObject(name)),
    }
}

/// The name of a slot's holder.
pub(crate) fn holder_of(word: &str) -> &str {
    match word.split_once('.') {
        Some((name, _)) => name,
        None => word,
    }
}

/// The repetition in a line of a table.
pub(crate) fn twice_flaw<'a>(rows: Rows<'_>, form: Form, row: Row<'a>) -> Option<TwiceFlaw<'a>> {
    let (one, two) = (row.word(1), row.word(2));
    match form {
        Form::Label => first_flaw(rows, Sought::Label(one), Twice::Label, one),
        Form::Cap => first_flaw(rows, Sought::CapFor(two), Twice::Untyped, two),
        Form::Bind => first_flaw(rows, Sought::Bound(two), Twice::Bound, two),
        _ => match first_flaw(rows, Sought::Object(one), Twice::Object, one) {
            Some(flaw) => Some(flaw),
            None => {
                let core = row.word(3);
                first_flaw(rows, Sought::Control(core), Twice::Control, core)
            }
        },
    }
}

// The repetition of a word, if an earlier line has what is sought.
fn first_flaw<'a>(
    rows: Rows<'_>,
    sought: Sought<'_>,
    what: Twice,
    word: &'a str,
) -> Option<TwiceFlaw<'a>> {
    let line = rows.row(sought)?.line;
    Some(TwiceFlaw { what, word, line })
}
