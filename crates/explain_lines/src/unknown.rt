//! The sentence on a name that isn't known.
use crate::declared::Declared;
use crate::names::KnownFlaw;
use crate::near::{near_label, near_object};
use std::alloc::{AllocError, Global};

/// Adds the sentence on a name that isn't known, with the nearest one that is, if one is near.
pub(crate) fn push_known(
    alloc: Global,
    lines: &mut String,
    declared: Declared<'_>,
    flaw: &KnownFlaw<'_>,
) -> Result<(), AllocError> {
    match flaw {
        KnownFlaw::NoLabel(name) => {
            push_unknown(
                lines,
                "label",
                name,
                declared,
                near_label(alloc, declared, name)?,
            )
        }
        KnownFlaw::NoObject(name) => {
            push_unknown(
                lines,
                "object",
                name,
                declared,
                near_object(alloc, declared, name)?,
            )
        }
        KnownFlaw::ObjectForLabel(name) => write!(
            lines,
            "`{name}` is an object, but a label is expected here"
        ),
        KnownFlaw::LabelForObject(name, line) => write!(
            lines,
            "`{name}` is a label (line {line} of the table), but an object is expected here"
        ),
    }
}

// Adds the sentence on an unknown label or object, and the nearest name.
fn push_unknown(
    lines: &mut String,
    what: &str,
    name: &str,
    declared: Declared<'_>,
    near: Option<&str>,
) -> Result<(), AllocError> {
    match declared {
        Declared::Rows(_) => write!(lines, "no {what} above this line is called `{name}`")?,
        Declared::Table(_) => write!(lines, "the system has no {what} `{name}`")?,
    }
    match near {
        Some(near) => write!(lines, ": did you mean `{near}`?"),
        None => Ok(()),
    }
}
