//! The sentence on a fault of a description: which element has it, and what is wrong.
use crate::documents::first_slip;
use crate::elements::Place;
use crate::flaws::{Cause, Said};
use crate::limits::limit_at;
use crate::near::near_name;
use microkit::{ReadError, read_elements};
use std::alloc::{AllocError, Global};
use words::Fault;
use xml::read_document;

/// Says which element of a description has a fault, and what is wrong with it.
///
/// `text` is all of the file called `name`. If memory was refused, the sentence says so, without a line.
pub fn explain_fault(
    alloc: Global,
    name: &str,
    text: &[u8],
    fault: Fault,
) -> Result<String, AllocError> {
    if fault == Fault::MEMORY {
        return format!(in alloc; "{name}: no memory");
    }
    let line = fault.line;
    let elements = match read_document(alloc, text) {
        Ok(elements) => elements,
        Err(other) if other == Fault::MEMORY => return format!(in alloc; "{name}: no memory"),
        Err(_) => {
            let slip = first_slip(alloc, text)?;
            let start = slip.start();
            return format!(in alloc; "{name}:{line}: {start}{slip}");
        }
    };
    let said = match read_elements(alloc, &elements) {
        Err(ReadError::Memory) => return format!(in alloc; "{name}: no memory"),
        Err(ReadError::Element(found)) => {
            let place = Place {
                elements: &elements,
                number: found.spot.element,
            };
            Said {
                place,
                cause: Cause::Flaw(found.flaw),
                near: near_name(alloc, place, found.flaw)?,
            }
        }
        Ok(_) => limit_at(&elements, line),
    };
    format!(in alloc; "{name}:{line}: {said}")
}
