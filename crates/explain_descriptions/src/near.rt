//! The nearest name in place of one that isn't known.
use crate::elements::Place;
use crate::flaws::{rule_of, unknown_name};
use crate::rules::elements_in;
use forms::{nearest_name, text_of};
use microkit::{Flaw, Kind, rules_of};
use std::alloc::{AllocError, Global};

/// Returns the name nearest to the one that an element gives, if this name is unknown and one is near.
pub(crate) fn near_name<'a>(
    alloc: Global,
    place: Place<'a, '_>,
    flaw: Flaw,
) -> Result<Option<&'a str>, AllocError> {
    match flaw {
        Flaw::Element(outer) => nearest_name(alloc, text_of(place.name()), elements_in(outer)),
        Flaw::Attribute(kind, number) => near_attribute(alloc, place, kind, number),
        Flaw::NoRegion => near_named(alloc, place, "memory_region", unknown_name(place, flaw)),
        Flaw::NoDomain => near_named(alloc, place, "protection_domain", unknown_name(place, flaw)),
        _ => Ok(None),
    }
}

// The attribute of elements of this kind nearest to one that they don't have.
fn near_attribute<'a>(
    alloc: Global,
    place: Place<'a, '_>,
    kind: Kind,
    number: usize,
) -> Result<Option<&'a str>, AllocError> {
    let word = place.attribute_name(number);
    if rule_of(kind, word).is_some() {
        return Ok(None);
    }
    let mut names = Vec::new(alloc);
    for rule in rules_of(kind) {
        names.push(rule.0)?;
    }
    nearest_name(alloc, text_of(word), &names)
}

// The name nearest to a word, of elements called `kind`.
fn near_named<'a>(
    alloc: Global,
    place: Place<'a, '_>,
    kind: &str,
    word: &[u8],
) -> Result<Option<&'a str>, AllocError> {
    let mut names = Vec::new(alloc);
    for number in 0..place.elements.len() {
        let other = place.at(number);
        if other.is_named(kind) {
            if let Some(name) = other.value("name") {
                names.push(text_of(name))?;
            }
        }
    }
    nearest_name(alloc, text_of(word), &names)
}
