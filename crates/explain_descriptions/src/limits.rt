//! Limits that the table of a description passes.
use crate::elements::Place;
use crate::flaws::{Cause, LAST_CORE, Said};
use base::MAX_PERIOD;
use xml::Element;

/// Returns which element of this line passes a limit of tables.
///
/// It is the first one that has too large a core or time, else the only one that has objects in the table.
pub(crate) fn limit_at<'a, 't>(elements: &'a [Element<'t>], line: u64) -> Said<'a, 't> {
    let mut found = None;
    let mut is_alone = false;
    for (number, element) in elements.iter().enumerate() {
        if element.line == line {
            let place = Place { elements, number };
            if let Some(cause) = own_limit(place) {
                return said(place, cause);
            }
            if has_objects(place) {
                is_alone = found.is_none();
                found = Some(place);
            }
        }
    }
    let root = Place {
        elements,
        number: 0,
    };
    match found {
        Some(place) if is_alone => said(place, Cause::Table),
        _ => said(root, Cause::Several),
    }
}

fn said<'a, 't>(place: Place<'a, 't>, cause: Cause) -> Said<'a, 't> {
    Said {
        place,
        cause,
        near: None,
    }
}

// Whether an element has a label or objects in the table.
fn has_objects(place: Place<'_, '_>) -> bool {
    let kinds = [
        "memory_region",
        "protection_domain",
        "virtual_machine",
        "vcpu",
    ];
    kinds.iter().any(|kind| place.is_named(kind))
}

// The limit that an element's core or time passes.
fn own_limit(place: Place<'_, '_>) -> Option<Cause> {
    if place.number_in("cpu").is_some_and(|core| core > LAST_CORE) {
        return Some(Cause::Core);
    }
    if place.is_named("vcpu") {
        let machine = place.outer()?;
        if machine.line() == place.line() {
            return None;
        }
        return Some(Cause::MachineTime(wrong_time(machine)?));
    }
    if place.is_named("virtual_machine") && !runs_here(place) {
        return None;
    }
    Some(Cause::Time(wrong_time(place)?))
}

// Whether a virtual machine has a virtual processor in its own line. With an id it is one itself.
fn runs_here(machine: Place<'_, '_>) -> bool {
    if machine.attribute("id").is_some() {
        return true;
    }
    for number in machine.number..machine.elements.len() {
        let other = machine.at(number);
        if number > machine.number && other.level() <= machine.level() {
            return false;
        }
        if other.is_named("vcpu") && other.line() == machine.line() {
            return true;
        }
    }
    false
}

// The time of an element that isn't within the limits.
fn wrong_time(place: Place<'_, '_>) -> Option<&'static str> {
    for name in ["budget", "period"] {
        if place
            .number_in(name)
            .is_some_and(|time| time < 1 || time > MAX_PERIOD)
        {
            return Some(name);
        }
    }
    None
}
