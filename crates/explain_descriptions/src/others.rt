//! Other elements with which an element conflicts.
use crate::elements::Place;
use std::fmt;

/// The line of another element, as words on an element in the line `own`.
#[derive(Clone, Copy)]
pub(crate) struct OtherLine {
    pub line: u64,
    pub own: u64,
}

impl fmt::Display for OtherLine {
    fn fmt<W: fmt::Write>(&self, f: &mut fmt::Formatter<W>) -> fmt::Result {
        if self.line == self.own {
            f.write_str("in this line")
        } else {
            write!(f, "in line {}", self.line)
        }
    }
}

/// Returns the first region before this one that overlaps it.
pub(crate) fn overlapped<'a, 't>(region: Place<'a, 't>) -> Option<Place<'a, 't>> {
    for number in 0..region.number {
        let other = region.at(number);
        if other.is_named("memory_region") && meets(region, other) {
            return Some(other);
        }
    }
    None
}

/// Returns the first virtual machine of the domain in which this one stands.
pub(crate) fn first_machine<'a, 't>(machine: Place<'a, 't>) -> Option<Place<'a, 't>> {
    let level = machine.level();
    let mut found = None;
    for number in 0..machine.number {
        let other = machine.at(number);
        if other.level() < level {
            found = None;
        } else if other.level() == level && other.is_named("virtual_machine") {
            found = Some(found.unwrap_or(other));
        }
    }
    found
}

// Whether two regions at fixed addresses have a byte in common.
fn meets(one: Place<'_, '_>, other: Place<'_, '_>) -> bool {
    match (one.number_in("phys_addr"), other.number_in("phys_addr")) {
        (Some(address), Some(base)) => {
            is_below_end(address, base, size_of(other)) && is_below_end(base, address, size_of(one))
        }
        _ => false,
    }
}

fn size_of(region: Place<'_, '_>) -> u64 {
    region.number_in("size").unwrap_or(0)
}

// Whether an address is below the end of a range.
fn is_below_end(address: u64, base: u64, size: u64) -> bool {
    address < base || address - base < size
}
