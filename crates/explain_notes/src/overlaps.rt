//! Maps of one domain or virtual machine whose virtual addresses overlap.
use microkit::{Description, Map, User};
use std::alloc::{AllocError, Global};

/// A map that overlaps another one, which stands above it.
#[derive(Clone, Copy)]
pub(crate) struct Overlap {
    pub map: Map,
    pub other: Map,
}

// A map, and the virtual addresses that it takes.
#[derive(Clone, Copy)]
struct Span {
    map: Map,
    start: u64,
    // The first address behind the map, or the last address of all.
    end: u64,
}

/// Returns each map whose virtual addresses begin within another map of its domain or virtual machine, with that map.
pub(crate) fn overlaps_in(
    alloc: Global,
    description: &Description,
) -> Result<Vec<Overlap>, AllocError> {
    let spans = spans_of(alloc, description)?;
    let mut overlaps = Vec::new(alloc);
    for domain in 0..description.domains.len() {
        add_overlaps(&mut overlaps, &spans, User::Domain(domain))?;
    }
    for machine in 0..description.machines.len() {
        add_overlaps(&mut overlaps, &spans, User::Machine(machine))?;
    }
    Ok(overlaps)
}

// The maps of regions that have bytes, by their first addresses.
fn spans_of(alloc: Global, description: &Description) -> Result<Vec<Span>, AllocError> {
    let mut spans = Vec::new(alloc);
    for map in &description.maps {
        if let Some(region) = description.regions.get(map.region) {
            if region.size > 0 {
                let (start, end) = (map.vaddr, map.vaddr.saturating_add(region.size));
                spans.push(Span {
                    map: *map,
                    start,
                    end,
                })?;
            }
        }
    }
    spans.sort_by_key(|span| span.start)?;
    Ok(spans)
}

// Adds the maps of a user that begin within one before them.
fn add_overlaps(overlaps: &mut Vec<Overlap>, spans: &[Span], user: User) -> Result<(), AllocError> {
    let mut widest: Option<Span> = None;
    for span in spans {
        if is_same(span.map.user, user) {
            if let Some(other) = widest {
                if span.start < other.end {
                    overlaps.push(in_order(span.map, other.map))?;
                }
            }
            widest = match widest {
                Some(other) if other.end >= span.end => Some(other),
                _ => Some(*span),
            };
        }
    }
    Ok(())
}

fn is_same(user: User, other: User) -> bool {
    match (user, other) {
        (User::Domain(one), User::Domain(another)) | (User::Machine(one), User::Machine(another)) =>
            { one == another }
        _ => false,
    }
}

// The two maps, first the one that stands below.
fn in_order(one: Map, another: Map) -> Overlap {
    if one.line < another.line {
        Overlap {
            map: another,
            other: one,
        }
    } else {
        Overlap {
            map: one,
            other: another,
        }
    }
}
