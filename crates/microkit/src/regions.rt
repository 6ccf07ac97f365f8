//! Memory regions of a description, and how they are read.
ghost use Rattle.std.specs.{List.{find, position}, Option.option_map, Prelude.{◌+◌, ◌^◌, ◌≡◌, IfOk, nat_lt}, Str.bytes_eq};
ghost use Rattle.xml.specs.View.{node_of};
ghost use Rattle.microkit.specs.Regions.{address_fits, overlap_line, page_in, pages_fit, region_at, region_fits, region_in};
ghost use Rattle.microkit.specs.{Flaws.Takes, Regions.{region_line, region_number, regions_meet}, View.{region_of, regions_of}};

use crate::attributes::{number_in, number_or, text_in};
use crate::description::{Page, Region};
use crate::draft::Draft;
use crate::flaws::{Flaw, Refusal};
use std::alloc::{AllocError, Global};
use xml::Element;

impl Draft {
    /// Adds the region of an element.
    ///
    /// # Errors
    ///
    /// [`Refusal::Flawed`] if a region has this name, or it hasn't whole pages or overlaps
    /// another one.
    #[tactic(auto, unfolding(crate::specs::Regions::region_at, words::specs::Reading::bind))]
    pub(crate) fn add_region(&mut self, alloc: Global, element: &Element<'_>) -> Result<(), Refusal>
        ensures { Takes (λ _. self.new) result (region_at (node_of element.now) self.old) }
    {
        let region = region_in(alloc, element)?;
        check_region(&self.description.regions, &region)?;
        self.description.regions.push(region)?;
        Ok(())
    }
}

#[tactic(auto, unfolding(crate::specs::Regions::region_in))]
fn region_in(alloc: Global, element: &Element<'_>) -> Result<Region, AllocError>
    ensures { IfOk result (λ region. region_of region ≡ region_in (node_of element.now)) }
{
    Ok(Region {
        name: text_in(alloc, element, b"name")?,
        size: number_or(element, b"size", 0),
        page: page_in(element),
        address: number_in(element, b"phys_addr"),
        line: element.line,
    })
}

#[tactic(auto, unfolding(crate::specs::Regions::region_fits, words::specs::Reading::bind))]
fn check_region(regions: &[Region], region: &Region) -> Result<(), Flaw>
    ensures { result ≡ region_fits (regions_of regions.now) (region_of region.now) }
{
    if let Some(line) = region_line(regions, &region.name) {
        return Err(Flaw::Name(line));
    }
    check_pages(region)?;
    match overlap_line(regions, region) {
        None => Ok(()),
        Some(line) => Err(Flaw::Overlap(line)),
    }
}

fn region_line(regions: &[Region], name: &[u8]) -> Option<u64>
    ensures { result ≡ region_line (regions_of regions.now) name.now }
{
    line_of_name(regions, name)
}

// `region_line`, stated of the regions as stored.
fn line_of_name(regions: &[Region], name: &[u8]) -> Option<u64>
    ensures { result ≡ option_map
        (λ region. (region_of region).line)
        (find (λ region. bytes_eq (region_of region).name name.now) regions.now) }
{
    let found = regions
        .iter()
        .find(|region| region.name.as_slice() == name)?;
    Some(found.line)
}

#[tactic(auto, unfolding(crate::specs::Regions::page_in))]
fn page_in(element: &Element<'_>) -> Page
    ensures { result ≡ page_in (node_of element.now) }
{
    if number_or(element, b"page_size", 4096) == 2_097_152 {
        Page::Large
    } else {
        Page::Small
    }
}

#[tactic(auto, unfolding(crate::specs::Regions::pages_fit))]
fn check_pages(region: &Region) -> Result<(), Flaw>
    ensures { result ≡ pages_fit (region_of region.now) }
{
    if region.size % region.page.bytes() != 0 {
        return Err(Flaw::Pages);
    }
    check_address(region)
}

#[tactic(auto, unfolding(crate::specs::Regions::address_fits))]
fn check_address(region: &Region) -> Result<(), Flaw>
    ensures { result ≡ address_fits region.now.address (region_of region.now) }
{
    let Some(address) = region.address else {
        return Ok(());
    };
    if address % region.page.bytes() != 0 {
        return Err(Flaw::Address);
    }
    if ends_below_limit(address, region.size) {
        Ok(())
    } else {
        Err(Flaw::Beyond)
    }
}

fn ends_below_limit(base: u64, size: u64) -> bool
    ensures { result ≡ nat_lt (base + size) (2 ^ 64) }
{
    base.checked_add(size).is_some()
}

fn overlap_line(regions: &[Region], region: &Region) -> Option<u64>
    ensures { result ≡ overlap_line (regions_of regions.now) (region_of region.now) }
{
    line_of_overlap(regions, region)
}

// `overlap_line`, stated of the regions as stored.
fn line_of_overlap(regions: &[Region], region: &Region) -> Option<u64>
    ensures { result ≡ option_map
        (λ other. (region_of other).line)
        (find (λ other. regions_meet (region_of region.now) (region_of other)) regions.now) }
{
    let found = regions.iter().find(|other| meets(region, other))?;
    Some(found.line)
}

#[tactic(auto, unfolding(crate::specs::Regions::regions_meet))]
fn meets(region: &Region, other: &Region) -> bool
    ensures { result ≡ regions_meet (region_of region.now) (region_of other.now) }
{
    match (region.address, other.address) {
        (Some(address), Some(base)) => {
            is_below_end(address, base, other.size) && is_below_end(base, address, region.size)
        }
        _ => false,
    }
}

fn is_below_end(address: u64, base: u64, size: u64) -> bool
    ensures { result ≡ nat_lt address (base + size) }
{
    address < base || address - base < size
}

/// Returns the number of the region with this name.
///
/// # Errors
///
/// [`Flaw::NoRegion`] if no region has it.
#[tactic(auto, unfolding(crate::specs::Regions::region_number))]
pub(crate) fn region_number(regions: &[Region], name: &[u8]) -> Result<usize, Flaw>
    ensures { result ≡ region_number (regions_of regions.now) name.now }
{
    position_of(regions, name).ok_or(Flaw::NoRegion)
}

fn position_of(regions: &[Region], name: &[u8]) -> Option<usize>
    ensures { result ≡ position (λ region. bytes_eq region.name name.now) (regions_of regions.now) }
{
    place_of(regions, name)
}

fn place_of(regions: &[Region], name: &[u8]) -> Option<usize>
    ensures { result ≡ position (λ region. bytes_eq (region_of region).name name.now) regions.now }
{
    regions
        .iter()
        .position(|region| region.name.as_slice() == name)
}
