//! The addresses at which objects lie: which objects overlap, and which holds an address.
ghost use Rattle.std.specs.List.{All, Contains, Sorted.{IsPartitionPoint, IsPermutation}, list_any};
ghost use Rattle.std.specs.{Prelude.{⊤, ◌<◌, ◌∷◌, ◌≡◌, ◌≤◌, MatchOption, Some, false, length, nat_le, true, vec_len}, Vec.vec_capacity};
ghost use Rattle.{machine.specs.Objects.{address_of, end_of, size_bits}, table.specs.Placement.{AreApart, holds, touches}};
ghost use Rattle.table.specs.Placement as placement;

use base::{ADDRESS_BITS, ADDRESS_END};
use machine::Object;

/// The addresses from `start` on and below `end`, where the object of this number lies.
#[derive(Clone, Copy)]
pub struct Extent {
    pub start: u64,
    pub end: u64,
    pub number: u64,
}

impl Extent {
    /// Returns the addresses of the object of this number.
    pub fn of(number: u64, object: &Object) -> Extent
        requires { end_of object.now ≤ ADDRESS_END }
        ensures start { result.start ≡ address_of object.now }
        ensures end { result.end ≡ end_of object.now }
        ensures number { result.number ≡ number }
        ensures upward { result.start ≤ result.end }
    {
        let start = object.address();
        let end = match size_bits(object) {
            None => start,
            Some(bits) => start + (1 << bits),
        };
        Extent { start, end, number }
    }

    /// Returns whether some address is in both extents.
    pub fn meets(&self, other: &Extent) -> bool
        ensures { result ≡ touches self.now other.now }
    {
        self.start < other.end && other.start < self.end
    }
}

/// Returns whether an extent meets one of these, no two of which meet.
pub fn meets_any(rising: &[Extent], extent: &Extent) -> bool
    requires { AreApart rising.now }
    ensures { result ≡ list_any (λ other. touches other extent.now) rising.now }
{
    // Only the last of those that start below the end can reach beyond the start.
    let count = count_below(rising, extent.end);
    count > 0 && rising[count - 1].meets(extent)
}

/// Inserts an extent among rising ones, which have room for it and none of which it meets.
pub fn insert_within(rising: &mut Vec<Extent>, extent: Extent)
    requires room { vec_len rising.old < vec_capacity rising.old }
    requires apart { AreApart rising.old.items }
    requires upward { extent.start ≤ extent.end }
    requires free { list_any (λ other. touches other extent) rising.old.items ≡ false }
    ensures items { IsPermutation (extent ∷ rising.old.items) rising.new.items }
    ensures apart { AreApart rising.new.items }
{
    let at = count_below(rising.as_slice(), extent.end);
    if rising.insert(at, extent).is_err() {
        unreachable!()
    }
}

/// Returns the extent that holds an address, if one of these does.
///
/// No two of these meet.
pub fn holder(rising: &[Extent], address: u64) -> Option<Extent>
    requires { AreApart rising.now }
    ensures found { MatchOption result ⊤ (λ extent. Contains rising.now extent × (holds address extent ≡ true)) }
    ensures alone { All (λ extent. holds address extent ≡ true → result ≡ Some extent) rising.now }
{
    // Only the last of those that start at the address or below can reach beyond it.
    let count = count_up_to(rising, address);
    if count > 0 && address < rising[count - 1].end {
        Some(rising[count - 1])
    } else {
        None
    }
}

/// The number of these rising extents that start at an address or below it.
fn count_up_to(rising: &[Extent], address: u64) -> usize
    requires { AreApart rising.now }
    ensures bound { result ≤ length rising.now }
    ensures parted { IsPartitionPoint (λ other. other.start ≤ address)
        (λ other. address < other.start) rising.now result }
{
    rising.partition_point(|other| other.start <= address)
}

/// The number of these rising extents that start below an address.
fn count_below(rising: &[Extent], address: u64) -> usize
    requires { AreApart rising.now }
    ensures bound { result ≤ length rising.now }
    ensures parted { IsPartitionPoint (λ other. other.start < address)
        (λ other. address ≤ other.start) rising.now result }
{
    rising.partition_point(|other| other.start < address)
}

/// Returns whether all addresses of an object are below [`ADDRESS_END`].
pub fn is_addressable(object: &Object) -> bool
    ensures { result ≡ nat_le (end_of object.now) ADDRESS_END }
{
    match size_bits(object) {
        None => true,
        Some(bits) => bits <= ADDRESS_BITS && object.address() <= ADDRESS_END - (1 << bits),
    }
}

/// Returns whether an object's address is a multiple of its size.
pub fn is_aligned(object: &Object) -> bool
    requires { end_of object.now ≤ ADDRESS_END }
    ensures { result ≡ placement.is_aligned object.now }
{
    match size_bits(object) {
        None => true,
        Some(bits) => object.address() % (1 << bits) == 0,
    }
}

fn size_bits(object: &Object) -> Option<u8>
    ensures { result ≡ size_bits object.now }
{
    match object {
        Object::Untyped(memory) => Some(memory.bits),
        Object::CNode(node) => Some(node.radix.bits() + 5),
        Object::Tcb(_) => Some(10),
        Object::Endpoint(_) => Some(4),
        Object::Notification(_) => Some(5),
        Object::Reply(_) => Some(5),
        Object::Context(_) => Some(8),
        Object::Frame(_) => Some(12),
        Object::Control(_) => None,
    }
}
