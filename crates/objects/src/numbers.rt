//! Places of entries by the numbers of their objects.
ghost use Rattle.std.specs.Prelude.{[], ℕ, ◌++◌, ◌+◌, ◌-◌, ◌<◌, ◌≡◌, ◌≢◌, ◌≤◌, None, OnErr, OnOk, Some, length, nat_eq};
ghost use Rattle.std.specs.Prelude.{replicate, slice_get};
ghost use Rattle.std.specs.HashMap as hash;
ghost use Rattle.objects.specs.{Edits.edited, Places.places_in};

use base::MAX_OBJECTS;
use std::alloc::{AllocError, Global};
use std::collections::HashMap;
use std::marker::Model;

/// The most numbers that have a table: 16 bytes each.
const WIDEST: u64 = 1 << 20;

/// A table of the places of the numbers from 0 on; a number that isn't in use has none.
#[derive(Drop)]
pub struct Table {
    items: Vec<Option<usize>>,
}

impl Model for Table {
    ghost use Rattle.std.specs.Prelude.{ℕ, List, Option};

    ghost Value = { List (Option ℕ) };

    ghost view = { λ table. table.items.items };
}

impl Table {
    ghost use Rattle.std.specs.Prelude.{[]};

    /// Returns a table for no numbers.
    pub fn new(alloc: Global) -> Table
        ensures { result ≡ [] }
    {
        Table {
            items: Vec::new(alloc),
        }
    }

    /// Returns the number of numbers that the table is for.
    pub fn len(&self) -> usize
        ensures { result ≡ length self.now }
    {
        self.items.len()
    }

    /// Widens the table to `count` numbers, none of the new ones in use, if it is for fewer.
    ///
    /// # Errors
    ///
    /// [`AllocError`] if memory is refused. Then nothing has changed.
    pub fn widen(&mut self, count: usize) -> Result<(), AllocError>
        requires { length self.old ≤ count }
        ensures widened { OnOk result (self.new ≡ self.old ++ replicate (count - length self.old) None) }
        ensures same { OnErr result (self.new ≡ self.old) }
    {
        self.items.resize(count, None)
    }

    /// Returns the place of the number, if the table is for it.
    pub fn get(&self, number: u64) -> Option<Option<usize>>
        ensures { result ≡ slice_get self.now number }
    {
        self.items.get(number as usize).copied()
    }

    /// Sets the place of the number, if the table is for it.
    pub fn set(&mut self, number: u64, place: Option<usize>)
        ensures { self.new ≡ edited (λ _. place) self.old number }
    {
        if let Some(item) = self.items.get_mut(number as usize) {
            *item = place;
        }
    }
}

/// The places of the numbers in use.
///
/// The first numbers have a table, so that an initial object is found at once, and so are many that
/// are made later; the numbers after them are hashed.
#[derive(Drop)]
pub struct Places {
    pub early: Table,
    pub late: HashMap<u64, usize>,
}

/// Returns the places where no number is in use.
pub fn no_places(alloc: Global) -> Places
    ensures early { result.early ≡ [] }
    ensures late { hash.IsEmpty result.late }
{
    Places {
        early: Table::new(alloc),
        late: HashMap::new(alloc),
    }
}

/// Returns the place of the number, if it is in use.
#[inline]
pub fn place_of(places: &Places, number: u64) -> Option<usize>
    ensures { result ≡ places_in places.now number }
{
    match places.early.get(number) {
        Some(place) => place,
        None => late_place_of(&places.late, number),
    }
}

/// Returns the place of a number that the table isn't for, if it is in use.
///
/// The function is separate, so that the one that finds an early number stays small.
#[inline(never)]
pub fn late_place_of(late: &HashMap<u64, usize>, number: u64) -> Option<usize>
    ensures { result ≡ hash.get nat_eq late.now number }
{
    late.get(&number).copied()
}

/// Makes the table wide enough for the number, and at least twice as wide as it was.
///
/// Does nothing if the number is too high for it, or if a number is hashed already. No place has
/// changed, even on an error.
#[tactic(auto, using(crate::proofs::NumberLemmas::widened))]
pub fn widen(places: &mut Places, number: u64) -> Result<(), AllocError>
    ensures { (other : ℕ) → places_in places.new other ≡ places_in places.old other }
{
    let len = places.early.len();
    if number >= WIDEST || number < len as u64 || !places.late.is_empty() {
        return Ok(());
    }
    places.early.widen(width_for(len, number as usize))
}

// The size of a table of `len` numbers that is widened to have room for the number.
fn width_for(len: usize, number: usize) -> usize
    requires { number < WIDEST }
    ensures { (len ≤ result) × (number < result) }
{
    len.max(MAX_OBJECTS)
        .max(number + 1)
        .max(len.saturating_mul(2).min(WIDEST as usize))
}

/// Makes room for `count` more numbers.
///
/// No place has changed, even on an error.
pub fn make_room(places: &mut Places, count: usize) -> Result<(), AllocError>
    ensures same { (number : ℕ) → places_in places.new number ≡ places_in places.old number }
    ensures room { OnOk result (count ≤ hash.spare places.new.late) }
{
    places.late.reserve(count)
}

/// Sets the place of a number.
///
/// There is room for it.
pub fn set_place(places: &mut Places, number: u64, place: usize)
    requires { 1 ≤ hash.spare places.old.late }
    ensures placed { places_in places.new number ≡ Some place }
    ensures stays { (other : ℕ) → other ≢ number → places_in places.new other ≡ places_in places.old other }
    ensures room { hash.spare places.old.late ≤ hash.spare places.new.late + 1 }
{
    match places.early.get(number) {
        Some(_) => places.early.set(number, Some(place)),
        None => {
            let inserted: Result<_, _> = places.late.insert(number, place);
            inserted.unwrap();
        }
    }
}

/// Removes the place of a number, if it is in use.
pub fn take_place(places: &mut Places, number: u64) -> Option<usize>
    ensures taken { result ≡ places_in places.old number }
    ensures gone { places_in places.new number ≡ None }
    ensures stays { (other : ℕ) → other ≢ number → places_in places.new other ≡ places_in places.old other }
{
    match places.early.get(number) {
        Some(place) => {
            places.early.set(number, None);
            place
        }
        None => places.late.remove(&number),
    }
}
