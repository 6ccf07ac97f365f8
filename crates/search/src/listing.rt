//! Lists that are filled without a look at each refusal of memory.
use std::alloc::{AllocError, Global};

/// A list to which items are added without an error for each: [`Listing::finish`] reports a refusal of memory.
#[derive(Drop)]
pub struct Listing<T> {
    pub items: Vec<T>,
    /// Whether memory was refused to an item, which isn't in the list then.
    is_short: bool,
}

impl<T: Drop> Listing<T> {
    /// Returns a list without items.
    pub fn new(alloc: Global) -> Listing<T> {
        Listing {
            items: Vec::new(alloc),
            is_short: false,
        }
    }

    /// Adds an item.
    pub fn push(&mut self, item: T) {
        if self.items.push(item).is_err() {
            self.is_short = true;
        }
    }

    /// Returns the items.
    ///
    /// # Errors
    ///
    /// [`AllocError`] if memory was refused to one of them.
    pub fn finish(self) -> Result<Vec<T>, AllocError> {
        if self.is_short {
            return Err(AllocError);
        }
        Ok(self.items)
    }
}
