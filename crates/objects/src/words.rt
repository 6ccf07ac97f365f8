//! The words of an object's memory.
ghost use Rattle.std.specs.Prelude.{◌≡◌, IfOk, replicate, slice_get, slice_set};

use std::alloc::{AllocError, Global};
use std::marker::Model;

#[derive(Drop)]
pub struct Words {
    items: Vec<u64>,
}

impl Model for Words {
    ghost use Rattle.std.specs.Prelude.{ℕ, List};

    ghost Value = { List ℕ };

    ghost view = { λ words. words.items.items };
}

impl Words {
    /// Returns `count` words of zero.
    pub fn zeros(alloc: Global, count: u64) -> Result<Words, AllocError>
        ensures { IfOk result (λ words. words ≡ replicate count 0) }
    {
        let mut items = Vec::new(alloc);
        items.resize(count as usize, 0)?;
        Ok(Words { items })
    }

    /// Returns the word at the index, if there is one.
    pub fn get(&self, index: u64) -> Option<u64>
        ensures { result ≡ slice_get self.now index }
    {
        self.items.get(index as usize).copied()
    }

    /// Sets the word at the index, if there is one.
    pub fn set(&mut self, index: u64, word: u64)
        ensures { self.new ≡ slice_set self.old index word }
    {
        if let Some(place) = self.items.get_mut(index as usize) {
            *place = word;
        }
    }
}
