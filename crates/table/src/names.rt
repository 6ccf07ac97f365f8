//! Lists of distinct names, numbered in the order in which they were added.
ghost use Rattle.std.specs.{Option.option_copied, Prelude.{[], ◌++◌, ◌<◌, ◌∷◌, ◌≡◌, OnErr, OnOk, false, is_some}};
ghost use Rattle.std.specs.{Prelude.{length, position, slice_get}, Str.bytes_eq};

use indexmap::IndexSet;
use std::alloc::{AllocError, Global};
use std::marker::Model;

/// A list of distinct names, numbered from 0.
#[derive(Drop)]
pub struct Names {
    alloc: Global,
    set: IndexSet<String>,
}

impl Model for Names {
    ghost use Rattle.std.specs.{Prelude.{ℕ, List, map}, String.string_bytes};

    ghost Value = { List (List ℕ) };

    ghost view = { λ names. map string_bytes names.set.keys };
}

impl Names {
    /// Returns a list without names.
    pub fn new(alloc: Global) -> Names
        ensures { result ≡ [] }
    {
        Names {
            alloc,
            set: IndexSet::new(alloc),
        }
    }

    /// Returns the number of names.
    pub fn len(&self) -> usize
        ensures { result ≡ length self.now }
    {
        self.set.len()
    }

    /// Returns the name of this number, if there is one.
    pub fn get(&self, number: usize) -> Option<&str>
        ensures { option_copied result ≡ slice_get self.now number }
    {
        self.set.get_index(number).map(|name| name.as_str())
    }

    /// Returns the number of a name, if it is one of these.
    pub fn number(&self, name: &str) -> Option<usize>
        ensures { result ≡ position (λ other. bytes_eq name.now other) self.now }
    {
        self.set.get_index_of(name)
    }

    /// Gives a new name the next number.
    ///
    /// # Errors
    ///
    /// [`AllocError`] where memory is refused. Then nothing has changed.
    pub fn add(&mut self, name: &str) -> Result<(), AllocError>
        requires { is_some (position (λ other. bytes_eq name.now other) self.old) ≡ false }
        ensures ok { OnOk result (self.new ≡ self.old ++ name.now ∷ []) }
        ensures err { OnErr result (self.new ≡ self.old) }
    {
        let name = String::from_str(self.alloc, name)?;
        self.set.insert(name)?;
        Ok(())
    }
}
