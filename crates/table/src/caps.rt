//! The filled slots of a capability table.
ghost use Rattle.std.specs.{List.list_any, Prelude.{[], ◌++◌, ◌<◌, ◌∷◌, ◌≡◌, OnErr, OnOk}};
ghost use Rattle.{base.specs.declared.limits.TheConstants.OBJECT_NUMBERS, machine.specs.Machine.same_id};
ghost use Rattle.table.specs.{Rules.{Rises, RisesByChild}, Tree.{tree_of, with_originals}};

use crate::tree::mark_originals;
use base::ObjId;
use machine::{Filled, Pair};
use std::alloc::{AllocError, Global};
use std::marker::Model;

/// A list of filled slots, in the order in which they were added.
#[derive(Drop)]
pub struct Caps {
    items: Vec<Filled>,
    /// For each object up to the last that has a capability, whether it has one.
    aimed: Vec<bool>,
}

impl Model for Caps {
    ghost use Rattle.std.specs.Prelude.{List};
    ghost use Rattle.machine.specs.declared.layout.Filled.{Filled};
    ghost use Rattle.table.specs.Aims.{Marks};

    ghost Value = { List Filled };

    ghost view = { λ caps. caps.items.items };

    ghost invariant = { λ caps. Marks caps.items.items caps.aimed.items };
}

impl Caps {
    /// Returns a list without filled slots.
    pub fn new(alloc: Global) -> Caps
        ensures { result ≡ [] }
    {
        Caps {
            items: Vec::new(alloc),
            aimed: Vec::new(alloc),
        }
    }

    /// Returns the filled slots.
    pub fn as_slice(&self) -> &[Filled]
        ensures { result.now ≡ self.now }
    {
        self.items.as_slice()
    }

    /// Returns whether a capability is for an object.
    pub fn is_aimed_at(&self, object: ObjId) -> bool
        ensures { result ≡ list_any (λ filled. same_id filled.cap.object object) self.now }
    {
        match self.aimed.get(object.0 as usize) {
            Some(aimed) => *aimed,
            None => false,
        }
    }

    /// Adds a filled slot.
    ///
    /// # Errors
    ///
    /// [`AllocError`] where memory is refused. Then nothing has changed.
    pub fn add(&mut self, filled: Filled) -> Result<(), AllocError>
        requires { filled.cap.object.0 < OBJECT_NUMBERS }
        ensures ok { OnOk result (self.new ≡ self.old ++ filled ∷ []) }
        ensures err { OnErr result (self.new ≡ self.old) }
    {
        let object = filled.cap.object.0 as usize;
        if object >= self.aimed.len() {
            self.aimed.resize(object + 1, false)?;
        }
        self.items.push(filled)?;
        self.aimed[object] = true;
        Ok(())
    }

    /// Marks each capability as original or not, by the pairs of the derivation tree.
    #[tactic(auto, using(crate::proofs::TreeLemmas::marks_marked))]
    pub fn mark_originals(&mut self, pairs: &[Pair])
        requires caps { Rises self.old }
        requires pairs { RisesByChild pairs.now }
        ensures { self.new ≡ (with_originals (tree_of self.old pairs.now)).caps }
    {
        mark_originals(&mut self.items, pairs);
    }
}
