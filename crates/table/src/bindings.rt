//! The bindings of threads to scheduling contexts in a capability table.
ghost use Rattle.std.specs.Prelude.{[], ◌++◌, ◌<◌, ◌∷◌, ◌≡◌, None, OnErr, OnOk};
ghost use Rattle.{base.specs.declared.limits.TheConstants.OBJECT_NUMBERS, table.specs.Aims.thread_bound_to};

use base::ObjId;
use machine::Binding;
use std::alloc::{AllocError, Global};
use std::marker::Model;

/// A list of bindings of threads to contexts, in the order in which they were added.
#[derive(Drop)]
pub struct Bindings {
    items: Vec<Binding>,
    /// For each object up to the last context that is bound, the thread that is bound to it.
    threads: Vec<Option<ObjId>>,
}

impl Model for Bindings {
    ghost use Rattle.std.specs.Prelude.{List};
    ghost use Rattle.machine.specs.declared.layout.Binding.{Binding};
    ghost use Rattle.table.specs.Aims.{IsOfThreads};

    ghost Value = { List Binding };

    ghost view = { λ bindings. bindings.items.items };

    ghost invariant = { λ bindings. IsOfThreads bindings.items.items bindings.threads.items };
}

impl Bindings {
    /// Returns a list without bindings.
    pub fn new(alloc: Global) -> Bindings
        ensures { result ≡ [] }
    {
        Bindings {
            items: Vec::new(alloc),
            threads: Vec::new(alloc),
        }
    }

    /// Returns the bindings.
    pub fn as_slice(&self) -> &[Binding]
        ensures { result.now ≡ self.now }
    {
        self.items.as_slice()
    }

    /// Returns the thread that a context is bound to, if it is bound.
    pub fn thread(&self, context: ObjId) -> Option<ObjId>
        ensures { result ≡ thread_bound_to self.now context }
    {
        match self.threads.get(context.0 as usize) {
            Some(thread) => *thread,
            None => None,
        }
    }

    /// Adds the binding of a context that is bound to no thread yet.
    ///
    /// # Errors
    ///
    /// [`AllocError`] where memory is refused. Then nothing has changed.
    pub fn add(&mut self, binding: Binding) -> Result<(), AllocError>
        requires number { binding.context.0 < OBJECT_NUMBERS }
        requires free { thread_bound_to self.old binding.context ≡ None }
        ensures ok { OnOk result (self.new ≡ self.old ++ binding ∷ []) }
        ensures err { OnErr result (self.new ≡ self.old) }
    {
        let context = binding.context.0 as usize;
        if context >= self.threads.len() {
            self.threads.resize(context + 1, None)?;
        }
        self.items.push(binding)?;
        self.threads[context] = Some(binding.thread);
        Ok(())
    }
}
