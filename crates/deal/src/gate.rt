//! The gate that workers pass before they work.
ghost use Rattle.std.specs.Prelude.{ℕ};

/// A gate that each worker passes before it works.
///
/// The gate returns; a test may hold a worker in it for a while, to see that others work beside it.
pub trait Gate {
    // That the worker of a number has arrived. No caller knows it but by `arrive`: so work that
    // requires it is done after that.
    ghost HasArrived: { Self → ℕ → Type 0 } = { λ gate worker. Unit {0} };

    /// Lets the worker of this number, from 0, arrive.
    fn arrive(&self, worker: usize)
        ensures { HasArrived self.now worker };
}

/// A gate that holds nobody.
#[derive(Clone, Copy)]
pub struct Open;

impl Gate for Open {
    fn arrive(&self, _worker: usize) {}
}
