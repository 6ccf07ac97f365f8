//! The work that is dealt to workers.
ghost use Rattle.std.specs.Prelude.{◌≡◌, IfErr, IfOk};
ghost use Rattle.base.specs.Refusals.{out_of_memory};

use base::Refusal;

/// The work that is done with each item: a function of the item, unless memory is refused.
pub trait Work<T> {
    type Out;

    // What becomes of an item.
    ghost answer: { Self → T → Self.Out };

    /// Does the work on one item.
    ///
    /// # Errors
    ///
    /// 40 where memory is refused.
    fn of(&self, item: &T) -> Result<Self::Out, Refusal>
        ensures ok { IfOk result (λ out. out ≡ answer self.now item.now) }
        ensures err { IfErr result (λ refusal. refusal ≡ out_of_memory) };
}
