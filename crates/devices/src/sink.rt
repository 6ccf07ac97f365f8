//! The sinks that answers are written to.
ghost use Rattle.std.specs.{Io.{WritesAtMost, KnownBytes.{Appends, Keeps, WriteAppends}}, Prelude.{ℕ, ◌<◌, ◌≡◌, Bool}};
ghost use Rattle.std.specs.{Prelude.{List, Ok, OnErr, OnOk, Option, false, length, true}, Result.is_err};
ghost use Rattle.devices.specs.Devices.{AppendsBeginning};

use thiserror::Error;

/// The error of a device that failed while it was written to.
#[derive(Clone, Copy, PartialEq, Eq, Debug, Error)]
#[error("the device failed")]
pub struct WriteError;

/// A device that an answer is written to.
///
/// A sink that failed isn't asked again.
pub trait Sink {
    // The bytes that were written, where they are known.
    ghost contents: { Self → Option (List ℕ) };
    // Whether a call failed.
    ghost failed: { Self → Bool };
    // Whether a flush came after all that was written.
    ghost is_flushed: { Self → Bool };

    /// Writes some of `bytes`, and returns how many: at least one, if there is one.
    ///
    /// # Errors
    ///
    /// [`WriteError`] where the device fails.
    fn write(&mut self, bytes: &[u8]) -> Result<usize, WriteError>
        requires { failed self.old ≡ false }
        ensures bound { WritesAtMost result bytes.now }
        ensures some { result ≡ Ok 0 → length bytes.now ≡ 0 }
        ensures bytes { WriteAppends (contents self.old) (contents self.new) result bytes.now }
        ensures unflushed { is_flushed self.new ≡ false }
        ensures told { failed self.new ≡ is_err result };

    /// Passes on all that the device took.
    ///
    /// # Errors
    ///
    /// [`WriteError`] where the device fails.
    fn flush(&mut self) -> Result<(), WriteError>
        requires { failed self.old ≡ false }
        ensures bytes { Keeps (contents self.old) (contents self.new) }
        ensures flushed { OnOk result (is_flushed self.new ≡ true) }
        ensures told { failed self.new ≡ is_err result };

    /// Writes all of `bytes`, and flushes.
    ///
    /// # Errors
    ///
    /// [`WriteError`] where the device fails. Then a beginning of `bytes` was written.
    #[tactic(auto, using(crate::proofs::Writing::more_written, crate::proofs::Writing::more_fits, crate::proofs::Writing::some_written, crate::proofs::Writing::all_written))]
    final fn write_whole(&mut self, bytes: &[u8]) -> Result<(), WriteError>
    where
        Self: Sized,
        requires { failed self.old ≡ false }
        ensures ok { OnOk result (Appends (contents self.old) (contents self.new) bytes.now) }
        ensures err { OnErr result (AppendsBeginning (contents self.old) (contents self.new) bytes.now) }
        ensures flushed { OnOk result (is_flushed self.new ≡ true) }
        ensures told { failed self.new ≡ is_err result }
    {
        let mut written = 0;
        while written < bytes.len() {
            match self.write(&bytes[written..]) {
                Ok(count) => written += count,
                Err(error) => return Err(error),
            }
        }
        self.flush()
    }
}
