//! The sources that texts are read from.
ghost use Rattle.std.specs.{Io.{ReadsAtMost, KnownBytes.ReadConsumes}, IoError.error_kind};
ghost use Rattle.std.specs.Prelude.{ℕ, ◌≡◌, Bool, IfOk, IfSome, List, Option, false};
ghost use Rattle.devices.specs.Devices.{is_failure, read_error_of};

use std::alloc::Global;
use std::io::{self, ErrorKind};
use thiserror::Error;

/// The reason why a source wasn't read.
#[derive(Clone, Copy, PartialEq, Eq, Debug, Error)]
pub enum ReadError {
    #[error("no memory")]
    NoMemory,
    #[error("the device failed")]
    Failed,
}

impl From<io::Error> for ReadError {
    /// That memory is refused to a device is no failure of it.
    fn from(error: io::Error) -> ReadError
        ensures { result ≡ read_error_of (error_kind error) }
    {
        match error.kind() {
            ErrorKind::OutOfMemory => ReadError::NoMemory,
            _ => ReadError::Failed,
        }
    }
}

/// How many bytes a source is asked for at a time.
const MOST: usize = 8 * 1024;

/// A device that a text is read from.
///
/// A source that failed isn't asked again.
pub trait Source {
    // The bytes that are left to read, where they are known.
    ghost remaining: { Self → Option (List ℕ) };
    // Whether a call failed.
    ghost failed: { Self → Bool };

    /// Reads as many bytes as the device gives, at most as many as `buf` has room for.
    ///
    /// # Errors
    ///
    /// [`ReadError::Failed`] where the device fails, and [`ReadError::NoMemory`] where memory is
    /// refused.
    fn read(&mut self, buf: &mut [u8]) -> Result<usize, ReadError>
        requires { failed self.old ≡ false }
        ensures bound { ReadsAtMost result buf.new }
        ensures bytes { ReadConsumes (remaining self.old) (remaining self.new) result buf.new }
        ensures told { failed self.new ≡ is_failure result };

    /// Reads all the bytes that are left.
    ///
    /// # Errors
    ///
    /// [`ReadError::Failed`] where the device fails, and [`ReadError::NoMemory`] where memory is
    /// refused.
    #[tactic(auto, using(crate::proofs::Reading::none_read, crate::proofs::Reading::more_read, crate::proofs::Reading::all_read))]
    final fn read_whole(&mut self, alloc: Global) -> Result<Vec<u8>, ReadError>
    where
        Self: Sized,
        requires { failed self.old ≡ false }
        ensures bytes { IfOk result (λ v. IfSome (remaining self.old) (λ bytes. v.items ≡ bytes)) }
        ensures told { failed self.new ≡ is_failure result }
    {
        let mut bytes = Vec::new(alloc);
        let mut given = [0; MOST];
        loop {
            match self.read(&mut given) {
                Ok(0) => return Ok(bytes),
                Ok(count) => {
                    if bytes.extend_from_slice(&given[..count]).is_err() {
                        return Err(ReadError::NoMemory);
                    }
                }
                Err(error) => return Err(error),
            }
        }
    }
}
