//! A device that keeps whether it failed.
ghost use Rattle.std.specs.{Io.{KnownBytes.{Keeps, ReadConsumes, WriteAppends}, ReadsAtMost, WritesAtMost}, IoError.error_kind};
ghost use Rattle.std.specs.Prelude.{◌<◌, ◌↔◌, ◌≡◌, ◌≢◌, IfErr, IfOk, IsErr, IsErrAnd, IsOk, IsTrue, Ok, OnErr, OnOk};

use crate::{ReadError, Sink, Source, WriteError};
use std::io::{self, ErrorKind, Read, Write};

/// A reader or a writer that keeps whether one of its calls failed.
///
/// A call that was interrupted is made again, as by the calls of `std::io`, and has failed only if
/// it is interrupted 2^64 - 1 times.
#[derive(Drop)]
pub struct Watched<D> {
    device: D,
    failed: bool,
    is_flushed: bool,
    /// Why the last read failed that did.
    why: Option<ErrorKind>,
}

impl<D> Watched<D> {
    ghost use Rattle.devices.specs.Watched.{device_of, watched, why_unread};

    /// Returns a device that hasn't failed.
    pub fn new(device: D) -> Watched<D>
        ensures { result ≡ watched device }
    {
        Watched {
            device,
            failed: false,
            is_flushed: true,
            why: None,
        }
    }

    /// Returns why the last read that failed did so, if one failed.
    pub fn why_unread(&self) -> Option<ErrorKind>
        ensures { result ≡ why_unread self.now }
    {
        self.why
    }

    /// Returns the device itself.
    pub fn into_inner(self) -> D
        ensures { result ≡ device_of self }
    {
        self.device
    }
}

/// Whether a device requests another try.
fn is_interrupted<T>(answer: &io::Result<T>) -> bool
    ensures { IsTrue result ↔ IsErrAnd answer.now (λ error. error_kind error ≡ ErrorKind.Interrupted) }
{
    match answer {
        Ok(_) => false,
        Err(error) => error.kind() == ErrorKind::Interrupted,
    }
}

/// Asks a reader until it isn't interrupted.
#[tactic(auto, using(crate::proofs::Interrupted::none_made, crate::proofs::Interrupted::one_read, crate::proofs::Interrupted::then_read))]
fn read_from<R: Read>(reader: &mut R, buf: &mut [u8]) -> io::Result<usize>
    ensures bound { ReadsAtMost result buf.new }
    ensures bytes { ReadConsumes (R.remaining reader.old) (R.remaining reader.new) result buf.new }
    ensures retried { IfErr result (λ error. error_kind error ≢ ErrorKind.Interrupted) }
{
    for _ in 0..u64::MAX {
        let answer = reader.read(buf);
        if !is_interrupted(&answer) {
            return answer;
        }
    }
    Err(io::Error::from(ErrorKind::TimedOut))
}

/// Asks a writer until it isn't interrupted.
#[tactic(auto, using(crate::proofs::Interrupted::none_made, crate::proofs::Interrupted::one_written, crate::proofs::Interrupted::then_written))]
fn write_to<W: Write>(writer: &mut W, bytes: &[u8]) -> io::Result<usize>
    ensures bound { WritesAtMost result bytes.now }
    ensures bytes { WriteAppends (W.contents writer.old) (W.contents writer.new) result bytes.now }
    ensures retried { IfErr result (λ error. error_kind error ≢ ErrorKind.Interrupted) }
{
    for _ in 0..u64::MAX {
        let answer = writer.write(bytes);
        if !is_interrupted(&answer) {
            return answer;
        }
    }
    Err(io::Error::from(ErrorKind::TimedOut))
}

/// Asks a writer to pass on what it took until it isn't interrupted.
#[tactic(auto, using(crate::proofs::Interrupted::none_made, crate::proofs::Interrupted::one_flushed))]
fn flush_to<W: Write>(writer: &mut W) -> io::Result<()>
    ensures bytes { Keeps (W.contents writer.old) (W.contents writer.new) }
    ensures retried { IfErr result (λ error. error_kind error ≢ ErrorKind.Interrupted) }
{
    for _ in 0..u64::MAX {
        let answer = writer.flush();
        if !is_interrupted(&answer) {
            return answer;
        }
    }
    Err(io::Error::from(ErrorKind::TimedOut))
}

/// What the answer of a writer that was given `given` bytes means. A writer that takes none of them
/// has failed.
fn taken(given: usize, answer: io::Result<usize>) -> Result<usize, WriteError>
    ensures some { IfOk answer (λ n. 0 < n → result ≡ Ok n) }
    ensures none { IfOk answer (λ n. n ≡ 0 → given ≡ 0 → result ≡ Ok n) }
    ensures stuck { IfOk answer (λ n. n ≡ 0 → 0 < given → IsErr result) }
    ensures err { OnErr answer (IsErr result) }
{
    match answer {
        Ok(count) if count > 0 || given == 0 => Ok(count),
        Ok(_) | Err(_) => Err(WriteError),
    }
}

/// What the answer of a writer to a flush means.
fn flushed(answer: io::Result<()>) -> Result<(), WriteError>
    ensures ok { OnOk answer (IsOk result) }
    ensures err { OnErr answer (IsErr result) }
{
    match answer {
        Ok(()) => Ok(()),
        Err(_) => Err(WriteError),
    }
}

impl<R: Read> Source for Watched<R> {
    ghost use Rattle.devices.specs.Watched.{device_of, failed_of};

    ghost remaining = { λ s. R.remaining (device_of s) };

    ghost failed = { λ s. failed_of s };

    fn read(&mut self, buf: &mut [u8]) -> Result<usize, ReadError> {
        match read_from(&mut self.device, buf) {
            Ok(count) => Ok(count),
            Err(error) => {
                self.why = Some(error.kind());
                let told = ReadError::from(error);
                self.failed = told == ReadError::Failed;
                Err(told)
            }
        }
    }
}

impl<W: Write> Sink for Watched<W> {
    ghost use Rattle.devices.specs.Watched.{device_of, failed_of, is_flushed_of};

    ghost contents = { λ s. W.contents (device_of s) };

    ghost failed = { λ s. failed_of s };

    ghost is_flushed = { λ s. is_flushed_of s };

    fn write(&mut self, bytes: &[u8]) -> Result<usize, WriteError> {
        self.is_flushed = false;
        let result = taken(bytes.len(), write_to(&mut self.device, bytes));
        self.failed = result.is_err();
        result
    }

    fn flush(&mut self) -> Result<(), WriteError> {
        let result = flushed(flush_to(&mut self.device));
        self.is_flushed = result.is_ok();
        self.failed = result.is_err();
        result
    }
}
