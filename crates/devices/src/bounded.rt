//! A reader with a limit.
ghost use Rattle.std.specs.{Io.{KnownBytes.ReadConsumes, ReadsAtMost}, Prelude.{◌≡◌, IfNone, IfOk, IfSome, IsErr, OnErr}};

use std::io::{self, ErrorKind, Read};

/// A reader of which only a limited number of bytes can be read.
///
/// It fails, as a device does, where more would be read. So nobody takes a beginning for the whole,
/// of a reader that has more or that never ends.
#[derive(Drop)]
pub struct Bounded<R> {
    reader: R,
    left: Option<u64>,
}

impl<R> Bounded<R> {
    ghost use Rattle.devices.specs.Bounded.{bounded};

    /// Returns a reader of which `limit` bytes can be read.
    pub fn new(reader: R, limit: u64) -> Bounded<R>
        ensures { result ≡ bounded reader limit }
    {
        Bounded {
            reader,
            left: Some(limit),
        }
    }
}

impl<R: Read> Read for Bounded<R> {
    ghost use Rattle.devices.specs.Bounded.{allowed_after, bytes_allowed, bytes_there};

    ghost remaining = { bytes_there R.remaining };

    fn read(&mut self, buf: &mut [u8]) -> io::Result<usize>
        ensures bound { ReadsAtMost result buf.new }
        ensures bytes { ReadConsumes (bytes_there R.remaining self.old)
            (bytes_there R.remaining self.new) result buf.new }
        ensures counted { IfSome (bytes_allowed self.old)
            (λ left. IfOk result (λ n. bytes_allowed self.new ≡ allowed_after left n)) }
        ensures unread { OnErr result (bytes_allowed self.new ≡ bytes_allowed self.old) }
        ensures past { IfNone (bytes_allowed self.old) (IsErr result) }
    {
        match self.left {
            None => Err(io::Error::from(ErrorKind::FileTooLarge)),
            Some(left) => match self.reader.read(buf) {
                Ok(count) => {
                    self.left = left.checked_sub(count as u64);
                    Ok(count)
                }
                Err(error) => Err(error),
            },
        }
    }
}
