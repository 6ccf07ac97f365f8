//! A file as a source, also where it couldn't be opened.
ghost use Rattle.std.specs.{Io.{KnownBytes.ReadConsumes, ReadsAtMost}, IoError.error_kind, Prelude.{◌≡◌, IsErrAnd, None}};
ghost use Rattle.devices.specs.Opened.{opened, unopened};

use crate::Watched;
use either::Either;
use std::io::{self, ErrorKind, Read};

/// A file that couldn't be opened: each read of it says why.
#[derive(Drop)]
pub struct Unopened(ErrorKind);

impl Read for Unopened {
    fn read(&mut self, _buf: &mut [u8]) -> io::Result<usize>
        ensures bound { ReadsAtMost result _buf.new }
        ensures bytes { ReadConsumes None None result _buf.new }
        ensures fails { IsErrAnd result (λ error. unopened (error_kind error) ≡ self.old) }
        ensures stays { self.new ≡ self.old }
    {
        Err(io::Error::from(self.0))
    }
}

/// Returns what opening a file gave, as a source.
///
/// A file that couldn't be opened fails as it is read.
pub fn open_result<F>(file: io::Result<F>) -> Watched<Either<F, Unopened>>
    ensures { result ≡ opened file }
{
    Watched::new(match file {
        Ok(file) => Either::Left(file),
        Err(error) => Either::Right(Unopened(error.kind())),
    })
}
