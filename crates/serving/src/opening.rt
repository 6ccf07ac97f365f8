//! The opening of a request's files.
ghost use Rattle.std.specs.{Fn.FnReturnsAt, Prelude.{◌≡◌, IfOk, Some, false}};
ghost use Rattle.{devices.specs.{Bounded.bytes_allowed, Watched.failed_of}, requests.specs.Requests.HasFewWorkers};
ghost use Rattle.serving.specs.{declared.opening.TheConstants.MOST_BYTES, Opening.{AreOpenedBy, AreSound, IsOpenedBy}};

use devices::Bounded;
use either::Either;
use report::{Unopened, Watched, open_result};
use requests::Request;
use std::fs::{self, Files};
use std::io;

/// The largest number of bytes read of a file, 1 GiB. No text within the limits is longer, except
/// certificates that aren't right.
pub const MOST_BYTES: u64 = 1 << 30;

/// The name that stands for standard input.
const STANDARD_INPUT: &str = "-";

/// A command's input: a file, or standard input.
pub type FileOrInput<R> = Either<<R as Files>::File, <R as Input>::Reader>;

/// Opens a file, or standard input if the path is `-`. At most [`MOST_BYTES`] of it are read.
///
/// # Errors
///
/// The system's error, if the file can't be opened.
pub fn open<R: Files + Input>(rt: &R, path: &str) -> io::Result<Bounded<FileOrInput<R>>>
    ensures limit { IfOk result (λ file. bytes_allowed file ≡ Some MOST_BYTES) }
{
    if path == STANDARD_INPUT {
        return Ok(Bounded::new(Either::Right(rt.reader()), MOST_BYTES));
    }
    match fs::open(rt, path) {
        Ok(file) => Ok(Bounded::new(Either::Left(file), MOST_BYTES)),
        Err(error) => Err(error),
    }
}

/// A file that a request names, or the error of opening it.
pub type Opened<F> = Watched<Either<F, Unopened>>;

/// Opens the file of this name. If that fails, reading the file reports the error.
pub(crate) fn open_by<F, O: Fn(&str) -> io::Result<F>>(opener: &O, name: &str) -> Opened<F>
    requires { O.IsAlwaysCallable opener.now }
    ensures opened { IsOpenedBy (FnReturnsAt O.Fn opener.now) name.now result }
    ensures sound { failed_of result ≡ false }
{
    open_result(opener(name))
}

/// Opens the files of a request by their names.
pub(crate) fn open_all<'a, F, O: Fn(&str) -> io::Result<F>>(
    opener: &O,
    request: Request<'a, &'a str>,
) -> Request<'a, Opened<F>>
    requires { O.IsAlwaysCallable opener.now }
    ensures opened { AreOpenedBy (FnReturnsAt O.Fn opener.now) request.entry result }
    ensures sound { AreSound result }
    ensures limits { HasFewWorkers request.entry → HasFewWorkers result }
{
    match request {
        Request::OfDescription(asked, description) => {
            Request::OfDescription(asked, open_by(opener, description))
        }
        Request::OfSystem(asked, taken, system) => {
            Request::OfSystem(asked, taken, open_by(opener, system))
        }
        Request::OfPolicy(asked, taken, system, policy) => {
            let (system, policy) = (open_by(opener, system), open_by(opener, policy));
            Request::OfPolicy(asked, taken, system, policy)
        }
        Request::OfClaims(taken, system, claims) => {
            Request::OfClaims(taken, open_by(opener, system), open_by(opener, claims))
        }
        Request::OfTwo(form, taken, old, new) => {
            Request::OfTwo(form, taken, open_by(opener, old), open_by(opener, new))
        }
        Request::Check(check, table, policy) => {
            Request::Check(check, open_by(opener, table), open_by(opener, policy))
        }
        Request::OfThree(asked, table, policy, third) => {
            let (table, policy) = (open_by(opener, table), open_by(opener, policy));
            Request::OfThree(asked, table, policy, open_by(opener, third))
        }
    }
}
