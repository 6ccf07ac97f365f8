//! The reasons why no state is printed.
use std::alloc::{AllocError, AllocFailed};
use std::io;
use thiserror::Error;
use words::Fault;

/// The reason why no state is printed.
#[derive(Clone, Copy, Debug, PartialEq, Eq, Error)]
pub enum Failure {
    #[error("it is called by TABLE SCRIPT [EVENTS], two files and how many events are run")]
    Misused,
    #[error("a file can't be read")]
    Unread,
    #[error("table: {0}")]
    Table(Fault),
    #[error("script: {0}")]
    Script(Fault),
    #[error("the script has fewer events")]
    TooFew,
    #[error("there is no memory")]
    Memory,
}

impl From<io::Error> for Failure {
    fn from(_error: io::Error) -> Failure {
        Failure::Unread
    }
}

impl From<AllocError> for Failure {
    fn from(_error: AllocError) -> Failure {
        Failure::Memory
    }
}

impl<T: Drop> From<AllocFailed<T>> for Failure {
    fn from(_error: AllocFailed<T>) -> Failure {
        Failure::Memory
    }
}
