//! The faults for which a text is refused, by number and line.
ghost use Rattle.std.specs.Prelude.{◌≡◌};
ghost use Rattle.words.specs.{declared.faults.LineError.TheVariants.{Memory, Text}, Fault.{fault_at, no_memory, number_of}};

use std::alloc::{AllocError, AllocFailed};
use thiserror::Error;

/// The kind of fault of a line.
///
/// Within a line, faults are reported in the order `Syntax`, `UnknownName`, `Double`, `WrongKind`,
/// `Limit`, `Misplaced`. `Tree` is found once the text ended.
#[derive(Clone, Copy, Debug, PartialEq, Eq, Error)]
pub enum Wrong {
    #[error("the line doesn't have its form, or is out of order")]
    Syntax,
    #[error("a name is unknown")]
    UnknownName,
    #[error("something is declared twice")]
    Double,
    #[error("an object is misaligned, or overlaps an earlier one")]
    Misplaced,
    #[error("a limit is passed")]
    Limit,
    #[error("an object is of the wrong kind")]
    WrongKind,
    #[error("a child doesn't follow from its parent")]
    Tree,
}

impl Wrong {
    /// The number by which reports name the fault, 50 to 56.
    pub(crate) fn number(self) -> u64
        ensures { result ≡ number_of self }
    {
        match self {
            Wrong::Syntax => 50,
            Wrong::UnknownName => 51,
            Wrong::Double => 52,
            Wrong::Misplaced => 53,
            Wrong::Limit => 54,
            Wrong::WrongKind => 55,
            Wrong::Tree => 56,
        }
    }
}

/// The reason why the reading of a line stopped: memory was refused, or the text is wrong.
#[derive(Clone, Copy, Debug, PartialEq, Eq, Error)]
pub enum LineError {
    #[error("no memory")]
    Memory,
    #[error("{0}")]
    Text(Wrong),
}

impl From<Wrong> for LineError {
    ghost from_gives = { λ wrong error. error ≡ Text wrong };

    fn from(wrong: Wrong) -> LineError {
        LineError::Text(wrong)
    }
}

impl From<AllocError> for LineError {
    ghost from_gives = { λ _ error. error ≡ Memory };

    fn from(_error: AllocError) -> LineError {
        LineError::Memory
    }
}

impl<T: Drop> From<AllocFailed<T>> for LineError {
    ghost from_gives = { λ _ error. error ≡ Memory };

    fn from(_error: AllocFailed<T>) -> LineError {
        LineError::Memory
    }
}

/// The fault for which a text is refused.
///
/// It has its number, 50 to 56, and the line that has it, from 1; or 40 and line 0 if memory was
/// refused.
#[derive(Clone, Copy, Debug, PartialEq, Eq, Error)]
#[error("line {line}: fault {number}")]
pub struct Fault {
    pub number: u64,
    pub line: u64,
}

impl Fault {
    /// The fault of a text for which memory was refused: 40, at line 0.
    pub const MEMORY: Fault = Fault {
        number: 40,
        line: 0,
    };

    /// Returns the fault of a line; lines are counted from 1.
    #[tactic(auto, unfolding(crate::specs::Fault::fault_at))]
    pub fn at(wrong: Wrong, line: u64) -> Fault
        ensures { result ≡ fault_at line wrong }
    {
        Fault {
            number: wrong.number(),
            line,
        }
    }
}

impl From<AllocError> for Fault {
    ghost from_gives = { λ _ fault. fault ≡ no_memory };

    fn from(_error: AllocError) -> Fault {
        Fault::MEMORY
    }
}

impl<T: Drop> From<AllocFailed<T>> for Fault {
    ghost from_gives = { λ _ fault. fault ≡ no_memory };

    fn from(_error: AllocFailed<T>) -> Fault {
        Fault::MEMORY
    }
}
