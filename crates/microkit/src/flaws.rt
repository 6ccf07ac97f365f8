//! Flaws of elements of a description, and the reasons why reading stops.
ghost use Rattle.std.specs.Prelude.{◌≡◌};
ghost use Rattle.{words.specs.Fault.no_memory, microkit.specs.Flaws.{fault_here, text_fault, wrong_of}};
ghost use Rattle.microkit.specs.declared.flaws.ReadError.TheVariants as stops;
ghost use Rattle.microkit.specs.declared.flaws.Refusal.TheVariants as refused;

use crate::kinds::Kind;
use std::alloc::{AllocError, AllocFailed};
use words::{Fault, Wrong};

/// What is wrong with an element of a description.
///
/// If another element has the same, or overlaps it, the flaw has that element's line.
#[derive(Clone, Copy)]
pub enum Flaw {
    /// Such an element may not stand in one of this kind.
    Element(Kind),
    /// The attribute of this number is unknown for an element of this kind, or its value hasn't its form.
    Attribute(Kind, usize),
    /// The attribute of this number, of those that an element of this kind may have, is missing.
    Missing(Kind, usize),
    /// A domain has no program image.
    NoImage,
    /// The id is above [`MAX_ID`](crate::MAX_ID).
    LargeId,
    /// The priority is above [`MAX_PRIORITY`](crate::MAX_PRIORITY).
    LargePriority,
    /// No region has the name.
    NoRegion,
    /// No domain has the name.
    NoDomain,
    /// A region, domain or virtual machine has the same name.
    Name(u64),
    /// The domain knows another element by the same id.
    Id(u64),
    /// Another interrupt element has the same interrupt.
    Interrupt(u64),
    /// The domain already has a virtual machine.
    SecondMachine(u64),
    /// The size of a region isn't whole pages.
    Pages,
    /// The address of a region doesn't begin a page.
    Address,
    /// A region goes beyond the last address.
    Beyond,
    /// A region overlaps another one.
    Overlap(u64),
    /// The budget is longer than the period.
    Budget,
    /// There are more than [`MAX_DOMAINS`](crate::MAX_DOMAINS) domains.
    ManyDomains,
    /// An end has `pp`, and a domain has it too.
    Mixed,
    /// A channel has a third end.
    ThirdEnd,
    /// A channel has fewer than two ends.
    FewEnds,
    /// Both ends of a channel may call.
    BothCall,
    /// Both ends of a channel, one of which may call, are of one domain.
    CallsItself,
    /// An end of a channel may call a domain that hasn't a higher priority.
    CallsDown,
}

impl Flaw {
    /// Returns the kind of fault that the flaw is.
    pub fn wrong(self) -> Wrong
        ensures { result ≡ wrong_of self }
    {
        match self {
            Flaw::Element(_) | Flaw::Attribute(..) | Flaw::Missing(..) | Flaw::NoImage =>
                Wrong::Syntax,
            Flaw::LargeId | Flaw::LargePriority | Flaw::ManyDomains => Wrong::Limit,
            Flaw::NoRegion | Flaw::NoDomain => Wrong::UnknownName,
            Flaw::Name(_) | Flaw::Id(_) | Flaw::Interrupt(_) | Flaw::SecondMachine(_) =>
                Wrong::Double,
            _ => Wrong::WrongKind,
        }
    }
}

/// The number and the line of an element of a document.
#[derive(Clone, Copy)]
pub struct Spot {
    /// The number of the element, in the order of the text, from 0.
    pub element: usize,
    pub line: u64,
}

#[derive(Clone, Copy)]
pub struct ElementFault {
    pub flaw: Flaw,
    pub spot: Spot,
}

/// The reason why elements aren't read as a description.
#[derive(Clone, Copy)]
pub enum ReadError {
    Memory,
    Element(ElementFault),
}

impl From<ElementFault> for ReadError {
    ghost from_gives = { λ fault error. error ≡ stops.Element fault };

    fn from(fault: ElementFault) -> ReadError {
        ReadError::Element(fault)
    }
}

impl From<AllocError> for ReadError {
    ghost from_gives = { λ _ error. error ≡ stops.Memory };

    fn from(_error: AllocError) -> ReadError {
        ReadError::Memory
    }
}

impl<T: Drop> From<AllocFailed<T>> for ReadError {
    ghost from_gives = { λ _ error. error ≡ stops.Memory };

    fn from(_error: AllocFailed<T>) -> ReadError {
        ReadError::Memory
    }
}

impl From<ReadError> for Fault {
    ghost from_gives = { λ error fault. fault ≡ text_fault error };

    fn from(error: ReadError) -> Fault {
        match error {
            ReadError::Memory => Fault::MEMORY,
            ReadError::Element(fault) => Fault::at(fault.flaw.wrong(), fault.spot.line),
        }
    }
}

/// The reason why an element isn't taken.
#[derive(Clone, Copy)]
pub(crate) enum Refusal {
    Memory,
    Flawed(Flaw),
}

impl From<Flaw> for Refusal {
    ghost from_gives = { λ flaw refusal. refusal ≡ refused.Flawed flaw };

    fn from(flaw: Flaw) -> Refusal {
        Refusal::Flawed(flaw)
    }
}

impl From<AllocError> for Refusal {
    ghost from_gives = { λ _ refusal. refusal ≡ refused.Memory };

    fn from(_error: AllocError) -> Refusal {
        Refusal::Memory
    }
}

impl<T: Drop> From<AllocFailed<T>> for Refusal {
    ghost from_gives = { λ _ refusal. refusal ≡ refused.Memory };

    fn from(_error: AllocFailed<T>) -> Refusal {
        Refusal::Memory
    }
}

impl Spot {
    /// The reason why reading stops at this element, which has a flaw.
    pub(crate) fn fault(self, flaw: Flaw) -> ReadError
        ensures { result ≡ stops.Element (fault_here self flaw) }
    {
        ReadError::Element(ElementFault { flaw, spot: self })
    }
}
