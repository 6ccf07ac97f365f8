//! Systems with what their tables come from.
use explain_rules::{Made, Sheet};
use importing::{Minting, Origins, origins_of};
use report::{Given, Taken};
use requests::Request;
use std::alloc::{AllocError, Global};

/// A system, and, if a description was given, what its table comes from.
#[derive(Drop)]
pub(crate) struct Sourced<'a> {
    file: &'a str,
    given: &'a Given,
    origins: Option<Origins>,
}

impl<'a> Sourced<'a> {
    /// Returns the system that a request is about.
    pub fn of(
        alloc: Global,
        request: &Request<'_, &str>,
        file: &'a str,
        given: &'a Given,
    ) -> Result<Sourced<'a>, AllocError> {
        let origins = match (minting_of(request), given.description()) {
            (Some(minting), Some(description)) => Some(origins_of(alloc, description, minting)?),
            _ => None,
        };
        Ok(Sourced {
            file,
            given,
            origins,
        })
    }

    /// Returns the table with the lines and elements that it comes from.
    pub fn sheet(&self) -> Sheet<'_> {
        let made = match (self.given.description(), &self.origins) {
            (Some(description), Some(origins)) => Some(Made {
                description,
                origins,
            }),
            _ => None,
        };
        Sheet {
            file: self.file,
            table: self.given.table(),
            made,
        }
    }
}

/// Returns the rights that a request gives to the capabilities of a description.
pub(crate) fn minting_of(request: &Request<'_, &str>) -> Option<Minting> {
    match *request {
        Request::OfDescription(asked, _) => Some(asked.minting),
        Request::OfSystem(_, Taken::System(rights), _)
        | Request::OfPolicy(_, Taken::System(rights), _, _)
        | Request::OfClaims(Taken::System(rights), _, _)
        | Request::OfTwo(_, Taken::Either(rights), _, _) => rights,
        _ => None,
    }
}
