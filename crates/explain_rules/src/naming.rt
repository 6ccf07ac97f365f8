//! The names that a description gives.
use forms::Shown;
use microkit::{Description, User};
use std::fmt;

/// Returns the name of a domain.
pub(crate) fn domain_name<'a>(description: &'a Description, number: usize) -> Shown<'a> {
    let bytes: &'a [u8] = match description.domains.get(number) {
        Some(domain) => &domain.name,
        None => b"",
    };
    Shown { bytes }
}

/// Returns the name of a virtual machine.
pub(crate) fn machine_name<'a>(description: &'a Description, number: usize) -> Shown<'a> {
    let bytes: &'a [u8] = match description.machines.get(number) {
        Some(machine) => &machine.name,
        None => b"",
    };
    Shown { bytes }
}

/// Returns the name of a region.
pub(crate) fn region_name<'a>(description: &'a Description, number: usize) -> Shown<'a> {
    let bytes: &'a [u8] = match description.regions.get(number) {
        Some(region) => &region.name,
        None => b"",
    };
    Shown { bytes }
}

/// The user that maps a region, as `plugin` or as the virtual machine `guest`, with the name in quotes.
#[derive(Clone, Copy)]
pub(crate) struct UserName<'a> {
    pub description: &'a Description,
    pub user: User,
}

impl fmt::Display for UserName<'_> {
    fn fmt<W: fmt::Write>(&self, f: &mut fmt::Formatter<W>) -> fmt::Result {
        match self.user {
            User::Domain(number) => {
                let name = domain_name(self.description, number);
                write!(f, "`{name}`")
            }
            User::Machine(number) => {
                let name = machine_name(self.description, number);
                write!(f, "the virtual machine `{name}`")
            }
        }
    }
}
