//! Uses of regions by devices, as far as a description says.
use forms::Shown;
use microkit::{Description, Map, User, Variable};
use std::fmt;

/// The use of a region by devices.
#[derive(Clone, Copy)]
pub(crate) enum DeviceUse {
    /// Registers of a device: the region has a fixed address, and somebody maps it uncached.
    Registers,
    /// Memory at a fixed address, which a device may write by itself.
    Memory,
    /// Memory whose address a domain gets by this variable, so that a device may write it by itself.
    Told(Variable),
}

/// Returns the use of the region of this number by devices, if somebody maps it.
pub(crate) fn device_use(description: &Description, number: usize) -> Option<DeviceUse> {
    let region = description.regions.get(number)?;
    let maps = &description.maps;
    if !maps.iter().any(|map| map.region == number) {
        return None;
    }
    for variable in &description.variables {
        if variable.region == number {
            return Some(DeviceUse::Told(*variable));
        }
    }
    region.address?;
    Some(if maps.iter().any(|map| is_uncached(map, number)) {
        DeviceUse::Registers
    } else {
        DeviceUse::Memory
    })
}

fn is_uncached(map: &Map, region: usize) -> bool {
    map.region == region && !map.cached
}

/// The domains and virtual machines that may write to a region, as words for a person: `a`, `b`.
#[derive(Clone, Copy)]
pub struct Writers<'a> {
    pub(crate) description: &'a Description,
    /// The number of the region.
    pub(crate) region: usize,
}

impl Writers<'_> {
    /// Returns whether there are none.
    pub(crate) fn is_empty(&self) -> bool {
        let mut maps = self.description.maps.iter();
        !maps.any(|map| self.is_by(map))
    }

    // Whether a map lets its user write to the region.
    fn is_by(&self, map: &Map) -> bool {
        map.region == self.region && map.writable
    }

    fn has_domain(&self, number: usize) -> bool {
        let mut maps = self.description.maps.iter();
        maps.any(|map| self.is_by(map) && is_domain(map.user, number))
    }

    fn has_machine(&self, number: usize) -> bool {
        let mut maps = self.description.maps.iter();
        maps.any(|map| self.is_by(map) && is_machine(map.user, number))
    }
}

fn is_domain(user: User, number: usize) -> bool {
    match user {
        User::Domain(domain) => domain == number,
        User::Machine(_) => false,
    }
}

fn is_machine(user: User, number: usize) -> bool {
    match user {
        User::Domain(_) => false,
        User::Machine(machine) => machine == number,
    }
}

impl fmt::Display for Writers<'_> {
    fn fmt<W: fmt::Write>(&self, f: &mut fmt::Formatter<W>) -> fmt::Result {
        let mut separator = "";
        for (number, domain) in self.description.domains.iter().enumerate() {
            if self.has_domain(number) {
                tell_writer(f, separator, &domain.name)?;
                separator = ", ";
            }
        }
        for (number, machine) in self.description.machines.iter().enumerate() {
            if self.has_machine(number) {
                tell_writer(f, separator, &machine.name)?;
                separator = ", ";
            }
        }
        Ok(())
    }
}

fn tell_writer<W: fmt::Write>(
    f: &mut fmt::Formatter<W>,
    separator: &str,
    name: &[u8],
) -> fmt::Result {
    write!(f, "{separator}`{}`", Shown { bytes: name })
}
