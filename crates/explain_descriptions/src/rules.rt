//! Names of elements of a description, by the kind of element in which they may stand.
use microkit::Kind;

/// Returns the names of the elements that may stand in one of this kind.
pub(crate) fn elements_in(kind: Kind) -> &'static [&'static str] {
    match kind {
        Kind::Document => &IN_DOCUMENT,
        Kind::System => &IN_SYSTEM,
        Kind::Domain | Kind::Child => &IN_DOMAIN,
        Kind::Machine => &IN_MACHINE,
        Kind::Channel => &IN_CHANNEL,
        _ => &[],
    }
}

const IN_DOCUMENT: [&str; 1] = ["system"];

const IN_SYSTEM: [&str; 3] = ["memory_region", "protection_domain", "channel"];

const IN_DOMAIN: [&str; 7] = [
    "program_image",
    "map",
    "irq",
    "ioport",
    "setvar",
    "virtual_machine",
    "protection_domain",
];

const IN_MACHINE: [&str; 2] = ["vcpu", "map"];

const IN_CHANNEL: [&str; 1] = ["end"];
