//! Notes on what the table of a description doesn't show.
use crate::devices::{DeviceUse, Writers, device_use};
use crate::overlaps::{Overlap, overlaps_in};
use base::Label;
use captext::label_name;
use forms::Shown;
use importing::{Form, Minting, Origins, labelled_of};
use microkit::{Channel, Description, End, Subject, User, subjects_of};
use std::alloc::{AllocError, Global};
use std::fmt;
use table::Table;

/// What the table of a description doesn't show, or shows otherwise, and the line of the element.
#[derive(Clone, Copy)]
pub struct Note<'a> {
    /// 0 if the note is on the whole description.
    pub line: u64,
    pub matter: Matter<'a>,
}

/// The matter of a note.
#[derive(Clone, Copy)]
pub enum Matter<'a> {
    /// The monitor and the initial task.
    Monitor,
    /// A table with this many labels, which is of version 2.
    Labels(usize),
    /// The number of regions with the label of another one.
    Sharing(usize),
    /// An interrupt, by its number.
    Interrupt(u64),
    /// I/O ports, by the id that a domain of this name has for them.
    Ports(&'a [u8], u64),
    /// The registers of a virtual processor, by the id that a domain of this name has for it.
    Processor(&'a [u8], u64),
    /// The secure monitor calls of a domain.
    MonitorCalls(&'a [u8]),
    /// The faults of a domain that is no child.
    Faults(&'a [u8]),
    /// A domain that runs on the contexts of its callers.
    Passive(&'a [u8]),
    /// Such a domain, whose capability for the monitor's endpoint may have all rights.
    MonitorEndpoint(&'a [u8]),
    /// A domain that may call another one, which has `pp`, since it has the lower priority.
    Caller(&'a [u8], &'a [u8]),
    /// A domain that can't call another one, which has `pp`, since it hasn't the lower priority.
    NoCaller(&'a [u8], &'a [u8]),
    /// A channel whose ends are both of this domain.
    Loop(&'a [u8]),
    /// A region with the registers of a device, and the users that may write to it.
    Registers(&'a [u8], Writers<'a>),
    /// A region at a fixed address that a device may write by itself.
    Memory(&'a [u8]),
    /// Such a region, whose address a domain gets by a `setvar` in this line.
    Told(&'a [u8], &'a [u8], u64),
    /// A domain or virtual machine that maps a region over another one, which it maps in this line.
    Overlap(&'a [u8], &'a [u8], u64),
    /// A name that was changed, and the label that it became.
    Renamed(&'a [u8], &'a str),
}

impl Note<'_> {
    /// Returns whether the note is on a region that a device may write by itself.
    pub fn is_on_memory(&self) -> bool {
        matches!(self.matter, Matter::Memory(_) | Matter::Told(..))
    }
}

/// Returns what the table of a description doesn't show.
///
/// Notes on the whole description come first, then the others in the order of their lines. `table` is the
/// description's, with capabilities that have the rights of `minting`.
pub fn notes_of<'a>(
    alloc: Global,
    description: &'a Description,
    minting: Minting,
    table: &'a Table,
) -> Result<Vec<Note<'a>>, AllocError> {
    let mut notes = Vec::new(alloc);
    add_note(&mut notes, 0, Matter::Monitor)?;
    if table.label_count() > 64 {
        add_note(&mut notes, 0, Matter::Labels(table.label_count()))?;
    }
    add_sharing(alloc, &mut notes, description)?;
    add_names(alloc, &mut notes, description, table)?;
    add_regions(&mut notes, description)?;
    add_overlaps(alloc, &mut notes, description)?;
    add_domains(&mut notes, description, minting)?;
    add_devices(&mut notes, description)?;
    add_channels(&mut notes, description)?;
    notes.sort_by_key(|note| note.line)?;
    Ok(notes)
}

/// Returns the notes on regions with this label that a device may write by itself.
///
/// `table` is the description's, and its objects have these origins.
pub fn notes_on_label<'a>(
    alloc: Global,
    description: &'a Description,
    origins: &Origins,
    table: &Table,
    label: Label,
) -> Result<Vec<Note<'a>>, AllocError> {
    let mut notes = Vec::new(alloc);
    for (object, piece) in table.objects().iter().zip(&origins.pieces) {
        if let (Form::Frame, Some(region)) = (piece.form, description.regions.get(piece.number)) {
            if object.label == label {
                if let Some(matter) = memory_matter(description, piece.number) {
                    add_note(&mut notes, region.line, matter)?;
                }
            }
        }
    }
    Ok(notes)
}

/// Returns a line for each note, which begins with the file's name.
pub fn explain_notes(alloc: Global, file: &str, notes: &[Note<'_>]) -> Result<String, AllocError> {
    let mut lines = String::new(alloc);
    for note in notes {
        match note.line {
            0 => writeln!(lines, "{file}: note: {note}")?,
            line => writeln!(lines, "{file}:{line}: note: {note}")?,
        }
    }
    Ok(lines)
}

impl fmt::Display for Note<'_> {
    fn fmt<W: fmt::Write>(&self, f: &mut fmt::Formatter<W>) -> fmt::Result {
        match self.matter {
            Matter::Monitor => f.write_str(
                "the monitor and the initial task are left out. They have capabilities for all threads. It is \
                 a premise that they do nothing once the system runs.",
            ),
            Matter::Labels(count) => write!(
                f,
                "there are {count} labels, more than 64, so the table is of version 2"
            ),
            Matter::Sharing(count) => {
                let regions = if count == 1 {
                    "region has"
                } else {
                    "regions have"
                };
                write!(
                    f,
                    "{count} {regions} the label of an earlier region, which the same users map with the same rights"
                )
            }
            Matter::Interrupt(irq) => write!(f, "interrupt {irq} is left out"),
            Matter::Ports(domain, id) => {
                let domain = Shown { bytes: domain };
                write!(f, "the I/O ports of `{domain}` with id {id} are left out")
            }
            Matter::Processor(domain, id) => {
                let domain = Shown { bytes: domain };
                write!(
                    f,
                    "the registers of the virtual processor of `{domain}` with id {id} are left out"
                )
            }
            Matter::MonitorCalls(domain) => {
                let domain = Shown { bytes: domain };
                write!(f, "the secure monitor calls of `{domain}` are left out")
            }
            Matter::Faults(domain) => {
                let domain = Shown { bytes: domain };
                write!(
                    f,
                    "faults of `{domain}` go to the monitor, which is left out"
                )
            }
            Matter::Passive(domain) => {
                let domain = Shown { bytes: domain };
                write!(
                    f,
                    "`{domain}` is passive: it is bound to the context on which it runs `init`, and loses that context \
                     after `init`"
                )
            }
            Matter::MonitorEndpoint(domain) => {
                let domain = Shown { bytes: domain };
                write!(
                    f,
                    "`{domain}` is passive, so it has a capability for the monitor's endpoint: that is left out. If the \
                     tool gives it all rights, `{domain}` may receive the faults of other domains."
                )
            }
            Matter::Caller(caller, server) => {
                let (caller, server) = (Shown { bytes: caller }, Shown { bytes: server });
                write!(
                    f,
                    "`{caller}` may call `{server}`: `{server}` has `pp`, and the priority of `{caller}` is lower"
                )
            }
            Matter::NoCaller(caller, server) => {
                let (caller, server) = (Shown { bytes: caller }, Shown { bytes: server });
                write!(
                    f,
                    "`{caller}` can't call `{server}`: `{server}` has `pp`, but the priority of `{caller}` isn't lower"
                )
            }
            Matter::Loop(domain) => {
                let domain = Shown { bytes: domain };
                write!(
                    f,
                    "both ends of this channel are of `{domain}`, so it joins `{domain}` to no other domain"
                )
            }
            Matter::Registers(region, writers) => {
                let region = Shown { bytes: region };
                write!(
                    f,
                    "`{region}` is at a fixed address and mapped uncached, as the registers of a device are. "
                )?;
                if writers.is_empty() {
                    return f.write_str("Nobody may write to them.");
                }
                write!(
                    f,
                    "By them, {writers} may have the device write memory (DMA): that is left out."
                )
            }
            Matter::Memory(region) => {
                let region = Shown { bytes: region };
                write!(
                    f,
                    "`{region}` is at a fixed address and not mapped uncached, as memory for a device is. Whoever drives \
                     the device may have it write `{region}` (DMA): that is left out."
                )
            }
            Matter::Told(region, domain, line) => {
                let (region, domain) = (Shown { bytes: region }, Shown { bytes: domain });
                write!(
                    f,
                    "`{domain}` gets the physical address of `{region}` by the `setvar` in line {line}. Whoever drives a \
                     device may have it write `{region}` (DMA): that is left out."
                )
            }
            Matter::Overlap(user, region, line) => {
                let (user, region) = (Shown { bytes: user }, Shown { bytes: region });
                write!(
                    f,
                    "`{user}` maps this region over `{region}`, which it maps in line {line}: their virtual addresses overlap"
                )
            }
            Matter::Renamed(name, label) => {
                let name = Shown { bytes: name };
                write!(f, "`{name}` is called `{label}` in the table")
            }
        }
    }
}

fn add_note<'a>(
    notes: &mut Vec<Note<'a>>,
    line: u64,
    matter: Matter<'a>,
) -> Result<(), AllocError> {
    notes.push(Note { line, matter })?;
    Ok(())
}

// Adds the number of regions with the label of another one.
fn add_sharing<'a>(
    alloc: Global,
    notes: &mut Vec<Note<'a>>,
    description: &'a Description,
) -> Result<(), AllocError> {
    let subjects = subjects_of(alloc, description)?;
    let labelled = labelled_of(alloc, description)?;
    let count = subjects.len().saturating_sub(labelled.len());
    if count > 0 {
        add_note(notes, 0, Matter::Sharing(count))?;
    }
    Ok(())
}

// Adds which names were changed. The time of a domain is called after the domain, which has a note.
fn add_names<'a>(
    alloc: Global,
    notes: &mut Vec<Note<'a>>,
    description: &'a Description,
    table: &'a Table,
) -> Result<(), AllocError> {
    let subjects = labelled_of(alloc, description)?;
    for (number, subject) in subjects.iter().enumerate() {
        if let (Some((name, line)), Some(label)) = (
            name_of(description, *subject),
            label_of(number),
        ) {
            let label = label_name(table, label);
            if label.as_bytes() != name {
                add_note(notes, line, Matter::Renamed(name, label))?;
            }
        }
    }
    Ok(())
}

// The label of this number.
fn label_of(number: usize) -> Option<Label> {
    if number < usize::from(Label::COUNT) {
        Label::new(number as u16)
    } else {
        None
    }
}

// The name and the line of what has a label; none for the time of a domain.
fn name_of(description: &Description, subject: Subject) -> Option<(&[u8], u64)> {
    match subject {
        Subject::Domain(n) => {
            let domain = description.domains.get(n)?;
            Some((domain.name.as_slice(), domain.line))
        }
        Subject::Machine(n) => {
            let machine = description.machines.get(n)?;
            Some((machine.name.as_slice(), machine.line))
        }
        Subject::Region(n) => {
            let region = description.regions.get(n)?;
            Some((region.name.as_slice(), region.line))
        }
        Subject::Time(_) => None,
    }
}

// Adds the regions that are at fixed addresses, as those of devices are.
fn add_regions<'a>(
    notes: &mut Vec<Note<'a>>,
    description: &'a Description,
) -> Result<(), AllocError> {
    for (number, region) in description.regions.iter().enumerate() {
        if let Some(DeviceUse::Registers) = device_use(description, number) {
            let writers = Writers {
                description,
                region: number,
            };
            add_note(notes, region.line, Matter::Registers(&region.name, writers))?;
        }
        if let Some(matter) = memory_matter(description, number) {
            add_note(notes, region.line, matter)?;
        }
    }
    Ok(())
}

// The matter of a note on the region of this number, if a device may write it by itself.
fn memory_matter(description: &Description, number: usize) -> Option<Matter<'_>> {
    let region = description.regions.get(number)?.name.as_slice();
    match device_use(description, number)? {
        DeviceUse::Registers => None,
        DeviceUse::Memory => Some(Matter::Memory(region)),
        DeviceUse::Told(variable) => {
            let domain = domain_name(description, variable.domain);
            Some(Matter::Told(region, domain, variable.line))
        }
    }
}

// Adds which maps overlap others of the same domain or virtual machine.
fn add_overlaps<'a>(
    alloc: Global,
    notes: &mut Vec<Note<'a>>,
    description: &'a Description,
) -> Result<(), AllocError> {
    for overlap in &overlaps_in(alloc, description)? {
        let Overlap { map, other } = overlap;
        let (user, region) = (
            user_name(description, map.user),
            region_name(description, other.region),
        );
        add_note(notes, map.line, Matter::Overlap(user, region, other.line))?;
    }
    Ok(())
}

fn user_name(description: &Description, user: User) -> &[u8] {
    match user {
        User::Domain(number) => domain_name(description, number),
        User::Machine(number) => match description.machines.get(number) {
            Some(machine) => &machine.name,
            None => b"",
        },
    }
}

fn region_name(description: &Description, number: usize) -> &[u8] {
    match description.regions.get(number) {
        Some(region) => &region.name,
        None => b"",
    }
}

// Adds the notes on each domain.
fn add_domains<'a>(
    notes: &mut Vec<Note<'a>>,
    description: &'a Description,
    minting: Minting,
) -> Result<(), AllocError> {
    for domain in &description.domains {
        let name = domain.name.as_slice();
        if domain.parent.is_none() {
            add_note(notes, domain.line, Matter::Faults(name))?;
        }
        if domain.passive {
            add_note(notes, domain.line, Matter::Passive(name))?;
            if let Minting::All = minting {
                add_note(notes, domain.line, Matter::MonitorEndpoint(name))?;
            }
        }
        if domain.smc {
            add_note(notes, domain.line, Matter::MonitorCalls(name))?;
        }
    }
    Ok(())
}

// Adds the interrupts, ports and registers.
fn add_devices<'a>(
    notes: &mut Vec<Note<'a>>,
    description: &'a Description,
) -> Result<(), AllocError> {
    for interrupt in &description.interrupts {
        add_note(notes, interrupt.line, Matter::Interrupt(interrupt.irq))?;
    }
    for port in &description.ports {
        let domain = domain_name(description, port.id.domain);
        add_note(notes, port.line, Matter::Ports(domain, port.id.number))?;
    }
    for processor in &description.processors {
        let domain = domain_name(description, processor.id.domain);
        let matter = Matter::Processor(domain, processor.id.number);
        add_note(notes, processor.line, matter)?;
    }
    Ok(())
}

// Adds the channels that join a domain to itself, and who may call a domain that has `pp`, and who can't.
fn add_channels<'a>(
    notes: &mut Vec<Note<'a>>,
    description: &'a Description,
) -> Result<(), AllocError> {
    for channel in &description.channels {
        if is_loop(channel) {
            let domain = domain_name(description, channel.first.id.domain);
            add_note(notes, channel.line, Matter::Loop(domain))?;
        } else {
            add_caller(notes, description, channel.first, channel.second)?;
            add_caller(notes, description, channel.second, channel.first)?;
        }
    }
    Ok(())
}

fn is_loop(channel: &Channel) -> bool {
    channel.first.id.domain == channel.second.id.domain
}

// Adds whether the domain of an end may call that of the other one, if the latter has `pp`.
fn add_caller<'a>(
    notes: &mut Vec<Note<'a>>,
    description: &'a Description,
    end: End,
    other: End,
) -> Result<(), AllocError> {
    let serves = match description.domains.get(other.id.domain) {
        Some(domain) => domain.serves.unwrap_or(false),
        None => false,
    };
    if !serves {
        return Ok(());
    }
    let caller = domain_name(description, end.id.domain);
    let server = domain_name(description, other.id.domain);
    if end.may_call {
        add_note(notes, end.line, Matter::Caller(caller, server))
    } else {
        add_note(notes, end.line, Matter::NoCaller(caller, server))
    }
}

fn domain_name(description: &Description, number: usize) -> &[u8] {
    match description.domains.get(number) {
        Some(domain) => &domain.name,
        None => b"",
    }
}
