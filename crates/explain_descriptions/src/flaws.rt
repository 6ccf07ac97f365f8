//! Sentences on an element that has a fault.
use crate::elements::Place;
use crate::others::{OtherLine, first_machine, overlapped};
use crate::rules::elements_in;
use base::MAX_PERIOD;
use forms::Shown;
use microkit::{Flaw, Form, Kind, MAX_ID, MAX_PRIORITY, Rule, rules_of};
use std::fmt;
use xml::Attribute;

/// The number of the last core.
pub(crate) const LAST_CORE: u64 = 15;

/// The limits of a table.
const LIMITS: &str =
    "256 labels, cores 0 to 15, times of 1 to 3600000000 microseconds, 4096 slots, or 2^48 bytes of memory";

/// The cause of a fault of an element.
#[derive(Clone, Copy)]
pub(crate) enum Cause {
    /// It is what the reader of descriptions finds.
    Flaw(Flaw),
    /// The number of its core is too large.
    Core,
    /// A time, by this attribute, is no number of microseconds within the limits.
    Time(&'static str),
    /// A time of its virtual machine, by this attribute, is no number of microseconds within the limits.
    MachineTime(&'static str),
    /// Its table passes a limit of tables.
    Table,
    /// The table passes such a limit at an element of its line; it isn't known at which.
    Several,
}

/// The sentence on an element.
#[derive(Clone, Copy)]
pub(crate) struct Said<'a, 't> {
    pub place: Place<'a, 't>,
    pub cause: Cause,
    /// The nearest name in place of one that isn't known.
    pub near: Option<&'a str>,
}

impl fmt::Display for Said<'_, '_> {
    fn fmt<W: fmt::Write>(&self, f: &mut fmt::Formatter<W>) -> fmt::Result {
        if let Cause::Several = self.cause {
            return write!(
                f,
                "an element of this line makes the table exceed a limit: {LIMITS}"
            );
        }
        let name = self.place.name();
        write!(f, "<{}", Shown { bytes: name })?;
        if let Some(attribute) = attribute_of(self.place, self.cause) {
            let name = Shown {
                bytes: attribute.name,
            };
            let value = Shown {
                bytes: &attribute.value,
            };
            write!(f, " {name}='{value}'")?;
        }
        f.write_str(">: ")?;
        match self.cause {
            Cause::Flaw(flaw) => tell_flaw(f, self.place, flaw, self.near),
            Cause::Core => write!(f, "cpu must be from 0 to {LAST_CORE}"),
            Cause::Time(name) => write!(f, "{name} must be 1 to {MAX_PERIOD} microseconds"),
            Cause::MachineTime(name) => tell_machine_time(f, self.place, name),
            Cause::Table | Cause::Several => write!(f, "its table exceeds a limit here: {LIMITS}"),
        }
    }
}

// The attribute with the fault.
fn attribute_of<'a, 't>(place: Place<'a, 't>, cause: Cause) -> Option<&'a Attribute<'t>> {
    match cause {
        Cause::Flaw(Flaw::Attribute(_, number)) => place.element()?.attributes.get(number),
        Cause::Flaw(Flaw::Missing(..)) => place.element()?.attributes.first(),
        Cause::Flaw(flaw) => place.attribute(attribute_name(place, flaw)?),
        Cause::Core => place.attribute("cpu"),
        Cause::Time(name) => place.attribute(name),
        Cause::MachineTime(_) => place.attribute("id"),
        Cause::Table if place.is_named("vcpu") => place.attribute("id"),
        Cause::Table => place.attribute("name"),
        Cause::Several => None,
    }
}

fn attribute_name(place: Place<'_, '_>, flaw: Flaw) -> Option<&'static str> {
    match flaw {
        Flaw::LargeId | Flaw::Id(_) => Some("id"),
        Flaw::LargePriority => Some("priority"),
        Flaw::NoRegion if place.is_named("map") => Some("mr"),
        Flaw::NoRegion => Some("region_paddr"),
        Flaw::NoDomain | Flaw::ThirdEnd => Some("pd"),
        Flaw::Name(_) | Flaw::NoImage | Flaw::SecondMachine(_) | Flaw::ManyDomains => Some("name"),
        Flaw::Interrupt(_) => Some("irq"),
        Flaw::Pages => Some("size"),
        Flaw::Address | Flaw::Beyond | Flaw::Overlap(_) => Some("phys_addr"),
        Flaw::Budget if place.value("budget").is_none() => Some("period"),
        Flaw::Budget => Some("budget"),
        Flaw::Mixed => Some("pp"),
        _ => None,
    }
}

/// Returns the name, of a region or domain, that an element gives and that is unknown.
pub(crate) fn unknown_name<'a>(place: Place<'a, '_>, flaw: Flaw) -> &'a [u8] {
    match attribute_name(place, flaw) {
        Some(attribute) => place.value(attribute).unwrap_or(b""),
        None => b"",
    }
}

/// Returns the rule of the attribute of this name for elements of a kind, if they have such an attribute.
pub(crate) fn rule_of(kind: Kind, name: &[u8]) -> Option<&'static Rule> {
    rules_of(kind).iter().find(|rule| rule.0.as_bytes() == name)
}

fn tell_flaw<W: fmt::Write>(
    f: &mut fmt::Formatter<W>,
    place: Place<'_, '_>,
    flaw: Flaw,
    near: Option<&str>,
) -> fmt::Result {
    match flaw {
        Flaw::Element(outer) => tell_element(f, place, outer, near),
        Flaw::Attribute(kind, number) => tell_attribute(f, place, kind, number, near),
        Flaw::Missing(kind, number) => match rules_of(kind).get(number) {
            Some(rule) => write!(f, "{} is missing", rule.0),
            None => Ok(()),
        },
        Flaw::LargeId => write!(f, "id must be from 0 to {MAX_ID}"),
        Flaw::LargePriority => write!(f, "priority must be from 0 to {MAX_PRIORITY}"),
        Flaw::NoRegion => tell_no_name(f, place, flaw, "memory region", near),
        Flaw::NoDomain => tell_no_name(f, place, flaw, "protection domain", near),
        Flaw::Name(line) => tell_same_name(f, place, line),
        Flaw::Id(line) => tell_same_id(f, place, line),
        Flaw::Interrupt(line) if line == place.line() => f.write_str(
            "another irq of this line has the same interrupt: remove one",
        ),
        Flaw::Interrupt(line) => write!(f, "line {line} has the same interrupt"),
        Flaw::SecondMachine(line) => tell_second(f, place, line),
        Flaw::Overlap(line) => tell_overlap(f, place, line),
        Flaw::Budget => tell_budget(f, place),
        Flaw::FewEnds => tell_few_ends(f, place),
        Flaw::Pages => tell_pages(f, place, "size", "size"),
        Flaw::Address => tell_pages(f, place, "phys_addr", "address"),
        Flaw::CallsItself => {
            let first = place.at(place.number.saturating_add(1));
            let domain = Shown {
                bytes: first.value("pd").unwrap_or(b""),
            };
            write!(f, "both ends are of `{domain}`: a domain can't call itself")
        }
        Flaw::CallsDown => tell_priorities(f, place),
        _ => f.write_str(plain(flaw)),
    }
}

// The time of the virtual machine of a virtual processor.
fn tell_machine_time<W: fmt::Write>(
    f: &mut fmt::Formatter<W>,
    processor: Place<'_, '_>,
    attribute: &str,
) -> fmt::Result {
    let machine = processor.outer().unwrap_or(processor);
    let name = Shown {
        bytes: machine.value("name").unwrap_or(b""),
    };
    let time = Shown {
        bytes: machine.value(attribute).unwrap_or(b""),
    };
    let line = machine.line();
    write!(
        f,
        "its virtual machine `{name}`, in line {line}, has {attribute} {time}: {attribute} must be 1 to {MAX_PERIOD} \
         microseconds"
    )
}

// Says which element has the same name.
fn tell_same_name<W: fmt::Write>(
    f: &mut fmt::Formatter<W>,
    place: Place<'_, '_>,
    line: u64,
) -> fmt::Result {
    if line != place.line() {
        return write!(f, "line {line} has the same name");
    }
    let kind = Shown {
        bytes: place.name(),
    };
    write!(
        f,
        "another {kind} of this line has the same name: rename one"
    )
}

// Says which element has the same id.
fn tell_same_id<W: fmt::Write>(
    f: &mut fmt::Formatter<W>,
    place: Place<'_, '_>,
    line: u64,
) -> fmt::Result {
    let domain = Shown {
        bytes: id_domain(place),
    };
    if line != place.line() {
        return write!(f, "line {line} has the same id in `{domain}`");
    }
    write!(
        f,
        "another element of this line has the same id in `{domain}`: change one of the two"
    )
}

// Says which virtual machine a domain has already.
fn tell_second<W: fmt::Write>(
    f: &mut fmt::Formatter<W>,
    machine: Place<'_, '_>,
    line: u64,
) -> fmt::Result {
    let own = machine.line();
    let first = first_machine(machine).unwrap_or(machine);
    let name = Shown {
        bytes: first.value("name").unwrap_or(b""),
    };
    let place = OtherLine { line, own };
    write!(
        f,
        "its domain already has the virtual machine `{name}`, {place}"
    )
}

// Says which region a region overlaps.
fn tell_overlap<W: fmt::Write>(
    f: &mut fmt::Formatter<W>,
    region: Place<'_, '_>,
    line: u64,
) -> fmt::Result {
    let own = region.line();
    let other = overlapped(region).unwrap_or(region);
    let name = Shown {
        bytes: other.value("name").unwrap_or(b""),
    };
    let place = OtherLine { line, own };
    write!(f, "this region overlaps the region `{name}`, {place}")
}

fn tell_budget<W: fmt::Write>(f: &mut fmt::Formatter<W>, place: Place<'_, '_>) -> fmt::Result {
    if place.value("budget").is_none() {
        return f.write_str(
            "its budget, by default 1000 microseconds, is more than its period: give a budget too",
        );
    }
    let period = Shown {
        bytes: place.value("period").unwrap_or(b""),
    };
    write!(
        f,
        "its budget is more than its period, {period}: lower the budget or raise the period"
    )
}

// Says which ends a channel lacks.
fn tell_few_ends<W: fmt::Write>(f: &mut fmt::Formatter<W>, channel: Place<'_, '_>) -> fmt::Result {
    let end = channel.at(channel.number.saturating_add(1));
    if !end.is_named("end") {
        return f.write_str("it has no end: a channel needs two");
    }
    let domain = Shown {
        bytes: end.value("pd").unwrap_or(b""),
    };
    write!(
        f,
        "it has one end, of `{domain}`: a channel needs two, so add the other one"
    )
}

// Says that an attribute isn't of whole pages.
fn tell_pages<W: fmt::Write>(
    f: &mut fmt::Formatter<W>,
    region: Place<'_, '_>,
    attribute: &str,
    what: &str,
) -> fmt::Result {
    let page = page_of(region);
    write!(
        f,
        "its {what} must be a multiple of its page size, {page:#x}"
    )?;
    tell_meant(f, meant_pages(region, attribute))
}

// Says that a name is unknown which an element gives.
fn tell_no_name<W: fmt::Write>(
    f: &mut fmt::Formatter<W>,
    place: Place<'_, '_>,
    flaw: Flaw,
    what: &str,
    near: Option<&str>,
) -> fmt::Result {
    let name = unknown_name(place, flaw);
    match attribute_name(place, flaw) {
        Some(attribute) if name.is_empty() => write!(f, "{attribute} is empty: name a {what}"),
        _ => tell_unknown(f, what, name, near),
    }
}

// Asks whether these digits lack 0x.
fn tell_meant<W: fmt::Write>(f: &mut fmt::Formatter<W>, meant: Option<&[u8]>) -> fmt::Result {
    match meant {
        Some(digits) => write!(f, ": meant 0x{}?", Shown { bytes: digits }),
        None => Ok(()),
    }
}

// Says that a name is unknown, and which one is meant.
fn tell_unknown<W: fmt::Write>(
    f: &mut fmt::Formatter<W>,
    what: &str,
    name: &[u8],
    near: Option<&str>,
) -> fmt::Result {
    write!(f, "there is no {what} `{}`", Shown { bytes: name })?;
    match near {
        Some(near) => write!(f, ": did you mean `{near}`?"),
        None => Ok(()),
    }
}

// Says which attributes there are, or which form a value must have.
fn tell_attribute<W: fmt::Write>(
    f: &mut fmt::Formatter<W>,
    place: Place<'_, '_>,
    kind: Kind,
    number: usize,
    near: Option<&str>,
) -> fmt::Result {
    let name = place.attribute_name(number);
    if let Some(rule) = rule_of(kind, name) {
        match highest(rule.0) {
            Some(highest) => write!(
                f,
                "{} must be a number from 0 to {highest}, in decimal, or in hexadecimal after 0x",
                rule.0
            )?,
            None => write!(f, "{} must be {}", rule.0, form_words(rule.1))?,
        }
        return tell_meant(f, meant_number(place, rule));
    }
    tell_unknown(f, "attribute", name, near)?;
    if near.is_some() {
        return Ok(());
    }
    let mut separator = ", but ";
    for rule in rules_of(kind) {
        write!(f, "{separator}{}", rule.0)?;
        separator = ", ";
    }
    Ok(())
}

// Says which elements may stand there, or which one is meant.
fn tell_element<W: fmt::Write>(
    f: &mut fmt::Formatter<W>,
    place: Place<'_, '_>,
    outer: Kind,
    near: Option<&str>,
) -> fmt::Result {
    let name = Shown {
        bytes: place.name(),
    };
    let Some(around) = place.outer() else {
        return f.write_str("the root must be system");
    };
    let around = Shown {
        bytes: around.name(),
    };
    if let Some(near) = near {
        return write!(f, "{around} can't contain `{name}`: did you mean `{near}`?");
    }
    let inner = elements_in(outer);
    if inner.is_empty() {
        return write!(f, "{around} can't contain other elements");
    }
    write!(f, "{around} can only contain ")?;
    let mut separator = "";
    for name in inner {
        write!(f, "{separator}{name}")?;
        separator = ", ";
    }
    Ok(())
}

// Says the priorities of the domains of a channel's ends.
fn tell_priorities<W: fmt::Write>(
    f: &mut fmt::Formatter<W>,
    channel: Place<'_, '_>,
) -> fmt::Result {
    let first = channel.at(channel.number.saturating_add(1));
    let second = channel.at(channel.number.saturating_add(2));
    let (caller, server) = match first.value("pp") {
        Some(b"true") => (first, second),
        _ => (second, first),
    };
    let (lower, higher) = (priority_of(caller), priority_of(server));
    let caller = Shown {
        bytes: caller.value("pd").unwrap_or(b""),
    };
    let server = Shown {
        bytes: server.value("pd").unwrap_or(b""),
    };
    write!(
        f,
        "`{caller}` has priority {lower}, and `{server}` has {higher}: an end with pp may only call a domain \
         of a higher priority"
    )
}

// The priority of the domain of an end.
fn priority_of(end: Place<'_, '_>) -> u64 {
    let name = end.value("pd");
    for number in 0..end.elements.len() {
        let other = end.at(number);
        if other.is_named("protection_domain") && other.value("name") == name {
            return other.number_in("priority").unwrap_or(0);
        }
    }
    0
}

// The name of the domain that knows an element by the element's id.
fn id_domain<'a>(place: Place<'a, '_>) -> &'a [u8] {
    let name = match place.name() {
        b"end" => place.value("pd"),
        _ => match place.domain() {
            Some(domain) => domain.value("name"),
            None => None,
        },
    };
    name.unwrap_or(b"")
}

// The digits of a decimal number that would be whole pages in hexadecimal.
fn meant_pages<'a>(region: Place<'a, '_>, attribute: &str) -> Option<&'a [u8]> {
    let digits = region.value(attribute)?;
    let meant = hexadecimal_of(digits)?;
    if is_allowed(region, attribute, meant) {
        Some(digits)
    } else {
        None
    }
}

// The digits of a value that isn't a number, but would be one with 0x before them.
fn meant_number<'a>(place: Place<'a, '_>, rule: &Rule) -> Option<&'a [u8]> {
    let value = place.value(rule.0)?;
    let digits = value.strip_prefix(b"0X").unwrap_or(value);
    let is_begun = value.first().is_some_and(|byte| byte.is_ascii_digit());
    if rule.1 == Form::Number && is_begun && is_allowed(place, rule.0, hexadecimal_of(digits)?) {
        Some(digits)
    } else {
        None
    }
}

// Whether an attribute of an element may be this number.
fn is_allowed(place: Place<'_, '_>, attribute: &str, number: u64) -> bool {
    match attribute {
        "size" | "phys_addr" if place.is_named("memory_region") => {
            let page = page_of(place);
            page != 0 && number % page == 0
        }
        "budget" | "period" => 1 <= number && number <= MAX_PERIOD,
        _ => match highest(attribute) {
            Some(highest) => number <= highest,
            None => true,
        },
    }
}

// The highest number that an attribute may be.
fn highest(attribute: &str) -> Option<u64> {
    match attribute {
        "id" => Some(MAX_ID),
        "priority" => Some(MAX_PRIORITY),
        "cpu" => Some(LAST_CORE),
        _ => None,
    }
}

// The size of the pages of a region.
fn page_of(region: Place<'_, '_>) -> u64 {
    region.number_in("page_size").unwrap_or(4096)
}

// The number that these digits spell in hexadecimal.
fn hexadecimal_of(digits: &[u8]) -> Option<u64> {
    let mut number: Option<u64> = None;
    for byte in digits {
        if *byte != b'_' {
            let digit = (*byte as char).to_digit(16)?;
            let shifted = number.unwrap_or(0).checked_mul(16)?;
            number = Some(shifted.checked_add(u64::from(digit))?);
        }
    }
    number
}

fn form_words(form: Form) -> &'static str {
    match form {
        Form::Text => "a text",
        Form::Name => "a text that isn't empty",
        Form::Number => "a number below 2^64, in decimal, or in hexadecimal after 0x",
        Form::Flag => "true or false",
        Form::PageSize => "0x1000 or 0x200000",
        Form::Rights => "some of r, w and x, but not w without r",
        Form::Trigger => "level or edge",
    }
}

// A sentence without words of its own.
fn plain(flaw: Flaw) -> &'static str {
    match flaw {
        Flaw::Beyond => "its address plus its size must be below 2^64",
        Flaw::Mixed => "a domain has pp too, and there it means the opposite",
        Flaw::ThirdEnd => {
            "this is the third end of its channel, which can only have two: remove it, or give it a channel of its own"
        }
        Flaw::NoImage => "it has no program_image: add `<program_image path=\"..\" />` in it",
        Flaw::BothCall => "only one end may have pp",
        _ => "there are more than 63 protection domains",
    }
}
