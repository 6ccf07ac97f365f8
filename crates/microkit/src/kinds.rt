//! The kinds of elements of a description, by where they stand.
ghost use Rattle.std.specs.Prelude.{◌≡◌};
ghost use Rattle.microkit.specs.Kinds.{kind_in_channel, kind_in_document, kind_in_domain, kind_in_machine, kind_in_system, kind_within};

/// The kind of an element. The text as a whole is a kind too, within which the root stands.
#[derive(Clone, Copy)]
pub enum Kind {
    Document,
    System,
    Region,
    Domain,
    Child,
    Image,
    Map,
    Interrupt,
    Port,
    Variable,
    Machine,
    MachineMap,
    Processor,
    Channel,
    End,
}

/// Returns the kind of an element of this name within one of this kind, if it may stand there.
#[tactic(auto, unfolding(crate::specs::Kinds::kind_within))]
pub fn kind_within(outer: Kind, name: &[u8]) -> Option<Kind>
    ensures { result ≡ kind_within outer name.now }
{
    match outer {
        Kind::Document => kind_in_document(name),
        Kind::System => kind_in_system(name),
        Kind::Domain | Kind::Child => kind_in_domain(name),
        Kind::Machine => kind_in_machine(name),
        Kind::Channel => kind_in_channel(name),
        _ => None,
    }
}

#[tactic(auto, unfolding(crate::specs::Kinds::kind_in_document, crate::specs::Kinds::named_in))]
fn kind_in_document(name: &[u8]) -> Option<Kind>
    ensures { result ≡ kind_in_document name.now }
{
    if name == b"system".as_slice() {
        return Some(Kind::System);
    }
    None
}

#[tactic(auto, unfolding(crate::specs::Kinds::kind_in_system, crate::specs::Kinds::named_in))]
fn kind_in_system(name: &[u8]) -> Option<Kind>
    ensures { result ≡ kind_in_system name.now }
{
    if name == b"memory_region".as_slice() {
        return Some(Kind::Region);
    }
    if name == b"protection_domain".as_slice() {
        return Some(Kind::Domain);
    }
    if name == b"channel".as_slice() {
        return Some(Kind::Channel);
    }
    None
}

#[tactic(auto, unfolding(crate::specs::Kinds::kind_in_domain, crate::specs::Kinds::named_in))]
fn kind_in_domain(name: &[u8]) -> Option<Kind>
    ensures { result ≡ kind_in_domain name.now }
{
    if name == b"program_image".as_slice() {
        return Some(Kind::Image);
    }
    if name == b"map".as_slice() {
        return Some(Kind::Map);
    }
    if name == b"irq".as_slice() {
        return Some(Kind::Interrupt);
    }
    if name == b"ioport".as_slice() {
        return Some(Kind::Port);
    }
    if name == b"setvar".as_slice() {
        return Some(Kind::Variable);
    }
    if name == b"virtual_machine".as_slice() {
        return Some(Kind::Machine);
    }
    if name == b"protection_domain".as_slice() {
        return Some(Kind::Child);
    }
    None
}

#[tactic(auto, unfolding(crate::specs::Kinds::kind_in_machine, crate::specs::Kinds::named_in))]
fn kind_in_machine(name: &[u8]) -> Option<Kind>
    ensures { result ≡ kind_in_machine name.now }
{
    if name == b"vcpu".as_slice() {
        return Some(Kind::Processor);
    }
    if name == b"map".as_slice() {
        return Some(Kind::MachineMap);
    }
    None
}

#[tactic(auto, unfolding(crate::specs::Kinds::kind_in_channel, crate::specs::Kinds::named_in))]
fn kind_in_channel(name: &[u8]) -> Option<Kind>
    ensures { result ≡ kind_in_channel name.now }
{
    if name == b"end".as_slice() {
        return Some(Kind::End);
    }
    None
}
