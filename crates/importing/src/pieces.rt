//! Pieces: the objects that a description becomes, and the capabilities that their holders have.
ghost use Rattle.std.specs.{List.{list_any, range_with_len}, Prelude.{◌++◌, ◌==◌, ◌≡◌, IfOk, filter, length, map}};
ghost use Rattle.microkit.specs.{Description.{Domain as DomainOf, Machine as MachineOf}, View.{description_of, domain_of, machine_of}};
ghost use Rattle.importing.specs.Pieces.{each, form_code, has_children, has_guest, has_parent, holders_of, is_called};
ghost use Rattle.importing.specs.Pieces.{is_called_by, is_mapped, kept_of, messages_of, pieces_of, same_piece, those};

use machine::Detail;
use microkit::{Channel, Description, Domain, Machine, Map};
use std::alloc::{AllocError, Global};

/// Which rights capabilities have.
#[derive(Clone, Copy)]
pub enum Minting {
    /// The rights that the description needs.
    Least,
    /// Every right of the kind.
    All,
}

/// The purpose of an object.
#[derive(Clone, Copy)]
pub enum Form {
    /// The CNode of a domain.
    Space,
    /// The CNode of a virtual machine.
    GuestSpace,
    /// The thread of a domain.
    Main,
    /// The thread of a virtual processor.
    Processor,
    /// The notification of a domain.
    Bell,
    /// The reply object of a domain.
    Answer,
    /// The endpoint of a domain.
    Entry,
    /// The context of a domain.
    Time,
    /// The context of a virtual processor.
    ProcessorTime,
    /// The frame that stands for a region.
    Frame,
}

impl Form {
    // The place of the form among the objects, from 0.
    fn code(self) -> u64
        ensures { result ≡ form_code self }
    {
        match self {
            Form::Space => 0,
            Form::GuestSpace => 1,
            Form::Main => 2,
            Form::Processor => 3,
            Form::Bell => 4,
            Form::Answer => 5,
            Form::Entry => 6,
            Form::Time => 7,
            Form::ProcessorTime => 8,
            Form::Frame => 9,
        }
    }
}

/// An object that a description becomes: what it is for, and the number of the domain, virtual
/// machine, virtual processor or region that it belongs to.
#[derive(Clone, Copy)]
pub struct Piece {
    pub form: Form,
    pub number: usize,
}

/// A capability that a CNode has.
#[derive(Clone, Copy)]
pub struct Grant {
    pub holder: Piece,
    pub index: u64,
    pub target: Piece,
    pub detail: Detail,
    /// The line of the element of the description that it comes from.
    pub line: u64,
}

/// Returns whether two pieces are the same.
pub(crate) fn same_piece(one: Piece, other: Piece) -> bool
    ensures { result ≡ same_piece one other }
{
    one.form.code() == other.form.code() && one.number == other.number
}

/// Returns the objects that a description becomes, in their order.
#[tactic(auto, unfolding(crate::specs::Pieces::pieces_of))]
pub(crate) fn pieces_of(alloc: Global, description: &Description) -> Result<Vec<Piece>, AllocError>
    ensures { IfOk result (λ pieces. pieces.items ≡ pieces_of (description_of description.now)) }
{
    let mut pieces = holders_of(alloc, description)?;
    let messages = messages_of(alloc, description)?;
    pieces.extend_from_slice(&messages)?;
    let kept = kept_of(alloc, description)?;
    pieces.extend_from_slice(&kept)?;
    Ok(pieces)
}

// The CNodes and threads.
#[tactic(auto, unfolding(crate::specs::Pieces::holders_of))]
fn holders_of(alloc: Global, description: &Description) -> Result<Vec<Piece>, AllocError>
    ensures { IfOk result (λ pieces. pieces.items ≡ holders_of (description_of description.now)) }
{
    let mut pieces = each(alloc, Form::Space, description.domains.len())?;
    let guests = each(alloc, Form::GuestSpace, description.machines.len())?;
    pieces.extend_from_slice(&guests)?;
    let threads = each(alloc, Form::Main, description.domains.len())?;
    pieces.extend_from_slice(&threads)?;
    let processors = each(alloc, Form::Processor, description.processors.len())?;
    pieces.extend_from_slice(&processors)?;
    Ok(pieces)
}

// The notifications, replies and endpoints. Each domain has a reply object, even if nobody calls it.
#[tactic(auto, unfolding(crate::specs::Pieces::messages_of))]
fn messages_of(alloc: Global, description: &Description) -> Result<Vec<Piece>, AllocError>
    ensures { IfOk result (λ pieces. pieces.items ≡ messages_of (description_of description.now)) }
{
    let mut pieces = each(alloc, Form::Bell, description.domains.len())?;
    let answers = each(alloc, Form::Answer, description.domains.len())?;
    pieces.extend_from_slice(&answers)?;
    let entries = entries_of(alloc, description)?;
    pieces.extend_from_slice(&entries)?;
    Ok(pieces)
}

// The contexts and frames.
#[tactic(auto, unfolding(crate::specs::Pieces::kept_of))]
fn kept_of(alloc: Global, description: &Description) -> Result<Vec<Piece>, AllocError>
    ensures { IfOk result (λ pieces. pieces.items ≡ kept_of (description_of description.now)) }
{
    let mut pieces = each(alloc, Form::Time, description.domains.len())?;
    let processors = each(alloc, Form::ProcessorTime, description.processors.len())?;
    pieces.extend_from_slice(&processors)?;
    let frames = frames_of(alloc, &description.maps, description.regions.len())?;
    pieces.extend_from_slice(&frames)?;
    Ok(pieces)
}

// A piece of this form for each number.
fn each(alloc: Global, form: Form, count: usize) -> Result<Vec<Piece>, AllocError>
    ensures { IfOk result (λ pieces. pieces.items ≡ each form count) }
{
    (0..count)
        .map(|number| Piece { form, number })
        .collect(alloc)
}

fn entries_of(alloc: Global, description: &Description) -> Result<Vec<Piece>, AllocError>
    ensures { IfOk result (λ pieces. pieces.items ≡ those Form.Entry
        (is_called (description_of description.now)) (length description.now.domains.items)) }
{
    (0..description.domains.len())
        .filter(|n| is_called(description, *n))
        .map(|n| Piece {
            form: Form::Entry,
            number: n,
        })
        .collect(alloc)
}

fn frames_of(alloc: Global, maps: &[Map], count: usize) -> Result<Vec<Piece>, AllocError>
    ensures { IfOk result (λ pieces. pieces.items ≡ those Form.Frame (is_mapped maps.now) count) }
{
    (0..count)
        .filter(|n| is_mapped(maps, *n))
        .map(|n| Piece {
            form: Form::Frame,
            number: n,
        })
        .collect(alloc)
}

/// Returns whether a domain is called, by another one or by a fault of a child or of a virtual machine.
#[tactic(auto, using(crate::proofs::Items::any_seen), unfolding(crate::specs::Pieces::is_called))]
pub fn is_called(description: &Description, domain: usize) -> bool
    ensures { result ≡ is_called (description_of description.now) domain }
{
    is_called_by(&description.channels, domain)
        || has_children(&description.domains, domain)
        || has_guest(&description.machines, domain)
}

fn is_called_by(channels: &[Channel], domain: usize) -> bool
    ensures { result ≡ is_called_by channels.now domain }
{
    channels.iter().any(|channel| {
        (channel.first.may_call && channel.second.id.domain == domain)
            || (channel.second.may_call && channel.first.id.domain == domain)
    })
}

fn has_children(domains: &[Domain], domain: usize) -> bool
    ensures { result ≡ list_any (λ one. has_parent domain (domain_of one)) domains.now }
{
    domains.iter().any(|one| has_parent(one, domain))
}

// Whether a domain is a child of another one.
fn has_parent(one: &Domain, domain: usize) -> bool
    ensures { result ≡ has_parent domain (domain_of one.now) }
{
    match one.parent {
        Some(id) => id.domain == domain,
        None => false,
    }
}

fn has_guest(machines: &[Machine], domain: usize) -> bool
    ensures { result ≡ list_any (λ one. (machine_of one).domain == domain) machines.now }
{
    machines.iter().any(|one| one.domain == domain)
}

fn is_mapped(maps: &[Map], region: usize) -> bool
    ensures { result ≡ is_mapped maps.now region }
{
    maps.iter().any(|map| map.region == region)
}
