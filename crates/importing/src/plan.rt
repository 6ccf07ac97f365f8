//! Names, labels and lines of objects, by the description.
ghost use Rattle.std.specs.{List.position, Prelude.{◌==◌, ◌≡◌, IfOk, map, string_bytes}};
ghost use Rattle.microkit.specs.{declared.labels.Subject.Subject, LabelView.bytes_of, Labels.{line_of, may_call}};
ghost use Rattle.microkit.specs.{Names.{object_name, part_word}, View.{description_of, domain_of, machine_of, region_of}};
ghost use Rattle.importing.specs.Plan.{domain_line, label_of, machine_number, part_of, piece_line, processor_id};
ghost use Rattle.importing.specs.Plan.{processor_line, same_subject, subject_code, subject_number, subject_of, time_of};

use crate::pieces::{Form, Piece};
use microkit::{Channel, Description, Part, Subject};
use std::alloc::{AllocError, Global};

/// Returns the subject whose label a piece has.
#[tactic(auto, unfolding(crate::specs::Plan::subject_of))]
pub(crate) fn subject_of(description: &Description, piece: Piece) -> Subject
    ensures { result ≡ subject_of (description_of description.now) piece }
{
    let number = piece.number;
    match piece.form {
        Form::Space | Form::Main | Form::Bell | Form::Answer | Form::Entry => {
            Subject::Domain(number)
        }
        Form::GuestSpace => Subject::Machine(number),
        Form::Processor | Form::ProcessorTime => {
            Subject::Machine(machine_number(description, number))
        }
        Form::Time => time_of(&description.channels, number),
        Form::Frame => Subject::Region(number),
    }
}

// The time of a domain that may call another has a label of its own.
fn time_of(channels: &[Channel], domain: usize) -> Subject
    ensures { result ≡ time_of channels.now domain }
{
    if may_call(channels, domain) {
        Subject::Time(domain)
    } else {
        Subject::Domain(domain)
    }
}

fn may_call(channels: &[Channel], domain: usize) -> bool
    ensures { result ≡ may_call channels.now domain }
{
    channels.iter().any(|channel| {
        (channel.first.may_call && channel.first.id.domain == domain)
            || (channel.second.may_call && channel.second.id.domain == domain)
    })
}

/// Returns the virtual machine of a virtual processor.
pub(crate) fn machine_number(description: &Description, processor: usize) -> usize
    ensures { result ≡ machine_number (description_of description.now) processor }
{
    match description.processors.get(processor) {
        Some(processor) => processor.machine,
        None => 0,
    }
}

fn processor_id(description: &Description, processor: usize) -> u64
    ensures { result ≡ processor_id (description_of description.now) processor }
{
    match description.processors.get(processor) {
        Some(processor) => processor.id.number,
        None => 0,
    }
}

/// Returns the part of a piece in its label.
#[tactic(auto, unfolding(crate::specs::Plan::part_of))]
pub(crate) fn part_of(description: &Description, piece: Piece) -> Part
    ensures { result ≡ part_of (description_of description.now) piece }
{
    match piece.form {
        Form::Space | Form::GuestSpace => Part::Space,
        Form::Main => Part::Main,
        Form::Processor => Part::Processor(processor_id(description, piece.number)),
        Form::Bell => Part::Bell,
        Form::Answer => Part::Answer,
        Form::Entry => Part::Entry,
        Form::Time => Part::Time(0),
        Form::ProcessorTime => Part::Time(processor_id(description, piece.number)),
        Form::Frame => Part::Frame,
    }
}

/// Returns the name of an object.
pub(crate) fn object_name(alloc: Global, label: &[u8], part: Part) -> Result<Vec<u8>, AllocError>
    ensures { IfOk result (λ name. name.items ≡ object_name label.now part) }
{
    let word = part_word(alloc, part)?;
    let mut name = Vec::from_slice(alloc, label)?;
    name.extend_from_slice(b"_")?;
    name.extend_from_slice(word.as_bytes())?;
    Ok(name)
}

fn part_word(alloc: Global, part: Part) -> Result<String, AllocError>
    ensures { IfOk result (λ word. string_bytes word ≡ part_word part) }
{
    match part {
        Part::Space => String::from_str(alloc, "space"),
        Part::Main => String::from_str(alloc, "main"),
        Part::Bell => String::from_str(alloc, "bell"),
        Part::Entry => String::from_str(alloc, "entry"),
        Part::Answer => String::from_str(alloc, "answer"),
        Part::Frame => String::from_str(alloc, "frame"),
        Part::Processor(n) => format!(in alloc; "vcpu{n}"),
        Part::Time(n) => format!(in alloc; "time{n}"),
    }
}

/// Returns the number of a subject's label, if it has one.
pub(crate) fn label_of(subjects: &[Subject], subject: Subject) -> Option<usize>
    ensures { result ≡ label_of subjects.now subject }
{
    subjects
        .iter()
        .position(|other| same_subject(*other, subject))
}

/// Whether two subjects are the same.
pub(crate) fn same_subject(one: Subject, other: Subject) -> bool
    ensures { result ≡ same_subject one other }
{
    subject_code(one) == subject_code(other) && subject_number(one) == subject_number(other)
}

fn subject_code(subject: Subject) -> u64
    ensures { result ≡ subject_code subject }
{
    match subject {
        Subject::Domain(_) => 0,
        Subject::Machine(_) => 1,
        Subject::Time(_) => 2,
        Subject::Region(_) => 3,
    }
}

fn subject_number(subject: Subject) -> usize
    ensures { result ≡ subject_number subject }
{
    match subject {
        Subject::Domain(n) | Subject::Machine(n) | Subject::Time(n) | Subject::Region(n) => n,
    }
}

/// Returns the line of a domain.
pub(crate) fn domain_line(description: &Description, domain: usize) -> u64
    ensures { result ≡ domain_line (description_of description.now) domain }
{
    line_of(description, Subject::Domain(domain))
}

/// Returns the line of the element that a piece belongs to.
///
/// It is the line of a domain, a virtual machine, a virtual processor or a region.
#[tactic(auto, unfolding(crate::specs::Plan::piece_line))]
pub fn piece_line(description: &Description, piece: Piece) -> u64
    ensures { result ≡ piece_line (description_of description.now) piece }
{
    match piece.form {
        Form::Processor | Form::ProcessorTime => processor_line(description, piece.number),
        _ => line_of(description, subject_of(description, piece)),
    }
}

/// Returns the line of a virtual processor.
pub(crate) fn processor_line(description: &Description, processor: usize) -> u64
    ensures { result ≡ processor_line (description_of description.now) processor }
{
    match description.processors.get(processor) {
        Some(processor) => processor.line,
        None => 0,
    }
}

/// Returns the line of a subject.
#[tactic(auto, using(crate::proofs::Items::get_seen), unfolding(microkit::specs::Labels::line_of))]
pub(crate) fn line_of(description: &Description, subject: Subject) -> u64
    ensures { result ≡ line_of (description_of description.now) subject }
{
    match subject {
        Subject::Domain(n) | Subject::Time(n) => match description.domains.get(n) {
            Some(domain) => domain.line,
            None => 0,
        },
        Subject::Machine(n) => match description.machines.get(n) {
            Some(machine) => machine.line,
            None => 0,
        },
        Subject::Region(n) => match description.regions.get(n) {
            Some(region) => region.line,
            None => 0,
        },
    }
}
