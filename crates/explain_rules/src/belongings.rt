//! The domains, virtual machines and regions that the objects of an imported table belong to.
use crate::naming::{domain_name, machine_name, region_name};
use importing::{Form, Piece};
use microkit::Description;
use std::fmt;

/// An object of the table of a description, by the element that it belongs to.
///
/// The words for a person are, for example: the notification of `plugin`.
#[derive(Clone, Copy)]
pub struct Belonging<'a> {
    pub(crate) description: &'a Description,
    pub(crate) piece: Piece,
}

impl fmt::Display for Belonging<'_> {
    fn fmt<W: fmt::Write>(&self, f: &mut fmt::Formatter<W>) -> fmt::Result {
        let Belonging { description, piece } = *self;
        match piece.form {
            Form::Space | Form::Main | Form::Bell | Form::Answer | Form::Entry | Form::Time => {
                let part = part_words(piece.form);
                let domain = domain_name(description, piece.number);
                write!(f, "{part} of `{domain}`")
            }
            Form::GuestSpace => {
                let machine = machine_name(description, piece.number);
                write!(f, "the CNode of the virtual machine `{machine}`")
            }
            Form::Processor => tell_processor(f, description, piece.number),
            Form::ProcessorTime => {
                f.write_str("the context of ")?;
                tell_processor(f, description, piece.number)
            }
            Form::Frame => {
                let region = region_name(description, piece.number);
                write!(f, "the region `{region}`")
            }
        }
    }
}

// The words for an object of a domain's own.
fn part_words(form: Form) -> &'static str {
    match form {
        Form::Main => "the thread",
        Form::Bell => "the notification",
        Form::Answer => "the reply object",
        Form::Entry => "the endpoint",
        Form::Time => "the context",
        _ => "the CNode",
    }
}

fn tell_processor<W: fmt::Write>(
    f: &mut fmt::Formatter<W>,
    description: &Description,
    number: usize,
) -> fmt::Result {
    match description.processors.get(number) {
        Some(processor) => {
            let id = processor.id.number;
            let machine = machine_name(description, processor.machine);
            write!(f, "virtual processor {id} of `{machine}`")
        }
        None => Ok(()),
    }
}
