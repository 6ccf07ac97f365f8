//! The writing of a certificate.
ghost use Rattle.std.specs.Prelude.{◌++◌, ◌≡◌, IfErr, IfOk, Ok, OnOk, string_bytes};
ghost use Rattle.{base.specs.Refusals.out_of_memory, words.specs.Text.line_text};
ghost use Rattle.certificate.specs.{Certificate.{IsCertificateOf, certificate_text}, Line.line_words, Reading.read_certificate_of};

use crate::kinds::kinds_string;
use crate::line::{Certificate, Line};
use base::Refusal;
use captext::{SlotName, label_name, object_name};
use std::alloc::{AllocError, Global};
use table::Table;

/// Returns the text of a certificate, with the names that its slots, objects and labels have in the
/// table.
///
/// A text that was read as this certificate is this one.
///
/// # Errors
///
/// 40 where memory is refused.
pub fn write(alloc: Global, certificate: &Certificate, table: &Table) -> Result<Vec<u8>, Refusal>
    ensures text { IfOk result (λ text. text.items ≡ certificate_text table.now certificate.now) }
    ensures memory { IfErr result (λ refusal. refusal ≡ out_of_memory) }

    // What is written is read as the certificate, if it is one for the table.
    ensures read_back { IsCertificateOf table.now certificate.now
        → IfOk result (λ text. read_certificate_of table.now text.items ≡ Ok certificate.now) }
{
    table.keeps_rules();
    Ok(certificate_string(alloc, certificate.lines(), table)?.into_bytes())
}

#[tactic(auto, using(captext::proofs::Written::line_more))]
fn certificate_string(alloc: Global, lines: &[Line], table: &Table) -> Result<String, AllocError>
    ensures { IfOk result (λ text. string_bytes text ≡ certificate_text table.now lines.now) }
{
    let mut text = String::from_str(alloc, "confine-cert 1\n")?;
    for line in lines {
        write_line(alloc, &mut text, line, table)?;
    }
    text.push_str("end\n")?;
    Ok(text)
}

fn write_line(
    alloc: Global,
    text: &mut String,
    line: &Line,
    table: &Table,
) -> Result<(), AllocError>
    ensures { OnOk result (string_bytes text.new ≡ string_bytes text.old ++ line_text (line_words table.now line.now)) }
{
    match *line {
        Line::Cap {
            slot,
            from,
            kinds,
            to,
        } => {
            let slot = SlotName { table, slot };
            let from = label_name(table, from);
            let to = label_name(table, to);
            let kinds = kinds_string(alloc, kinds)?;
            writeln!(text, "cap {slot} {from} {kinds} {to}")
        }
        Line::Space { slot, from, to } => {
            let slot = SlotName { table, slot };
            let from = label_name(table, from);
            let to = label_name(table, to);
            writeln!(text, "space {slot} {from} {to}")
        }
        Line::Derive {
            parent,
            child,
            from,
            to,
        } => {
            let parent = SlotName {
                table,
                slot: parent,
            };
            let child = SlotName { table, slot: child };
            let from = label_name(table, from);
            let to = label_name(table, to);
            writeln!(text, "derive {parent} {child} {from} {to}")
        }
        Line::Runs {
            thread,
            context,
            from,
            to,
        } => {
            let thread = object_name(table, thread);
            let context = object_name(table, context);
            let from = label_name(table, from);
            let to = label_name(table, to);
            writeln!(text, "runs {thread} {context} {from} {to}")
        }
    }
}
