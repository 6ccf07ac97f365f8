//! The list of a table's objects.
ghost use Rattle.std.specs.Prelude.{◌++◌, ◌≡◌, IfOk, OnOk, string_bytes};
ghost use Rattle.words.specs.Text.{line_text};
ghost use Rattle.{captext.specs.TableText.object_name, reptext.specs.Objects.{entry_words, objects_text}};

use base::ObjId;
use captext::{label_name, object_name};
use machine::Initial;
use std::alloc::{AllocError, Global};
use table::Table;

/// Returns the list of a table's objects. Each object has a line: its number, which scripts name,
/// its kind, its name and its label.
pub fn write_objects(alloc: Global, table: &Table) -> Result<Vec<u8>, AllocError>
    ensures { IfOk result (λ text. text.items ≡ objects_text table.now) }
{
    let mut text = String::new(alloc);
    write_entries(&mut text, table)?;
    Ok(text.into_bytes())
}

fn write_entries(text: &mut String, table: &Table) -> Result<(), AllocError>
    ensures { OnOk result (string_bytes text.new ≡ string_bytes text.old ++ objects_text table.now) }
{
    for (number, initial) in table.objects().iter().enumerate() {
        write_entry(text, table, ObjId(number as u64), initial)?;
    }
    Ok(())
}

fn write_entry(
    text: &mut String,
    table: &Table,
    id: ObjId,
    initial: &Initial,
) -> Result<(), AllocError>
    ensures { OnOk result (string_bytes text.new
        ≡ string_bytes text.old ++ line_text (entry_words table.now id.0 (object_name table.now id) initial.now)) }
{
    let number = id.0;
    let kind = initial.object.kind().name();
    let name = object_name(table, id);
    let label = label_name(table, initial.label);
    writeln!(text, "{number} {kind} {name} {label}")
}
