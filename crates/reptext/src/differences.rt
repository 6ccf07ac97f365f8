//! The changes from one system to another, as JSON.
ghost use Rattle.std.specs.{List.list_any, Prelude.{◌≡◌, IfOk, map, string_bytes}};
ghost use Rattle.serde_json.specs.{Data.string, View.view};
ghost use Rattle.base.specs.Kinds.{kind_name};
ghost use Rattle.diff.specs.{Changes.{adds, sign_of}, Text.{cell_text, name_text}};
ghost use Rattle.reptext.specs.{Differences.{cell_data, change_data, changes_data, edge_data, role_data, standing_data, use_data}, Reports.line_of};

use crate::reports::line_of;
use base::Kind;
use diff::{Change, Marks, Named, Role, Sign, Standing, Verb, adds_authority, write_cell_marks};
use serde_json::{Value, json};
use std::alloc::{AllocError, Global};
use table::Table;

/// Returns the changes from one system to another, as one JSON object on a line.
pub fn changes_report(
    alloc: Global,
    old: &Table,
    new: &Table,
    changes: &[Change],
) -> Result<Vec<u8>, AllocError>
    ensures { IfOk result (λ line. line.items ≡ line_of (changes_data old.now new.now changes.now)) }
{
    let value = changes_value(alloc, old, new, changes)?;
    line_of(alloc, &value)
}

fn changes_value(
    alloc: Global,
    old: &Table,
    new: &Table,
    changes: &[Change],
) -> Result<Value, AllocError>
    ensures { IfOk result (λ value. view value ≡ changes_data old.now new.now changes.now) }
{
    json!(in alloc; {
        "adds": adds_authority(changes),
        "changes": Value::Array(values_of(alloc, old, new, changes)?)
    })
}

fn values_of(
    alloc: Global,
    old: &Table,
    new: &Table,
    changes: &[Change],
) -> Result<Vec<Value>, AllocError>
    ensures { IfOk result (λ values. map view values.items ≡ map (change_data old.now new.now) changes.now) }
{
    let mut values = Vec::with_capacity(alloc, changes.len())?;
    for change in changes {
        values.push(change_value(alloc, old, new, change)?)?;
    }
    Ok(values)
}

fn change_value(
    alloc: Global,
    old: &Table,
    new: &Table,
    change: &Change,
) -> Result<Value, AllocError>
    ensures { IfOk result (λ value. view value ≡ change_data old.now new.now change.now) }
{
    match change {
        Change::Standing(named, one, other) => standing_value(
            alloc,
            change.sign(),
            named.name(old, new),
            *one,
            *other,
        ),
        Change::Cell(from, to, one, other) => cell_value(
            alloc,
            change.sign(),
            from.name(old, new),
            to.name(old, new),
            *one,
            *other,
        ),
        Change::Use(sign, from, verb, to) => use_value(
            alloc,
            *sign,
            from.name(old, new),
            *verb,
            to.name(old, new),
        ),
        Change::Role(sign, role, named) => role_value(alloc, *sign, *role, named.name(old, new)),
        Change::Edge(sign, from, kind, to) => edge_value(
            alloc,
            *sign,
            from.name(old, new),
            *kind,
            to.name(old, new),
        ),
    }
}

fn standing_value(
    alloc: Global,
    sign: Sign,
    name: &str,
    old: Standing,
    new: Standing,
) -> Result<Value, AllocError>
    ensures { IfOk result (λ value. view value ≡ standing_data sign name.now old new) }
{
    json!(in alloc; {"label": name, "new": new.as_str(), "old": old.as_str(), "sign": sign.as_str()})
}

fn cell_value(
    alloc: Global,
    sign: Sign,
    from: &str,
    to: &str,
    old: Marks,
    new: Marks,
) -> Result<Value, AllocError>
    ensures { IfOk result (λ value. view value ≡ cell_data sign from.now to.now old new) }
{
    json!(in alloc; {
        "cell": [from, to],
        "new": marks_value(alloc, new)?,
        "old": marks_value(alloc, old)?,
        "sign": sign.as_str()
    })
}

fn use_value(
    alloc: Global,
    sign: Sign,
    from: &str,
    verb: Verb,
    to: &str,
) -> Result<Value, AllocError>
    ensures { IfOk result (λ value. view value ≡ use_data sign from.now verb to.now) }
{
    json!(in alloc; {"sign": sign.as_str(), "use": [from, verb.as_str(), to]})
}

fn role_value(alloc: Global, sign: Sign, role: Role, name: &str) -> Result<Value, AllocError>
    ensures { IfOk result (λ value. view value ≡ role_data sign role name.now) }
{
    json!(in alloc; {"role": [role.as_str(), name], "sign": sign.as_str()})
}

fn edge_value(
    alloc: Global,
    sign: Sign,
    from: &str,
    kind: Kind,
    to: &str,
) -> Result<Value, AllocError>
    ensures { IfOk result (λ value. view value ≡ edge_data sign from.now kind to.now) }
{
    json!(in alloc; {"edge": [from, kind.name(), to], "sign": sign.as_str()})
}

// The marks of a cell, as a value.
fn marks_value(alloc: Global, marks: Marks) -> Result<Value, AllocError>
    ensures { IfOk result (λ value. view value ≡ string (cell_text marks)) }
{
    let mut text = String::new(alloc);
    write_cell_marks(&mut text, marks)?;
    Ok(Value::String(text))
}
