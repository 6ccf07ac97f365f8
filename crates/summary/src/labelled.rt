//! The labels that have a thread in a table, and those that have memory.
ghost use Rattle.std.specs.Prelude.{ℕ, ◌≡◌, IfOk};
ghost use Rattle.{base.specs.Labels.is_in, summary.specs.Labelled.{has_memory, has_thread, is_memory, is_thread, others_of, programs_of}};

use base::{Label, Labels};
use machine::Object;
use std::alloc::{AllocError, Global};
use table::Table;

fn is_thread(object: &Object) -> bool
    ensures { result ≡ is_thread object.now }
{
    matches!(object, Object::Tcb(_))
}

fn is_memory(object: &Object) -> bool
    ensures { result ≡ is_memory object.now }
{
    matches!(object, Object::Frame(_) | Object::Untyped(_))
}

fn with_threads(table: &Table) -> Labels
    ensures { (label : ℕ) → is_in result label ≡ has_thread table.now label }
{
    let mut found = Labels::none();
    for initial in table.objects() {
        if is_thread(&initial.object) {
            found = found.union(Labels::only(initial.label));
        }
    }
    found
}

/// Returns the labels that have a frame in the table, or untyped memory, of which frames can be made.
pub(crate) fn with_memory(table: &Table) -> Labels
    ensures { (label : ℕ) → is_in result label ≡ has_memory table.now label }
{
    let mut found = Labels::none();
    for initial in table.objects() {
        if is_memory(&initial.object) {
            found = found.union(Labels::only(initial.label));
        }
    }
    found
}

/// Returns the labels with a thread in the table, rising.
pub fn programs(alloc: Global, table: &Table) -> Result<Vec<Label>, AllocError>
    ensures { IfOk result (λ labels. labels.items ≡ programs_of table.now) }
{
    table.keeps_rules();
    let threads = with_threads(table);
    let mut labels = Vec::new(alloc);
    for number in 0..table.label_count() {
        if let Some(label) = Label::new(number as u16) {
            if threads.has(label) {
                labels.push(label)?;
            }
        }
    }
    Ok(labels)
}

/// Returns the labels of the table without a thread in it, rising.
pub fn others(alloc: Global, table: &Table) -> Result<Vec<Label>, AllocError>
    ensures { IfOk result (λ labels. labels.items ≡ others_of table.now) }
{
    table.keeps_rules();
    let threads = with_threads(table);
    let mut labels = Vec::new(alloc);
    for number in 0..table.label_count() {
        if let Some(label) = Label::new(number as u16) {
            if !threads.has(label) {
                labels.push(label)?;
            }
        }
    }
    Ok(labels)
}
