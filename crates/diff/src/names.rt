//! The labels of two systems, by their names.
ghost use Rattle.std.specs.{List.flat_map, Prelude.{◌++◌, ◌≡◌, IfOk, OnOk}};
ghost use Rattle.summary.specs.Labelled.{labels_of};
ghost use Rattle.diff.specs.{Names.{named_in_new, named_in_old, names_of, new_name, old_name, twin_of}, Text.name_text};

use base::Label;
use captext::label_name;
use std::alloc::{AllocError, Global};
use table::Table;

/// A label by its name: its number in each of two systems, where that has a label of this name.
#[derive(Clone, Copy)]
pub struct Named {
    pub old: Option<Label>,
    pub new: Option<Label>,
}

impl Named {
    /// Returns the name, where these are the tables of the two systems.
    pub fn name<'a>(&self, old: &'a Table, new: &'a Table) -> &'a str
        ensures { result.now ≡ name_text old.now new.now self.now }
    {
        match (self.old, self.new) {
            (_, Some(label)) => label_name(new, label),
            (Some(label), None) => label_name(old, label),
            (None, None) => "",
        }
    }
}

/// Returns the label of one table that has the name of a label of another.
pub(crate) fn twin_of(table: &Table, other: &Table, label: Label) -> Option<Label>
    ensures { result ≡ twin_of table.now other.now label }
{
    let name = table.label_name(label)?;
    other.label_named(name)
}

/// Returns a label of the new system by its name.
pub(crate) fn named_in_new(old: &Table, new: &Table, label: Label) -> Named
    ensures { result ≡ named_in_new old.now new.now label }
{
    Named {
        old: twin_of(new, old, label),
        new: Some(label),
    }
}

/// Returns a label of the old system by its name.
pub(crate) fn named_in_old(old: &Table, new: &Table, label: Label) -> Named
    ensures { result ≡ named_in_old old.now new.now label }
{
    Named {
        old: Some(label),
        new: twin_of(old, new, label),
    }
}

/// Returns the labels of two tables by their names: those of the new one in their order, and then those that only the
/// old one has.
pub(crate) fn names_of(alloc: Global, old: &Table, new: &Table) -> Result<Vec<Named>, AllocError>
    ensures { IfOk result (λ names. names.items ≡ names_of old.now new.now) }
{
    let mut names = Vec::new(alloc);
    push_new(&mut names, old, new)?;
    push_old(&mut names, old, new)?;
    Ok(names)
}

// Adds the labels of the new table.
#[tactic(auto, using(crate::proofs::Pieces::number_more))]
fn push_new(names: &mut Vec<Named>, old: &Table, new: &Table) -> Result<(), AllocError>
    ensures { OnOk result (names.new.items ≡ names.old.items ++ flat_map (new_name old.now new.now) (labels_of new.now)) }
{
    new.keeps_rules();
    for number in 0..new.label_count() {
        if let Some(label) = Label::new(number as u16) {
            names.push(named_in_new(old, new, label))?;
        }
    }
    Ok(())
}

// Adds the labels that only the old table has.
#[tactic(auto, using(crate::proofs::Pieces::number_more))]
fn push_old(names: &mut Vec<Named>, old: &Table, new: &Table) -> Result<(), AllocError>
    ensures { OnOk result (names.new.items ≡ names.old.items ++ flat_map (old_name old.now new.now) (labels_of old.now)) }
{
    old.keeps_rules();
    for number in 0..old.label_count() {
        if let Some(label) = Label::new(number as u16) {
            push_old_name(names, old, new, label)?;
        }
    }
    Ok(())
}

// Adds a label of the old table, if the new one has none of its name.
fn push_old_name(
    names: &mut Vec<Named>,
    old: &Table,
    new: &Table,
    label: Label,
) -> Result<(), AllocError>
    ensures { OnOk result (names.new.items ≡ names.old.items ++ old_name old.now new.now label) }
{
    let named = named_in_old(old, new, label);
    if named.new.is_none() {
        names.push(named)?;
    }
    Ok(())
}
