//! The labels that each label may act on, in the report of an acceptance.
ghost use Rattle.std.specs.{List.filter, Prelude.{[], ℕ, ◌++◌, ◌<◌, ◌↔◌, ◌∷◌, ◌≡◌, Bool, IfOk, OnOk, length, map, true}};
ghost use Rattle.{serde_json.specs.{Data.string, View.{members_view, view}}, base.specs.Labels.is_in};
ghost use Rattle.{policy.specs.Policy.allows, reptext.specs.Relations.{Decides, relates, relation_of}};
ghost use Rattle.captext.specs.PolicyText as policy_text;
ghost use Rattle.reptext.specs.Reports as reports;

use crate::places;
use base::{Label, Labels};
use captext::label_name;
use policy::Policy;
use serde_json::{Map, Value};
use std::alloc::{AllocError, Global};
use table::Table;

/// A relation of labels in the report of an acceptance.
#[derive(Clone, Copy)]
pub(crate) enum Relation {
    Cut,
    Full,
}

/// A relation, as an object: each label's name with the names of those that it is related to.
pub(crate) fn relation_value(
    alloc: Global,
    table: &Table,
    policy: &Policy,
    relation: Relation,
) -> Result<Value, AllocError>
    ensures { IfOk result (λ value. (test : ℕ → ℕ → Bool)
        × Decides table.now test (relates relation (allows policy.now))
        × (view value ≡ reports.relation_data table.now test)) }
{
    let sets = sets_of(alloc, table, policy, relation)?;
    sets_value(alloc, table, &sets)
}

/// For each label of the table, the labels that it is related to.
fn sets_of(
    alloc: Global,
    table: &Table,
    policy: &Policy,
    relation: Relation,
) -> Result<Vec<Labels>, AllocError>
    ensures count { IfOk result (λ sets. length sets.items ≡ length table.now.labels) }
    ensures sets { IfOk result (λ sets. Decides table.now
        (relation_of sets.items) (relates relation (allows policy.now))) }
{
    let mut sets = Vec::new(alloc);
    for number in 0..table.label_count() {
        if let Some(label) = Label::new(number as u16) {
            sets.push(related(policy, relation, label))?;
        }
    }
    Ok(sets)
}

fn related(policy: &Policy, relation: Relation, label: Label) -> Labels
    ensures { (other : ℕ) → (is_in result other ≡ true) ↔ relates relation (allows policy.now) label other }
{
    match relation {
        Relation::Cut => policy.cut_labels(label),
        Relation::Full => policy.full_labels(label),
    }
}

#[tactic(auto, using(crate::proofs::LabelLists::fold_more))]
fn sets_value(alloc: Global, table: &Table, sets: &[Labels]) -> Result<Value, AllocError>
    requires { length sets.now ≡ length table.now.labels }
    ensures { IfOk result (λ value. view value ≡ reports.relation_data table.now (relation_of sets.now)) }
{
    // The contract of `label_count` says that labels are few.
    let _few = table.label_count();
    let mut members = Map::new(alloc);
    for number in 0..sets.len() {
        if let Some(label) = Label::new(number as u16) {
            put_label(alloc, table, sets, label, &mut members)?;
        }
    }
    Ok(Value::Object(members))
}

/// Adds a label's member to those of other labels.
fn put_label(
    alloc: Global,
    table: &Table,
    sets: &[Labels],
    label: Label,
    members: &mut Map<String, Value>,
) -> Result<(), AllocError>
    requires { label < length sets.now }
    ensures { OnOk result (members_view members.new.entries
        ≡ reports.with_related table.now (relation_of sets.now) (members_view members.old.entries) label) }
{
    let name = places::label_name(alloc, table, label)?;
    let names = names_in(alloc, table, sets[usize::from(label.number())])?;
    members.insert(name, names)?;
    Ok(())
}

/// The names of the labels of a set, in the order of their numbers.
#[tactic(auto, using(crate::proofs::LabelLists::names_more))]
fn names_in(alloc: Global, table: &Table, set: Labels) -> Result<Value, AllocError>
    ensures { IfOk result (λ value. view value
        ≡ reports.names_data (map (policy_text.label_name table.now)
        (filter (is_in set) (reports.labels_of table.now)))) }
{
    let mut names = Vec::new(alloc);
    for number in 0..table.label_count() {
        if let Some(label) = Label::new(number as u16) {
            push_name(alloc, table, set, label, &mut names)?;
        }
    }
    Ok(Value::Array(names))
}

/// Adds a label's name, if the label is in the set.
#[tactic(auto, using(crate::proofs::LabelLists::one_passes, crate::proofs::LabelLists::one_fails))]
fn push_name(
    alloc: Global,
    table: &Table,
    set: Labels,
    label: Label,
    names: &mut Vec<Value>,
) -> Result<(), AllocError>
    ensures { OnOk result (map view names.new.items ≡ map view names.old.items
        ++ map string (map (policy_text.label_name table.now) (filter (is_in set) (label ∷ [])))) }
{
    if !set.has(label) {
        return Ok(());
    }
    names.push(Value::try_from_str(alloc, label_name(table, label))?)?;
    Ok(())
}
