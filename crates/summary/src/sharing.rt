//! The sharing of memory: which labels have memory that others may write.
ghost use Rattle.std.specs.Prelude.{ℕ, ◌↔◌, ◌≡◌, IfOk, true};
ghost use Rattle.{base.specs.Labels.is_in, policy.specs.Policy.allows};
ghost use Rattle.summary.specs.{Labelled.has_memory, Sharing.{HasMemoryOf, IsShared, SharesMemory}};

use crate::labelled::with_memory;
use crate::sources::{join, sources_of};
use base::{Kind, Label, Labels};
use policy::Policy;
use std::alloc::{AllocError, Global};
use table::Table;

/// Returns for each label the other labels that may read or write its memory.
pub(crate) fn sharers(
    alloc: Global,
    table: &Table,
    policy: &Policy,
) -> Result<Vec<Labels>, AllocError>
    ensures { IfOk result (λ rows. IsShared table.now (allows policy.now) rows.items) }
{
    let memory = with_memory(table);
    let mut rows = Vec::with_capacity(alloc, Label::COUNT as usize)?;
    for number in 0..Label::COUNT {
        if let Some(region) = Label::new(number) {
            rows.push(sharers_of(table, policy, memory, region))?;
        }
    }
    Ok(rows)
}

fn sharers_of(table: &Table, policy: &Policy, memory: Labels, region: Label) -> Labels
    requires { (l : ℕ) → is_in memory l ≡ has_memory table.now l }
    ensures { (l : ℕ) → (is_in result l ≡ true) ↔ HasMemoryOf table.now (allows policy.now) region l }
{
    if !memory.has(region) {
        return Labels::none();
    }
    let readers = sources_of(policy, Kind::Read, region);
    let writers = sources_of(policy, Kind::Write, region);
    let holders = readers.union(writers);
    let itself = Labels::only(region);
    holders.difference(itself)
}

/// Returns the labels that have memory which the label may write.
pub(crate) fn shared_by(table: &Table, policy: &Policy, sharers: &[Labels], actor: Label) -> Labels
    requires { IsShared table.now (allows policy.now) sharers.now }
    ensures { (l : ℕ) → (is_in result l ≡ true) ↔ SharesMemory table.now (allows policy.now) actor l }
{
    policy.edges_rise();
    let written = policy.row(actor, Kind::Write);
    join(sharers, written)
}
