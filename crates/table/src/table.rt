//! The type of finished capability tables, and what can be asked of a table.
ghost use Rattle.std.specs.{List.find, Option.option_copied, Prelude.{◌<◌, ◌≡◌, ◌≤◌, AllPairs, IfSome, length, slice_get}};
ghost use Rattle.machine.specs.{Authority.label_at, Layout.{bound_context, bound_thread, initial_cap}};
ghost use Rattle.machine.specs.{Layout.{initial_of, initial_parent, upgraded}, Machine.same_id};
ghost use Rattle.table.specs.{Names.{AreLabelsOf, label_named, object_named}, Rules.{IsLawful, kind_at}, Versions.version_number};
ghost use Rattle.base.specs.declared.label.TheConstants.Label as LabelLimits;

use crate::draft::Draft;
use crate::tree::{cap_in, parent_in};
use base::{Label, Labels, ObjId, SlotRef};
use machine::{Binding, Cap, Filled, Initial, ObjectKind, Pair, Version};
use std::marker::Model;

/// A capability table: what a system starts with.
///
/// A table is made from a [`Draft`] by [`Draft::into_table`].
#[derive(Drop)]
pub struct Table {
    draft: Draft,
}

impl Model for Table {
    ghost use Rattle.machine.specs.Layout.{Layout};
    ghost use Rattle.table.specs.Rules.{IsLawful};

    ghost Value = { Layout };

    ghost view = { λ t. t.draft };

    ghost invariant = { λ t. IsLawful t.draft };
}

impl Table {
    /// The table of a draft whose capabilities are marked.
    pub(crate) fn of(draft: Draft) -> Table
        requires { IsLawful draft }
        ensures { result ≡ draft }
    {
        Table { draft }
    }

    /// Returns the version, 1 or 2, with which its text begins.
    pub fn version(&self) -> u64
        ensures { result ≡ version_number self.now.version }
    {
        match self.draft.version() {
            Version::One => 1,
            Version::Two => 2,
        }
    }

    /// Turns the table into one of version 2, which may have more labels, and changes nothing else.
    ///
    /// The change takes no memory, and there is no way back.
    #[tactic(auto, using(crate::proofs::Upgraded::lawful_upgraded))]
    pub fn upgrade(&mut self)
        ensures { self.new ≡ upgraded self.old }
    {
        self.draft.upgrade();
    }

    /// Returns the number of labels, at most as many as the version has.
    pub fn label_count(&self) -> usize
        ensures count { result ≡ length self.now.labels }
        ensures limit { result ≤ LabelLimits.COUNT }
    {
        self.draft.label_count()
    }

    /// Returns the labels.
    pub fn labels(&self) -> Labels
        ensures { AreLabelsOf self.now result }
    {
        Labels::below(self.label_count())
    }

    /// Returns the label's name, if there is such a label.
    pub fn label_name(&self, label: Label) -> Option<&str>
        ensures { option_copied result ≡ slice_get self.now.labels label }
    {
        self.draft.label_name(label)
    }

    /// Returns the label of this name, if there is one.
    pub fn label_named(&self, name: &str) -> Option<Label>
        ensures label { result ≡ label_named self.now name.now }
        ensures within { IfSome result (λ label. label < length self.now.labels) }
    {
        self.draft.label_named(name)
    }

    /// Returns the number of objects, at most [`base::MAX_OBJECTS`].
    pub fn object_count(&self) -> usize
        ensures { result ≡ length self.now.objects }
    {
        self.draft.object_count()
    }

    /// Returns the object of this number, if there is one.
    pub fn object(&self, id: ObjId) -> Option<Initial>
        ensures { result ≡ initial_of self.now id }
    {
        self.draft.object(id)
    }

    /// Returns the kind of the object of this number, if there is one.
    pub fn kind(&self, id: ObjId) -> Option<ObjectKind>
        ensures { result ≡ kind_at self.now id }
    {
        self.draft.kind(id)
    }

    /// Returns the name of the object of this number, if there is one.
    pub fn object_name(&self, id: ObjId) -> Option<&str>
        ensures { option_copied result ≡ slice_get self.now.names id.0 }
    {
        self.draft.object_name(id)
    }

    /// Returns the object of this name, if there is one.
    pub fn object_named(&self, name: &str) -> Option<ObjId>
        ensures { result ≡ object_named self.now name.now }
    {
        self.draft.object_named(name)
    }

    /// Returns the objects by their numbers.
    pub fn objects(&self) -> &[Initial]
        ensures objects { result.now ≡ self.now.objects }
        ensures lawful { IsLawful self.now }
    {
        self.draft.objects()
    }

    /// Returns the label of the untyped memory that holds an address, if some does.
    pub fn label_at(&self, address: u64) -> Option<Label>
        ensures { result ≡ label_at self.now address }
    {
        self.draft.label_at(address)
    }

    /// Returns the filled slots, rising.
    pub fn caps(&self) -> &[Filled]
        ensures caps { result.now ≡ self.now.caps }
        ensures lawful { IsLawful self.now }
    {
        self.draft.caps()
    }

    /// A law about every table, with nothing to run: a table keeps the rules.
    pub fn keeps_rules(&self)
        ensures { IsLawful self.now }
    {
        // The type's invariant is known once a field is read.
        let _ = &self.draft;
    }

    /// Returns the capability in a slot, if the table fills the slot.
    #[tactic(auto, unfolding(machine::specs::Layout::initial_cap))]
    pub fn cap(&self, slot: SlotRef) -> Option<Cap>
        ensures { result ≡ initial_cap self.now slot }
    {
        cap_in(self.caps(), slot)
    }

    /// Returns the pairs of the derivation tree, rising by child.
    pub fn pairs(&self) -> &[Pair]
        ensures pairs { result.now ≡ self.now.pairs }
        ensures lawful { IsLawful self.now }
    {
        self.draft.pairs()
    }

    /// Returns the parent of the capability in a slot, in the derivation tree, if it has one.
    #[tactic(auto, unfolding(machine::specs::Layout::initial_parent))]
    pub fn parent(&self, slot: SlotRef) -> Option<SlotRef>
        ensures { result ≡ initial_parent self.now slot }
    {
        parent_in(self.pairs(), slot)
    }

    /// Returns the bound threads with their contexts, rising by thread.
    pub fn bindings(&self) -> &[Binding]
        ensures bindings { result.now ≡ self.now.bindings }
        ensures lawful { IsLawful self.now }
    {
        self.draft.bindings()
    }

    /// Returns the context that a thread is bound to, if it is bound.
    #[tactic(auto, unfolding(machine::specs::Layout::bound_context))]
    pub fn bound_context(&self, thread: ObjId) -> Option<ObjId>
        ensures { result ≡ bound_context self.now thread }
    {
        let binding = binding_of(self.bindings(), thread)?;
        Some(binding.context)
    }

    /// Returns the thread that a context is bound to, if it is bound.
    pub fn bound_thread(&self, context: ObjId) -> Option<ObjId>
        ensures { result ≡ bound_thread self.now context }
    {
        self.draft.bound_thread(context)
    }
}

/// The binding of a thread, in bindings that rise by thread.
fn binding_of(bindings: &[Binding], thread: ObjId) -> Option<Binding>
    requires { AllPairs (λ one other. one.thread.0 < other.thread.0) bindings.now }
    ensures { result ≡ find (λ binding. same_id binding.thread thread) bindings.now }
{
    match bindings.binary_search_by_key(&thread, |binding| binding.thread) {
        Ok(index) => Some(bindings[index]),
        Err(_) => None,
    }
}
