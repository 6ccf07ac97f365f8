//! A table that is built up from a description: its labels and objects.
ghost use Rattle.std.specs.{List.{AllByRecursion, AllPairs}, Option.option_copied};
ghost use Rattle.std.specs.Prelude.{◌&&◌, ◌<◌, ◌≡◌, ◌≢◌, ◌≤◌, IfOk, OnOk, false, is_some, length, nat_le, true};
ghost use Rattle.{base.specs.declared.limits.TheConstants.ADDRESS_END, words.specs.{Name.is_name, Reading.Reads}};
ghost use Rattle.{microkit.specs.{LabelView.bytes_of, Names.IsLabelName}, machine.specs.{Layout.empty_layout, Objects.{end_of, size_bits, size_of}}};
ghost use Rattle.table.specs.{Building.{AdmitsLabel, has_room, with_label}, Names.object_named};
ghost use Rattle.importing.specs.Built.{labelled, object_added, object_placed, piece_added, piece_label, piece_name};
ghost use Rattle.importing.specs.Built.{piece_subject, pieces_added, started, version_for, with_object};
ghost use Rattle.importing.specs.{Groups.{labels_at, name_at}, Objects.{FitsFrom, IsSmall}, PlanView.plan_of};
ghost use Rattle.base.specs.declared.label.TheConstants.Label as LabelLimits;

use crate::groups::leader_of;
use crate::objects::object_of;
use crate::pieces::{Grant, Piece};
use crate::plan::{label_of, object_name, part_of, piece_line, subject_of};
use base::Label;
use machine::{Initial, Object, Version};
use microkit::{Description, Map, Subject};
use std::alloc::{AllocError, Global};
use std::marker::Model;
use table::{Draft, is_addressable};
use words::{Fault, Wrong, name_of};

/// What a table is built up from.
#[derive(Drop)]
pub(crate) struct Plan<'a> {
    pub description: &'a Description,
    /// The parts that have a label or share one; their objects are called by them.
    pub subjects: Vec<Subject>,
    pub names: Vec<Vec<u8>>,
    /// The maps of each region, if some share a label.
    pub uses: Vec<Vec<Map>>,
    /// The parts that have a label of their own, by their places among the subjects.
    pub places: Vec<usize>,
    pub labelled: Vec<Subject>,
    pub grants: Vec<Grant>,
}

/// A table of which the labels and some objects were added, and the first address that is free.
#[derive(Drop)]
pub(crate) struct Builder {
    draft: Draft,
    next: u64,
}

impl Model for Builder {
    ghost use Rattle.std.specs.Prelude.{◌≤◌};
    ghost use Rattle.base.specs.declared.limits.TheConstants.{ADDRESS_END};
    ghost use Rattle.importing.specs.Built.{Built, EndBelow};

    ghost Value = { Built };

    ghost view = { λ b. record { table = b.draft; next = b.next } };

    ghost invariant = { λ b. EndBelow b.draft.objects b.next × (b.next ≤ ADDRESS_END) };
}

impl Builder {
    /// Returns a table whose labels are those of a plan, without objects.
    #[tactic(auto)]
    pub(crate) fn new(alloc: Global, plan: &Plan<'_>) -> Result<Builder, AllocError>
        requires names { AllByRecursion IsLabelName
            (labels_at (bytes_of plan.now.names.items) plan.now.places.items) }
        requires distinct { AllPairs (λ one other. one ≢ other)
            (labels_at (bytes_of plan.now.names.items) plan.now.places.items) }
        requires few { length plan.now.places.items ≤ LabelLimits.COUNT }
        ensures { IfOk result (λ builder. builder
            ≡ started (labels_at (bytes_of plan.now.names.items) plan.now.places.items)) }
    {
        let mut draft = Draft::new(alloc, version_for(plan.places.len()));
        match add_labels(&mut draft, plan) {
            Ok(()) => Ok(Builder {
                draft,
                next: 0x1000,
            }),
            Err(error) => {
                drop(draft);
                Err(error)
            }
        }
    }

    /// Returns the table so far.
    pub(crate) fn into_draft(self) -> Draft
        ensures { result ≡ self.table }
    {
        self.draft
    }

    /// Adds the objects of pieces.
    ///
    /// # Errors
    ///
    /// The first fault of a piece; 40 if memory is refused.
    #[tactic(auto, using(crate::proofs::Steps::none_left, crate::proofs::Steps::one_added, crate::proofs::Steps::one_refused))]
    pub(crate) fn add_pieces(
        &mut self,
        alloc: Global,
        plan: &Plan<'_>,
        pieces: &[Piece],
    ) -> Result<(), Fault>
        ensures { Reads (λ _. self.new) result (pieces_added (plan_of plan.now) pieces.now self.old) }
    {
        for piece in pieces {
            self.add_piece(alloc, plan, *piece)?;
        }
        Ok(())
    }

    #[tactic(auto, unfolding(crate::specs::Built::piece_added, words::specs::Reading::bind))]
    fn add_piece(&mut self, alloc: Global, plan: &Plan<'_>, piece: Piece) -> Result<(), Fault>
        ensures { Reads (λ _. self.new) result (piece_added (plan_of plan.now) piece self.old) }
    {
        let line = piece_line(plan.description, piece);
        let Some(label) = piece_label(plan, piece) else {
            return Err(Fault::at(Wrong::UnknownName, line));
        };
        let name = piece_name(alloc, plan, piece)?;
        let next = self.next;
        match object_of(plan.description, &plan.grants, piece, next) {
            Some(object) => self.add_object(line, &name, label, object),
            None => Err(Fault::at(Wrong::Limit, line)),
        }
    }

    #[tactic(auto, unfolding(crate::specs::Built::object_added, words::specs::Reading::bind))]
    fn add_object(
        &mut self,
        line: u64,
        word: &[u8],
        label: usize,
        object: Object,
    ) -> Result<(), Fault>
        requires { FitsFrom self.old.next object }
        ensures { Reads (λ _. self.new) result (object_added line word.now label object self.old) }
    {
        match name_of(word) {
            Some(name) => self.place(line, name, label, object),
            None => Err(Fault::at(Wrong::Limit, line)),
        }
    }

    #[tactic(auto, unfolding(crate::specs::Built::object_placed))]
    fn place(&mut self, line: u64, name: &str, label: usize, object: Object) -> Result<(), Fault>
        requires spelled { is_name name.now ≡ true }
        requires placed { FitsFrom self.old.next object }
        ensures { Reads (λ _. self.new) result (object_placed line name.now label object self.old) }
    {
        if self.draft.object_named(name).is_some() {
            return Err(Fault::at(Wrong::Double, line));
        }
        if label >= self.draft.label_count() {
            return Err(Fault::at(Wrong::UnknownName, line));
        }
        if !is_within(&self.draft, &object) {
            return Err(Fault::at(Wrong::Limit, line));
        }
        let Some(label) = Label::new(label as u16) else {
            return Err(Fault::at(Wrong::UnknownName, line));
        };
        self.put(name, label, object)?;
        Ok(())
    }

    #[tactic(auto, using(crate::proofs::Ends::admits, crate::proofs::Ends::ends_more))]
    fn put(&mut self, name: &str, label: Label, object: Object) -> Result<(), AllocError>
        requires spelled { is_name name.now ≡ true }
        requires fresh { is_some (object_named self.old.table name.now) ≡ false }
        requires label { label < length self.old.table.labels }
        requires placed { FitsFrom self.old.next object }
        requires room { has_room self.old.table object ≡ true }
        requires end { end_of object ≤ ADDRESS_END }
        ensures { OnOk result (self.new ≡ with_object self.old name.now (record { label = label; object = object })) }
    {
        let end = end_of(&object);
        self.draft.add_object(name, Initial { label, object })?;
        self.next = end;
        Ok(())
    }
}

// Whether one more object is within the limits, and ends within the addresses that there are.
fn is_within(draft: &Draft, object: &Object) -> bool
    ensures { result ≡ (has_room draft.now object.now && nat_le (end_of object.now) ADDRESS_END) }
{
    draft.has_room(object) && is_addressable(object)
}

// Adds the labels of a plan to a table that has none.
fn add_labels(draft: &mut Draft, plan: &Plan<'_>) -> Result<(), AllocError>
    requires names { AllByRecursion IsLabelName
        (labels_at (bytes_of plan.now.names.items) plan.now.places.items) }
    requires distinct { AllPairs (λ one other. one ≢ other)
        (labels_at (bytes_of plan.now.names.items) plan.now.places.items) }
    requires few { length plan.now.places.items ≤ LabelLimits.COUNT }
    requires empty { draft.old ≡ empty_layout (version_for (length plan.now.places.items)) }
    ensures { OnOk result (draft.new
        ≡ labelled (labels_at (bytes_of plan.now.names.items) plan.now.places.items)) }
{
    for place in &plan.places {
        add_name(draft, place_name(plan, *place))?;
    }
    Ok(())
}

#[tactic(auto, unfolding(words::specs::Name::name_of))]
fn add_name(draft: &mut Draft, name: &[u8]) -> Result<(), AllocError>
    requires { AdmitsLabel draft.old name.now }
    ensures { OnOk result (draft.new ≡ with_label draft.old name.now) }
{
    match name_of(name) {
        Some(text) => draft.add_label(text),
        None => Ok(()),
    }
}

fn version_for(labels: usize) -> Version
    ensures { result ≡ version_for labels }
{
    if labels <= 64 {
        Version::One
    } else {
        Version::Two
    }
}

// The number of a piece's label.
fn piece_label(plan: &Plan<'_>, piece: Piece) -> Option<usize>
    ensures { result ≡ piece_label (plan_of plan.now) piece }
{
    let subject = subject_of(plan.description, piece);
    let leader = leader_of(&plan.uses, subject);
    label_of(&plan.labelled, leader)
}

// The name of a piece's object, by its own subject.
fn piece_name(alloc: Global, plan: &Plan<'_>, piece: Piece) -> Result<Vec<u8>, AllocError>
    ensures { IfOk result (λ name. name.items ≡ piece_name (plan_of plan.now) piece) }
{
    let part = part_of(plan.description, piece);
    object_name(alloc, piece_subject(plan, piece), part)
}

fn piece_subject<'a>(plan: &'a Plan<'_>, piece: Piece) -> &'a [u8]
    ensures { result.now ≡ piece_subject (plan_of plan.now) piece }
{
    let subject = subject_of(plan.description, piece);
    match label_of(&plan.subjects, subject) {
        Some(place) => name_at(&plan.names, place),
        None => name_at(&plan.names, 0),
    }
}

// The name of the subject at a place.
fn place_name<'a>(plan: &'a Plan<'_>, place: usize) -> &'a [u8]
    ensures { result.now ≡ name_at (bytes_of plan.now.names.items) place }
{
    name_at(&plan.names, place)
}

#[tactic(auto, using(crate::proofs::Items::get_seen))]
fn name_at(names: &[Vec<u8>], place: usize) -> &[u8]
    ensures { result.now ≡ name_at (bytes_of names.now) place }
{
    match names.get(place) {
        Some(name) => name,
        None => b"",
    }
}

// The address after an object's last byte.
fn end_of(object: &Object) -> u64
    requires end { end_of object.now ≤ ADDRESS_END }
    requires small { IsSmall (size_bits object.now) }
    ensures { result ≡ end_of object.now }
{
    object.address() + size_of(object)
}

fn size_of(object: &Object) -> u64
    requires { IsSmall (size_bits object.now) }
    ensures { result ≡ size_of object.now }
{
    match object {
        Object::Untyped(memory) => 1 << memory.bits,
        Object::CNode(node) => 1 << (node.radix.bits() + 5),
        Object::Tcb(_) => 1024,
        Object::Endpoint(_) => 16,
        Object::Notification(_) | Object::Reply(_) => 32,
        Object::Context(_) => 256,
        Object::Frame(_) => 4096,
        Object::Control(_) => 0,
    }
}
