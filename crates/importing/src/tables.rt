//! Tables of descriptions: their capabilities and bindings are added to their objects.
ghost use Rattle.std.specs.List.{AllByRecursion, AllPairs, range_with_len};
ghost use Rattle.std.specs.Prelude.{◌≡◌, ◌≢◌, ◌≤◌, IfOk, Some, length, map, position, true};
ghost use Rattle.words.specs.{declared.faults.Wrong.TheVariants.UnknownName, Reading.Reads};
ghost use Rattle.microkit.specs.{LabelView.bytes_of, Labels.names_of, Names.IsLabelName, View.description_of};
ghost use Rattle.table.specs.Building.{repeats_untyped};
ghost use Rattle.importing.specs.{Built.or_fault, Groups.labels_at, Pieces.same_piece, PlanView.plan_of};
ghost use Rattle.importing.specs.Tables.{binding_added, bond_added, bond_of, bonds_added, bonds_of, cap_added, filled_by, filled_up};
ghost use Rattle.importing.specs.Tables.{finished, grant_added, grants_added, is_context, is_thread, labels_fit, objects_by, piece_number};
ghost use Rattle.importing.specs.{Tables.{planned, subjects_fit, table_at, table_by, takes_binding, takes_cap}, Whole.IsTableOf};
ghost use Rattle.base.specs.declared.label.TheConstants.Label as LabelLimits;

use crate::builder::{Builder, Plan};
use crate::grants::{grants_of, roots_of};
use crate::groups::{leaders_at, line_at, places_of, uses_in};
use crate::pieces::{Form, Grant, Minting, Piece, pieces_of, same_piece};
use crate::plan::{line_of, piece_line};
use base::{Label, MAX_OBJECTS, ObjId, SlotRef};
use machine::{Binding, Cap, Detail, Filled, ObjectKind};
use microkit::{Description, Subject, label_names, subjects_of};
use std::alloc::{AllocError, Global};
use table::{Draft, Table};
use words::{Fault, Wrong};

/// A thread and the context that it is bound to.
#[derive(Clone, Copy)]
pub(crate) struct Bond {
    pub thread: Piece,
    pub context: Piece,
}

// The number of a piece's object: its place among the pieces.
fn piece_number(pieces: &[Piece], piece: Piece) -> Option<usize>
    ensures { result ≡ piece_number pieces.now piece }
{
    pieces.iter().position(|one| same_piece(*one, piece))
}

// The number of a piece's object, or the fault of an unknown name.
fn known_number(pieces: &[Piece], piece: Piece, line: u64) -> Result<usize, Fault>
    ensures { result ≡ or_fault line UnknownName (piece_number pieces.now piece) }
{
    match piece_number(pieces, piece) {
        Some(number) => Ok(number),
        None => Err(Fault::at(Wrong::UnknownName, line)),
    }
}

// Whether a table may take a filled slot.
#[tactic(auto, unfolding(crate::specs::Tables::takes_cap))]
fn takes_cap(draft: &Draft, filled: Filled) -> bool
    ensures { result ≡ takes_cap draft.now filled }
{
    draft.is_above_caps(filled.slot)
        && draft.declares_slot(filled.slot)
        && draft.may_hold(filled.slot.holder, &filled.cap.detail)
        && draft.is_fitting(&filled.cap)
        && !repeats_untyped(draft, filled.cap)
}

fn repeats_untyped(draft: &Draft, cap: Cap) -> bool
    ensures { result ≡ repeats_untyped draft.now cap }
{
    match cap.detail {
        Detail::Untyped => draft.has_cap_to(cap.object),
        _ => false,
    }
}

#[tactic(auto, using(crate::proofs::Takes::admits_cap), unfolding(crate::specs::Tables::cap_added))]
fn add_cap(draft: &mut Draft, line: u64, filled: Filled) -> Result<(), Fault>
    requires { filled.cap.original ≡ true }
    ensures { Reads (λ _. draft.new) result (cap_added line filled draft.old) }
{
    if !takes_cap(draft, filled) {
        return Err(Fault::at(Wrong::UnknownName, line));
    }
    draft.add_cap(filled)?;
    Ok(())
}

#[tactic(auto, unfolding(crate::specs::Tables::grant_added, words::specs::Reading::bind))]
fn add_grant(
    draft: &mut Draft,
    description: &Description,
    pieces: &[Piece],
    grant: &Grant,
) -> Result<(), Fault>
    ensures { Reads (λ _. draft.new) result
        (grant_added (description_of description.now) pieces.now grant.now draft.old) }
{
    let line = piece_line(description, grant.holder);
    let holder = known_number(pieces, grant.holder, line)?;
    let target = known_number(pieces, grant.target, line)?;
    let slot = SlotRef {
        holder: ObjId(holder as u64),
        index: grant.index,
    };
    let cap = Cap {
        object: ObjId(target as u64),
        detail: grant.detail,
        original: true,
    };
    add_cap(draft, line, Filled { slot, cap })
}

#[tactic(auto, using(crate::proofs::Takes::no_grant, crate::proofs::Takes::one_grant, crate::proofs::Takes::bad_grant))]
fn add_grants(
    draft: &mut Draft,
    description: &Description,
    pieces: &[Piece],
    grants: &[Grant],
) -> Result<(), Fault>
    ensures { Reads (λ _. draft.new) result
        (grants_added (description_of description.now) pieces.now grants.now draft.old) }
{
    for grant in grants {
        add_grant(draft, description, pieces, grant)?;
    }
    Ok(())
}

fn is_thread(kind: Option<ObjectKind>) -> bool
    ensures { result ≡ is_thread kind }
{
    matches!(kind, Some(ObjectKind::Tcb))
}

fn is_context(kind: Option<ObjectKind>) -> bool
    ensures { result ≡ is_context kind }
{
    matches!(kind, Some(ObjectKind::Context))
}

// Whether a table may take a binding.
#[tactic(auto, unfolding(crate::specs::Tables::takes_binding))]
fn takes_binding(draft: &Draft, binding: Binding) -> bool
    ensures { result ≡ takes_binding draft.now binding }
{
    draft.is_above_bindings(binding.thread)
        && is_thread(draft.kind(binding.thread))
        && is_context(draft.kind(binding.context))
        && !draft.is_bound(binding.context)
}

#[tactic(auto, unfolding(crate::specs::Tables::binding_added))]
fn add_binding(draft: &mut Draft, line: u64, binding: Binding) -> Result<(), Fault>
    ensures { Reads (λ _. draft.new) result (binding_added line binding draft.old) }
{
    if !takes_binding(draft, binding) {
        return Err(Fault::at(Wrong::UnknownName, line));
    }
    draft.add_binding(binding)?;
    Ok(())
}

#[tactic(auto, unfolding(crate::specs::Tables::bond_added, words::specs::Reading::bind))]
fn add_bond(
    draft: &mut Draft,
    description: &Description,
    pieces: &[Piece],
    bond: &Bond,
) -> Result<(), Fault>
    ensures { Reads (λ _. draft.new) result
        (bond_added (description_of description.now) pieces.now bond.now draft.old) }
{
    let line = piece_line(description, bond.thread);
    let thread = known_number(pieces, bond.thread, line)?;
    let context = known_number(pieces, bond.context, line)?;
    let binding = Binding {
        thread: ObjId(thread as u64),
        context: ObjId(context as u64),
    };
    add_binding(draft, line, binding)
}

#[tactic(auto, using(crate::proofs::Takes::no_bond, crate::proofs::Takes::one_bond, crate::proofs::Takes::bad_bond))]
fn add_bonds(
    draft: &mut Draft,
    description: &Description,
    pieces: &[Piece],
    bonds: &[Bond],
) -> Result<(), Fault>
    ensures { Reads (λ _. draft.new) result
        (bonds_added (description_of description.now) pieces.now bonds.now draft.old) }
{
    for bond in bonds {
        add_bond(draft, description, pieces, bond)?;
    }
    Ok(())
}

// The bindings of each domain's thread to its context.
fn bonds_of(alloc: Global, domains: usize) -> Result<Vec<Bond>, AllocError>
    ensures { IfOk result (λ bonds. bonds.items ≡ map bond_of (range_with_len 0 domains)) }
{
    (0..domains)
        .map(|number| Bond {
            thread: Piece {
                form: Form::Main,
                number,
            },
            context: Piece {
                form: Form::Time,
                number,
            },
        })
        .collect(alloc)
}

#[tactic(auto, unfolding(crate::specs::Tables::finished))]
fn finish(draft: Draft) -> Result<Table, Fault>
    ensures { Reads (λ table. table) result (finished draft) }
{
    match draft.into_table() {
        Ok(table) => Ok(table),
        Err(_) => Err(Fault::at(Wrong::Tree, 0)),
    }
}

// The capabilities and bindings of a table that has its objects.
#[tactic(auto, unfolding(crate::specs::Tables::filled_up, words::specs::Reading::bind))]
fn fill_up(
    alloc: Global,
    draft: &mut Draft,
    description: &Description,
    pieces: &[Piece],
    grants: &[Grant],
) -> Result<(), Fault>
    ensures { Reads (λ _. draft.new) result
        (filled_up (description_of description.now) pieces.now grants.now draft.old) }
{
    add_grants(draft, description, pieces, grants)?;
    let roots = roots_of(alloc, description, grants)?;
    add_grants(draft, description, pieces, &roots)?;
    let bonds = bonds_of(alloc, description.domains.len())?;
    add_bonds(draft, description, pieces, &bonds)
}

// Checks that there are no more subjects than a table may have objects: each has one.
#[tactic(auto, unfolding(crate::specs::Tables::subjects_fit))]
fn check_subjects(description: &Description, subjects: &[Subject]) -> Result<(), Fault>
    ensures { result ≡ subjects_fit (description_of description.now) subjects.now }
{
    match subjects.get(MAX_OBJECTS) {
        Some(subject) => Err(Fault::at(Wrong::Limit, line_of(description, *subject))),
        None => Ok(()),
    }
}

// Checks that there are no more labels than a table may have.
#[tactic(auto, unfolding(crate::specs::Tables::labels_fit))]
fn check_labels(
    description: &Description,
    subjects: &[Subject],
    places: &[usize],
) -> Result<(), Fault>
    ensures exact { result ≡ labels_fit (description_of description.now) subjects.now places.now }
    ensures few { IfOk result (λ _. length places.now ≤ LabelLimits.COUNT) }
{
    match places.get(usize::from(Label::COUNT)) {
        Some(place) => Err(Fault::at(Wrong::Limit, line_at(subjects, description, *place))),
        None => Ok(()),
    }
}

#[tactic(auto, unfolding(crate::specs::Tables::planned, crate::specs::Groups::labelled_of, words::specs::Reading::bind))]
fn planned(alloc: Global, description: &Description, minting: Minting) -> Result<Plan<'_>, Fault>
    ensures exact { Reads (λ plan. plan_of plan) result (planned (description_of description.now) minting) }
    ensures names { IfOk result (λ plan. AllByRecursion IsLabelName
        (labels_at (bytes_of plan.names.items) plan.places.items)) }
    ensures distinct { IfOk result (λ plan. AllPairs (λ one other. one ≢ other)
        (labels_at (bytes_of plan.names.items) plan.places.items)) }
    ensures few { IfOk result (λ plan. length plan.places.items ≤ LabelLimits.COUNT) }
{
    let subjects = subjects_of(alloc, description)?;
    check_subjects(description, &subjects)?;
    let uses = uses_in(alloc, description, &subjects)?;
    let places = places_of(alloc, &uses, &subjects)?;
    check_labels(description, &subjects, &places)?;
    let labelled = leaders_at(alloc, &subjects, &places)?;
    let names = label_names(alloc, description)?;
    let grants = grants_of(alloc, description, minting)?;
    Ok(Plan {
        description,
        subjects,
        names,
        uses,
        places,
        labelled,
        grants,
    })
}

// The table of the labels and objects of a plan.
#[tactic(auto, unfolding(crate::specs::Tables::objects_by, words::specs::Reading::bind))]
fn objects_by(alloc: Global, plan: &Plan<'_>, pieces: &[Piece]) -> Result<Draft, Fault>
    requires names { AllByRecursion IsLabelName (labels_at (bytes_of plan.now.names.items) plan.now.places.items) }
    requires distinct { AllPairs (λ one other. one ≢ other)
        (labels_at (bytes_of plan.now.names.items) plan.now.places.items) }
    requires few { length plan.now.places.items ≤ LabelLimits.COUNT }
    ensures { Reads (λ draft. draft) result (objects_by pieces.now (plan_of plan.now)) }
{
    let mut builder = Builder::new(alloc, plan)?;
    match builder.add_pieces(alloc, plan, pieces) {
        Ok(()) => Ok(builder.into_draft()),
        Err(fault) => {
            drop(builder);
            Err(fault)
        }
    }
}

#[tactic(auto, unfolding(crate::specs::Tables::table_by, words::specs::Reading::bind))]
fn table_by(alloc: Global, plan: &Plan<'_>, pieces: &[Piece]) -> Result<Table, Fault>
    requires names { AllByRecursion IsLabelName (labels_at (bytes_of plan.now.names.items) plan.now.places.items) }
    requires distinct { AllPairs (λ one other. one ≢ other)
        (labels_at (bytes_of plan.now.names.items) plan.now.places.items) }
    requires few { length plan.now.places.items ≤ LabelLimits.COUNT }
    ensures { Reads (λ table. table) result (table_by pieces.now (plan_of plan.now)) }
{
    let mut draft = objects_by(alloc, plan, pieces)?;
    match fill_up(alloc, &mut draft, plan.description, pieces, &plan.grants) {
        Ok(()) => finish(draft),
        Err(fault) => {
            drop(draft);
            Err(fault)
        }
    }
}

/// Returns the table of a description.
///
/// # Errors
///
/// The fault and its line: 54 for the first label, object, slot, thread, address or share of time that
/// passes a limit of tables, and for a CNode that needs more than 4,096 slots; 51 if a capability
/// or a binding is of an object that the table doesn't have or of another kind, and 52 if two
/// virtual processors of a virtual machine have one id: no description that was read has either.
/// 40 at line 0 if memory is refused.
#[tactic(auto, using(crate::proofs::Whole::table_whole))]
pub fn table_of(alloc: Global, description: &Description, minting: Minting) -> Result<Table, Fault>
    // The table, or the first fault.
    ensures exact { Reads (λ table. table) result (table_at (description_of description.now) minting) }
    // The table as whole lists.
    ensures whole { IfOk result (λ table. IsTableOf (description_of description.now) minting table) }
{
    table_at(alloc, description, minting)
}

#[tactic(auto, unfolding(crate::specs::Tables::table_at, words::specs::Reading::bind))]
fn table_at(alloc: Global, description: &Description, minting: Minting) -> Result<Table, Fault>
    ensures { Reads (λ table. table) result (table_at (description_of description.now) minting) }
{
    let plan = planned(alloc, description, minting)?;
    let pieces = pieces_of(alloc, description)?;
    table_by(alloc, &plan, &pieces)
}
