//! The making of a table's certificate.
ghost use Rattle.std.specs.Prelude.{◌++◌, ◌≡◌, IfErr, IfOk, OnOk, filter, map};
ghost use Rattle.{base.specs.Refusals.out_of_memory, table.specs.Rules.kind_at, certificate.specs.Certificate.IsCertificateOf};
ghost use Rattle.certificate.specs.Right as right;

use crate::line::{Certificate, Line};
use base::{Label, ObjId, Refusal};
use machine::{Binding, Filled, ObjectKind, Pair};
use std::alloc::{AllocError, Global};
use table::Table;

/// Returns the one right certificate of a capability table, whatever the policy.
///
/// # Errors
///
/// 40 where memory is refused.
#[tactic(auto, using(crate::proofs::RightLines::right_is_spelled))]
pub fn make(alloc: Global, table: &Table) -> Result<Certificate, Refusal>
    ensures right { IfOk result (λ lines. lines ≡ right.right_certificate table.now) }
    ensures memory { IfErr result (λ refusal. refusal ≡ out_of_memory) }

    // The certificate is one for the table, so it has a text.
    ensures spelled { IfOk result (λ lines. IsCertificateOf table.now lines) }
{
    table.keeps_rules();
    Ok(Certificate::of(right_lines(alloc, table)?))
}

/// The label of an object. Every object that a table names has one.
#[tactic(auto, unfolding(machine::specs::Layout::declared_label))]
fn label_in(table: &Table, id: ObjId) -> Label
    ensures { result ≡ right.label_in table.now id }
{
    match table.object(id) {
        Some(initial) => initial.label,
        None => Label::new(0).unwrap(),
    }
}

/// The line of a capability in a slot of a CNode.
fn cap_line(table: &Table, filled: &Filled) -> Line
    ensures { result ≡ right.cap_line table.now filled.now }
{
    Line::Cap {
        slot: filled.slot,
        from: label_in(table, filled.slot.holder),
        kinds: filled.cap.kinds(),
        to: label_in(table, filled.cap.object),
    }
}

/// The line of a capability in a root slot.
fn space_line(table: &Table, filled: &Filled) -> Line
    ensures { result ≡ right.space_line table.now filled.now }
{
    Line::Space {
        slot: filled.slot,
        from: label_in(table, filled.slot.holder),
        to: label_in(table, filled.cap.object),
    }
}

/// The line of a pair of the derivation tree.
fn derive_line(table: &Table, pair: &Pair) -> Line
    ensures { result ≡ right.derive_line table.now pair.now }
{
    Line::Derive {
        parent: pair.parent,
        child: pair.child,
        from: label_in(table, pair.parent.holder),
        to: label_in(table, pair.child.holder),
    }
}

/// The line of a binding.
fn runs_line(table: &Table, binding: &Binding) -> Line
    ensures { result ≡ right.runs_line table.now binding.now }
{
    Line::Runs {
        thread: binding.thread,
        context: binding.context,
        from: label_in(table, binding.thread),
        to: label_in(table, binding.context),
    }
}

/// Whether the slot is one of a CNode.
fn is_of_cnode(table: &Table, filled: &Filled) -> bool
    ensures { result ≡ right.is_cnode (kind_at table.now filled.now.slot.holder) }
{
    matches!(table.kind(filled.slot.holder), Some(ObjectKind::CNode))
}

/// Whether the slot is a thread's, which has its root slot alone.
fn is_of_thread(table: &Table, filled: &Filled) -> bool
    ensures { result ≡ right.is_thread (kind_at table.now filled.now.slot.holder) }
{
    matches!(table.kind(filled.slot.holder), Some(ObjectKind::Tcb))
}

fn right_lines(alloc: Global, table: &Table) -> Result<Vec<Line>, AllocError>
    ensures { IfOk result (λ lines. lines.items ≡ right.right_certificate table.now) }
{
    let mut lines = Vec::new(alloc);
    add_caps(&mut lines, table, table.caps())?;
    add_spaces(&mut lines, table, table.caps())?;
    add_pairs(&mut lines, table, table.pairs())?;
    add_bindings(&mut lines, table, table.bindings())?;
    Ok(lines)
}

fn add_caps(lines: &mut Vec<Line>, table: &Table, caps: &[Filled]) -> Result<(), AllocError>
    ensures { OnOk result (lines.new.items ≡ lines.old.items
        ++ map (right.cap_line table.now) (filter (λ filled. right.is_cnode (kind_at table.now filled.slot.holder)) caps.now)) }
{
    for filled in caps {
        if is_of_cnode(table, filled) {
            lines.push(cap_line(table, filled))?;
        }
    }
    Ok(())
}

fn add_spaces(lines: &mut Vec<Line>, table: &Table, caps: &[Filled]) -> Result<(), AllocError>
    ensures { OnOk result (lines.new.items ≡ lines.old.items
        ++ map (right.space_line table.now) (filter (λ filled. right.is_thread (kind_at table.now filled.slot.holder)) caps.now)) }
{
    for filled in caps {
        if is_of_thread(table, filled) {
            lines.push(space_line(table, filled))?;
        }
    }
    Ok(())
}

fn add_pairs(lines: &mut Vec<Line>, table: &Table, pairs: &[Pair]) -> Result<(), AllocError>
    ensures { OnOk result (lines.new.items ≡ lines.old.items ++ map (right.derive_line table.now) pairs.now) }
{
    for pair in pairs {
        lines.push(derive_line(table, pair))?;
    }
    Ok(())
}

fn add_bindings(
    lines: &mut Vec<Line>,
    table: &Table,
    bindings: &[Binding],
) -> Result<(), AllocError>
    ensures { OnOk result (lines.new.items ≡ lines.old.items ++ map (right.runs_line table.now) bindings.now) }
{
    for binding in bindings {
        lines.push(runs_line(table, binding))?;
    }
    Ok(())
}
