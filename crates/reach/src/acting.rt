//! Labels that may act in runs of a table, and labels whose threads may make calls.
ghost use Rattle.std.specs.Prelude.{ℕ, ◌↔◌, ◌≡◌, true};
ghost use Rattle.{base.specs.Labels.is_in, policy.specs.{Policy.allows, Sharp.UsesRise}};
ghost use Rattle.integrity.specs.Acting.{MayAct, MayHaveThreads, Starts};
ghost use Rattle.reach.specs.Acting.{IsActor, has_threads, is_ready, ready_label};

use base::{Kind, Label, Labels, ObjId};
use integrity::labels_act_from_boot_or_by_control;
use machine::{Object, RunState};
use policy::Policy;
use table::Table;

/// Returns the labels whose threads may make calls in runs of a table, by a policy in which uses rise.
///
/// These labels may act, and have threads in the table, or memory of which threads can be made.
/// Uses rise in each closed policy, and in each sharply closed one.
pub fn actors(table: &Table, policy: &Policy) -> Labels
    ensures { UsesRise (allows policy.now) → (a : ℕ)
        → (is_in result a ≡ true) ↔ IsActor table.now (allows policy.now) a }
{
    labels_that_act(table, policy).intersection(with_threads(table))
}

/// Returns the labels that may act: those with a thread that can run at boot, and those that such a label controls.
///
/// Uses must rise in the policy, as they do in each closed one.
pub fn labels_that_act(table: &Table, policy: &Policy) -> Labels
    ensures { UsesRise (allows policy.now) → (a : ℕ)
        → (is_in result a ≡ true) ↔ MayAct table.now (allows policy.now) a }
{
    labels_act_from_boot_or_by_control();
    let starting = starting(table);
    starting.union(policy.targets(starting, &[Kind::Control]))
}

// The labels with a thread that is ready at boot and bound to a context.
fn starting(table: &Table) -> Labels
    ensures { (a : ℕ) → (is_in result a ≡ true) ↔ Starts table.now a }
{
    let mut found = Labels::none();
    for binding in table.bindings() {
        if let Some(label) = ready_label(table, binding.thread) {
            found = found.union(Labels::only(label));
        }
    }
    found
}

#[tactic(auto, unfolding(machine::specs::Layout::initial_of))]
fn ready_label(table: &Table, thread: ObjId) -> Option<Label>
    ensures { result ≡ ready_label table.now thread }
{
    let initial = table.objects().get(thread.0 as usize)?;
    if is_ready(&initial.object) {
        return Some(initial.label);
    }
    None
}

fn is_ready(object: &Object) -> bool
    ensures { result ≡ is_ready object.now }
{
    match object {
        Object::Tcb(thread) => matches!(thread.state, RunState::Ready),
        _ => false,
    }
}

// The labels that may have threads.
fn with_threads(table: &Table) -> Labels
    ensures { (a : ℕ) → (is_in result a ≡ true) ↔ MayHaveThreads table.now a }
{
    let mut found = Labels::none();
    for initial in table.objects() {
        if has_threads(&initial.object) {
            found = found.union(Labels::only(initial.label));
        }
    }
    found
}

// Whether an object is a thread, or memory of which threads can be made.
fn has_threads(object: &Object) -> bool
    ensures { result ≡ has_threads object.now }
{
    matches!(object, Object::Tcb(_) | Object::Untyped(_))
}
