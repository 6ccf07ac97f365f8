//! The links of a thread or a reply that lie outside a policy, by the rules A4 to A6.
ghost use Rattle.std.specs.Prelude.{[], ℕ, ◌↔◌, ◌∷◌, ◌≡◌, ◌≤◌, ◌⊎◌, Some, false, true};
ghost use Rattle.base.specs.{declared.ids.ObjId.ObjId as Id, Kinds.kind_number};
ghost use Rattle.base.specs.declared.kind.Kind.TheVariants as authority;
ghost use Rattle.machine.specs.{Authority.{label_of, context_lent, state_links}, Machine.object_of};
ghost use Rattle.policy.specs.{Places.FindsLeast, Policy.allows};
ghost use Rattle.verdict.specs.{Outside.LiesUnder, Rules.{a4, a5, a6}};
ghost use Rattle.verdict.specs.{Sources.{own_context_in, holds_in, keeps_in, lent_context_in}, Verdict.place_of};

use crate::Denial;
use base::{Edge, Kind, Label, ObjId};
use labels::label_of;
use machine::{Object, ReplyState, RunState};
use objects::State;
use policy::Policy;
use table::Table;

/// The first place of this thread where A4 is broken: the lesser of the context that it is bound to
/// and the context that it lent.
pub(crate) fn binding_at(
    table: &Table,
    policy: &Policy,
    state: &State,
    thread: ObjId,
    from: Label,
) -> Option<Denial>
    requires { label_of table.now state.now thread ≡ Some from }
    ensures { FindsLeast place_of (LiesUnder table.now (allows policy.now) state.now (a4 ∷ thread.0 ∷ [])) result }
{
    let bound = lacking(table, policy, state, from, context_of(state, thread));
    let lent = lacking(table, policy, state, from, lent_context(state, thread));
    let context = lesser(bound, lent)?;
    Some(Denial::Binding { thread, context })
}

// This context, if the policy doesn't have the edge of kind runs to its label.
fn lacking(
    table: &Table,
    policy: &Policy,
    state: &State,
    from: Label,
    context: Option<ObjId>,
) -> Option<ObjId>
    ensures { (end : Id) → (result ≡ Some end)
        ↔ ((context ≡ Some end)
        × ((label : ℕ)
        × ((label_of table.now state.now end ≡ Some label) × (allows policy.now from authority.Runs label ≡ false)))) }
{
    let context = context?;
    missing_label(table, policy, state, from, Kind::Runs, context)?;
    Some(context)
}

// The context with the lesser number.
fn lesser(one: Option<ObjId>, other: Option<ObjId>) -> Option<ObjId>
    ensures is_one { (id : Id) → result ≡ Some id → (one ≡ Some id) ⊎ (other ≡ Some id) }
    ensures is_lesser { (id : Id) → (one ≡ Some id) ⊎ (other ≡ Some id)
        → (least : Id) × (result ≡ Some least) × (least.0 ≤ id.0) }
{
    match (one, other) {
        (Some(first), Some(second)) if second.0 < first.0 => other,
        (None, _) => other,
        _ => one,
    }
}

/// The place of this reply, if A5 is broken there.
pub(crate) fn holding_at(
    table: &Table,
    policy: &Policy,
    state: &State,
    reply: ObjId,
    from: Label,
) -> Option<Denial>
    requires { label_of table.now state.now reply ≡ Some from }
    ensures { FindsLeast place_of (LiesUnder table.now (allows policy.now) state.now (a5 ∷ reply.0 ∷ [])) result }
{
    let thread = held_by(state, reply)?;
    missing_label(table, policy, state, from, Kind::Holds, thread)?;
    Some(Denial::Holding { reply, thread })
}

/// The first place of this thread where A6 is broken.
pub(crate) fn first_record(
    table: &Table,
    policy: &Policy,
    state: &State,
    thread: ObjId,
    from: Label,
) -> Option<Denial>
    requires { label_of table.now state.now thread ≡ Some from }
    ensures { FindsLeast place_of (LiesUnder table.now (allows policy.now) state.now (a6 ∷ thread.0 ∷ [])) result }
{
    for kind in Kind::ALL {
        if let Some(denial) = record_at(table, policy, state, thread, from, kind) {
            return Some(denial);
        }
    }
    None
}

// The place of this thread and kind, if A6 is broken there.
fn record_at(
    table: &Table,
    policy: &Policy,
    state: &State,
    thread: ObjId,
    from: Label,
    kind: Kind,
) -> Option<Denial>
    requires { label_of table.now state.now thread ≡ Some from }
    ensures { FindsLeast place_of
        (LiesUnder table.now (allows policy.now) state.now (a6 ∷ thread.0 ∷ kind_number kind ∷ [])) result }
{
    let end = kept_by(state, thread, kind)?;
    let label = missing_label(table, policy, state, from, kind, end)?;
    Some(Denial::Recorded {
        thread,
        kind,
        label,
    })
}

// The context that a thread is bound to.
fn context_of(state: &State, thread: ObjId) -> Option<ObjId>
    ensures { result ≡ own_context_in (object_of state.now thread) }
{
    match state.object(thread) {
        Some(Object::Tcb(tcb)) => tcb.context,
        _ => None,
    }
}

// The context that a thread lent.
fn lent_context(state: &State, thread: ObjId) -> Option<ObjId>
    ensures { result ≡ lent_context_in (object_of state.now thread) }
{
    match state.object(thread) {
        Some(Object::Tcb(tcb)) => context_lent(&tcb.state),
        _ => None,
    }
}

// The context that a thread in this run state lent.
fn context_lent(state: &RunState) -> Option<ObjId>
    ensures { result ≡ context_lent state.now }
{
    match state {
        RunState::Called(calling) => calling.lent.map(|lent| lent.context),
        _ => None,
    }
}

// The thread that a reply holds.
fn held_by(state: &State, reply: ObjId) -> Option<ObjId>
    ensures { (thread : Id) → (result ≡ Some thread) ↔ (holds_in (object_of state.now reply) thread ≡ true) }
{
    match state.object(reply) {
        Some(Object::Reply(reply)) => match reply.state {
            ReplyState::Free => None,
            ReplyState::Waiting(thread) | ReplyState::Called(thread) => Some(thread),
        },
        _ => None,
    }
}

// The object over which a blocked thread keeps this kind of authority.
fn kept_by(state: &State, thread: ObjId, kind: Kind) -> Option<ObjId>
    ensures { (end : Id) → (result ≡ Some end) ↔ (keeps_in (object_of state.now thread) kind end ≡ true) }
{
    match state.object(thread) {
        Some(Object::Tcb(tcb)) => kept_in(&tcb.state, kind),
        _ => None,
    }
}

// The object over which a thread in this run state keeps this kind of authority.
fn kept_in(state: &RunState, kind: Kind) -> Option<ObjId>
    ensures { (end : Id) → (result ≡ Some end) ↔ (state_links state.now kind end ≡ true) }
{
    match (state, kind) {
        (RunState::Sending(sending), Kind::Send) => Some(sending.endpoint),
        (RunState::Sending(sending), Kind::Grant) if sending.grant => Some(sending.endpoint),
        (RunState::Sending(sending), Kind::Call) if sending.is_call && sending.can_reply => {
            Some(sending.endpoint)
        }
        (RunState::Receiving(receiving), Kind::Receive) => Some(receiving.endpoint),
        (RunState::Receiving(receiving), Kind::Reply) => receiving.reply,
        (RunState::Waiting(notification), Kind::Await) => Some(*notification),
        _ => None,
    }
}

/// The label of an object, if the policy doesn't have the edge to it.
pub(crate) fn missing_label(
    table: &Table,
    policy: &Policy,
    state: &State,
    from: Label,
    kind: Kind,
    end: ObjId,
) -> Option<Label>
    ensures { (label : ℕ) → (result ≡ Some label)
        ↔ ((label_of table.now state.now end ≡ Some label) × (allows policy.now from kind label ≡ false)) }
{
    let to = label_of(table, state, end)?;
    if policy.has(Edge { from, kind, to }) {
        return None;
    }
    Some(to)
}
