//! The labels on whose objects the calls of a label's threads depend.
ghost use Rattle.std.specs.Prelude.{[], ℕ, ◌↔◌, ◌∷◌, ◌≡◌, true};
ghost use Rattle.{base.specs.Labels.is_in, policy.specs.{Change.{MayAnswer, MayHoldCaller}, Policy.allows, Steps.IsSource}};
ghost use Rattle.{reach.specs.Extents.{limits_by, limits_of}, flows.specs.Seeing.{IsContested, Sees}};

use base::{Kind, Label, Labels};
use policy::Policy;
use reach::Reach;

/// The kinds of authority whose use depends on the object itself.
const SEEN: [Kind; 7] = [
    Kind::Await,
    Kind::Read,
    Kind::Runs,
    Kind::Send,
    Kind::Receive,
    Kind::Reply,
    Kind::Space,
];

/// Returns the labels on whose objects calls of threads of the label `actor` depend.
///
/// On these objects it depends what the calls return, whether the thread waits, and which thread it meets.
/// It doesn't depend on frames that the thread only writes, nor on notifications that it only signals,
/// unless threads of two labels may wait there. The labels are those of the definition. In fixed
/// systems calls depend on no other object, but for how threads wait at an endpoint to which it sends: see the
/// laws of the crate `noninterference`.
pub fn sees(reach: &Reach<'_>, actor: Label) -> Labels
    ensures { (l : ℕ) → (is_in result l ≡ true) ↔ Sees (limits_of reach.now) actor l }
{
    seen_by(reach.policy(), reach.actors(), actor)
}

// The labels that the label sees by a policy, where only threads of the labels `actors` act.
fn seen_by(policy: &Policy, actors: Labels, actor: Label) -> Labels
    ensures { (l : ℕ) → (is_in result l ≡ true) ↔ Sees (limits_by policy.now actors) actor l }
{
    if !actors.has(actor) {
        return Labels::none();
    }
    let receive = policy.row(actor, Kind::Receive);
    let call = policy.row(actor, Kind::Call);
    let notify = policy.row(actor, Kind::Notify);
    Labels::only(actor)
        .union(policy.row_of_kinds(actor, &SEEN))
        .union(waiting(policy, actors, receive, Kind::Send))
        .union(waiting(policy, actors, call, Kind::Receive))
        .union(answered(policy, actors, actor))
        .union(policy.row_with(actor, Kind::Context, Kind::Control))
        .union(policy.row_with(actor, Kind::Control, Kind::Context))
        .union(notify.intersection(contested(policy, actors)))
}

// The labels that act and have an edge of this kind to a label of the set.
fn waiting(policy: &Policy, actors: Labels, ends: Labels, kind: Kind) -> Labels
    ensures { (label : ℕ) → (is_in result label ≡ true)
        ↔ (IsSource (allows policy.now) (kind ∷ []) ends label × (is_in actors label ≡ true)) }
{
    policy.sources(ends, &[kind]).intersection(actors)
}

// The labels whose calls the label may answer.
fn answered(policy: &Policy, actors: Labels, actor: Label) -> Labels
    ensures { (l : ℕ) → (is_in result l ≡ true) ↔ MayAnswer (allows policy.now) (is_in actors) actor l }
{
    let replies = policy.row(actor, Kind::Reply);
    let mut found = Labels::none();
    for number in 0..policy.span() {
        if let Some(reply) = Label::new(number) {
            if replies.has(reply) {
                found = found.union(callers(policy, actors, reply));
            }
        }
    }
    found
}

// The labels whose threads this reply may hold since they called.
fn callers(policy: &Policy, actors: Labels, reply: Label) -> Labels
    ensures { (l : ℕ) → (is_in result l ≡ true) ↔ MayHoldCaller (allows policy.now) (is_in actors) reply l }
{
    let servers = waiting(policy, actors, Labels::only(reply), Kind::Reply);
    let endpoints = policy.targets(servers, &[Kind::Receive]);
    let callers = waiting(policy, actors, endpoints, Kind::Call);
    callers.intersection(policy.row(reply, Kind::Holds))
}

// The labels for whose notifications threads of two labels may wait.
fn contested(policy: &Policy, actors: Labels) -> Labels
    ensures { (l : ℕ) → (is_in result l ≡ true) ↔ IsContested (allows policy.now) (is_in actors) l }
{
    let mut once = Labels::none();
    let mut twice = Labels::none();
    for number in 0..policy.span() {
        if let Some(waiter) = Label::new(number) {
            if actors.has(waiter) {
                let awaited = policy.row(waiter, Kind::Await);
                twice = twice.union(awaited.intersection(once));
                once = once.union(awaited);
            }
        }
    }
    twice
}
