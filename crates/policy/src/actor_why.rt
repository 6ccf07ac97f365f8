//! Reasons why a label may change another's objects, or make them smaller, if only some labels act.
ghost use Rattle.std.specs.Prelude.{◌≡◌, IfOk};
ghost use Rattle.base.specs.Labels.{is_in};
ghost use Rattle.policy.specs.{ActorReasons.{IsChangeBy, IsShrinkBy, IsWhyAmong}, Policy.allows, Walks.{FindsWalk, GoesAgainst, GoesAlong}};

use crate::change::CHANGING;
use crate::guarded::Turn;
use crate::narrow_take::{REMOVED, WAITING};
use crate::walks::Step;
use crate::{Policy, Why};
use base::{Edge, Kind, Label, Labels};
use std::alloc::{AllocError, Global};

impl Policy {
    /// Returns what `actor` may do to objects of the label `object` if only threads of the labels `actors` act, and why.
    pub fn why_among(
        &self,
        alloc: Global,
        actors: Labels,
        actor: Label,
        object: Label,
    ) -> Result<Why, AllocError>
        ensures { IfOk result (λ why. IsWhyAmong (allows self.now) (is_in actors) actor object why) }
    {
        if let Some(edges) = self.change_reason(alloc, actors, actor, object)? {
            return Ok(Why::Full(edges));
        }
        match self.shrink_reason(alloc, actors, actor, object)? {
            Some(edges) => Ok(Why::Take(edges)),
            None => Ok(Why::Nothing),
        }
    }

    // The least of the walks of all ways to change.
    fn change_reason(
        &self,
        alloc: Global,
        actors: Labels,
        actor: Label,
        object: Label,
    ) -> Result<Option<Vec<Edge>>, AllocError>
        ensures { IfOk result (FindsWalk (IsChangeBy (allows self.now) (is_in actors) actor object)) }
    {
        if !actors.has(actor) {
            return Ok(None);
        }
        let bound = self.row_beside(actor, Kind::Context, &[Kind::SchedControl, Kind::Control]);
        let moved = self.moved(actors, actor);
        let answered = self.holding(actors, object);
        let modify = along(&CHANGING, None);
        let bind = along(&[Kind::Context], Some(bound));
        let lend = along(&[Kind::Runs], Some(moved));
        let send = along(&[Kind::Send], None);
        let sender = against(&[Kind::Send], Some(actors));
        let receive = along(&[Kind::Receive], None);
        let receiver = against(&[Kind::Receive], Some(actors));
        let notify = along(&[Kind::Notify], None);
        let awaiter = against(&[Kind::Await], Some(actors));
        let call = along(&[Kind::Call], Some(self.row(actor, Kind::Send)));
        let reply = along(&[Kind::Reply], None);
        let grant = along(&[Kind::Grant], None);
        let control = along(&[Kind::Control], None);
        let answer = along(&[Kind::Reply], Some(answered));
        let held = along(&[Kind::Holds], None);
        let own = self.guarded_walk(alloc, &[], actor, object)?;
        let modifies = self.lesser_guarded(alloc, own, &[modify], actor, object)?;
        let binds = self.lesser_guarded(alloc, modifies, &[bind], actor, object)?;
        let lends = self.lesser_guarded(alloc, binds, &[lend], actor, object)?;
        let sends = self.lesser_guarded(alloc, lends, &[send, receiver], actor, object)?;
        let receives = self.lesser_guarded(alloc, sends, &[receive, sender], actor, object)?;
        let notifies = self.lesser_guarded(alloc, receives, &[notify, awaiter], actor, object)?;
        let links = self.lesser_guarded(alloc, notifies, &[call, receiver, reply], actor, object)?;
        let grants = self.lesser_guarded(alloc, links, &[grant, receiver, control], actor, object)?;
        self.lesser_guarded(alloc, grants, &[answer, held], actor, object)
    }

    // The least of the walks of all ways to make smaller.
    fn shrink_reason(
        &self,
        alloc: Global,
        actors: Labels,
        actor: Label,
        object: Label,
    ) -> Result<Option<Vec<Edge>>, AllocError>
        ensures { IfOk result (FindsWalk (IsShrinkBy (allows self.now) (is_in actors) actor object)) }
    {
        if !actors.has(actor) {
            return Ok(None);
        }
        let context = along(&[Kind::Context], None);
        let runner = against(&[Kind::Runs], None);
        let named = along(&[Kind::Reply], Some(self.row(object, Kind::Reply)));
        let held = along(&[Kind::Holds], Some(actors));
        let use_reply = along(&[Kind::Reply], None);
        let holder = against(&[Kind::Reply], Some(actors));
        let queue = along(&[Kind::Receive], None);
        let send = along(&[Kind::Send], None);
        let receiver = against(&[Kind::Receive], Some(actors));
        let control = along(&[Kind::Control], None);
        let remove = along(&REMOVED, None);
        let caller = along(&[Kind::Control], Some(actors));
        let holding = against(&[Kind::Holds], None);
        let reset = along(&[Kind::Reset], None);
        let waiter = against(&WAITING, Some(actors));
        let unbinds = self.guarded_walk(alloc, &[context], actor, object)?;
        let stops = self.lesser_guarded(alloc, unbinds, &[context, runner], actor, object)?;
        let halts = self.lesser_guarded(alloc, stops, &[named, held], actor, object)?;
        let ends = self.lesser_guarded(alloc, halts, &[use_reply, holder, queue], actor, object)?;
        let frees = self.lesser_guarded(alloc, ends, &[send, receiver, use_reply], actor, object)?;
        let removes = self.lesser_guarded(alloc, frees, &[control, remove], actor, object)?;
        let releases = self.lesser_guarded(alloc, removes, &[caller, holding], actor, object)?;
        let wakes = self.lesser_guarded(alloc, releases, &[control, reset, waiter], actor, object)?;
        self.lesser_guarded(
            alloc,
            wakes,
            &[control, reset, receiver, use_reply],
            actor,
            object,
        )
    }
}

// The turn along an edge of one of the kinds.
fn along(kinds: &[Kind], among: Option<Labels>) -> Turn
    ensures along { GoesAlong kinds.now result.step }
    ensures among { result.among ≡ among }
{
    Turn {
        step: Step::along(kinds),
        among,
    }
}

// The turn against an edge of one of the kinds.
fn against(kinds: &[Kind], among: Option<Labels>) -> Turn
    ensures against { GoesAgainst kinds.now result.step }
    ensures among { result.among ≡ among }
{
    Turn {
        step: Step::against(kinds),
        among,
    }
}
