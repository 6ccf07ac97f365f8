//! The test whether the content of an object only lost links.
ghost use Rattle.std.specs.Prelude.{◌↔◌, ◌≡◌, IsTrue};
ghost use Rattle.machine.specs.declared.thread.{Inbox.TheVariants.Aborted, RunState.TheVariants.{Inactive, Ready}};
ghost use Rattle.{integrity.specs.Shrinks.{IsBlocked, Lessens, LosesLink, Stops}, runs.specs.Comparing.{IsFreed, IsReleased, IsUnbound}};

use base::ObjId;
use machine::{
    CNode, Calling, Context, Control, Inbox, Notification, Object, Receiving, Reply, ReplyState,
    RunState, Sending, Tcb, Untyped,
};

fn is_blocked(state: &RunState) -> bool
    ensures { IsTrue result ↔ IsBlocked state.now }
{
    match state {
        RunState::Sending(_) => true,
        RunState::Receiving(_) => true,
        RunState::Waiting(_) => true,
        RunState::Called(_) => true,
        _ => false,
    }
}

fn same_sending(was: &Sending, is: &Sending) -> bool
    ensures { IsTrue result ↔ (is.now ≡ was.now) }
{
    is.endpoint == was.endpoint
        && is.badge == was.badge
        && is.grant == was.grant
        && is.is_call == was.is_call
        && is.can_reply == was.can_reply
        && is.words == was.words
        && is.capability == was.capability
}

fn same_receiving(was: &Receiving, is: &Receiving) -> bool
    ensures { IsTrue result ↔ (is.now ≡ was.now) }
{
    is == was
}

fn same_calling(was: &Calling, is: &Calling) -> bool
    ensures { IsTrue result ↔ (is.now ≡ was.now) }
{
    is == was
}

fn same_state(was: &RunState, is: &RunState) -> bool
    ensures { IsTrue result ↔ (is.now ≡ was.now) }
{
    match (was, is) {
        (RunState::Inactive, RunState::Inactive) => true,
        (RunState::Ready, RunState::Ready) => true,
        (RunState::Sending(was), RunState::Sending(is)) => same_sending(was, is),
        (RunState::Receiving(was), RunState::Receiving(is)) => same_receiving(was, is),
        (RunState::Waiting(was), RunState::Waiting(is)) => was == is,
        (RunState::Called(was), RunState::Called(is)) => same_calling(was, is),
        _ => false,
    }
}

fn same_inbox(was: &Inbox, is: &Inbox) -> bool
    ensures { IsTrue result ↔ (is.now ≡ was.now) }
{
    is == was
}

// Whether a thread continues as it was.
fn goes_on(was: &Tcb, is: &Tcb) -> bool
    ensures { IsTrue result ↔ ((is.now.state ≡ was.now.state) × (is.now.inbox ≡ was.now.inbox)) }
{
    same_state(&was.state, &is.state) && same_inbox(&was.inbox, &is.inbox)
}

// Whether the wait of a thread was aborted, so that it may run.
fn is_aborted(was: &Tcb, is: &Tcb) -> bool
    ensures { IsTrue result ↔ (IsBlocked was.now.state × (is.now.state ≡ Ready) × (is.now.inbox ≡ Aborted)) }
{
    is_blocked(&was.state) && is.state == RunState::Ready && is.inbox == Inbox::Aborted
}

// Whether a thread that waited was halted.
fn is_halted(was: &Tcb, is: &Tcb) -> bool
    ensures { IsTrue result ↔ (IsBlocked was.now.state × (is.now.state ≡ Inactive) × (is.now.inbox ≡ was.now.inbox)) }
{
    is_blocked(&was.state) && is.state == RunState::Inactive && is.inbox == was.inbox
}

// Whether a thread continues as it was, or its wait ended.
fn stops(was: &Tcb, is: &Tcb) -> bool
    ensures { IsTrue result ↔ Stops was.now is.now }
{
    if goes_on(was, is) {
        return true;
    }
    if is_aborted(was, is) {
        return true;
    }
    is_halted(was, is)
}

// Whether a link is as it was, or gone.
fn loses_link(was: Option<ObjId>, is: Option<ObjId>) -> bool
    ensures { IsTrue result ↔ LosesLink was is }
{
    is == was || is.is_none()
}

// Whether a thread lost its wait, its context, or both.
fn is_released(was: &Tcb, is: &Tcb) -> bool
    ensures { IsTrue result ↔ IsReleased was.now is.now }
{
    is.address == was.address && stops(was, is) && loses_link(was.context, is.context)
}

// Whether a reply lost its thread.
fn is_freed(was: &Reply, is: &Reply) -> bool
    ensures { IsTrue result ↔ IsFreed was.now is.now }
{
    is.address == was.address && is.state == ReplyState::Free
}

// Whether a scheduling context lost its thread.
fn is_unbound(was: &Context, is: &Context) -> bool
    ensures { IsTrue result ↔ IsUnbound was.now is.now }
{
    is.address == was.address && is.share == was.share && is.thread.is_none()
}

fn same_thread(was: &Tcb, is: &Tcb) -> bool
    ensures { IsTrue result ↔ (is.now ≡ was.now) }
{
    is.address == was.address
        && same_state(&was.state, &is.state)
        && same_inbox(&was.inbox, &is.inbox)
        && is.context == was.context
}

fn same_memory(was: &Untyped, is: &Untyped) -> bool
    ensures { IsTrue result ↔ (is.now ≡ was.now) }
{
    is == was
}

fn same_node(was: &CNode, is: &CNode) -> bool
    ensures { IsTrue result ↔ (is.now ≡ was.now) }
{
    is == was
}

fn same_notification(was: &Notification, is: &Notification) -> bool
    ensures { IsTrue result ↔ (is.now ≡ was.now) }
{
    is == was
}

fn same_reply(was: &Reply, is: &Reply) -> bool
    ensures { IsTrue result ↔ (is.now ≡ was.now) }
{
    is == was
}

fn same_context(was: &Context, is: &Context) -> bool
    ensures { IsTrue result ↔ (is.now ≡ was.now) }
{
    is == was
}

fn same_control(was: &Control, is: &Control) -> bool
    ensures { IsTrue result ↔ (is.now ≡ was.now) }
{
    is == was
}

/// Returns whether the content of an object is as it was.
pub fn same_content(was: &Object, is: &Object) -> bool
    ensures { IsTrue result ↔ (is.now ≡ was.now) }
{
    match (was, is) {
        (Object::Untyped(was), Object::Untyped(is)) => same_memory(was, is),
        (Object::CNode(was), Object::CNode(is)) => same_node(was, is),
        (Object::Tcb(was), Object::Tcb(is)) => same_thread(was, is),
        (Object::Endpoint(was), Object::Endpoint(is)) => is.address == was.address,
        (Object::Notification(was), Object::Notification(is)) => same_notification(was, is),
        (Object::Reply(was), Object::Reply(is)) => same_reply(was, is),
        (Object::Context(was), Object::Context(is)) => same_context(was, is),
        (Object::Frame(was), Object::Frame(is)) => is.address == was.address,
        (Object::Control(was), Object::Control(is)) => same_control(was, is),
        _ => false,
    }
}

/// Returns whether the content of an object is as it was, or only lost links.
pub fn lessens(was: &Object, now: &Object) -> bool
    ensures { IsTrue result ↔ Lessens was.now now.now }
{
    if same_content(was, now) {
        return true;
    }
    match (was, now) {
        (Object::Tcb(old), Object::Tcb(new)) => is_released(old, new),
        (Object::Reply(old), Object::Reply(new)) => is_freed(old, new),
        (Object::Context(old), Object::Context(new)) => is_unbound(old, new),
        _ => false,
    }
}
