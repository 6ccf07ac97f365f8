//! The release of a thread whose message was delivered: it continues, waits for an answer, or is halted.
ghost use Rattle.std.specs.Prelude.{◌≡◌};
ghost use Rattle.machine.specs.{Releasing.IsInItsQueue, Step.Deliver.{answer_through, linked, sent}};

use base::ObjId;
use machine::{Calling, Sending};
use objects::State;
use replies::{halt, link, resume};

/// Returns the reply through which a call is answered, if there is one.
pub fn answer_through(sending: Sending, reply: Option<ObjId>) -> Option<ObjId>
    ensures { result ≡ answer_through sending reply }
{
    if sending.can_reply { reply } else { None }
}

/// Makes a thread whose call was delivered wait for its answer, or halts it if there is no reply for one.
pub fn link_or_halt(state: &mut State, caller: ObjId, reply: Option<ObjId>)
    requires { IsInItsQueue state.old caller }
    ensures { state.new ≡ linked state.old caller reply }
{
    halt(state, caller);
    if let Some(id) = reply {
        let calling = Calling {
            reply: id,
            lent: None,
        };
        link(state, caller, calling);
    }
}

/// Makes a thread whose message was delivered continue, or wait for the answer if it called.
pub fn release(state: &mut State, sender: ObjId, sending: Sending, reply: Option<ObjId>)
    requires { IsInItsQueue state.old sender }
    ensures { state.new ≡ sent state.old sender sending reply }
{
    if sending.is_call {
        link_or_halt(state, sender, answer_through(sending, reply));
    } else {
        resume(state, sender);
    }
}
