//! An event as a line of a script or a log has it.
ghost use Rattle.std.specs.{Prelude.◌≡◌, Str.bytes_eq};
ghost use Rattle.{words.specs.Reading.Gives, evtext.specs.Event.{event_at, within_limits}};

use crate::call::next_call;
use base::{CoreNo, MAX_EVENTS, ObjId};
use machine::Call;
use words::{Words, Wrong};

/// An event as a line has it. Its core's number may be too large.
#[derive(Clone, Copy)]
pub(crate) struct Claimed {
    pub(crate) core: u64,
    pub(crate) thread: ObjId,
    pub(crate) call: Call,
}

impl Claimed {
    /// The event's core, where there can be such a core, and an event after as many as `before`.
    #[tactic(auto, unfolding(crate::specs::Event::within_limits))]
    pub(crate) fn core_within(&self, before: usize) -> Result<CoreNo, Wrong>
        ensures { Gives (λ core. record { core = core; thread = self.now.thread; call = self.now.call }) result
            (within_limits before (record { core = self.now.core; thread = self.now.thread; call = self.now.call })) }
    {
        match CoreNo::new(self.core) {
            Some(core) if before < MAX_EVENTS => Ok(core),
            _ => Err(Wrong::Limit),
        }
    }
}

// Whether a word is this one: most differ in their lengths or their first bytes.
pub(crate) fn is(word: &[u8], wanted: &[u8]) -> bool
    ensures { result ≡ bytes_eq word.now wanted.now }
{
    if word.len() != wanted.len() {
        return false;
    }
    for index in 0..word.len() {
        if word[index] != wanted[index] {
            return false;
        }
    }
    true
}

/// The next words as an event.
#[tactic(auto, unfolding(crate::specs::Event::event_at, words::specs::Parts::in_turn, words::specs::Parts::read_as, words::specs::Reading::bind))]
pub(crate) fn next_event(words: &mut Words<'_>) -> Result<Claimed, Wrong>
    ensures { Gives
        (λ event. (record { core = event.core; thread = event.thread; call = event.call }, words.new))
        result
        (event_at words.old) }
{
    let core = words.number()?;
    let thread = words.number()?;
    let call = next_call(words)?;
    Ok(Claimed {
        core,
        thread: ObjId(thread),
        call,
    })
}
