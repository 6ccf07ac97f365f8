//! A law on meetings of two seats, and the calls that come after them.
ghost use Rattle.machine.specs.declared.call.{Event.Event as Made, Outcome.Outcome as Answered};
ghost use Rattle.cores.specs.Seats.{Calls, ComesAfter, Known, Meet};

/// A law: where two seats have met, the next call of the one comes after all that the other had seen and made.
///
/// A meeting of two seats is one of both, so that it doesn't matter which of them calls.
pub fn calls_after_a_meeting_come_after_both()
    ensures after { (first second called : Known) (event : Made) (outcome : Answered)
        → Meet first second
        → Calls second event outcome called
        → ComesAfter first second event outcome called }
    ensures both { (first second : Known) → Meet first second → Meet second first }
{}
