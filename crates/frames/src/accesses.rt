//! The calls Read and Write, on the words of a frame.
ghost use Rattle.std.specs.Prelude.{◌≡◌};
ghost use Rattle.machine.specs.{Machine.words_of, Makes.Makes, Step.Words.{in_frame, read_of, word_in, write_of}, WellFormed.IsWellFormed};

use base::{Cause, ObjId, Rights};
use bitflags::Flags;
use cspace::{find, permit};
use machine::{Answer, Made, ObjectKind};
use objects::State;
use steps::calls_keep_machines_well_formed;

/// Refuses an index past the 512 words of a frame.
fn in_frame(index: u64) -> Result<(), Cause>
    ensures { result ≡ in_frame index }
{
    if index < 512 {
        Ok(())
    } else {
        Err(Cause::RangeError)
    }
}

/// The word of an object at an index; 0 where it has none there.
fn word(state: &State, id: ObjId, index: u64) -> u64
    ensures { result ≡ word_in (words_of state.now id) index }
{
    state.word(id, index).unwrap_or(0)
}

/// Reads the word of 64 bits at an index of the frame at an address.
///
/// (confine's own: seL4 maps frames, and threads read them by their own instructions; seL4 manual,
/// "Virtual Memory".)
///
/// # Errors
///
/// Those of [`find`], [`Cause::InvalidCapability`] (2) where the right Read is missing, and then
/// [`Cause::RangeError`] (4) where the index isn't below 512.
#[tactic(auto, unfolding(machine::specs::Step::Words::read_of))]
pub fn read_word(state: &State, caller: ObjId, address: u64, index: u64) -> Result<Made, Cause>
    ensures { Makes state.now state.now result (read_of state.now caller address index) }
{
    let (_, cap) = find(state, ObjectKind::Frame, caller, address)?;
    permit(cap.detail.badged().rights.contains(Rights::READ))?;
    in_frame(index)?;
    Ok(Made::Done(Answer::Word(word(state, cap.object, index))))
}

// Does what the row of a write says.
#[tactic(auto, unfolding(machine::specs::Step::Words::write_of))]
fn make_write_word(
    state: &mut State,
    caller: ObjId,
    address: u64,
    index: u64,
    word: u64,
) -> Result<Made, Cause>
    ensures { Makes state.old state.new result (write_of state.old caller address index word) }
{
    let (_, cap) = find(state, ObjectKind::Frame, caller, address)?;
    permit(cap.detail.badged().rights.contains(Rights::WRITE))?;
    in_frame(index)?;
    state.set_word(cap.object, index, word);
    Ok(Made::Done(Answer::Nothing))
}

/// Writes the word of 64 bits at an index of the frame at an address.
///
/// (confine's own, as [`read_word`].)
///
/// # Errors
///
/// Those of [`find`], [`Cause::InvalidCapability`] (2) where the right Write is missing, and then
/// [`Cause::RangeError`] (4) where the index isn't below 512.
pub fn write_word(
    state: &mut State,
    caller: ObjId,
    address: u64,
    index: u64,
    word: u64,
) -> Result<Made, Cause>
    requires well_formed { IsWellFormed state.old }
    ensures made { Makes state.old state.new result (write_of state.old caller address index word) }
    ensures well_formed { IsWellFormed state.new }
{
    // A law, so that the state stays well formed.
    calls_keep_machines_well_formed();
    make_write_word(state, caller, address, index, word)
}
