//! The operands of calls, each read off the words that are left.
ghost use Rattle.words.specs.Reading.{Gives};
ghost use Rattle.evtext.specs.Operands.{both, data_at, four, four_at, memory_kind_at, number, optional, optional_at, optional_slot_at};
ghost use Rattle.evtext.specs.Operands.{rights_at, slot_address_at, two_numbers};

use crate::line::is;
use base::Rights;
use machine::{CapData, MemoryKind, SlotAddress};
use words::{Words, Wrong, decimal_of};

/// The next words as the operands of a send or a call: where to, what, and what goes along.
#[tactic(auto, unfolding(words::specs::Parts::in_turn, words::specs::Reading::bind))]
pub(crate) fn next_message(words: &mut Words<'_>) -> Result<(u64, [u64; 4], Option<u64>), Wrong>
    ensures { Gives (λ message. ((message.0, (message.1, message.2)), words.new)) result ((both number (both four optional)).read words.old) }
{
    let address = words.number()?;
    let message = next_four(words)?;
    let capability = next_optional(words)?;
    Ok((address, message, capability))
}

/// The next words as the four words of a message.
#[tactic(auto, unfolding(crate::specs::Operands::four_at, words::specs::Parts::in_turn, words::specs::Parts::read_as, words::specs::Reading::bind))]
pub(crate) fn next_four(words: &mut Words<'_>) -> Result<[u64; 4], Wrong>
    ensures { Gives (λ four. (four, words.new)) result (four_at words.old) }
{
    let first = words.number()?;
    let second = words.number()?;
    let third = words.number()?;
    let fourth = words.number()?;
    Ok([first, second, third, fourth])
}

/// The next word as an address, or `-` for none.
#[tactic(auto, unfolding(crate::specs::Operands::optional_at, words::specs::Reading::or_syntax, words::specs::Reading::bind))]
pub(crate) fn next_optional(words: &mut Words<'_>) -> Result<Option<u64>, Wrong>
    ensures { Gives (λ address. (address, words.new)) result (optional_at words.old) }
{
    let word = words.word()?;
    if is(word, b"-") {
        return Ok(None);
    }
    let address = decimal_of(word).ok_or(Wrong::Syntax)?;
    Ok(Some(address))
}

/// The next words as a slot, or `-` for none.
#[tactic(auto, unfolding(crate::specs::Operands::optional_slot_at, crate::specs::Operands::slot_address_at, words::specs::Number::number_at, words::specs::Parts::in_turn, words::specs::Parts::read_as, words::specs::Reading::or_syntax, words::specs::Reading::bind))]
pub(crate) fn next_optional_slot(words: &mut Words<'_>) -> Result<Option<SlotAddress>, Wrong>
    ensures { Gives (λ slot. (slot, words.new)) result (optional_slot_at words.old) }
{
    let word = words.word()?;
    if is(word, b"-") {
        return Ok(None);
    }
    let root = decimal_of(word).ok_or(Wrong::Syntax)?;
    let index = words.number()?;
    let depth = words.number()?;
    Ok(Some(SlotAddress { root, index, depth }))
}

/// The next words as two numbers.
#[tactic(auto, unfolding(words::specs::Parts::in_turn, words::specs::Reading::bind))]
pub(crate) fn next_two(words: &mut Words<'_>) -> Result<(u64, u64), Wrong>
    ensures { Gives (λ two. ((two.0, two.1), words.new)) result (two_numbers.read words.old) }
{
    let first = words.number()?;
    let second = words.number()?;
    Ok((first, second))
}

/// The next words as a slot: root, index and depth.
#[tactic(auto, unfolding(crate::specs::Operands::slot_address_at, words::specs::Parts::in_turn, words::specs::Parts::read_as, words::specs::Reading::bind))]
pub(crate) fn next_slot_address(words: &mut Words<'_>) -> Result<SlotAddress, Wrong>
    ensures { Gives (λ slot. (slot, words.new)) result (slot_address_at words.old) }
{
    let root = words.number()?;
    let index = words.number()?;
    let depth = words.number()?;
    Ok(SlotAddress { root, index, depth })
}

/// The next word as a kind of object that is made of memory.
#[tactic(auto, unfolding(crate::specs::Operands::memory_kind_at, words::specs::Reading::or_syntax, words::specs::Reading::bind))]
pub(crate) fn next_memory_kind(words: &mut Words<'_>) -> Result<MemoryKind, Wrong>
    ensures { Gives (λ kind. (kind, words.new)) result (memory_kind_at words.old) }
{
    let word = words.word()?;
    MemoryKind::from_name(word).ok_or(Wrong::Syntax)
}

/// The next word as a set of rights.
#[tactic(auto, unfolding(crate::specs::Operands::rights_at, words::specs::Reading::or_syntax, words::specs::Reading::bind))]
pub(crate) fn next_rights(words: &mut Words<'_>) -> Result<Rights, Wrong>
    ensures { Gives (λ rights. (rights, words.new)) result (rights_at words.old) }
{
    let word = words.word()?;
    Rights::from_word(word).ok_or(Wrong::Syntax)
}

/// The next words as what a mint gives.
#[tactic(auto, unfolding(crate::specs::Operands::data_at, words::specs::Parts::by_word, words::specs::Parts::in_turn, words::specs::Parts::keyed, words::specs::Parts::read_as, words::specs::Reading::bind))]
pub(crate) fn next_data(words: &mut Words<'_>) -> Result<CapData, Wrong>
    ensures { Gives (λ given. (given, words.new)) result (data_at words.old) }
{
    let name = words.word()?;
    if is(name, b"badge") {
        let badge = words.number()?;
        Ok(CapData::Badge(badge))
    } else if is(name, b"guard") {
        let size = words.number()?;
        let value = words.number()?;
        Ok(CapData::Guard { size, value })
    } else {
        Err(Wrong::Syntax)
    }
}
