//! Outcomes as the lines of a log have them.
ghost use Rattle.std.specs.Prelude.{◌≡◌};
ghost use Rattle.machine.specs.declared.call.Outcome.TheVariants.{Done};
ghost use Rattle.words.specs.{Number.number_at, Parts.{in_turn, read_as}, Reading.Gives};
ghost use Rattle.evtext.specs.Outcome.{answer_at, equals_at, flag_at, outcome_at, received_at, refused_of};

use crate::line::is;
use crate::operands::next_four;
use base::Refusal;
use machine::{Answer, Message, Outcome};
use words::{Words, Wrong};

/// The next words as `=` and an outcome.
#[tactic(auto, unfolding(crate::specs::Outcome::equals_at, words::specs::Parts::by_word, words::specs::Parts::keyed, words::specs::Reading::bind))]
pub(crate) fn next_result(words: &mut Words<'_>) -> Result<Outcome, Wrong>
    ensures { Gives (λ outcome. (outcome, words.new)) result (equals_at words.old) }
{
    let word = words.word()?;
    if !is(word, b"=") {
        return Err(Wrong::Syntax);
    }
    next_outcome(words)
}

/// The next words as an outcome.
#[tactic(auto, unfolding(crate::specs::Outcome::outcome_at, crate::specs::Outcome::blocked_at, words::specs::Parts::by_word, words::specs::Parts::keyed, words::specs::Reading::bind))]
fn next_outcome(words: &mut Words<'_>) -> Result<Outcome, Wrong>
    ensures { Gives (λ outcome. (outcome, words.new)) result (outcome_at words.old) }
{
    let name = words.word()?;
    if is(name, b"done") {
        return next_done(words);
    }
    if is(name, b"blocked") {
        return Ok(Outcome::Blocked);
    }
    if is(name, b"refused") {
        return next_refused(words);
    }
    Err(Wrong::Syntax)
}

/// The words after `refused` as an outcome: a code and a detail.
#[tactic(auto, unfolding(words::specs::Parts::in_turn, words::specs::Parts::read_as, words::specs::Reading::bind))]
fn next_refused(words: &mut Words<'_>) -> Result<Outcome, Wrong>
    ensures { Gives (λ outcome. (outcome, words.new)) result (read_as refused_of (in_turn number_at number_at) words.old) }
{
    let code = words.number()?;
    let detail = words.number()?;
    Ok(Outcome::Refused(Refusal { code, detail }))
}

/// The words after `done` as an outcome: what the call answers.
#[tactic(auto, unfolding(crate::specs::Outcome::answer_at, crate::specs::Outcome::aborted_at, words::specs::Parts::by_word, words::specs::Parts::keyed, words::specs::Parts::read_as, words::specs::Reading::bind, words::specs::Reading::word_at))]
fn next_done(words: &mut Words<'_>) -> Result<Outcome, Wrong>
    ensures { Gives (λ outcome. (outcome, words.new)) result (read_as Done answer_at words.old) }
{
    let Some(name) = words.next_word() else {
        return Ok(Outcome::Done(Answer::Nothing));
    };
    if is(name, b"word") {
        let word = words.number()?;
        return Ok(Outcome::Done(Answer::Word(word)));
    }
    if is(name, b"msg") {
        let message = next_received(words)?;
        return Ok(Outcome::Done(Answer::Message(message)));
    }
    if is(name, b"count") {
        let count = words.number()?;
        return Ok(Outcome::Done(Answer::Count(count)));
    }
    if is(name, b"aborted") {
        return Ok(Outcome::Done(Answer::Aborted));
    }
    Err(Wrong::Syntax)
}

/// The next words as a message that was received.
#[tactic(auto, unfolding(crate::specs::Outcome::received_at, words::specs::Parts::in_turn, words::specs::Parts::read_as, words::specs::Reading::bind))]
fn next_received(words: &mut Words<'_>) -> Result<Message, Wrong>
    ensures { Gives (λ message. (message, words.new)) result (received_at words.old) }
{
    let badge = words.number()?;
    let message = next_four(words)?;
    let capability = next_flag(words)?;
    Ok(Message {
        badge,
        words: message,
        capability,
    })
}

/// The next word as a yes, `1`, or a no, `0`.
#[tactic(auto, unfolding(crate::specs::Outcome::flag_at, words::specs::Reading::or_syntax, words::specs::Reading::bind))]
fn next_flag(words: &mut Words<'_>) -> Result<bool, Wrong>
    ensures { Gives (λ flag. (flag, words.new)) result (flag_at words.old) }
{
    let word = words.word()?;
    if is(word, b"1") {
        Ok(true)
    } else if is(word, b"0") {
        Ok(false)
    } else {
        Err(Wrong::Syntax)
    }
}
