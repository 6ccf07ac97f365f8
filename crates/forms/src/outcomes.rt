//! Outcomes in entries of a log: whether an entry has one (fault 50).
use crate::lines::word;
use crate::shapes::pattern_flaw;
use crate::wanted::WordFlaw;

/// A fault of an outcome.
#[derive(Clone, Copy)]
pub enum OutcomeFlaw<'a> {
    /// A word that begins no outcome.
    Unknown(&'a str),
    /// A word after `done` that begins no answer.
    NoAnswer(&'a str),
    /// A word that isn't as these words have it.
    Words(&'static str, WordFlaw<'a>),
}

/// Returns what is wrong with an outcome, if anything is.
pub fn outcome_flaw(outcome: &str) -> Option<OutcomeFlaw<'_>> {
    match pattern_of(outcome) {
        Ok(pattern) => Some(OutcomeFlaw::Words(pattern, pattern_flaw(pattern, outcome)?)),
        Err(flaw) => Some(flaw),
    }
}

// The words that an outcome is to have, by the first of them.
fn pattern_of(outcome: &str) -> Result<&'static str, OutcomeFlaw<'_>> {
    match word(outcome, 0).unwrap_or_default() {
        "blocked" => Ok("blocked"),
        "refused" => Ok("refused DEC DEC"),
        "done" => pattern_of_answer(word(outcome, 1)),
        other => Err(OutcomeFlaw::Unknown(other)),
    }
}

// The words that an outcome with this word after `done` is to have.
fn pattern_of_answer(answer: Option<&str>) -> Result<&'static str, OutcomeFlaw<'_>> {
    let Some(answer) = answer else {
        return Ok("done");
    };
    match answer {
        "aborted" => Ok("done aborted"),
        "word" => Ok("done word DEC"),
        "count" => Ok("done count DEC"),
        "msg" => Ok("done msg DEC DEC DEC DEC DEC C"),
        other => Err(OutcomeFlaw::NoAnswer(other)),
    }
}
