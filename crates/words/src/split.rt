//! Splitting bytes at the first byte of a value, or at the first line feed.
ghost use Rattle.std.specs.{List.slice_split, Prelude.{[], ◌<◌, ◌==◌, ◌∷◌, ◌≡◌, IfSome, MatchOption, length, position}};

use memchr::memchr;

/// The bytes before and after the first `byte`, or `None` if there is none.
#[tactic(auto, using(crate::proofs::Splits::split_round, crate::proofs::Splits::split_nowhere))]
pub(crate) fn split_first_at(byte: u8, bytes: &[u8]) -> Option<(&[u8], &[u8])>
    ensures parts { MatchOption result
        (slice_split (λ b. b == byte) bytes.now ≡ bytes.now ∷ [])
        (λ parts. slice_split (λ b. b == byte) bytes.now
        ≡ parts.0.now ∷ slice_split (λ b. b == byte) parts.1.now) }
    ensures shorter { IfSome result (λ parts. length parts.1.now < length bytes.now) }
{
    let at = position_of(byte, bytes)?;
    Some((&bytes[..at], &bytes[at + 1..]))
}

/// The bytes before and after the first line feed, or `None` if there is none.
#[tactic(auto, using(crate::proofs::Splits::split_round, crate::proofs::Splits::split_nowhere))]
pub(crate) fn split_line(bytes: &[u8]) -> Option<(&[u8], &[u8])>
    ensures parts { MatchOption result
        (slice_split (λ b. b == 10) bytes.now ≡ bytes.now ∷ [])
        (λ parts. slice_split (λ b. b == 10) bytes.now
        ≡ parts.0.now ∷ slice_split (λ b. b == 10) parts.1.now) }
    ensures shorter { IfSome result (λ parts. length parts.1.now < length bytes.now) }
{
    let at = line_feed_in(bytes)?;
    Some((&bytes[..at], &bytes[at + 1..]))
}

// Many bytes are compared at once, as lines are longer than words.
#[tactic(auto, using(crate::proofs::Splits::first_position))]
fn line_feed_in(bytes: &[u8]) -> Option<usize>
    ensures { result ≡ position (λ b. b == 10) bytes.now }
{
    memchr(b'\n', bytes)
}

fn position_of(byte: u8, bytes: &[u8]) -> Option<usize>
    ensures { result ≡ position (λ b. b == byte) bytes.now }
{
    bytes.iter().position(|b| *b == byte)
}
