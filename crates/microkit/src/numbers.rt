//! Values of attributes: numbers and flags.
ghost use Rattle.std.specs.{Char.{digit_value, is_digit}, Prelude.{ℕ, ◌*◌, ◌+◌, ◌<◌, ◌≡◌, ◌≤◌, MatchOption, false, true}};
ghost use Rattle.{words.specs.Number.below_limit, microkit.specs.Values.{bare, digits_of, flag_of, number_of}};

/// Returns the number that a value spells, in decimal or, after `0x`, in hexadecimal, if it is below 2 ^ 64.
#[tactic(auto, unfolding(crate::specs::Values::number_of))]
pub fn number_of(value: &[u8]) -> Option<u64>
    ensures { result ≡ number_of value.now }
{
    match value.strip_prefix(b"0x") {
        Some(digits) => digits_of(16, digits),
        None => digits_of(10, value),
    }
}

// The number that these digits spell, with or without `_` among them.
#[tactic(auto, using(crate::proofs::Digits::digit_more, crate::proofs::Digits::dropped, crate::proofs::Digits::stray, crate::proofs::Digits::over, crate::proofs::Digits::spelled, crate::proofs::Digits::begins))]
fn digits_of(base: u32, text: &[u8]) -> Option<u64>
    requires low { 2 ≤ base }
    requires high { base ≤ 16 }
    ensures { result ≡ digits_of base (bare text.now) }
{
    let mut number = None;
    for byte in text {
        if *byte != b'_' {
            let digit = digit_of(base, *byte)?;
            number = Some(with_digit(base, number.unwrap_or(0), digit)?);
        }
    }
    number
}

// The number with one more digit, if 64 bits hold it.
fn with_digit(base: u32, number: u64, digit: u32) -> Option<u64>
    ensures { result ≡ below_limit (number * base + digit) }
{
    number
        .checked_mul(u64::from(base))?
        .checked_add(u64::from(digit))
}

fn digit_of(base: u32, byte: u8) -> Option<u32>
    requires low { 2 ≤ base }
    requires high { base ≤ 16 }
    ensures { MatchOption result
        (is_digit byte base ≡ false)
        (λ digit. (is_digit byte base ≡ true) × (digit ≡ digit_value byte) × (digit < base)) }
{
    (byte as char).to_digit(base)
}

#[tactic(auto, unfolding(crate::specs::Values::flag_of))]
pub(crate) fn flag_of(value: &[u8]) -> Option<bool>
    ensures { result ≡ flag_of value.now }
{
    if value == b"true".as_slice() {
        return Some(true);
    }
    if value == b"false".as_slice() {
        return Some(false);
    }
    None
}
