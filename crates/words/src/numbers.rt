//! The spelling of decimal and hexadecimal numbers in texts.
ghost use Rattle.std.specs.{Fmt.decimal, List.list_all, Prelude.{ℕ, ◌*◌, ◌+◌, ◌<◌, ◌^◌, ◌↔◌, ◌≡◌, ◌≢◌, List, Some}};
ghost use Rattle.words.specs.Number.{below_limit, dec_of, has_no_leading_zero, hex_digits_of, hex_of, hexadecimal};
ghost use Rattle.words.specs.Number.{is_hex_digit, is_hexadecimal};

use std::str;

/// Returns the number that a word spells in decimal, if it spells one below 2^64.
pub fn decimal_of(word: &[u8]) -> Option<u64>
    ensures { result ≡ dec_of word.now }
{
    if !has_no_leading_zero(word) {
        return None;
    }
    let mut number = 0;
    for byte in word {
        if !byte.is_ascii_digit() {
            return None;
        }
        number = with_digit(number, *byte - b'0')?;
    }
    Some(number)
}

// The number with one digit more.
fn with_digit(number: u64, digit: u8) -> Option<u64>
    ensures { result ≡ below_limit (number * 10 + digit) }
{
    number.checked_mul(10)?.checked_add(digit as u64)
}

/// Returns the number that a word spells in hexadecimal, as `0x1f`, if it spells one below 2^64.
#[tactic(auto, unfolding(crate::specs::Number::hex_of))]
pub fn hexadecimal_of(word: &[u8]) -> Option<u64>
    ensures { result ≡ hex_of word.now }
{
    hex_digits_of(word.strip_prefix(b"0x")?)
}

#[tactic(auto, using(crate::proofs::Hexadecimals::hexadecimal_laws))]
fn hex_digits_of(digits: &[u8]) -> Option<u64>
    ensures { result ≡ hex_digits_of digits.now }
{
    if !is_hexadecimal(digits) {
        return None;
    }
    let text = str::from_utf8(digits).ok()?;
    u64::from_str_radix(text, 16).ok()
}

fn is_hexadecimal(digits: &[u8]) -> bool
    ensures { result ≡ is_hexadecimal digits.now }
{
    has_no_leading_zero(digits) && all_hex_digits(digits)
}

fn has_no_leading_zero(digits: &[u8]) -> bool
    ensures { result ≡ has_no_leading_zero digits.now }
{
    match digits {
        [] => false,
        [_] => true,
        [first, ..] => *first != b'0',
    }
}

fn all_hex_digits(word: &[u8]) -> bool
    ensures { result ≡ list_all is_hex_digit word.now }
{
    word.iter()
        .all(|byte| matches!(byte, b'0'..=b'9' | b'a'..=b'f'))
}

/// A law: a word spells a number below 2^64 exactly if it is the number's word.
///
/// The law holds of decimal and of hexadecimal words. So a number has one word of each form,
/// different numbers have different words, and no word is of both forms.
pub fn numbers_are_read_back()
    ensures decimal { (word : List ℕ) (n : ℕ)
        → (dec_of word ≡ Some n) ↔ ((word ≡ decimal n) × (n < 2 ^ 64)) }
    ensures decimal_word { (one other : List ℕ) (n : ℕ)
        → dec_of one ≡ Some n → dec_of other ≡ Some n → one ≡ other }
    ensures decimal_once { (one other : ℕ) → one < 2 ^ 64 → other < 2 ^ 64
        → decimal one ≡ decimal other → one ≡ other }
    ensures hexadecimal { (word : List ℕ) (n : ℕ)
        → (hex_of word ≡ Some n) ↔ ((word ≡ hexadecimal n) × (n < 2 ^ 64)) }
    ensures hexadecimal_word { (one other : List ℕ) (n : ℕ)
        → hex_of one ≡ Some n → hex_of other ≡ Some n → one ≡ other }
    ensures hexadecimal_once { (one other : ℕ) → one < 2 ^ 64 → other < 2 ^ 64
        → hexadecimal one ≡ hexadecimal other → one ≡ other }
    ensures apart { (one other : ℕ) → one < 2 ^ 64 → decimal one ≢ hexadecimal other }
{}
