//! Which bytes may stand where, and how many of them stand at the front.
ghost use Rattle.std.specs.{List.prefix_len, Prelude.{◌≡◌, ◌≤◌, length}};
ghost use Rattle.xml.specs.Characters.{begins_with, comment_length, in_comment, is_comment_byte, is_name_byte};
ghost use Rattle.xml.specs.Characters.{is_name_start, is_printable, is_space, is_value_byte, name_length};

fn is_space(byte: u8) -> bool
    ensures { result ≡ is_space byte }
{
    byte == b' ' || byte == b'\t' || byte == b'\n' || byte == b'\r'
}

fn is_name_start(byte: u8) -> bool
    ensures { result ≡ is_name_start byte }
{
    byte.is_ascii_alphabetic() || byte == b'_'
}

fn is_name_byte(byte: u8) -> bool
    ensures { result ≡ is_name_byte byte }
{
    byte.is_ascii_alphanumeric() || byte == b'_' || byte == b'-' || byte == b'.'
}

/// Whether a byte is printable ASCII.
pub(crate) fn is_printable(byte: u8) -> bool
    ensures { result ≡ is_printable byte }
{
    (b' '..=b'~').contains(&byte)
}

fn is_value_byte(quote: u8, byte: u8) -> bool
    ensures { result ≡ is_value_byte quote byte }
{
    is_printable(byte) && byte != b'<' && byte != quote
}

fn is_comment_byte(byte: u8) -> bool
    ensures { result ≡ is_comment_byte byte }
{
    is_space(byte) || is_printable(byte) || byte >= 128
}

/// How many bytes at the front are white space.
pub(crate) fn space_length(bytes: &[u8]) -> usize
    ensures exact { result ≡ prefix_len is_space bytes.now }
    ensures fits { result ≤ length bytes.now }
{
    bytes.iter().take_while(|byte| is_space(**byte)).count()
}

/// How many bytes at the front may stand in a value between such quotes.
pub(crate) fn value_length(quote: u8, bytes: &[u8]) -> usize
    ensures exact { result ≡ prefix_len (is_value_byte quote) bytes.now }
    ensures fits { result ≤ length bytes.now }
{
    bytes
        .iter()
        .take_while(|byte| is_value_byte(quote, **byte))
        .count()
}

fn name_bytes(bytes: &[u8]) -> usize
    ensures exact { result ≡ prefix_len is_name_byte bytes.now }
    ensures fits { result ≤ length bytes.now }
{
    bytes.iter().take_while(|byte| is_name_byte(**byte)).count()
}

/// How many bytes at the front make a name, or 0.
#[tactic(auto, unfolding(crate::specs::Characters::name_length))]
pub(crate) fn name_length(bytes: &[u8]) -> usize
    ensures exact { result ≡ name_length bytes.now }
    ensures fits { result ≤ length bytes.now }
{
    match bytes {
        [first, ..] if is_name_start(*first) => name_bytes(bytes),
        _ => 0,
    }
}

// Whether a comment continues by one byte.
#[tactic(auto, unfolding(crate::specs::Characters::in_comment))]
fn in_comment(bytes: &[u8]) -> bool
    ensures { result ≡ in_comment bytes.now }
{
    match bytes {
        [] => false,
        [first, ..] => is_comment_byte(*first) && !begins_with(bytes, b"--"),
    }
}

/// How many bytes at the front stand before the first `--`, or before the first byte that may not
/// stand in a comment.
#[tactic(auto, using(crate::proofs::Lengths::comment_more, crate::proofs::Lengths::comment_ends, crate::proofs::Lengths::comment_past))]
pub(crate) fn comment_length(bytes: &[u8]) -> usize
    ensures exact { result ≡ comment_length bytes.now }
    ensures fits { result ≤ length bytes.now }
{
    for index in 0..bytes.len() {
        if !in_comment(&bytes[index..]) {
            return index;
        }
    }
    bytes.len()
}

/// Whether these bytes come first.
pub(crate) fn begins_with(bytes: &[u8], front: &[u8]) -> bool
    ensures exact { result ≡ begins_with bytes.now front.now }
{
    bytes.starts_with(front)
}
