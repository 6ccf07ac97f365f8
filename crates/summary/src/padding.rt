//! Texts that are padded with spaces to a width.
ghost use Rattle.std.specs.{Fmt.decimal, Prelude.{◌++◌, ◌≡◌, IfOk, OnOk, replicate, string_bytes}};
ghost use Rattle.summary.specs.Padding.{pad_left, pad_right};

use std::alloc::{AllocError, Global};

/// Writes a text that ends at a width.
pub(crate) fn push_at_right(text: &mut String, piece: &str, width: usize) -> Result<(), AllocError>
    ensures { OnOk result (string_bytes text.new ≡ string_bytes text.old ++ pad_left width piece.now) }
{
    push_spaces(text, width.saturating_sub(piece.len()))?;
    text.push_str(piece)
}

/// Writes a text, and spaces up to a width.
pub(crate) fn push_at_left(text: &mut String, piece: &str, width: usize) -> Result<(), AllocError>
    ensures { OnOk result (string_bytes text.new ≡ string_bytes text.old ++ pad_right width piece.now) }
{
    text.push_str(piece)?;
    push_spaces(text, width.saturating_sub(piece.len()))
}

/// Returns a number as its decimal digits.
pub(crate) fn digits(alloc: Global, number: usize) -> Result<String, AllocError>
    ensures { IfOk result (λ text. string_bytes text ≡ decimal number) }
{
    let mut text = String::new(alloc);
    write!(text, "{number}")?;
    Ok(text)
}

fn push_spaces(text: &mut String, count: usize) -> Result<(), AllocError>
    ensures { OnOk result (string_bytes text.new ≡ string_bytes text.old ++ replicate count 32) }
{
    for index in 0..count {
        let _ = index;
        text.push_str(" ")?;
    }
    Ok(())
}
