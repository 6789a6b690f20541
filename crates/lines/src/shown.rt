ghost use Rattle.std.specs.Prelude.{◌≡◌, ◌++◌, length, IfOk, string_bytes, OnOk};
ghost use Rattle.lines.specs.Shown.{printable, shown_byte, shown_of, column_of};

use crate::hex::hex_byte;
use std::alloc::{AllocError, Global};

fn is_printable(byte: u8) -> bool
    ensures { result ≡ printable byte }
{
    byte.is_ascii_graphic()
}

// Adds a byte as it is shown.
fn push_byte(all: &mut String, byte: u8) -> Result<(), AllocError>
    ensures { OnOk result (string_bytes all.new ≡ string_bytes all.old ++ shown_byte byte) }
{
    if is_printable(byte) {
        return all.push(char::from(byte));
    }
    let (high, low) = hex_byte(byte);
    all.push_str("\\x")?;
    all.push(char::from(high))?;
    all.push(char::from(low))?;
    Ok(())
}

// Adds a text as it is shown.
fn push_text(all: &mut String, text: &[u8]) -> Result<(), AllocError>
    ensures { OnOk result (string_bytes all.new ≡ string_bytes all.old ++ shown_of text.now) }
{
    for b in text {
        push_byte(all, *b)?;
    }
    Ok(())
}

/// The text as it is shown to a person: a byte from 33 to 126 as itself, any other as `\xHH`.
pub fn shown(heap: Global, text: &[u8]) -> Result<String, AllocError>
    ensures { IfOk result (λ s. string_bytes s ≡ shown_of text.now) }
{
    let mut all = String::new(heap);
    push_text(&mut all, text)?;
    Ok(all)
}

// How many characters a byte is shown as.
fn width(byte: u8) -> usize
    ensures { result ≡ length (shown_byte byte) }
{
    if is_printable(byte) { 1 } else { 4 }
}

/// How many characters are shown before the byte at `place`, or in all where the text is no longer:
/// at most as many as a `usize` counts.
pub fn column(text: &[u8], place: usize) -> usize
    ensures { result ≡ column_of text.now place }
{
    text[..place.min(text.len())]
        .iter()
        .fold(0, |count: usize, b| count.saturating_add(width(*b)))
}
