//! The class of a run, as it is read byte by byte.
ghost use Rattle.std.specs.Prelude.{◌≡◌};
ghost use Rattle.mess.specs.Classes.{with_digit, after_of, Scanned};

use parsers::run_end;

/// What the bytes of a run are, as far as they are read.
#[derive(Clone, Copy)]
pub enum Class {
    /// No byte is read yet.
    Start,
    /// The letter r alone.
    OnlyR,
    /// Digits, and the number that they write.
    Digits(u32),
    /// The letter r and digits, and the number that they write.
    Rev(u32),
    /// None of these, whatever follows.
    Plain,
}

/// A number with one digit more, if it is at most 4,294,967,295.
fn with_digit(number: u32, digit: u8) -> Option<u32>
    ensures { result ≡ with_digit number digit }
{
    number.checked_mul(10)?.checked_add(u32::from(digit))
}

/// The class after one byte more.
fn after(class: Class, byte: u8) -> Class
    ensures { result ≡ after_of class byte }
{
    match (class, byte) {
        (Class::Start, b'0'..=b'9') => Class::Digits(u32::from(byte - b'0')),
        (Class::Start, b'r') => Class::OnlyR,
        (Class::OnlyR, b'0'..=b'9') => Class::Rev(u32::from(byte - b'0')),
        (Class::Digits(number), b'0'..=b'9') => {
            with_digit(number, byte - b'0').map_or(Class::Plain, Class::Digits)
        }
        (Class::Rev(number), b'0'..=b'9') => {
            with_digit(number, byte - b'0').map_or(Class::Plain, Class::Rev)
        }
        _ => Class::Plain,
    }
}

/// The class of the run in front of a text, and how long the run is.
pub fn scan(text: &[u8]) -> (Class, usize)
    ensures { Scanned text.now result }
{
    let end = run_end(text, 0);
    let mut class = Class::Start;
    for byte in &text[..end] {
        class = after(class, *byte);
    }
    (class, end)
}
