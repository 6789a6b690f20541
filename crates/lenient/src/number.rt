//! The lenient number of a text.
ghost use Rattle.std.specs.Prelude.{◌≡◌};
ghost use Rattle.lenient.specs.Number.{lenient_number};

use parsers::digits_at;

/// The lenient number of a text: the worth of the digits at its front, zeros in front included, if there is a digit
/// and the worth is at most 4,294,967,295.
pub fn lenient_number(text: &[u8]) -> Option<u32>
    ensures { result ≡ lenient_number text.now }
{
    let (number, _) = digits_at(text, 0)?;
    Some(number)
}
