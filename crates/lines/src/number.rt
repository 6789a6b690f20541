ghost use Rattle.std.specs.Prelude.{◌≡◌};
ghost use Rattle.lines.specs.Number.{upto, decimal_of};

// The number that digits write, if it is at most `most`. Not by `digits_at`, which looks for the end of all digits first: here
// reading stops where the number is too large.
fn number_upto(text: &[u8], most: usize) -> Option<usize>
    ensures { result ≡ upto most text.now }
{
    let mut value: usize = 0;
    for byte in text {
        if !byte.is_ascii_digit() {
            return None;
        }
        value = value
            .checked_mul(10)?
            .checked_add(usize::from(*byte - b'0'))?;
        if value > most {
            return None;
        }
    }
    Some(value)
}

/// A plain decimal number, 4294967295 or less: one or more digits, which may begin with 0.
pub fn decimal(text: &[u8]) -> Option<usize>
    ensures { result ≡ decimal_of text.now }
{
    if text.is_empty() {
        None
    } else {
        number_upto(text, 4294967295)
    }
}
