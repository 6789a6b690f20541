ghost use Rattle.std.specs.Prelude.{◌≡◌, ◌/◌, ◌%◌, ◌<◌, ◌≤◌, true, length, take, drop, None, MatchOption};
ghost use Rattle.std.specs.List.{list_all};
ghost use Rattle.lines.specs.Hex.{upper_digit, hex_digit, digit_worth, hyphen, paired, unhexed, Long, Unhexes};

// The upper-case digit for a number below 16.
fn upper_digit(n: u8) -> u8
    requires { n < 16 }
    ensures { result ≡ upper_digit n }
{
    if n < 10 { b'0' + n } else { b'A' - 10 + n }
}

/// The two upper-case digits of a byte.
pub fn hex_byte(byte: u8) -> (u8, u8)
    ensures { result ≡ (upper_digit (byte / 16), upper_digit (byte % 16)) }
{
    (upper_digit(byte / 16), upper_digit(byte % 16))
}

// The library `hex` reads digits of both cases, so that each would still be tested here first, and needs a room of just the
// length that is written.
fn is_digit(b: u8) -> bool
    ensures { result ≡ hex_digit b }
{
    matches!(b, b'0'..=b'9' | b'a'..=b'f')
}

// The number that a digit writes.
fn digit_worth(b: u8) -> u8
    requires { hex_digit b ≡ true }
    ensures worth { result ≡ digit_worth b }
    ensures small { result < 16 }
{
    if b <= b'9' { b - b'0' } else { b - b'a' + 10 }
}

fn all_digits(hex: &[u8]) -> bool
    ensures { result ≡ list_all hex_digit hex.now }
{
    hex.iter().all(|b| is_digit(*b))
}

fn is_hyphen(hex: &[u8]) -> bool
    ensures { result ≡ hyphen hex.now }
{
    matches!(hex, [b'-'])
}

// How long the text is that a field writes.
fn unhexed_len(hex: &[u8]) -> Option<usize>
    ensures { MatchOption result (unhexed hex.now ≡ None) (Long hex.now) }
{
    if is_hyphen(hex) {
        return Some(0);
    }
    (hex.len() % 2 == 0 && all_digits(hex)).then_some(hex.len() / 2)
}

// Writes the bytes of a text of that length in front of `out`.
fn write_pairs(hex: &[u8], out: &mut [u8], count: usize)
    requires long { Long hex.now count }
    requires room { count ≤ length out.old }
    ensures front { take count out.new ≡ paired hex.now }
    ensures rest { drop count out.new ≡ drop count out.old }
{
    for (i, [high, low]) in hex.as_chunks::<2>().0.iter().enumerate() {
        out[i] = digit_worth(*high) * 16 + digit_worth(*low);
    }
}

/// The text that a field writes in hex, put in front of `out`, and its length. None changes nothing.
pub fn unhex(hex: &[u8], out: &mut [u8]) -> Option<usize>
    ensures { Unhexes hex.now out.old result out.new }
{
    let count = unhexed_len(hex)?;
    if count > out.len() {
        return None;
    }
    write_pairs(hex, out, count);
    Some(count)
}
