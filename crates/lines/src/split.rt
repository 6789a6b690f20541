ghost use Rattle.std.specs.Prelude.{◌≡◌, ◌==◌, position};
ghost use Rattle.lines.specs.Split.{word_of, rest_of, First};

// The first place that holds a byte. For this one line `memchr` would be a library more.
fn place_of(text: &[u8], byte: u8) -> Option<usize>
    ensures { result ≡ position (λ b. b == byte) text.now }
{
    text.iter().position(|b| *b == byte)
}

/// The bytes before the first blank, and those behind it; without one the whole line, and nothing.
pub fn split_blank(line: &[u8]) -> (&[u8], &[u8])
    ensures word { result.0.now ≡ word_of line.now }
    ensures rest { result.1.now ≡ rest_of line.now }
{
    match place_of(line, b' ') {
        Some(i) => (&line[..i], &line[i + 1..]),
        None => (line, &[]),
    }
}

/// The first place at or behind `at` that holds a newline.
pub fn line_end(block: &[u8], at: usize) -> Option<usize>
    ensures { First 10 block.now at result }
{
    let found = place_of(block.get(at..)?, b'\n')?;
    Some(at + found)
}
