ghost use Rattle.std.specs.Prelude.{◌≡◌};
ghost use Rattle.lines.specs.Line.{blank, comment};

/// Whether a line has only blanks, or nothing.
pub fn is_blank(line: &[u8]) -> bool
    ensures { result ≡ blank line.now }
{
    line.iter().all(|b| *b == b' ')
}

/// Whether a line begins with a number sign.
pub fn is_comment(line: &[u8]) -> bool
    ensures { result ≡ comment line.now }
{
    matches!(line, [b'#', ..])
}
