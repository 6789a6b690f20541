//! Level signs, and the bytes that they are written as.
ghost use Rattle.std.specs.Prelude.{◌≡◌};
ghost use Rattle.mess.specs.Signs.{SignOr, sep_byte};

/// A level sign: what joins two levels of a Complex.
#[derive(Clone, Copy)]
pub enum Sep {
    /// `:`
    Colon,
    /// `-`
    Hyphen,
    /// `+`
    Plus,
    /// `_`
    Underscore,
    /// `~`
    Tilde,
}

/// A byte that is no level sign.
#[derive(Clone, Copy)]
pub struct NoSep(pub u8);

impl TryFrom<u8> for Sep {
    type Error = NoSep;

    ghost try_from_gives = { SignOr };

    fn try_from(byte: u8) -> Result<Sep, NoSep> {
        match byte {
            b':' => Ok(Sep::Colon),
            b'-' => Ok(Sep::Hyphen),
            b'+' => Ok(Sep::Plus),
            b'_' => Ok(Sep::Underscore),
            b'~' => Ok(Sep::Tilde),
            _ => Err(NoSep(byte)),
        }
    }
}

impl From<Sep> for u8 {
    ghost from_gives = { λ sep byte. byte ≡ sep_byte sep };

    fn from(sep: Sep) -> u8 {
        match sep {
            Sep::Colon => b':',
            Sep::Hyphen => b'-',
            Sep::Plus => b'+',
            Sep::Underscore => b'_',
            Sep::Tilde => b'~',
        }
    }
}
