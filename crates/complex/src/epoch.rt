//! A first level that reads as an epoch, and the Complex behind it.
ghost use Rattle.std.specs.Prelude.{◌≡◌};
ghost use Rattle.std.specs.Option.{option_map};
ghost use Rattle.complex.specs.Views.{parts_of, level_in};
ghost use Rattle.complex.specs.Fronts.{behind_first, alone, epoch_like};

use crate::views::{LevelIn, MessIn};
use mess::mchunk::MChunk;
use mess::sep::Sep;
use order::Parts;

impl<'a> MessIn<'a> {
    /// The Complex behind the first level, if there is a further one.
    pub fn behind_first(&self) -> Option<MessIn<'a>>
        ensures { option_map parts_of result ≡ behind_first (parts_of self.now) }
    {
        let level = self.mess.levels.get(self.next)?;
        Some(MessIn {
            begin: level.begin as usize,
            next: self.next + 1,
            ..*self
        })
    }

    /// The number of the first level, if that is one MChunk, of Digits, followed by a colon.
    pub fn epoch(&self) -> Option<u32>
        ensures { result ≡ epoch_like (parts_of self.now) }
    {
        let (sep, _) = self.level(0)?;
        match sep {
            Sep::Colon => self.first().alone(),
            _ => None,
        }
    }
}

impl<'a> LevelIn<'a> {
    /// The number of a level that is one MChunk, of Digits.
    fn alone(&self) -> Option<u32>
        ensures { result ≡ alone (level_in self.now) }
    {
        match self.chunks {
            [MChunk::Digits(number, _)] => Some(*number),
            _ => None,
        }
    }
}
