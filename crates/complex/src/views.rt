//! A Complex beside its text: its levels and their MChunks.
ghost use Rattle.std.specs.Prelude.{◌≡◌, ◌≤◌, length};
ghost use Rattle.std.specs.List.{between};
ghost use Rattle.std.specs.Option.{option_map};
ghost use Rattle.texts.specs.Tables.{Taken};
ghost use Rattle.mess.specs.Labels.{mchunks_in, parts_in};
ghost use Rattle.mess.specs.Said.{says};
ghost use Rattle.mess.specs.Tables.{sliced};
ghost use Rattle.complex.specs.Views.{parts_of, level_in, signed_in};

use mess::mchunk::MChunk;
use mess::mess::Mess;
use mess::sep::Sep;
use texts::table::Span;
use word::Word;

/// A Complex label: its parts beside its text, from one of its levels on. That level begins at a place of the table of
/// MChunks, and the further ones at a place of the table of levels.
#[derive(Clone, Copy)]
pub struct MessIn<'a> {
    pub text: &'a [u8],
    pub mess: &'a Mess,
    pub begin: usize,
    pub next: usize,
}

/// A level of a Complex: its MChunks, beside the text in which they lie.
#[derive(Clone, Copy)]
pub struct LevelIn<'a> {
    pub text: &'a [u8],
    pub chunks: &'a [MChunk<Span>],
}

impl<'a> MessIn<'a> {
    /// A whole Complex.
    pub fn new(text: &'a [u8], mess: &'a Mess) -> MessIn<'a>
        ensures { parts_of result ≡ parts_in text.now mess.now }
    {
        MessIn {
            text,
            mess,
            begin: 0,
            next: 0,
        }
    }

    /// The level from one place of the table of MChunks to another.
    fn between(&self, begin: usize, end: usize) -> LevelIn<'a>
        ensures { level_in result ≡ between begin end (mchunks_in self.now.text.now self.now.mess.now.chunks) }
    {
        LevelIn {
            text: self.text,
            chunks: self.mess.chunks.between(begin, end),
        }
    }

    /// The first level.
    pub fn first(&self) -> LevelIn<'a>
        ensures { level_in result ≡ (parts_of self.now).first }
    {
        self.between(self.begin, self.mess.begin(self.next))
    }

    /// How many further levels there are.
    pub fn further(&self) -> usize
        ensures count { result ≡ length (parts_of self.now).further }
        ensures few { result ≤ 64 }
    {
        self.mess.levels.len().saturating_sub(self.next)
    }

    /// A further level and the sign in front of it, if there is one.
    pub fn level(&self, i: usize) -> Option<(Sep, LevelIn<'a>)>
        ensures { Taken (parts_of self.now).further i (option_map signed_in result) }
    {
        let count = self.mess.levels.len();
        let level = self.mess.levels.between(self.next, count).get(i).copied()?;
        let end = self.mess.begin(self.next + i + 1);
        Some((level.sep, self.between(level.begin as usize, end)))
    }
}

impl<'a> LevelIn<'a> {
    /// The MChunk at an index, if there is one.
    pub fn get(&self, i: usize) -> Option<MChunk<Word<'a>>>
        ensures { Taken (level_in self.now) i (option_map says result) }
    {
        let entry = self.chunks.get(i)?;
        Some(MChunk::new(self.text, *entry))
    }

    /// The MChunk at an index, if there is one, with its run as a slice of the label.
    pub fn get_sliced(&self, i: usize) -> Option<MChunk<&'a [u8]>>
        ensures { Taken (level_in self.now) i (option_map sliced result) }
    {
        let place = self.chunks.get(i)?;
        Some(place.in_text(self.text))
    }
}
