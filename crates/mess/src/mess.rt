//! Complex labels: reading them, and their numbers.
ghost use Rattle.std.specs.Prelude.{◌≡◌, ℕ, List, map};
ghost use Rattle.std.specs.Option.{option_map};
ghost use Rattle.texts.specs.Answers.{told};
ghost use Rattle.parsers.specs.Answers.{parsed_by, new_by, NewReads};
ghost use Rattle.mess.specs.Grammar.{Complex};
ghost use Rattle.mess.specs.Reading.{sep_of, complex_of, nth_level, mchunk_at, nth_of};
ghost use Rattle.mess.specs.Tables.{mchunk_in};
ghost use Rattle.mess.specs.Labels.{parts_in, read_in, begin_of};

use crate::levels::parse as parse_levels;
use crate::mchunk::MChunk;
use crate::rest::Rest;
use crate::sep::Sep;
use fault::LabelFault;
use parsers::whole;
use texts::check_length;
use texts::table::{Rows, Span};

/// A level behind a sign: the sign, and where its MChunks begin in the table of MChunks. They end where the next level's
/// begin.
#[derive(Clone, Copy)]
pub struct Level {
    pub sep: Sep,
    pub begin: u8,
}

/// A Complex label: the MChunks of all its levels, by their places in its text, and the levels behind the first.
#[derive(Clone, Copy)]
pub struct Mess {
    pub chunks: Rows<MChunk<Span>>,
    pub levels: Rows<Level>,
}

impl Mess {
    /// The level sign that a byte is, if it is one.
    pub(crate) fn sep(byte: u8) -> Option<Sep>
        ensures { result ≡ sep_of byte }
    {
        Sep::try_from(byte).ok()
    }

    /// The Complex in front of a text and the bytes read, or the fault: 1 for no bytes, 2 for more than 128, 3 with
    /// place 0 where there is no Complex in front.
    pub fn parse(text: &[u8]) -> Result<(Mess, usize), LabelFault>
        ensures { told (read_in text.now) result ≡ parsed_by complex_of text.now }
    {
        check_length(text)?;
        let rest = Rest {
            bytes: text,
            from: 0,
        };
        let mut mess = Mess {
            chunks: Rows::new(MChunk::Plain(Span { from: 0, to: 0 })),
            levels: Rows::new(Level {
                sep: Sep::Colon,
                begin: 0,
            }),
        };
        let end = parse_levels(rest, &mut mess).ok_or(LabelFault::NoForm(0))?;
        Ok((mess, end.from))
    }

    /// The Complex that a text is, or the fault: those of `parse`, and 3 with the bytes read where something is left
    /// over.
    pub fn new(text: &[u8]) -> Result<Mess, LabelFault>
        ensures answer { told (parts_in text.now) result ≡ new_by complex_of text.now }
        ensures reading { NewReads Complex text.now (told (parts_in text.now) result) }
    {
        whole(Mess::parse(text)?, text)
    }

    /// Where the MChunks of a further level begin, or where all of them end.
    pub fn begin(&self, i: usize) -> usize
        ensures { result ≡ begin_of self.now i }
    {
        self.levels
            .get(i)
            .map_or(self.chunks.len(), |level| level.begin as usize)
    }

    /// The MChunks of the first level that no colon follows.
    fn nth_level(&self) -> &[MChunk<Span>]
        ensures { (text : List ℕ) → map (mchunk_in text) result.now ≡ nth_level (parts_in text self.now) }
    {
        let mut begin: usize = 0;
        for level in self.levels.as_slice() {
            match level.sep {
                Sep::Colon => begin = level.begin as usize,
                _ => return self.chunks.between(begin, level.begin as usize),
            }
        }
        self.chunks.between(begin, self.chunks.len())
    }

    /// The nth MChunk of the first level that no colon follows, if there is one.
    pub fn nth_mchunk(&self, n: usize) -> Option<MChunk<Span>>
        ensures { (text : List ℕ) → option_map (mchunk_in text) result ≡ mchunk_at n (parts_in text self.now) }
    {
        self.nth_level().get(n).copied()
    }

    /// The number of the nth MChunk of the first level that no colon follows, if that is Digits.
    pub fn nth(&self, n: usize) -> Option<u32>
        ensures { (text : List ℕ) → result ≡ nth_of n (parts_in text self.now) }
    {
        match self.nth_mchunk(n)? {
            MChunk::Digits(number, _) => Some(number),
            _ => None,
        }
    }
}
