//! Reading General labels.
ghost use Rattle.std.specs.Prelude.{◌≡◌, ℕ, List};
ghost use Rattle.texts.specs.Answers.{told};
ghost use Rattle.parsers.specs.Answers.{parsed_by, new_by, NewReads};
ghost use Rattle.chunk.specs.Said.{piece_in};
ghost use Rattle.parsers.specs.Places.{Gives};
ghost use Rattle.texts.specs.Texts.{bytes_of};
ghost use Rattle.version.specs.Grammar.{General};
ghost use Rattle.version.specs.Labels.{parts_in, read_in};
ghost use Rattle.version.specs.Numbers.{single, nth_of};
ghost use Rattle.version.specs.Reading.{epoch_of, general_of};

use crate::last::Last;
use chunk::chunk::Chunk;
use chunk::chunks::Chunks;
use chunk::release::Release;
use fault::LabelFault;
use parsers::{mark, meta, opt, unsigned, whole};
use texts::check_length;
use texts::table::Span;
use texts::text::Text;

/// The parts of a General label: numbers, and places in its text.
#[derive(Clone, Copy)]
pub struct Version {
    pub epoch: Option<u32>,
    /// The chunks before the Last.
    pub chunks: Chunks,
    pub last: Last<Span>,
    pub release: Option<Release>,
    pub meta: Option<Span>,
}

/// The epoch at a place, a number and a colon, and the place behind it.
fn epoch(text: Text<'_>, at: usize) -> Option<(u32, usize)>
    ensures { Gives (λ n. n) epoch_of (bytes_of text.entry) at result }
{
    let (number, at) = unsigned(text.bytes, at)?;
    let at = mark(text.bytes, at, b':')?;
    Some((number, at))
}

/// The number of a chunk that is Numeric.
fn single_digit(chunk: Chunk<Span>) -> Option<u32>
    ensures { (text : List ℕ) → result ≡ single (piece_in text chunk) }
{
    match chunk {
        Chunk::Numeric(number) => Some(number),
        Chunk::Alphanum(_) => None,
    }
}

impl Version {
    /// The General in front of a text, and the bytes read.
    fn read(text: Text<'_>) -> Option<(Version, usize)>
        ensures { Gives (parts_in (bytes_of text.entry)) general_of (bytes_of text.entry) 0 result }
    {
        let (epoch, at) = opt(epoch(text, 0), 0);
        let (mut chunks, at) = Chunks::parse(text, at)?;
        let (release, at) = opt(Release::parse(text, at), at);
        let (meta, at) = opt(meta(text, at), at);
        let chunk = chunks.chunks.pop()?;
        let version = Version {
            epoch,
            chunks,
            last: Last::new(text.bytes(), chunk),
            release,
            meta,
        };
        Some((version, at))
    }

    /// The General in front of a text and the bytes read, or the fault: 1 for no bytes, 2 for more than 128,
    /// 3 with place 0 where there is no General in front.
    pub fn parse(text: &[u8]) -> Result<(Version, usize), LabelFault>
        ensures { told (read_in text.now) result ≡ parsed_by general_of text.now }
    {
        check_length(text)?;
        Version::read(Text::new(text)).ok_or(LabelFault::NoForm(0))
    }

    /// The General that a text is, or the fault: those of `parse`, and 3 with the bytes read where something is left over.
    pub fn new(text: &[u8]) -> Result<Version, LabelFault>
        ensures answer { told (parts_in text.now) result ≡ new_by general_of text.now }
        ensures reading { NewReads General text.now (told (parts_in text.now) result) }
    {
        whole(Version::parse(text)?, text)
    }

    /// The number of the nth chunk, if that is Numeric; behind the chunks the first number of the Last, if it has one.
    pub fn nth(&self, n: usize) -> Option<u32>
        ensures { (text : List ℕ) → result ≡ nth_of (parts_in text self.now) n }
    {
        if n == self.chunks.chunks.len() {
            return self.last.first();
        }
        single_digit(self.chunks.chunks.get(n)?)
    }
}
