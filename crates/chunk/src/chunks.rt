//! The chunks of a General, one or more joined by dots, and lists of chunks beside their text.
ghost use Rattle.std.specs.Prelude.{◌≡◌, ◌≤◌, length, refl};
ghost use Rattle.std.specs.Option.{option_map};
ghost use Rattle.order.specs.Orders.{Same};
ghost use Rattle.texts.specs.Tables.{Taken};
ghost use Rattle.parsers.specs.Places.{Gives};
ghost use Rattle.texts.specs.Texts.{bytes_of};
ghost use Rattle.chunk.specs.Reading.{chunks_of};
ghost use Rattle.chunk.specs.Said.{says, semverly};
ghost use Rattle.chunk.specs.Tables.{chunks_in, listed_in};

use crate::chunk::{BySemver, Chunk, ChunkReader};
use order::Parts;
use parsers::{Alphabetic, separated_list1};
use texts::table::{Rows, Span};
use texts::text::Text;

/// The chunks of a General, by their places in its text. Beside `Release`, as in the Rust source: a label has both.
#[derive(Clone, Copy)]
pub struct Chunks {
    pub chunks: Rows<Chunk<Span>>,
}

impl Chunks {
    /// The chunks at a place, and the place behind them. A dot without a chunk behind it is not read.
    pub fn parse(text: Text<'_>, at: usize) -> Option<(Chunks, usize)>
        ensures { Gives (chunks_in (bytes_of text.entry)) chunks_of (bytes_of text.entry) at result }
    {
        let (chunks, end) = separated_list1::<ChunkReader<Alphabetic>>(text, at)?;
        Some((Chunks { chunks }, end))
    }
}

/// A list of chunks beside their text: those of a General, or those of a Release.
#[derive(Clone, Copy)]
pub struct ChunksIn<'a> {
    pub text: &'a [u8],
    pub chunks: &'a Rows<Chunk<Span>>,
}

impl<'a> ChunksIn<'a> {
    /// How many chunks there are.
    pub fn len(&self) -> usize
        ensures count { result ≡ length (listed_in self.now) }
        ensures few { result ≤ 64 }
    {
        self.chunks.len()
    }

    /// The chunk at an index, if there is one.
    pub fn get(&self, i: usize) -> Option<Chunk<&'a [u8]>>
        ensures { Taken (listed_in self.now) i (option_map says result) }
    {
        let place = self.chunks.as_slice().get(i)?;
        Some(place.in_text(self.text))
    }
}

/// A list of chunks under `cmp_semver`.
impl<'a> Parts for ChunksIn<'a> {
    type Part = BySemver<'a>;

    ghost each = { semverly };

    ghost parts = { listed_in };

    ghost count = { λ x. length (listed_in x) };

    ghost counted = { λ x. refl };

    fn len(&self) -> usize {
        ChunksIn::len(self)
    }

    fn part(&self, i: usize) -> BySemver<'a> {
        BySemver(self.chunks.as_slice()[i].in_text(self.text))
    }

    fn agrees()
        ensures { Same semverly semverly }
    {}
}
