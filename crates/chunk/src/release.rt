//! A Release: a hyphen and one or more release chunks joined by dots.
ghost use Rattle.std.specs.Prelude.{◌≡◌};
ghost use Rattle.std.specs.Option.{option_map};
ghost use Rattle.order.specs.Lists.{lex};
ghost use Rattle.parsers.specs.Places.{Gives};
ghost use Rattle.texts.specs.Texts.{bytes_of};
ghost use Rattle.chunk.specs.Reading.{release_of};
ghost use Rattle.chunk.specs.Semver.{semver_order, perhaps_order};
ghost use Rattle.chunk.specs.Tables.{release_in, listed_in};

use crate::chunk::{Chunk, ChunkReader};
use crate::chunks::ChunksIn;
use order::compare_lists;
use parsers::{AlphabeticOrHyphen, mark, separated_list1};
use std::cmp::Ordering;
use texts::table::{Rows, Span};
use texts::text::Text;

/// The chunks of a Release, by their places in its text.
#[derive(Clone, Copy)]
pub struct Release {
    pub chunks: Rows<Chunk<Span>>,
}

impl Release {
    /// The Release at a place, and the place behind it. A hyphen without a chunk behind it is not read.
    pub fn parse(text: Text<'_>, at: usize) -> Option<(Release, usize)>
        ensures { Gives (release_in (bytes_of text.entry)) release_of (bytes_of text.entry) at result }
    {
        let from = mark(text.bytes, at, b'-')?;
        let (chunks, end) = separated_list1::<ChunkReader<AlphabeticOrHyphen>>(text, from)?;
        Some((Release { chunks }, end))
    }
}

/// Two Releases, chunk by chunk under `cmp_semver`; the longer is Greater where all before agree.
pub fn compare_releases<'a, 'b>(a: ChunksIn<'a>, b: ChunksIn<'b>) -> Ordering
    ensures { result ≡ lex semver_order (listed_in a.entry) (listed_in b.entry) }
{
    compare_lists(&a, &b)
}

/// Two Releases where each may be absent; an absent one against one that is there gives `absent`.
pub fn compare_perhaps_releases(
    a: Option<ChunksIn<'_>>,
    b: Option<ChunksIn<'_>>,
    absent: Ordering,
) -> Ordering
    ensures { result ≡ perhaps_order absent (option_map listed_in a.entry) (option_map listed_in b.entry) }
{
    match (a, b) {
        (None, None) => Ordering::Equal,
        (None, Some(_)) => absent,
        (Some(_), None) => absent.reverse(),
        (Some(a), Some(b)) => compare_releases(a, b),
    }
}
