//! A chunk, and its strict order.
ghost use Rattle.std.specs.Prelude.{◌≡◌};
ghost use Rattle.std.specs.List.{list_any};
ghost use Rattle.order.specs.Laws.{Strict};
ghost use Rattle.order.specs.Orders.{Same};
ghost use Rattle.texts.specs.Tables.{bytes_in};
ghost use Rattle.parsers.specs.Places.{Gives};
ghost use Rattle.texts.specs.Texts.{bytes_of};
ghost use Rattle.chunk.specs.Reading.{word_of, chunk_of};
ghost use Rattle.chunk.specs.Semver.{semver_order};
ghost use Rattle.chunk.specs.Said.{says, piece_in, semverly, chunk_part};

use order::{ElementOrder, StrictOrder, compare_texts};
use parsers::{Class, OrDigit, PartReader, stretch, unsigned};
use std::cmp::Ordering;
use std::marker::PhantomData;
use texts::table::Span;
use texts::text::Text;

/// A chunk: a number, or a text that holds a letter or a hyphen. The text is a place in a label, or the bytes there.
#[derive(Clone, Copy)]
pub enum Chunk<T> {
    Numeric(u32),
    Alphanum(T),
}

// The reader of a chunk is inlined into the loop over a list of them: without the hints a General of many chunks is read in up to
// a fifth more instructions.

/// Whether a byte of a class is among some bytes.
#[inline(always)]
fn holds_any<Q: Class>(bytes: &[u8]) -> bool
    ensures { result ≡ list_any Q.Class.class bytes.now }
{
    bytes.iter().any(|byte| Q::holds(*byte))
}

/// The stretch of digits and of a class at a place, if it holds a byte of the class, and the place behind it.
#[inline(always)]
fn alphanum<Q: Class>(text: Text<'_>, at: usize) -> Option<(Span, usize)>
    ensures { Gives (bytes_in (bytes_of text.entry)) (word_of Q.Class.class) (bytes_of text.entry) at result }
{
    let (span, end) = stretch::<OrDigit<Q>>(text, at)?;
    holds_any::<Q>(span.bytes(text.bytes)).then_some((span, end))
}

impl Chunk<Span> {
    /// The chunk at a place, and the place behind it: the longest stretch of digits and of a class, letters or letters and
    /// hyphens, if it holds a byte of the class; otherwise the number there.
    #[inline(always)]
    pub fn parse<Q: Class>(text: Text<'_>, at: usize) -> Option<(Chunk<Span>, usize)>
        ensures { Gives (piece_in (bytes_of text.entry)) (chunk_of Q.Class.class) (bytes_of text.entry) at result }
    {
        if let Some((span, end)) = alphanum::<Q>(text, at) {
            return Some((Chunk::Alphanum(span), end));
        }
        let (number, end) = unsigned(text.bytes, at)?;
        Some((Chunk::Numeric(number), end))
    }

    /// What a chunk is in its text.
    pub fn in_text<'a>(&self, text: &'a [u8]) -> Chunk<&'a [u8]>
        ensures { says result ≡ piece_in text.now self.now }
    {
        match *self {
            Chunk::Numeric(number) => Chunk::Numeric(number),
            Chunk::Alphanum(span) => Chunk::Alphanum(span.bytes(text)),
        }
    }
}

/// Chunks of a class as the parts of a list.
pub(crate) struct ChunkReader<Q>(PhantomData<Q>);

impl<Q: Class> PartReader for ChunkReader<Q> {
    type Place = Chunk<Span>;

    ghost part = { chunk_part Q.Class.class };

    #[inline(always)]
    fn read(text: Text<'_>, at: usize) -> Option<(Chunk<Span>, usize)> {
        Chunk::parse::<Q>(text, at)
    }
}

impl<'a> Chunk<&'a [u8]> {
    /// Numeric by number, Alphanum by text, Numeric below Alphanum.
    pub fn cmp_semver(&self, other: &Chunk<&[u8]>) -> Ordering
        ensures { result ≡ semver_order (says self.now) (says other.now) }
    {
        match (*self, *other) {
            (Chunk::Numeric(m), Chunk::Numeric(n)) => m.cmp(&n),
            (Chunk::Numeric(_), Chunk::Alphanum(_)) => Ordering::Less,
            (Chunk::Alphanum(_), Chunk::Numeric(_)) => Ordering::Greater,
            // a derived order would compare the texts by std, and not by the one list comparison
            (Chunk::Alphanum(s), Chunk::Alphanum(t)) => compare_texts(s, t),
        }
    }
}

/// A chunk under `cmp_semver`, which is a strict order.
#[derive(Clone, Copy)]
pub struct BySemver<'a>(pub Chunk<&'a [u8]>);

impl<'a> ElementOrder for BySemver<'a> {
    ghost order = { semverly };

    fn compare(&self, other: &BySemver<'a>) -> Ordering {
        self.0.cmp_semver(&other.0)
    }
}

impl<'a> StrictOrder for BySemver<'a> {
    ghost strictly = { semverly };

    fn strict()
        ensures law { Strict semver_order }
        ensures tie { Same semverly semverly }
    {}
}
