//! A level of a Complex, or of a label that is converted to one.
ghost use Rattle.std.specs.Prelude.{◌≡◌, ◌+◌, ◌<◌, [], ◌∷◌, ◌++◌, map, length, slice_index_or, refl};
ghost use Rattle.order.specs.Orders.{Same};
ghost use Rattle.chunk.specs.Said.{says as chunk_said};
ghost use Rattle.chunk.specs.Tables.{listed_in};
ghost use Rattle.general.specs.Views.{last_said};
ghost use Rattle.mess.specs.Said.{says, mchunkwise};
ghost use Rattle.convert.specs.Convert.{number_mchunk, chunk_mchunk, last_mchunk};
ghost use Rattle.convert.specs.Said.{level_said};

use chunk::chunk::Chunk;
use chunk::chunks::ChunksIn;
use complex::views::LevelIn;
use general::last::LastIn;
use mess::mchunk::MChunk;
use order::Parts;
use version::last::Last;
use word::Word;

// These conversions are no `From`: both types of each belong to crates below.

/// A number, with its decimal digits as its text.
pub fn number_mchunk<'a>(number: u32) -> MChunk<Word<'a>>
    ensures { says result ≡ number_mchunk number }
{
    MChunk::Digits(number, Word::number(number))
}

/// A chunk: a Numeric becomes Digits, an Alphanum Plain.
pub fn chunk_mchunk(chunk: Chunk<&[u8]>) -> MChunk<Word<'_>>
    ensures { says result ≡ chunk_mchunk (chunk_said chunk.entry) }
{
    match chunk {
        Chunk::Numeric(number) => number_mchunk(number),
        Chunk::Alphanum(text) => MChunk::Plain(Word::text(text)),
    }
}

/// A Last: an Rc or Post becomes Plain with its chunk's own text.
pub fn last_mchunk(last: LastIn<'_>) -> MChunk<Word<'_>>
    ensures { says result ≡ last_mchunk (last_said last.entry) }
{
    match last.0 {
        Last::Numeric(number) => number_mchunk(number),
        Last::Rc(a, letters, b) => MChunk::Plain(Word::rc(a, letters, b)),
        Last::Post(a, letters) => MChunk::Plain(Word::post(a, letters)),
        Last::Alphanum(text) => MChunk::Plain(Word::text(text)),
    }
}

/// A level: the list of its MChunks.
#[derive(Clone, Copy)]
pub enum Level<'a> {
    /// A level of a Complex.
    Read(LevelIn<'a>),
    /// The numbers of an Ideal.
    Numbers(u32, u32, u32),
    /// The chunks of a General, and the Last behind them.
    Chunks(ChunksIn<'a>, LastIn<'a>),
    /// The chunks of a Release.
    Release(ChunksIn<'a>),
    /// One MChunk: an epoch, or metadata.
    One(MChunk<Word<'a>>),
}

/// An MChunk of the three numbers of an Ideal.
fn numbers_part<'a>(major: u32, minor: u32, patch: u32, i: usize) -> MChunk<Word<'a>>
    requires { i < 3 }
    ensures { says result ≡ slice_index_or (number_mchunk major ∷ number_mchunk minor ∷ number_mchunk patch ∷ []) i (says result) }
{
    number_mchunk([major, minor, patch][i])
}

/// An MChunk of the chunks of a General with the Last behind them.
fn chunks_part<'a>(chunks: ChunksIn<'a>, last: LastIn<'a>, i: usize) -> MChunk<Word<'a>>
    requires { i < length (listed_in chunks) + 1 }
    ensures { says result ≡ slice_index_or (map chunk_mchunk (listed_in chunks.entry) ++ last_mchunk (last_said last.entry) ∷ []) i (says result) }
{
    chunks
        .get(i)
        .map_or(last_mchunk(last), |chunk| chunk_mchunk(chunk))
}

/// An MChunk of the chunks of a Release.
fn release_part(release: ChunksIn<'_>, i: usize) -> MChunk<Word<'_>>
    requires { i < length (map chunk_mchunk (listed_in release)) }
    ensures { says result ≡ slice_index_or (map chunk_mchunk (listed_in release.entry)) i (says result) }
{
    chunk_mchunk(release.part(i).0)
}

impl<'a> Parts for Level<'a> {
    type Part = MChunk<Word<'a>>;

    ghost each = { mchunkwise };

    ghost parts = { level_said };

    ghost count = { λ x. length (level_said x) };

    ghost counted = { λ x. refl };

    fn len(&self) -> usize {
        match *self {
            Level::Read(level) => level.len(),
            Level::Numbers(_, _, _) => 3,
            Level::Chunks(chunks, _) => chunks.len() + 1,
            Level::Release(release) => release.len(),
            Level::One(_) => 1,
        }
    }

    fn part(&self, i: usize) -> MChunk<Word<'a>> {
        match *self {
            Level::Read(level) => level.part(i),
            Level::Numbers(major, minor, patch) => numbers_part(major, minor, patch, i),
            Level::Chunks(chunks, last) => chunks_part(chunks, last, i),
            Level::Release(release) => release_part(release, i),
            Level::One(mchunk) => mchunk,
        }
    }

    fn agrees()
        ensures { Same mchunkwise mchunkwise }
    {}
}
