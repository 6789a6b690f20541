//! The Last: the last chunk of a General, looked into once more.
ghost use Rattle.std.specs.Prelude.{◌≡◌, ℕ, List, take};
ghost use Rattle.std.specs.Option.{option_map};
ghost use Rattle.std.specs.Char.{is_ascii_alphabetic};
ghost use Rattle.texts.specs.Tables.{bytes_in};
ghost use Rattle.chunk.specs.Said.{piece_in};
ghost use Rattle.parsers.specs.Places.{Gives};
ghost use Rattle.parsers.specs.Reading.{stretch_of};
ghost use Rattle.version.specs.Labels.{last_in, last_said};
ghost use Rattle.version.specs.Numbers.{first_of};
ghost use Rattle.version.specs.Reading.{all_of, rc_of, post_of, last_of};

use chunk::chunk::Chunk;
use parsers::{Alphabetic, stretch_end, unsigned};
use texts::table::Span;

/// The last chunk of a General. Its texts are places in a label, or the bytes there.
#[derive(Clone, Copy)]
pub enum Last<T> {
    /// A number.
    Numeric(u32),
    /// A number, letters and a number, as in 1.2.3rc2.
    Rc(u32, T, u32),
    /// A number and letters, as in 3.7b.
    Post(u32, T),
    /// Any other text that holds a letter.
    Alphanum(T),
}

/// The front of a text, up to a place.
fn front(text: &[u8], to: u8) -> &[u8]
    ensures { result.now ≡ take to text.now }
{
    text.get(..to as usize).unwrap_or(text)
}

/// The letters at a place, in the front of a text, and the place behind them. Beside `parsers::stretch`, which needs no bound
/// of its caller since all places of a `Text` fit a `Span`: here they fit only since the front ends at a place of one.
fn letters(text: &[u8], to: u8, at: usize) -> Option<(Span, usize)>
    ensures { Gives (bytes_in text.now) (stretch_of is_ascii_alphabetic) (take to text.now) at result }
{
    let end = stretch_end::<Alphabetic>(front(text, to), at);
    if end <= at {
        return None;
    }
    let span = Span {
        from: at as u8,
        to: end as u8,
    };
    Some((span, end))
}

/// A word as Rc, if a number, letters and a number make up all of it.
fn rc(text: &[u8], word: Span) -> Option<Last<Span>>
    ensures { option_map (last_in text.now) result ≡ all_of rc_of (bytes_in text.now word) }
{
    let bytes = front(text, word.to);
    let (a, at) = unsigned(bytes, word.from as usize)?;
    let (s, at) = letters(text, word.to, at)?;
    let (b, at) = unsigned(bytes, at)?;
    if at < bytes.len() {
        return None;
    }
    Some(Last::Rc(a, s, b))
}

/// A word as Post, if a number and letters make up all of it.
fn post(text: &[u8], word: Span) -> Option<Last<Span>>
    ensures { option_map (last_in text.now) result ≡ all_of post_of (bytes_in text.now word) }
{
    let bytes = front(text, word.to);
    let (a, at) = unsigned(bytes, word.from as usize)?;
    let (s, at) = letters(text, word.to, at)?;
    if at < bytes.len() {
        return None;
    }
    Some(Last::Post(a, s))
}

impl Last<Span> {
    /// What a chunk becomes as the last one: Numeric, Rc, Post, or else Alphanum.
    pub fn new(text: &[u8], chunk: Chunk<Span>) -> Last<Span>
        ensures { last_in text.now result ≡ last_of (piece_in text.now chunk) }
    {
        match chunk {
            Chunk::Numeric(number) => Last::Numeric(number),
            Chunk::Alphanum(word) => rc(text, word)
                .or_else(|| post(text, word))
                .unwrap_or(Last::Alphanum(word)),
        }
    }

    /// What a Last is in its text.
    pub fn in_text<'a>(&self, text: &'a [u8]) -> Last<&'a [u8]>
        ensures { last_said result ≡ last_in text.now self.now }
    {
        match *self {
            Last::Numeric(number) => Last::Numeric(number),
            Last::Rc(a, letters, b) => Last::Rc(a, letters.bytes(text), b),
            Last::Post(a, letters) => Last::Post(a, letters.bytes(text)),
            Last::Alphanum(word) => Last::Alphanum(word.bytes(text)),
        }
    }

    /// The first number, if there is one.
    pub fn first(&self) -> Option<u32>
        ensures { (text : List ℕ) → result ≡ first_of (last_in text self.now) }
    {
        match *self {
            Last::Numeric(number) | Last::Rc(number, _, _) | Last::Post(number, _) => Some(number),
            Last::Alphanum(_) => None,
        }
    }
}
