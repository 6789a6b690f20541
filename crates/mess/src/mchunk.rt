//! MChunks: the parts of a level, and their order.
ghost use Rattle.std.specs.Prelude.{◌≡◌, ℕ, List};
ghost use Rattle.texts.specs.Tables.{bytes_in};
ghost use Rattle.mess.specs.Reading.{mchunk_of};
ghost use Rattle.mess.specs.Classes.{settled};
ghost use Rattle.mess.specs.Tables.{said_by, sliced, mchunk_in, text_of};
ghost use Rattle.mess.specs.Rests.{GivesIn};
ghost use Rattle.mess.specs.Order.{mchunk_order, Ring, NotStrict};
ghost use Rattle.mess.specs.Said.{says, mchunkwise};

use crate::class::{Class, scan};
use crate::mess::Mess;
use crate::rest::Rest;
use order::ElementOrder;
use std::cmp::Ordering;
use texts::table::Span;
use word::{Word, compare_words};

/// An MChunk: a run, with the number that it writes if it is digits, or the letter r and digits. In the table of a
/// Complex the run is a place in the text; handed out, it is a slice of a label or written from the numbers of one.
#[derive(Clone, Copy)]
pub enum MChunk<T> {
    Digits(u32, T),
    Rev(u32, T),
    Plain(T),
}

/// The MChunk of a run. Its class counts only where a dot, a level sign or the end stands behind the run.
fn entry(class: Class, span: Span, behind: &[u8]) -> MChunk<Span>
    ensures { (text : List ℕ) → mchunk_in text result ≡ settled class behind.now (bytes_in text span) }
{
    let ended = match behind {
        [] => true,
        [byte, ..] => *byte == b'.' || Mess::sep(*byte).is_some(),
    };
    match (class, ended) {
        (Class::Digits(number), true) => MChunk::Digits(number, span),
        (Class::Rev(number), true) => MChunk::Rev(number, span),
        _ => MChunk::Plain(span),
    }
}

impl<T: Copy> MChunk<T> {
    /// The run itself.
    pub fn text(&self) -> T
        ensures { (run : T → List ℕ) → run result ≡ text_of (said_by run self.now) }
    {
        match *self {
            MChunk::Digits(_, text) | MChunk::Rev(_, text) | MChunk::Plain(text) => text,
        }
    }
}

impl MChunk<Span> {
    /// The MChunk in front of a rest, and the rest behind it.
    pub(crate) fn parse<'a>(rest: Rest<'a>) -> Option<(MChunk<Span>, Rest<'a>)>
        ensures { GivesIn mchunk_in mchunk_of rest.entry result }
    {
        let (class, count) = scan(rest.bytes);
        if count == 0 {
            return None;
        }
        let behind = rest.behind(count);
        let span = Span {
            from: rest.from as u8,
            to: behind.from as u8,
        };
        Some((entry(class, span, behind.bytes), behind))
    }

    /// What an MChunk of a table is in its text, its run as a slice of it.
    pub fn in_text<'a>(&self, text: &'a [u8]) -> MChunk<&'a [u8]>
        ensures { sliced result ≡ mchunk_in text.now self.now }
    {
        match *self {
            MChunk::Digits(number, span) => MChunk::Digits(number, span.bytes(text)),
            MChunk::Rev(number, span) => MChunk::Rev(number, span.bytes(text)),
            MChunk::Plain(span) => MChunk::Plain(span.bytes(text)),
        }
    }

    /// The run itself, in its text.
    pub fn bytes<'a>(&self, text: &'a [u8]) -> &'a [u8]
        ensures { result.now ≡ text_of (mchunk_in text.now self.now) }
    {
        self.text().bytes(text)
    }
}

impl<'a> MChunk<Word<'a>> {
    /// What an MChunk of a table is in its text.
    pub fn new(text: &'a [u8], entry: MChunk<Span>) -> MChunk<Word<'a>>
        ensures { says result ≡ mchunk_in text.now entry }
    {
        let run = Word::text(entry.bytes(text));
        match entry {
            MChunk::Digits(number, _) => MChunk::Digits(number, run),
            MChunk::Rev(number, _) => MChunk::Rev(number, run),
            MChunk::Plain(_) => MChunk::Plain(run),
        }
    }

    /// Digits by number, Rev by number, Digits above Rev, all else by text.
    pub fn cmp(&self, other: &MChunk<Word<'_>>) -> Ordering
        ensures { result ≡ mchunk_order (says self.now) (says other.now) }
    {
        match (*self, *other) {
            (MChunk::Digits(m, _), MChunk::Digits(n, _)) => m.cmp(&n),
            (MChunk::Rev(m, _), MChunk::Rev(n, _)) => m.cmp(&n),
            (MChunk::Digits(_, _), MChunk::Rev(_, _)) => Ordering::Greater,
            (MChunk::Rev(_, _), MChunk::Digits(_, _)) => Ordering::Less,
            (a, b) => compare_words(&a.text(), &b.text()),
        }
    }
}

impl<'a> ElementOrder for MChunk<Word<'a>> {
    ghost order = { mchunkwise };

    fn compare(&self, other: &MChunk<Word<'a>>) -> Ordering {
        self.cmp(other)
    }
}

/// MChunks are in no strict order: 9 is below 10, 10 below 1a, and 1a below 9.
pub fn mchunks_not_strict()
    ensures ring { Ring }
    ensures not_strict { NotStrict }
{}
