//! The lenient order of chunks.
ghost use Rattle.std.specs.Prelude.{◌≡◌};
ghost use Rattle.std.specs.declared.cmp.Ordering.TheVariants.{Less};
ghost use Rattle.order.specs.Laws.{Strict};
ghost use Rattle.chunk.specs.Said.{says};
ghost use Rattle.lenient.specs.Number.{lenient_number, lenient_of, behind_letter};
ghost use Rattle.lenient.specs.Order.{meets, words_order, lenient_order};
ghost use Rattle.lenient.specs.Said.{leniently};

use crate::number::lenient_number;
use chunk::chunk::Chunk;
use order::{ElementOrder, compare_texts};
use std::cmp::Ordering;

/// The lenient number of a chunk: its number, or that of its text.
pub fn single_digit_lenient(chunk: &Chunk<&[u8]>) -> Option<u32>
    ensures { result ≡ lenient_of (says chunk.now) }
{
    match *chunk {
        Chunk::Numeric(number) => Some(number),
        Chunk::Alphanum(text) => lenient_number(text),
    }
}

/// The lenient number behind the first letter of a text, if another begins with that letter too.
fn number_behind(text: &[u8], other: &[u8]) -> Option<u32>
    ensures { result ≡ behind_letter text.now other.now }
{
    match (text, other) {
        ([a, rest @ ..], [b, ..]) if *a == *b && a.is_ascii_alphabetic() => lenient_number(rest),
        _ => None,
    }
}

/// Two Alphanums: by the numbers that they begin with, or that stand behind a letter that both begin with, where both
/// have one; otherwise by text.
fn cmp_words(s: &[u8], t: &[u8]) -> Ordering
    ensures { result ≡ words_order s.now t.now }
{
    match (lenient_number(s), lenient_number(t)) {
        (Some(m), Some(n)) => m.cmp(&n),
        _ => match (number_behind(s, t), number_behind(t, s)) {
            // r8 is below r23
            (Some(m), Some(n)) => m.cmp(&n),
            _ => compare_texts(s, t),
        },
    }
}

/// A Numeric against an Alphanum: it meets the lenient number, and is Greater on a tie or where there is none.
fn meet(number: u32, text: &[u8]) -> Ordering
    ensures { result ≡ meets number (lenient_number text.now) }
{
    match lenient_number(text) {
        // 0 is above 0rc1
        Some(n) => number.cmp(&n).then(Ordering::Greater),
        None => Ordering::Greater,
    }
}

/// The lenient order of two chunks.
pub fn cmp_lenient(a: &Chunk<&[u8]>, b: &Chunk<&[u8]>) -> Ordering
    ensures { result ≡ lenient_order (says a.now) (says b.now) }
{
    match (*a, *b) {
        (Chunk::Numeric(m), Chunk::Numeric(n)) => m.cmp(&n),
        (Chunk::Numeric(m), Chunk::Alphanum(t)) => meet(m, t),
        (Chunk::Alphanum(s), Chunk::Numeric(n)) => meet(n, s).reverse(),
        (Chunk::Alphanum(s), Chunk::Alphanum(t)) => cmp_words(s, t),
    }
}

/// A chunk under `cmp_lenient`, which is no strict order.
#[derive(Clone, Copy)]
pub struct ByLenient<'a>(pub Chunk<&'a [u8]>);

impl<'a> ElementOrder for ByLenient<'a> {
    ghost order = { leniently };

    fn compare(&self, other: &ByLenient<'a>) -> Ordering {
        cmp_lenient(&self.0, &other.0)
    }
}

/// `cmp_lenient` is not transitive: 9a is below 10a, 10a below 4294967296a, and that below 9a.
pub fn lenient_ring() -> (Ordering, Ordering, Ordering)
    ensures ring { result ≡ (Less, Less, Less) }
    ensures unstrict { Strict lenient_order → ⊥ }
{
    let nine: Chunk<&[u8]> = Chunk::Alphanum(b"9a");
    let ten: Chunk<&[u8]> = Chunk::Alphanum(b"10a");
    let large: Chunk<&[u8]> = Chunk::Alphanum(b"4294967296a");
    (
        cmp_lenient(&nine, &ten),
        cmp_lenient(&ten, &large),
        cmp_lenient(&large, &nine),
    )
}
