//! Readers at a place in a text, which several forms of label share. The text and the place are two parameters, as the place
//! is the cursor and the text stays.
#![tactic(auto)]

ghost use Rattle.std.specs.Prelude.{◌≡◌, ℕ, Bool, not, length, drop, position};
ghost use Rattle.std.specs.Char.{is_ascii_digit, is_ascii_alphabetic};
ghost use Rattle.parsers.specs.Answers.{whole_read};
ghost use Rattle.parsers.specs.Bytes.{letter_or_hyphen, or_digit};
ghost use Rattle.parsers.specs.Reading.{digits_of, number_of, stretch_of, dotted_of, meta_of};
ghost use Rattle.texts.specs.Texts.{bytes_of};
ghost use Rattle.texts.specs.Tables.{bytes_in};
ghost use Rattle.parsers.specs.Places.{EndOf, Gives, Marked, Part, said_in, identifier_part, perhaps_read};

use fault::LabelFault;
use std::marker::PhantomData;
use texts::table::{Rows, Span};
use texts::text::Text;

/// A class of bytes.
pub trait Class {
    ghost class: { ℕ → Bool };

    fn holds(byte: u8) -> bool
        ensures { result ≡ class byte };
}

/// Digits.
pub struct Digits;

impl Class for Digits {
    ghost class = { is_ascii_digit };

    fn holds(byte: u8) -> bool {
        byte.is_ascii_digit()
    }
}

/// Letters.
pub struct Alphabetic;

impl Class for Alphabetic {
    ghost class = { is_ascii_alphabetic };

    fn holds(byte: u8) -> bool {
        byte.is_ascii_alphabetic()
    }
}

/// Letters and the hyphen.
pub struct AlphabeticOrHyphen;

impl Class for AlphabeticOrHyphen {
    ghost class = { letter_or_hyphen };

    fn holds(byte: u8) -> bool {
        byte.is_ascii_alphabetic() || byte == b'-'
    }
}

/// Digits, and the bytes of another class.
pub struct OrDigit<Q>(pub PhantomData<Q>);

impl<Q: Class> Class for OrDigit<Q> {
    ghost class = { or_digit Q.class };

    fn holds(byte: u8) -> bool {
        byte.is_ascii_digit() || Q::holds(byte)
    }
}

/// Letters and digits: the bytes of a run.
pub type Alphanum = OrDigit<Alphabetic>;

/// Letters, digits and hyphens: the bytes of an identifier.
pub type Hyphenated = OrDigit<AlphabeticOrHyphen>;

/// The text from a place on, which is empty behind the end.
fn rest(text: &[u8], at: usize) -> &[u8]
    ensures { result.now ≡ drop at text.now }
{
    text.get(at..).unwrap_or(&[])
}

/// The first place whose byte is not of a class.
fn first_other<C: Class>(bytes: &[u8]) -> Option<usize>
    ensures { result ≡ position (λ b. not (C.Class.class b)) bytes.now }
{
    bytes.iter().position(|byte| !C::holds(*byte))
}

/// Where the stretch of a class at a place ends.
pub fn stretch_end<C: Class>(text: &[u8], at: usize) -> usize
    ensures { EndOf C.Class.class text.now at result }
{
    match first_other::<C>(rest(text, at)) {
        Some(n) => at + n,
        None => text.len(),
    }
}

// `run_end`, `alphanums` and `hyphenated_alphanums` are instances under the names of the Rust source.

/// Where the run at a place ends: the first place there or behind it whose byte is no letter or digit, or the end.
pub fn run_end(text: &[u8], at: usize) -> usize
    ensures { EndOf (or_digit is_ascii_alphabetic) text.now at result }
{
    stretch_end::<Alphanum>(text, at)
}

/// The place behind a mark, if it stands at a place.
pub fn mark(bytes: &[u8], at: usize, byte: u8) -> Option<usize>
    ensures { Marked byte bytes.now at result }
{
    (*bytes.get(at)? == byte).then_some(at + 1)
}

/// The stretch of a class at a place, if there is a byte of it, and the place behind it.
pub fn stretch<C: Class>(text: Text<'_>, at: usize) -> Option<(Span, usize)>
    ensures { Gives (bytes_in (bytes_of text.entry)) (stretch_of C.Class.class) (bytes_of text.entry) at result }
{
    let end = stretch_end::<C>(text.bytes, at);
    if end <= at {
        return None;
    }
    let span = Span {
        from: at as u8,
        to: end as u8,
    };
    Some((span, end))
}

/// The run at a place, and the place behind it.
pub fn alphanums(text: Text<'_>, at: usize) -> Option<(Span, usize)>
    ensures { Gives (bytes_in (bytes_of text.entry)) (stretch_of (or_digit is_ascii_alphabetic)) (bytes_of text.entry) at result }
{
    stretch::<Alphanum>(text, at)
}

/// The stretch of letters, digits and hyphens at a place, and the place behind it.
pub fn hyphenated_alphanums(text: Text<'_>, at: usize) -> Option<(Span, usize)>
    ensures { Gives (bytes_in (bytes_of text.entry)) (stretch_of (or_digit letter_or_hyphen)) (bytes_of text.entry) at result }
{
    stretch::<Hyphenated>(text, at)
}

/// The number that the longest stretch of digits at a place writes, zeros in front or not, and the place behind it, if
/// there is a digit and the value is at most 4,294,967,295.
pub fn digits_at(bytes: &[u8], at: usize) -> Option<(u32, usize)>
    ensures { Gives (λ n. n) digits_of bytes.now at result }
{
    let end = stretch_end::<Digits>(bytes, at);
    if end <= at {
        return None;
    }
    let mut value: u32 = 0;
    for byte in &bytes[at..end] {
        value = value.checked_mul(10)?.checked_add(u32::from(*byte - b'0'))?;
    }
    Some((value, end))
}

/// The number at a place, and the place behind it: 0 alone at the digit 0, otherwise the longest stretch of digits, if
/// there is one and its value is at most 4,294,967,295.
pub fn unsigned(bytes: &[u8], at: usize) -> Option<(u32, usize)>
    ensures { Gives (λ n. n) number_of bytes.now at result }
{
    match mark(bytes, at, b'0') {
        Some(end) => Some((0, end)),
        None => digits_at(bytes, at),
    }
}

/// A reader of one part of a list: the part at a place, and the place behind it.
pub trait PartReader {
    type Place: Copy;

    ghost part: { Part Self.Place };

    fn read(text: Text<'_>, at: usize) -> Option<(Self::Place, usize)>
        ensures { Gives (part.says (bytes_of text.entry)) part.reader (bytes_of text.entry) at result };
}

/// One or more parts joined by dots, and the place behind them. A dot without a part behind it is not read.
pub fn separated_list1<P: PartReader>(text: Text<'_>, at: usize) -> Option<(Rows<P::Place>, usize)>
    ensures { Gives (said_in P.PartReader.part (bytes_of text.entry)) (dotted_of P.PartReader.part.reader) (bytes_of text.entry) at result }
{
    let (first, mut end) = P::read(text, at)?;
    let mut table = Rows::new(first);
    table.push(first);
    while let Some(behind) = mark(text.bytes, end, b'.') {
        let Some((next, after)) = P::read(text, behind) else {
            break;
        };
        table.push(next);
        end = after;
    }
    Some((table, end))
}

/// An identifier of metadata: a stretch of letters, digits and hyphens.
pub struct Identifier;

impl PartReader for Identifier {
    type Place = Span;

    ghost part = { identifier_part };

    fn read(text: Text<'_>, at: usize) -> Option<(Span, usize)> {
        hyphenated_alphanums(text, at)
    }
}

/// Metadata at a place, without its plus sign, and the place behind it. A plus sign without an identifier behind it is
/// not read.
pub fn meta(text: Text<'_>, at: usize) -> Option<(Span, usize)>
    ensures { Gives (bytes_in (bytes_of text.entry)) meta_of (bytes_of text.entry) at result }
{
    let from = mark(text.bytes, at, b'+')?;
    let (_, end) = separated_list1::<Identifier>(text, from)?;
    let span = Span {
        from: from as u8,
        to: end as u8,
    };
    Some((span, end))
}

/// A part that may be absent, and the place to go on at: behind the part that was read, or at its place.
pub fn opt<T>(read: Option<(T, usize)>, at: usize) -> (Option<T>, usize)
    ensures { result ≡ perhaps_read read at }
{
    match read {
        Some((part, end)) => (Some(part), end),
        None => (None, at),
    }
}

/// What was read, if that is the whole text; otherwise the fault at the first byte that is left over.
pub fn whole<T: Copy>(read: (T, usize), text: &[u8]) -> Result<T, LabelFault>
    ensures { result ≡ whole_read (length text.now) read }
{
    let (label, end) = read;
    if end == text.len() {
        Ok(label)
    } else {
        Err(LabelFault::NoForm(end))
    }
}
