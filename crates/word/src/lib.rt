//! Texts that are not a slice of a label: bytes, with a number written in front of them, behind them, or neither.
#![tactic(auto)]

ghost use Rattle.std.specs.Prelude.{◌≡◌, ◌<◌, ◌≤◌, ◌++◌, length, decimal, slice_index_or, refl};
ghost use Rattle.std.specs.Ordering.{nat_cmp};
ghost use Rattle.order.specs.Lists.{lex};
ghost use Rattle.order.specs.Orders.{bytewise, Same};
ghost use Rattle.word.specs.Words.{written, word_of};

use itoa::Buffer;
use order::{Parts, compare_lists};
use std::cmp::Ordering;

/// A text: perhaps the decimal digits of a number, then bytes, then perhaps the digits of a number.
#[derive(Clone, Copy)]
pub struct Word<'a> {
    pub front: Option<u32>,
    pub middle: &'a [u8],
    pub back: Option<u32>,
}

/// How many digits write a number that may be absent.
fn count_written(number: Option<u32>) -> usize
    ensures count { result ≡ length (written number) }
    ensures few { result ≤ 10 }
{
    match number {
        Some(number) => Buffer::new().format(number).len(),
        None => 0,
    }
}

/// The digit at an index of those that write a number that may be absent.
fn written_digit(number: Option<u32>, i: usize) -> u8
    requires { i < length (written number) }
    ensures { result ≡ slice_index_or (written number) i result }
{
    match number {
        Some(number) => Buffer::new().format(number).as_bytes()[i],
        None => b'0',
    }
}

impl<'a> Word<'a> {
    /// A text as it stands.
    pub fn text(bytes: &'a [u8]) -> Word<'a>
        ensures { word_of result ≡ bytes.now }
    {
        Word {
            front: None,
            middle: bytes,
            back: None,
        }
    }

    /// A number, as its digits.
    pub fn number(number: u32) -> Word<'a>
        ensures { word_of result ≡ decimal number }
    {
        Word {
            front: Some(number),
            middle: b"",
            back: None,
        }
    }

    /// A number and the letters behind it.
    pub fn post(number: u32, suffix: &'a [u8]) -> Word<'a>
        ensures { word_of result ≡ decimal number ++ suffix.now }
    {
        Word {
            front: Some(number),
            middle: suffix,
            back: None,
        }
    }

    /// A number, letters and a number.
    pub fn rc(number: u32, letters: &'a [u8], last: u32) -> Word<'a>
        ensures { word_of result ≡ decimal number ++ (letters.now ++ decimal last) }
    {
        Word {
            front: Some(number),
            middle: letters,
            back: Some(last),
        }
    }
}

/// A Word is the list of its bytes.
impl<'a> Parts for Word<'a> {
    type Part = u8;

    ghost each = { bytewise };

    ghost parts = { word_of };

    ghost count = { λ w. length (word_of w) };

    ghost counted = { λ w. refl };

    fn len(&self) -> usize {
        count_written(self.front) + self.middle.len() + count_written(self.back)
    }

    fn part(&self, i: usize) -> u8 {
        let begin = count_written(self.front);
        let end = begin + self.middle.len();
        if i < begin {
            written_digit(self.front, i)
        } else if i < end {
            self.middle[i - begin]
        } else {
            written_digit(self.back, i - end)
        }
    }

    fn agrees()
        ensures { Same bytewise bytewise }
    {}
}

/// Two Words, as texts by bytes.
pub fn compare_words<'a, 'b>(a: &Word<'a>, b: &Word<'b>) -> Ordering
    ensures { result ≡ lex nat_cmp (word_of a.now) (word_of b.now) }
{
    compare_lists(a, b)
}
