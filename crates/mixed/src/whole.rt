//! A whole Complex beside its text.
ghost use Rattle.std.specs.Prelude.{◌≡◌};
ghost use Rattle.complex.specs.Views.{parts_of as view_parts};
ghost use Rattle.mixed.specs.Complexes.{lenient_at};
ghost use Rattle.mixed.specs.Whole.{parts_of};

use complex::views::MessIn;
use lenient::number::lenient_number;
use mess::mess::Mess;

/// A Complex label: its parts beside its text. A `MessIn` begins at one of its levels, and its numbers count from the first.
#[derive(Clone, Copy)]
pub struct ComplexIn<'a> {
    pub text: &'a [u8],
    pub mess: &'a Mess,
}

impl<'a> ComplexIn<'a> {
    /// Its levels, from the first on.
    pub fn levels(&self) -> MessIn<'a>
        ensures { view_parts result ≡ parts_of self.now }
    {
        MessIn::new(self.text, self.mess)
    }

    /// The lenient number of the MChunk where `nth(n)` looks.
    pub fn lenient(&self, n: usize) -> Option<u32>
        ensures { result ≡ lenient_at n (parts_of self.now) }
    {
        let entry = self.mess.nth_mchunk(n)?;
        lenient_number(entry.bytes(self.text))
    }
}
