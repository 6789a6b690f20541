//! What is still to be read of a text.
ghost use Rattle.std.specs.Prelude.{◌≡◌, ℕ, ◌+◌, ◌≤◌, List, [], ◌∷◌, length, drop, MatchOption};

/// The end of a text, from a place of it on. It is all of the text from there, and the text is no longer than the longest
/// label.
#[derive(Clone, Copy)]
pub(crate) struct Rest<'a> {
    pub(crate) bytes: &'a [u8],
    pub(crate) from: usize,
    ghost short: { from + length bytes.now ≤ 128 },
}

impl<'a> Rest<'a> {
    /// The rest behind the first bytes of this one.
    pub(crate) fn behind(self, count: usize) -> Rest<'a>
        requires { count ≤ length self.bytes.now }
        ensures bytes { result.bytes.now ≡ drop count self.entry.bytes.now }
        ensures place { result.from ≡ self.entry.from + count }
    {
        Rest {
            bytes: &self.bytes[count..],
            from: self.from + count,
        }
    }

    /// The first byte, and the rest behind it.
    pub(crate) fn split_first(self) -> Option<(u8, Rest<'a>)>
        ensures { MatchOption result (self.entry.bytes.now ≡ []) (λ x. (self.entry.bytes.now ≡ x.0 ∷ x.1.bytes.now) × (x.1.from ≡ self.entry.from + 1)) }
    {
        let byte = *self.bytes.first()?;
        Some((byte, self.behind(1)))
    }

    /// The rest behind a mark, if that stands in front.
    pub(crate) fn strip(self, mark: u8) -> Option<Rest<'a>>
        ensures { MatchOption result ((bs : List ℕ) → self.entry.bytes.now ≡ mark ∷ bs → ⊥) (λ x. (self.entry.bytes.now ≡ mark ∷ x.bytes.now) × (x.from ≡ self.entry.from + 1)) }
    {
        let (byte, behind) = self.split_first()?;
        (byte == mark).then_some(behind)
    }
}
