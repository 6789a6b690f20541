//! A level as the list of its MChunks, a Complex as the list of its levels, and the order of Complexes.
ghost use Rattle.std.specs.Prelude.{◌≡◌, length, refl};
ghost use Rattle.order.specs.Orders.{Same};
ghost use Rattle.complex.specs.Order.{complex_order};
ghost use Rattle.mess.specs.Said.{mchunkwise};
ghost use Rattle.complex.specs.Views.{parts_of, level_in, levelwise, all_levels};

use crate::views::{LevelIn, MessIn};
use mess::mchunk::MChunk;
use order::{Parts, compare_lists};
use std::cmp::Ordering;
use word::Word;

/// A level is the list of its MChunks.
impl<'a> Parts for LevelIn<'a> {
    type Part = MChunk<Word<'a>>;

    ghost each = { mchunkwise };

    ghost parts = { level_in };

    ghost count = { λ x. length (level_in x) };

    ghost counted = { λ x. refl };

    fn len(&self) -> usize {
        self.chunks.len()
    }

    fn part(&self, i: usize) -> MChunk<Word<'a>> {
        MChunk::new(self.text, self.chunks[i])
    }

    fn agrees()
        ensures { Same mchunkwise mchunkwise }
    {}
}

/// A Complex is the list of its levels. Level signs do not count.
impl<'a> Parts for MessIn<'a> {
    type Part = LevelIn<'a>;

    ghost each = { levelwise };

    ghost parts = { all_levels };

    ghost count = { λ x. length (all_levels x) };

    ghost counted = { λ x. refl };

    fn len(&self) -> usize {
        self.further() + 1
    }

    fn part(&self, i: usize) -> LevelIn<'a> {
        if i == 0 {
            return self.first();
        }
        // not `map_or`, which would make the first level each time, and not `map_or_else`: a closure that captures a view
        // ensures nothing to its caller
        match self.level(i - 1) {
            Some((_, level)) => level,
            None => self.first(),
        }
    }

    fn agrees()
        ensures { Same levelwise levelwise }
    {}
}

impl<'a> MessIn<'a> {
    /// Level by level through the one list comparison, each level MChunk by MChunk. An absent level is Less.
    pub fn cmp(&self, other: &MessIn<'_>) -> Ordering
        ensures { result ≡ complex_order (parts_of self.now) (parts_of other.now) }
    {
        compare_lists(self, other)
    }
}
