//! The chunks of a General as a list under the lenient order.
ghost use Rattle.std.specs.Prelude.{min, length};
ghost use Rattle.std.proofs.Common.{length-take};
ghost use Rattle.order.specs.Orders.{Same};
ghost use Rattle.chunk.specs.Tables.{listed_in};
ghost use Rattle.lenient.specs.Said.{leniently, first_in};

use crate::ordering::ByLenient;
use chunk::chunks::ChunksIn;
use order::Parts;

/// The first chunks of a General, at most `count` of them.
#[derive(Clone, Copy)]
pub struct FirstChunks<'a> {
    pub chunks: ChunksIn<'a>,
    pub count: usize,
}

impl<'a> Parts for FirstChunks<'a> {
    type Part = ByLenient<'a>;

    ghost each = { leniently };

    ghost parts = { first_in };

    ghost count = { λ x. min x.count (length (listed_in x.chunks)) };

    ghost counted = { λ x. length-take x.count (listed_in x.chunks) };

    fn len(&self) -> usize {
        self.count.min(self.chunks.len())
    }

    fn part(&self, i: usize) -> ByLenient<'a> {
        let ChunksIn { text, chunks } = self.chunks;
        ByLenient(chunks.as_slice()[i].in_text(text))
    }

    fn agrees()
        ensures { Same leniently leniently }
    {}
}
