//! Writing chunks, Releases and metadata.
ghost use Rattle.std.specs.Option.{option_map};
ghost use Rattle.chunk.specs.Said.{says};
ghost use Rattle.chunk.specs.Tables.{listed_in};
ghost use Rattle.written.specs.Written.{Adds, piece_text, pieces_text, tail_text};

use crate::writable::{Writable, write_list};
use chunk::chunk::{BySemver, Chunk};
use chunk::chunks::ChunksIn;
use std::alloc::AllocError;

impl<'a> Writable for Chunk<&'a [u8]> {
    ghost text = { λ c. piece_text (says c) };

    fn write(&self, out: &mut Vec<u8>) -> Result<(), AllocError> {
        match self {
            Chunk::Numeric(n) => {
                out.extend_from_slice(b"N:")?;
                n.write(out)
            }
            Chunk::Alphanum(text) => {
                out.extend_from_slice(b"A:")?;
                text.write(out)
            }
        }
    }
}

impl<'a> Writable for BySemver<'a> {
    ghost text = { λ c. piece_text (says c.0) };

    fn write(&self, out: &mut Vec<u8>) -> Result<(), AllocError> {
        self.0.write(out)
    }
}

/// The chunks of a General, or of a Release.
impl<'a> Writable for ChunksIn<'a> {
    ghost text = { λ c. pieces_text (listed_in c) };

    fn write(&self, out: &mut Vec<u8>) -> Result<(), AllocError> {
        write_list(out, self)
    }
}

// What stands behind the numbers of an Ideal, and behind the Last of a General.
pub(crate) fn write_tail(
    out: &mut Vec<u8>,
    release: Option<ChunksIn<'_>>,
    meta: Option<&[u8]>,
) -> Result<(), AllocError>
    ensures { Adds result out.old.items out.new.items (tail_text (option_map listed_in release.entry) (option_map (λ x. x.now) meta.entry)) }
{
    out.push(b';')?;
    release.write(out)?;
    out.push(b';')?;
    meta.write(out)
}
