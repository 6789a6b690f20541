//! Writing numbers.
ghost use Rattle.std.specs.Prelude.{decimal};
ghost use Rattle.written.specs.Written.{Adds};

use crate::writable::Writable;
use itoa::Buffer;
use std::alloc::AllocError;

/// Adds a number in decimal.
pub fn write_number(out: &mut Vec<u8>, n: usize) -> Result<(), AllocError>
    ensures { Adds result out.old.items out.new.items (decimal n) }
{
    out.extend_from_slice(Buffer::new().format(n).as_bytes())
}

impl Writable for u32 {
    ghost text = { λ n. decimal n };

    fn write(&self, out: &mut Vec<u8>) -> Result<(), AllocError> {
        write_number(out, *self as usize)
    }
}
