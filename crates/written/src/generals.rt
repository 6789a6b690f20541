//! Writing Generals.
ghost use Rattle.general.specs.Views.{parts_of, last_said};
ghost use Rattle.written.specs.Written.{last_text, general_text};

use crate::chunks::write_tail;
use crate::writable::Writable;
use general::general::VersionIn;
use general::last::LastIn;
use std::alloc::AllocError;
use version::last::Last;

impl<'a> Writable for LastIn<'a> {
    ghost text = { λ x. last_text (last_said x) };

    fn write(&self, out: &mut Vec<u8>) -> Result<(), AllocError> {
        match &self.0 {
            Last::Numeric(number) => {
                out.extend_from_slice(b"N:")?;
                number.write(out)
            }
            Last::Rc(a, letters, b) => {
                out.extend_from_slice(b"R:")?;
                a.write(out)?;
                out.push(b':')?;
                letters.write(out)?;
                out.push(b':')?;
                b.write(out)
            }
            Last::Post(a, letters) => {
                out.extend_from_slice(b"P:")?;
                a.write(out)?;
                out.push(b':')?;
                letters.write(out)
            }
            Last::Alphanum(text) => {
                out.extend_from_slice(b"A:")?;
                text.write(out)
            }
        }
    }
}

impl<'a> Writable for VersionIn<'a> {
    ghost text = { λ x. general_text (parts_of x) };

    fn write(&self, out: &mut Vec<u8>) -> Result<(), AllocError> {
        out.extend_from_slice(b"version;")?;
        self.epoch().write(out)?;
        out.push(b';')?;
        self.chunks().write(out)?;
        out.push(b';')?;
        self.last().write(out)?;
        write_tail(out, self.release(), self.meta())
    }
}
