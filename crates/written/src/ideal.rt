//! Writing Ideals.
ghost use Rattle.ideals.specs.Views.{parts_of};
ghost use Rattle.written.specs.Written.{ideal_text};

use crate::chunks::write_tail;
use crate::writable::Writable;
use ideals::ideal::IdealIn;
use std::alloc::AllocError;

impl<'a> Writable for IdealIn<'a> {
    ghost text = { λ x. ideal_text (parts_of x) };

    fn write(&self, out: &mut Vec<u8>) -> Result<(), AllocError> {
        let semver = self.semver;
        out.extend_from_slice(b"semver;")?;
        semver.major.write(out)?;
        out.push(b';')?;
        semver.minor.write(out)?;
        out.push(b';')?;
        semver.patch.write(out)?;
        write_tail(out, self.release(), self.meta())
    }
}
