//! Writing the parts of a label.
ghost use Rattle.versioning.specs.Labels.{parts_in};
ghost use Rattle.written.specs.Written.{Adds, parts_text};

use crate::writable::Writable;
use complex::views::MessIn;
use convert::levels::Levels;
use general::general::VersionIn;
use ideals::ideal::IdealIn;
use std::alloc::AllocError;
use versioning::versioning::Versioning;

/// Adds the form and the parts of a label; their places are in `text`.
pub fn write_parts<'a>(
    out: &mut Vec<u8>,
    text: &'a [u8],
    label: &'a Versioning,
) -> Result<(), AllocError>
    ensures { Adds result out.old.items out.new.items (parts_text (parts_in text.now label.now)) }
{
    match label {
        Versioning::Ideal(semver) => IdealIn { text, semver }.write(out),
        Versioning::General(version) => VersionIn { text, version }.write(out),
        Versioning::Complex(mess) => Levels::Complex(MessIn::new(text, mess)).write(out),
    }
}
