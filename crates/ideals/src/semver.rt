//! Reading Ideal labels.
ghost use Rattle.std.specs.Prelude.{◌≡◌};
ghost use Rattle.texts.specs.Answers.{told};
ghost use Rattle.parsers.specs.Answers.{parsed_by, new_by, NewReads};
ghost use Rattle.parsers.specs.Places.{Gives};
ghost use Rattle.texts.specs.Texts.{bytes_of};
ghost use Rattle.standard.specs.Reading.{ideal_of};
ghost use Rattle.standard.specs.Theorems.{Ideal as StandardIdeal};
ghost use Rattle.ideals.specs.Labels.{parts_in, read_in};

use chunk::release::Release;
use fault::LabelFault;
use parsers::{mark, meta, opt, unsigned, whole};
use texts::check_length;
use texts::table::Span;
use texts::text::Text;

/// The parts of an Ideal label: numbers, and places in its text.
#[derive(Clone, Copy)]
pub struct SemVer {
    pub major: u32,
    pub minor: u32,
    pub patch: u32,
    pub pre_rel: Option<Release>,
    pub meta: Option<Span>,
}

impl SemVer {
    /// The Ideal in front of a text, and the bytes read.
    fn read(text: Text<'_>) -> Option<(SemVer, usize)>
        ensures { Gives (parts_in (bytes_of text.entry)) ideal_of (bytes_of text.entry) 0 result }
    {
        // by a rule of this project each step of the cursor is a `let .. else` here, so that one sees where reading stops
        let Some((major, at)) = unsigned(text.bytes, 0) else {
            return None;
        };
        let Some(at) = mark(text.bytes, at, b'.') else {
            return None;
        };
        let Some((minor, at)) = unsigned(text.bytes, at) else {
            return None;
        };
        let Some(at) = mark(text.bytes, at, b'.') else {
            return None;
        };
        let Some((patch, at)) = unsigned(text.bytes, at) else {
            return None;
        };
        let (pre_rel, at) = opt(Release::parse(text, at), at);
        let (meta, at) = opt(meta(text, at), at);
        let semver = SemVer {
            major,
            minor,
            patch,
            pre_rel,
            meta,
        };
        Some((semver, at))
    }

    /// The Ideal in front of a text and the bytes read, or the fault: 1 for no bytes, 2 for more than 128,
    /// 3 with place 0 where there is no Ideal in front.
    pub fn parse(text: &[u8]) -> Result<(SemVer, usize), LabelFault>
        ensures { told (read_in text.now) result ≡ parsed_by ideal_of text.now }
    {
        check_length(text)?;
        SemVer::read(Text::new(text)).ok_or(LabelFault::NoForm(0))
    }

    /// The Ideal that a text is, or the fault: those of `parse`, and 3 with the bytes read where something is left over.
    pub fn new(text: &[u8]) -> Result<SemVer, LabelFault>
        ensures answer { told (parts_in text.now) result ≡ new_by ideal_of text.now }
        ensures standard { NewReads StandardIdeal text.now (told (parts_in text.now) result) }
    {
        whole(SemVer::parse(text)?, text)
    }
}
