//! A Complex, or a label that is converted to one, as the list of its levels.
ghost use Rattle.std.specs.Prelude.{◌≡◌, ◌+◌, ◌<◌, length, refl};
ghost use Rattle.std.specs.Option.{option_map};
ghost use Rattle.order.specs.Orders.{Same};
ghost use Rattle.texts.specs.Tables.{Taken};
ghost use Rattle.chunk.specs.Tables.{listed_in};
ghost use Rattle.mess.specs.declared.sep.Sep.TheVariants.{Hyphen, Plus};
ghost use Rattle.ideals.specs.Views.{parts_of as ideal_parts};
ghost use Rattle.general.specs.Views.{parts_of as general_parts};
ghost use Rattle.complex.specs.Order.{complex_order};
ghost use Rattle.complex.specs.Views.{parts_of as mess_parts};
ghost use Rattle.convert.specs.Convert.{release_level, meta_level, ideal_to_mess, body_to_mess, general_to_mess};
ghost use Rattle.convert.specs.Said.{level_said, mess_said, signed_said, levelwise, levels_said};

use crate::level::{Level, number_mchunk};
use chunk::chunks::ChunksIn;
use complex::views::MessIn;
use general::general::VersionIn;
use ideals::ideal::IdealIn;
use mess::mchunk::MChunk;
use mess::sep::Sep;
use order::{Parts, compare_lists};
use std::cmp::Ordering;
use word::Word;

/// A list of levels.
#[derive(Clone, Copy)]
pub enum Levels<'a> {
    /// A Complex.
    Complex(MessIn<'a>),
    /// An Ideal, converted.
    Ideal(IdealIn<'a>),
    /// A General, converted.
    General(VersionIn<'a>),
    /// A General without its epoch, converted.
    Body(VersionIn<'a>),
}

/// The chunks and the Last of a General.
fn body<'a>(general: VersionIn<'a>) -> Level<'a>
    ensures { level_said result ≡ (body_to_mess (general_parts general.entry)).first }
{
    Level::Chunks(general.chunks(), general.last())
}

/// The level of a Release, behind a hyphen.
fn release_level<'a>(release: Option<ChunksIn<'a>>) -> Option<(Sep, Level<'a>)>
    ensures { option_map signed_said result ≡ option_map (λ l. (Hyphen, l)) (release_level (option_map listed_in release.entry)) }
{
    release.map(|release| (Sep::Hyphen, Level::Release(release)))
}

/// The level of metadata, behind a plus sign.
fn meta_level<'a>(meta: Option<&'a [u8]>) -> Option<(Sep, Level<'a>)>
    ensures { option_map signed_said result ≡ option_map (λ l. (Plus, l)) (meta_level (option_map (λ s. s.now) meta.entry)) }
{
    meta.map(|meta| (Sep::Plus, Level::One(MChunk::Plain(Word::text(meta)))))
}

/// The level behind the first of an Ideal, or that behind it.
fn ideal_level<'a>(ideal: IdealIn<'a>, i: usize) -> Option<(Sep, Level<'a>)>
    ensures { Taken (ideal_to_mess (ideal_parts ideal.entry)).further i (option_map signed_said result) }
{
    let release = release_level(ideal.release());
    let meta = meta_level(ideal.meta());
    match i {
        0 => release.or(meta),
        1 => release.and(meta),
        _ => None,
    }
}

/// The level behind the chunks of a General: its Release.
fn body_level<'a>(general: VersionIn<'a>, i: usize) -> Option<(Sep, Level<'a>)>
    ensures { Taken (body_to_mess (general_parts general.entry)).further i (option_map signed_said result) }
{
    match i {
        0 => release_level(general.release()),
        _ => None,
    }
}

/// The level behind the epoch of a General, where it has one, and the further ones.
fn general_level<'a>(general: VersionIn<'a>, i: usize) -> Option<(Sep, Level<'a>)>
    ensures { Taken (general_to_mess (general_parts general.entry)).further i (option_map signed_said result) }
{
    match (general.epoch(), i) {
        (None, _) => body_level(general, i),
        (Some(_), 0) => Some((Sep::Colon, body(general))),
        (Some(_), _) => body_level(general, i - 1),
    }
}

/// A further level of a Complex.
fn read_level<'a>(mess: MessIn<'a>, i: usize) -> Option<(Sep, Level<'a>)>
    ensures { Taken (mess_parts mess.entry).further i (option_map signed_said result) }
{
    let (sep, level) = mess.level(i)?;
    Some((sep, Level::Read(level)))
}

/// The number of the further levels of an Ideal.
fn ideal_further(ideal: IdealIn<'_>) -> usize
    ensures { result ≡ length (ideal_to_mess (ideal_parts ideal.entry)).further }
{
    usize::from(ideal.release().is_some()) + usize::from(ideal.meta().is_some())
}

/// The number of the levels behind the chunks of a General.
fn body_further(general: VersionIn<'_>) -> usize
    ensures { result ≡ length (body_to_mess (general_parts general.entry)).further }
{
    usize::from(general.release().is_some())
}

impl<'a> Levels<'a> {
    /// The first level.
    pub fn first(&self) -> Level<'a>
        ensures { level_said result ≡ (mess_said self.now).first }
    {
        match *self {
            Levels::Complex(mess) => Level::Read(mess.first()),
            Levels::Ideal(ideal) => Level::Numbers(
                ideal.semver.major,
                ideal.semver.minor,
                ideal.semver.patch,
            ),
            // not `map_or`: no closure is covered whose result names a lifetime that nothing it takes names
            Levels::General(general) => match general.epoch() {
                Some(epoch) => Level::One(number_mchunk(epoch)),
                None => body(general),
            },
            Levels::Body(general) => body(general),
        }
    }

    /// How many further levels there are.
    pub fn further(&self) -> usize
        ensures count { result ≡ length (mess_said self.now).further }
        ensures few { result < 256 }
    {
        match *self {
            Levels::Complex(mess) => mess.further(),
            Levels::Ideal(ideal) => ideal_further(ideal),
            Levels::General(general) => {
                usize::from(general.epoch().is_some()) + body_further(general)
            }
            Levels::Body(general) => body_further(general),
        }
    }

    /// A further level and the sign in front of it, if there is one.
    pub fn level(&self, i: usize) -> Option<(Sep, Level<'a>)>
        ensures { Taken (mess_said self.now).further i (option_map signed_said result) }
    {
        match *self {
            Levels::Complex(mess) => read_level(mess, i),
            Levels::Ideal(ideal) => ideal_level(ideal, i),
            Levels::General(general) => general_level(general, i),
            Levels::Body(general) => body_level(general, i),
        }
    }
}

impl<'a> Parts for Levels<'a> {
    type Part = Level<'a>;

    ghost each = { levelwise };

    ghost parts = { levels_said };

    ghost count = { λ x. length (levels_said x) };

    ghost counted = { λ x. refl };

    fn len(&self) -> usize {
        self.further() + 1
    }

    fn part(&self, i: usize) -> Level<'a> {
        if i == 0 {
            return self.first();
        }
        // not `map_or`, which would make the first level each time, and not `map_or_else`: a closure that captures a view
        // ensures nothing to its caller
        match self.level(i - 1) {
            Some((_, level)) => level,
            None => self.first(),
        }
    }

    fn agrees()
        ensures { Same levelwise levelwise }
    {}
}

impl<'a> Levels<'a> {
    /// Level by level through the one list comparison, as Complexes compare.
    pub fn cmp(&self, other: &Levels<'_>) -> Ordering
        ensures { result ≡ complex_order (mess_said self.now) (mess_said other.now) }
    {
        compare_lists(self, other)
    }
}
