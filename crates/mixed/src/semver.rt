//! Ideals against labels of the other forms.
ghost use Rattle.std.specs.Prelude.{◌≡◌, drop};
ghost use Rattle.chunk.specs.Said.{says};
ghost use Rattle.ideals.specs.Views.{parts_of as ideal_parts};
ghost use Rattle.general.specs.Views.{parts_of as general_parts};
ghost use Rattle.mixed.specs.Generals.{before_chunk, tied, ideal_general};

use crate::numbers::meet;
use chunk::chunk::Chunk;
use general::general::VersionIn;
use ideals::ideal::IdealIn;
use std::cmp::Ordering;
use version::last::Last;

/// A tie of all three numbers before a fourth chunk: its sort decides, not its value.
fn before_chunk(fourth: Chunk<&[u8]>) -> Ordering
    ensures { result ≡ before_chunk (says fourth.entry) }
{
    match fourth {
        // 1.2.3 is below 1.2.3.4.0.5
        Chunk::Numeric(_) => Ordering::Less,
        // 1.2.3 is above 1.2.3.4.git.5
        Chunk::Alphanum(_) => Ordering::Greater,
    }
}

/// A tie of all three numbers.
fn cmp_tied(ideal: &IdealIn<'_>, general: &VersionIn<'_>) -> Ordering
    ensures { result ≡ tied (ideal_parts ideal.now).release (drop 2 (general_parts general.now).chunks) (general_parts general.now).last }
{
    let chunks = general.chunks();
    if let Some(fourth) = chunks.get(3) {
        return before_chunk(fourth);
    }
    match (chunks.get(2), general.last().0, ideal.release()) {
        // 1.2.3 is above 1.2.3.git
        (Some(_), Last::Alphanum(_), _) => Ordering::Greater,
        (Some(_), _, _) => Ordering::Less,
        // 1.2.3 is above 1.2.3rc1
        (None, Last::Rc(_, _, _) | Last::Post(_, _), None) => Ordering::Greater,
        (None, _, _) => Ordering::Equal,
    }
}

/// An Ideal against a General: major, minor and patch meet its numbers, and where one is absent the Ideal is Greater. A
/// General with an epoch above 0 is Greater.
pub fn cmp_version(ideal: &IdealIn<'_>, general: &VersionIn<'_>) -> Ordering
    ensures { result ≡ ideal_general (ideal_parts ideal.now) (general_parts general.now) }
{
    if general.epoch_or_zero() > 0 {
        return Ordering::Less;
    }
    match meet(ideal, general, 3) {
        Ok(decided) => decided,
        Err(3) => cmp_tied(ideal, general),
        Err(_) => Ordering::Greater,
    }
}
