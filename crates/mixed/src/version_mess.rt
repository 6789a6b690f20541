//! Generals against Complexes.
ghost use Rattle.std.specs.Prelude.{◌≡◌};
ghost use Rattle.general.specs.Views.{parts_of as general_parts};
ghost use Rattle.complex.specs.Order.{complex_order};
ghost use Rattle.complex.specs.Fronts.{behind_first, epoch_like};
ghost use Rattle.convert.specs.Said.{mess_said};
ghost use Rattle.mixed.specs.Complexes.{by_positions, by_epoch, general_complex};
ghost use Rattle.mixed.specs.Whole.{parts_of as complex_parts};

use crate::numbers::meet;
use crate::whole::ComplexIn;
use convert::levels::Levels;
use general::general::VersionIn;
use std::cmp::Ordering;

/// The two meet at `nth(0)`, `nth(1)` and so on until one pair decides; where one is absent, `mine`, the converted General,
/// is compared with `other`.
fn cmp_positions(
    general: &VersionIn<'_>,
    complex: &ComplexIn<'_>,
    mine: &Levels<'_>,
    other: &Levels<'_>,
) -> Ordering
    ensures { result ≡ by_positions (general_parts general.now) (complex_parts complex.now) (complex_order (mess_said mine.now) (mess_said other.now)) }
{
    match meet(general, complex, general.chunks().len() + 1) {
        Ok(decided) => decided,
        Err(_) => mine.cmp(other),
    }
}

/// A General with an epoch above 0. The epoch meets the first level of the Complex where that reads as one, and a tie goes
/// on behind it; otherwise the General is Greater.
fn cmp_epoch(general: &VersionIn<'_>, complex: &ComplexIn<'_>) -> Ordering
    ensures { result ≡ by_epoch (general_parts general.now) (epoch_like (complex_parts complex.now)) (behind_first (complex_parts complex.now)) }
{
    let levels = complex.levels();
    let (Some(number), Some(rest)) = (levels.epoch(), levels.behind_first()) else {
        return Ordering::Greater;
    };
    // not `then_with`: a closure that captures a view ensures nothing to its caller
    match general.epoch_or_zero().cmp(&number) {
        Ordering::Equal => {
            let mine = Levels::Body(*general);
            cmp_positions(general, complex, &mine, &Levels::Complex(rest))
        }
        decided => decided,
    }
}

/// A General against a Complex.
pub fn cmp_mess(general: &VersionIn<'_>, complex: &ComplexIn<'_>) -> Ordering
    ensures { result ≡ general_complex (general_parts general.now) (complex_parts complex.now) }
{
    if general.epoch_or_zero() > 0 {
        return cmp_epoch(general, complex);
    }
    let mine = Levels::General(*general);
    let other = Levels::Complex(complex.levels());
    cmp_positions(general, complex, &mine, &other)
}
