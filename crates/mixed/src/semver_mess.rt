//! Ideals against Complexes.
ghost use Rattle.std.specs.Prelude.{◌≡◌};
ghost use Rattle.ideals.specs.Views.{parts_of as ideal_parts};
ghost use Rattle.mixed.specs.Complexes.{converted, by_lenient, ideal_complex};
ghost use Rattle.mixed.specs.Whole.{parts_of as complex_parts};

use crate::numbers::meet;
use crate::whole::ComplexIn;
use convert::levels::Levels;
use ideals::ideal::IdealIn;
use std::cmp::Ordering;

/// The converted Ideal against a Complex.
fn cmp_converted(ideal: &IdealIn<'_>, complex: &ComplexIn<'_>) -> Ordering
    ensures { result ≡ converted (ideal_parts ideal.now) (complex_parts complex.now) }
{
    Levels::Ideal(*ideal).cmp(&Levels::Complex(complex.levels()))
}

/// The patch against the lenient number in the third place, where no number stands there.
fn cmp_lenient_patch(ideal: &IdealIn<'_>, complex: &ComplexIn<'_>) -> Ordering
    ensures { result ≡ by_lenient (ideal_parts ideal.now) (complex_parts complex.now) }
{
    // not `map_or`, which would convert each time, and not `map_or_else`: a closure that captures a view ensures nothing to
    // its caller
    match complex.lenient(2) {
        // 1.2.3 is above 1.2.3a_x
        Some(number) => ideal.semver.patch.cmp(&number).then(Ordering::Greater),
        None => cmp_converted(ideal, complex),
    }
}

/// An Ideal against a Complex: major, minor and patch meet its numbers; where one is absent, and on a tie of all, the
/// converted Ideal is compared.
pub fn cmp_mess(ideal: &IdealIn<'_>, complex: &ComplexIn<'_>) -> Ordering
    ensures { result ≡ ideal_complex (ideal_parts ideal.now) (complex_parts complex.now) }
{
    match meet(ideal, complex, 3) {
        Ok(decided) => decided,
        Err(2) => cmp_lenient_patch(ideal, complex),
        Err(_) => cmp_converted(ideal, complex),
    }
}
