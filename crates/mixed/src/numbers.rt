//! Numbers of two labels that meet at their positions.
ghost use Rattle.std.specs.Prelude.{◌≡◌, ℕ, Option};
ghost use Rattle.version.specs.Numbers.{nth_of as general_nth};
ghost use Rattle.versioning.specs.Labels.{ideal_nth};
ghost use Rattle.mess.specs.Reading.{nth_of as complex_nth};
ghost use Rattle.ideals.specs.Views.{parts_of as ideal_parts};
ghost use Rattle.general.specs.Views.{parts_of as general_parts};
ghost use Rattle.mixed.specs.Meeting.{met_from};
ghost use Rattle.mixed.specs.Whole.{parts_of as complex_parts};

use crate::whole::ComplexIn;
use general::general::VersionIn;
use ideals::ideal::IdealIn;
use std::cmp::Ordering;
use versioning::versioning::semver_nth;

/// A label with numbers at positions.
pub trait Numbers {
    ghost numbers: { Self → ℕ → Option ℕ };

    /// The number at a position, if there is one.
    fn nth(&self, n: usize) -> Option<u32>
        ensures { result ≡ numbers self.now n };
}

impl<'a> Numbers for IdealIn<'a> {
    ghost numbers = { λ x n. ideal_nth (ideal_parts x).major (ideal_parts x).minor (ideal_parts x).patch n };

    fn nth(&self, n: usize) -> Option<u32> {
        semver_nth(self.semver, n)
    }
}

impl<'a> Numbers for VersionIn<'a> {
    ghost numbers = { λ x n. general_nth (general_parts x) n };

    fn nth(&self, n: usize) -> Option<u32> {
        self.version.nth(n)
    }
}

impl<'a> Numbers for ComplexIn<'a> {
    ghost numbers = { λ x n. complex_nth n (complex_parts x) };

    fn nth(&self, n: usize) -> Option<u32> {
        self.mess.nth(n)
    }
}

/// How the numbers of two labels meet at the first `count` positions: the order of the first pair that decides, or the
/// position where those end that agree, because a number is absent there or because it is `count`.
pub fn meet<A: Numbers, B: Numbers>(a: &A, b: &B, count: usize) -> Result<Ordering, usize>
    ensures { result ≡ met_from (A.Numbers.numbers a.now) (B.Numbers.numbers b.now) 0 count }
{
    for n in 0..count {
        let x = a.nth(n).ok_or(n)?;
        let y = b.nth(n).ok_or(n)?;
        let order = x.cmp(&y);
        if order.is_ne() {
            return Ok(order);
        }
    }
    Err(count)
}
