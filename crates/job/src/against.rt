//! Which of two texts is the later label.
ghost use Rattle.std.specs.Prelude.{◌≡◌};
ghost use Rattle.parsers.specs.Answers.{new_by};
ghost use Rattle.standard.specs.Reading.{ideal_of};
ghost use Rattle.job.specs.Verdicts.{verdict_of, against_of, Judged};

use fault::LabelFault;
use ideals::ideal::IdealIn;
use ideals::semver::SemVer;
use std::cmp::Ordering;

/// The later of two labels.
#[derive(Clone, Copy)]
pub enum Verdict {
    First,
    Second,
    Neither,
}

/// Why one or both of two texts are no labels.
// A field for each text, never both None, since each refusal is told by itself: an enum of three cases would have both told
// twice over.
#[derive(Clone, Copy)]
pub struct Refusals {
    pub first: Option<LabelFault>,
    pub second: Option<LabelFault>,
}

impl From<Ordering> for Verdict {
    ghost from_gives = { λ order verdict. verdict ≡ verdict_of order };

    fn from(order: Ordering) -> Verdict {
        match order {
            Ordering::Less => Verdict::Second,
            Ordering::Equal => Verdict::Neither,
            Ordering::Greater => Verdict::First,
        }
    }
}

/// The later of two texts that are Ideals, or the refusal of each that is none.
pub fn against(first: &[u8], second: &[u8]) -> Result<Verdict, Refusals>
    ensures answer { result ≡ against_of (new_by ideal_of first.now) (new_by ideal_of second.now) }
    ensures standard { Judged first.now second.now result }
{
    match (SemVer::new(first), SemVer::new(second)) {
        (Ok(a), Ok(b)) => {
            let one = IdealIn {
                text: first,
                semver: &a,
            };
            let other = IdealIn {
                text: second,
                semver: &b,
            };
            Ok(Verdict::from(one.cmp(&other)))
        }
        (a, b) => Err(Refusals {
            first: a.err(),
            second: b.err(),
        }),
    }
}
