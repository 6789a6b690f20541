//! The Last beside its text, and the order of Lasts.
ghost use Rattle.std.specs.Prelude.{◌≡◌};
ghost use Rattle.std.specs.declared.cmp.Ordering.TheVariants.{Equal, Greater};
ghost use Rattle.order.specs.Laws.{Strict};
ghost use Rattle.version.specs.Labels.{last_in};
ghost use Rattle.general.specs.Lasts.{last_order};
ghost use Rattle.general.specs.Views.{last_said, lastly};

use order::{ElementOrder, compare_texts};
use std::cmp::Ordering;
use texts::table::Span;
use version::last::Last;

/// A Last that is handed out, under the order of Lasts.
#[derive(Clone, Copy)]
pub struct LastIn<'a>(pub Last<&'a [u8]>);

impl<'a> LastIn<'a> {
    /// What a Last is in its text.
    pub fn new(text: &'a [u8], last: Last<Span>) -> LastIn<'a>
        ensures { last_said result ≡ last_in text.now last }
    {
        LastIn(last.in_text(text))
    }

    /// The order of Lasts.
    pub fn cmp(&self, other: &LastIn<'_>) -> Ordering
        ensures { result ≡ last_order (last_said self.now) (last_said other.now) }
    {
        match (self.0, other.0) {
            (Last::Alphanum(s), Last::Alphanum(t)) => compare_texts(s, t),
            (Last::Alphanum(_), _) => Ordering::Less,
            (_, Last::Alphanum(_)) => Ordering::Greater,
            (Last::Numeric(a), Last::Numeric(b)) => a.cmp(&b),
            (Last::Numeric(a), Last::Rc(b, _, _) | Last::Post(b, _)) => {
                a.cmp(&b).then(Ordering::Greater)
            }
            (Last::Rc(a, _, _) | Last::Post(a, _), Last::Numeric(b)) => {
                a.cmp(&b).then(Ordering::Less)
            }
            (Last::Rc(a, s, m), Last::Rc(b, t, n)) => {
                a.cmp(&b)
                    .then_with(|| compare_texts(s, t))
                    .then_with(|| m.cmp(&n))
            }
            (Last::Rc(a, s, _) | Last::Post(a, s), Last::Rc(b, t, _) | Last::Post(b, t)) => {
                a.cmp(&b).then_with(|| compare_texts(s, t))
            }
        }
    }
}

impl<'a> ElementOrder for LastIn<'a> {
    ghost order = { lastly };

    fn compare(&self, other: &LastIn<'a>) -> Ordering {
        self.cmp(other)
    }
}

/// The order of Lasts is not transitive: 1rc3 against 1rc is Equal, 1rc against 1rc2 too, and 1rc3 is above 1rc2.
pub fn last_ties() -> (Ordering, Ordering, Ordering)
    ensures ties { result ≡ (Equal, Equal, Greater) }
    ensures unstrict { Strict last_order → ⊥ }
{
    let third = LastIn(Last::Rc(1, b"rc", 3));
    let none = LastIn(Last::Post(1, b"rc"));
    let second = LastIn(Last::Rc(1, b"rc", 2));
    (third.cmp(&none), none.cmp(&second), third.cmp(&second))
}
