//! Orders of elements, and the one comparison of lists that hand out their parts.
#![tactic(auto)]

ghost use Rattle.std.specs.Prelude.{◌≡◌, ℕ, ◌<◌, List, length, slice_index_or, refl};
ghost use Rattle.std.specs.Ordering.{nat_cmp};
ghost use Rattle.order.specs.Laws.{Strict};
ghost use Rattle.order.specs.Lists.{lex};
ghost use Rattle.order.specs.Orders.{Order, asks, listwise, bytewise, Same};

use std::cmp::Ordering;

/// An element order. Its meaning `order` gives one fixed answer for each two elements, and holds both laws:
/// swapped gives the reverse, itself Equal.
pub trait ElementOrder {
    ghost order: { Order Self };

    fn compare(&self, other: &Self) -> Ordering
        ensures { result ≡ asks order self.now other.now };
}

/// A strict order: an element order that is also transitive. The whole law is stated at its own meaning, `strictly`,
/// which is tied to the element order.
pub trait StrictOrder: ElementOrder {
    ghost strictly: { Order Self };

    fn strict()
        ensures law { Strict strictly.answer }
        ensures tie { Same Self.order strictly };
}

/// A list that hands out its parts: how many there are, and the part at an index. What it means is the list `parts`
/// of the parts' values under the order `each`.
pub trait Parts {
    type Part: ElementOrder + Copy;

    ghost each: { Order Self.Part };

    ghost parts: { Self → List each.Value };

    ghost count: { Self → ℕ };

    ghost counted: { (x : Self) → length (parts x) ≡ count x };

    fn len(&self) -> usize
        ensures { result ≡ count self.now };

    fn part(&self, i: usize) -> Self::Part
        requires { i < count self.now }
        ensures { each.value result ≡ slice_index_or (parts self.now) i (each.value result) };

    /// The parts' own order is `each`.
    fn agrees()
        ensures { Same Self.Part.ElementOrder.order each };
}

/// The one list comparison: the first unequal pair decides, and otherwise the longer list is Greater.
pub fn compare_lists<L: Parts>(a: &L, b: &L) -> Ordering
    ensures { result ≡ lex L.Parts.each.answer (L.Parts.parts a.now) (L.Parts.parts b.now) }
{
    L::agrees();
    let m = a.len();
    let n = b.len();
    // by index, since the lists hand their parts out so: a Word and the levels of a converted label are no slices
    for i in 0..m.min(n) {
        let x = a.part(i);
        let y = b.part(i);
        match x.compare(&y) {
            Ordering::Equal => {}
            decided => return decided,
        }
    }
    m.cmp(&n)
}

/// Every list is an element: both laws are carried from its parts.
impl<L: Parts> ElementOrder for L {
    ghost order = { listwise L.Parts.each L.Parts.parts };

    fn compare(&self, other: &L) -> Ordering {
        compare_lists(self, other)
    }
}

/// A list of strict parts is strict.
impl<L: Parts> StrictOrder for L
where
    L::Part: StrictOrder,
{
    ghost strictly = { listwise L.Parts.each L.Parts.parts };

    fn strict() {
        L::agrees();
        L::Part::strict();
    }
}

impl ElementOrder for u8 {
    ghost order = { bytewise };

    fn compare(&self, other: &u8) -> Ordering {
        self.cmp(other)
    }
}

impl StrictOrder for u8 {
    ghost strictly = { bytewise };

    fn strict() {}
}

/// A text as a list of bytes.
#[derive(Clone, Copy)]
pub struct Bytes<'a>(pub &'a [u8]);

impl<'a> Parts for Bytes<'a> {
    type Part = u8;

    ghost each = { bytewise };

    ghost parts = { λ s. s.0.now };

    ghost count = { λ s. length s.0.now };

    ghost counted = { λ s. refl };

    fn len(&self) -> usize {
        self.0.len()
    }

    fn part(&self, i: usize) -> u8 {
        self.0[i]
    }

    fn agrees()
        ensures { Same bytewise bytewise }
    {}
}

/// Two texts, by bytes.
pub fn compare_texts(a: &[u8], b: &[u8]) -> Ordering
    ensures { result ≡ lex nat_cmp a.now b.now }
{
    compare_lists(&Bytes(a), &Bytes(b))
}
