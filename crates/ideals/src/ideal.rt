//! Ideal labels beside their texts: their parts, their order, tilde and caret.
ghost use Rattle.std.specs.Prelude.{◌≡◌, true};
ghost use Rattle.std.specs.Option.{option_map};
ghost use Rattle.order.specs.Laws.{Strict};
ghost use Rattle.order.specs.Orders.{Same};
ghost use Rattle.chunk.specs.Tables.{listed_in};
ghost use Rattle.standard.specs.Order.{ideal_order, release_order};
ghost use Rattle.standard.specs.Theorems.{Standard, Iff};
ghost use Rattle.ideals.specs.Ranges.{Tilde, Caret};
ghost use Rattle.ideals.specs.Views.{parts_of, ideally, Agreement};

use crate::semver::SemVer;
use chunk::chunks::ChunksIn;
use chunk::release::compare_perhaps_releases;
use order::{ElementOrder, StrictOrder};
use std::cmp::Ordering;

/// An Ideal label: its parts beside its text. A view for each form and no generic one, whose methods would all have to
/// stand in one crate below the forms.
#[derive(Clone, Copy)]
pub struct IdealIn<'a> {
    pub text: &'a [u8],
    pub semver: &'a SemVer,
}

impl<'a> IdealIn<'a> {
    /// The Release, as the list of its chunks.
    pub fn release(&self) -> Option<ChunksIn<'a>>
        ensures { option_map listed_in result ≡ (parts_of self.now).release }
    {
        let text = self.text;
        let chunks = &self.semver.pre_rel.as_ref()?.chunks;
        Some(ChunksIn { text, chunks })
    }

    /// The metadata, without its plus sign.
    pub fn meta(&self) -> Option<&'a [u8]>
        ensures { option_map (λ x. x.now) result ≡ (parts_of self.now).meta }
    {
        self.semver.meta.map(|span| span.bytes(self.text))
    }

    /// How two Releases compare; without one an Ideal is Greater.
    fn cmp_release(&self, other: &IdealIn<'_>) -> Ordering
        ensures { result ≡ release_order (parts_of self.now).release (parts_of other.now).release }
    {
        compare_perhaps_releases(self.release(), other.release(), Ordering::Greater)
    }

    /// The order of Ideals: the numbers first, then the Releases. It is the standard's precedence.
    pub fn cmp(&self, other: &IdealIn<'_>) -> Ordering
        ensures answer { result ≡ ideal_order (parts_of self.now) (parts_of other.now) }
        ensures standard { Standard (parts_of self.now) (parts_of other.now) result }
        ensures agreement { Agreement self.now.text.now other.now.text.now (parts_of self.now) (parts_of other.now) result }
    {
        let a = self.semver;
        let b = other.semver;
        match (a.major, a.minor, a.patch).cmp(&(b.major, b.minor, b.patch)) {
            // not `then_with`: a closure that captures a view ensures nothing to its caller
            Ordering::Equal => self.cmp_release(other),
            decided => decided,
        }
    }
}

impl<'a> ElementOrder for IdealIn<'a> {
    ghost order = { ideally };

    fn compare(&self, other: &IdealIn<'a>) -> Ordering {
        self.cmp(other)
    }
}

impl<'a> StrictOrder for IdealIn<'a> {
    ghost strictly = { ideally };

    fn strict()
        ensures law { Strict ideal_order }
        ensures tie { Same ideally ideally }
    {}
}

impl SemVer {
    /// Whether a label fits this Ideal as a tilde rule.
    pub fn matches_tilde(&self, label: &SemVer) -> bool
        ensures { Iff (result ≡ true) (Tilde self.now label.now) }
    {
        self.major == label.major && self.minor == label.minor && label.patch >= self.patch
    }

    /// Whether a label fits this Ideal as a caret rule.
    pub fn matches_caret(&self, label: &SemVer) -> bool
        ensures { Iff (result ≡ true) (Caret self.now label.now) }
    {
        if self.major == 0 && label.major == 0 {
            if self.minor == 0 && label.minor == 0 {
                label.patch == self.patch
            } else {
                label.minor == self.minor && label.patch >= self.patch
            }
        } else {
            label.major == self.major
                && (label.minor > self.minor
                    || (label.minor >= self.minor && label.patch >= self.patch))
        }
    }
}
