//! General labels beside their texts: their parts, and their order.
ghost use Rattle.std.specs.Prelude.{◌≡◌, length, take};
ghost use Rattle.std.specs.Option.{option_map};
ghost use Rattle.order.specs.Lists.{lex};
ghost use Rattle.chunk.specs.Tables.{listed_in};
ghost use Rattle.lenient.specs.Order.{lenient_order};
ghost use Rattle.version.specs.Reading.{last_of};
ghost use Rattle.general.specs.Order.{era, chunk_at, release_order, level_order, longer_order, body_order, general_order, HigherEpoch};
ghost use Rattle.general.specs.Views.{parts_of, last_said, generally};

use crate::last::LastIn;
use chunk::chunks::ChunksIn;
use chunk::release::compare_perhaps_releases;
use lenient::chunks::FirstChunks;
use order::{ElementOrder, Parts, compare_lists};
use std::cmp::Ordering;
use version::last::Last;
use version::version::Version;

/// A General label: its parts beside its text. No generic view, as at `IdealIn`.
#[derive(Clone, Copy)]
pub struct VersionIn<'a> {
    pub text: &'a [u8],
    pub version: &'a Version,
}

impl<'a> VersionIn<'a> {
    /// The epoch.
    pub fn epoch(&self) -> Option<u32>
        ensures { result ≡ (parts_of self.now).epoch }
    {
        self.version.epoch
    }

    /// The epoch, absent counting 0.
    pub fn epoch_or_zero(&self) -> u32
        ensures { result ≡ era (parts_of self.now) }
    {
        self.epoch().unwrap_or(0)
    }

    /// The chunks before the Last, as a list.
    pub fn chunks(&self) -> ChunksIn<'a>
        ensures { listed_in result ≡ (parts_of self.now).chunks }
    {
        let text = self.text;
        let chunks = &self.version.chunks.chunks;
        ChunksIn { text, chunks }
    }

    /// The Last.
    pub fn last(&self) -> LastIn<'a>
        ensures { last_said result ≡ (parts_of self.now).last }
    {
        LastIn::new(self.text, self.version.last)
    }

    /// The Release, as the list of its chunks.
    pub fn release(&self) -> Option<ChunksIn<'a>>
        ensures { option_map listed_in result ≡ (parts_of self.now).release }
    {
        let text = self.text;
        let chunks = &self.version.release.as_ref()?.chunks;
        Some(ChunksIn { text, chunks })
    }

    /// The metadata, without its plus sign.
    pub fn meta(&self) -> Option<&'a [u8]>
        ensures { option_map (λ x. x.now) result ≡ (parts_of self.now).meta }
    {
        self.version.meta.map(|span| span.bytes(self.text))
    }

    /// The first chunks of both, at most `count` of each, under `cmp_lenient`.
    fn cmp_chunks(&self, other: &VersionIn<'_>, count: usize) -> Ordering
        ensures { result ≡ lex lenient_order (take count (parts_of self.now).chunks) (take count (parts_of other.now).chunks) }
    {
        let a = FirstChunks {
            chunks: self.chunks(),
            count,
        };
        let b = FirstChunks {
            chunks: other.chunks(),
            count,
        };
        compare_lists(&a, &b)
    }

    /// How two Releases compare; without one a General is Less.
    fn cmp_release(&self, other: &VersionIn<'_>) -> Ordering
        ensures { result ≡ release_order (parts_of self.now).release (parts_of other.now).release }
    {
        compare_perhaps_releases(self.release(), other.release(), Ordering::Less)
    }

    /// The chunk at an index, made a Last.
    fn as_last(&self, i: usize) -> LastIn<'a>
        ensures { last_said result ≡ last_of (chunk_at (parts_of self.now).chunks i) }
    {
        let text = self.text;
        let chunk = self.version.chunks.chunks.get(i);
        chunk.map_or(
            LastIn(Last::Numeric(0)),
            |chunk| LastIn::new(text, Last::new(text, chunk)),
        )
    }

    /// Two Generals with equally many chunks, without their epochs.
    fn cmp_level(&self, other: &VersionIn<'_>) -> Ordering
        requires { length (parts_of self.now).chunks ≡ length (parts_of other.now).chunks }
        ensures { result ≡ level_order (parts_of self.now) (parts_of other.now) }
    {
        match self.cmp_chunks(other, self.chunks().len()) {
            // not `then_with`: a closure that captures a view ensures nothing to its caller
            Ordering::Equal => match self.last().cmp(&other.last()) {
                Ordering::Equal => self.cmp_release(other),
                decided => decided,
            },
            decided => decided,
        }
    }

    /// This General against one with fewer chunks, without their epochs.
    fn cmp_with_last(&self, shorter: &VersionIn<'_>) -> Ordering
        ensures { result ≡ longer_order (parts_of self.now) (parts_of shorter.now) }
    {
        let count = shorter.chunks().len();
        match self.cmp_chunks(shorter, count) {
            // not `then_with`: as in `cmp_level`
            Ordering::Equal => {
                let next = self.as_last(count);
                next.cmp(&shorter.last()).then(Ordering::Greater)
            }
            decided => decided,
        }
    }

    /// Two Generals without their epochs.
    fn cmp_body(&self, other: &VersionIn<'_>) -> Ordering
        ensures { result ≡ body_order (parts_of self.now) (parts_of other.now) }
    {
        match self.chunks().len().cmp(&other.chunks().len()) {
            Ordering::Equal => self.cmp_level(other),
            Ordering::Greater => self.cmp_with_last(other),
            Ordering::Less => other.cmp_with_last(self).reverse(),
        }
    }

    /// The order of Generals: the epochs first, then chunks, Lasts and Releases.
    pub fn cmp(&self, other: &VersionIn<'_>) -> Ordering
        ensures answer { result ≡ general_order (parts_of self.now) (parts_of other.now) }
        ensures epochs { HigherEpoch (parts_of self.now) (parts_of other.now) result }
    {
        match self.epoch_or_zero().cmp(&other.epoch_or_zero()) {
            // not `then_with`: as in `cmp_level`
            Ordering::Equal => self.cmp_body(other),
            decided => decided,
        }
    }
}

impl<'a> ElementOrder for VersionIn<'a> {
    ghost order = { generally };

    fn compare(&self, other: &VersionIn<'a>) -> Ordering {
        self.cmp(other)
    }
}
