//! The positions of a search, and the segments in which they lie.

ghost use Rattle.std.specs.Prelude.{◌≡◌, ◌<◌, ◌≤◌, ◌+◌, ◌*◌, ◌^◌};
ghost use Rattle.nr_search.specs.Search.{nth_on_way};
ghost use Rattle.nr_search.specs.Segments.{from_of, to_of};

use crate::direction::Direction;

/// The positions of a search: those after `after` and up to `last`. Each pair of neighbouring
/// copies of a film bounds a segment, and another segment goes from the last copy to the end.
/// Segment s contains the positions after `s * every` and up to `(s + 1) * every`. The positions of
/// the search lie in `count` segments, from segment `first` on.
#[derive(Debug, Drop)]
pub(crate) struct Span {
    pub direction: Direction,
    pub after: usize,
    pub last: usize,
    pub every: usize,
    pub first: usize,
    pub count: usize,
    ghost fits: { last + every < 2 ^ 63 },
    ghost some: { after < last },
    ghost begins: { first * every ≤ after },
    ghost enters: { after < (first + 1) * every },
    ghost ends: { last ≤ (first + count) * every },
    ghost needed: { (first + count) * every < last + every },
}

impl Span {
    /// Makes the span of the positions after `after` and up to `last`.
    pub fn new(direction: Direction, after: usize, last: usize, every: usize) -> Span
        requires some { after < last }
        requires every { 0 < every }
        requires fits { last + every < 2 ^ 63 }
        ensures direction { result.direction ≡ direction }
        ensures after { result.after ≡ after }
        ensures last { result.last ≡ last }
        ensures every { result.every ≡ every }
    {
        let first = after / every;
        Span {
            direction,
            after,
            last,
            every,
            first,
            count: (last - 1) / every - first + 1,
        }
    }

    /// Returns the segment at index k in search order.
    pub fn nth(&self, k: usize) -> usize
        requires { k < self.now.count }
        ensures { result ≡ nth_on_way self.now.direction self.now.first self.now.count k }
    {
        self.direction.nth(self.first, self.count, k)
    }

    /// Returns the bounds of a segment's positions, which are above the first number and at most
    /// the second.
    pub fn stretch(&self, s: usize) -> (usize, usize)
        requires first { self.now.first ≤ s }
        requires last { s < self.now.first + self.now.count }
        ensures from { result.0 ≡ from_of self.now.after self.now.every s }
        ensures to { result.1 ≡ to_of self.now.last self.now.every s }
        ensures order { result.0 < result.1 }
    {
        let base = s * self.every;
        (self.after.max(base), self.last.min(base + self.every))
    }
}
