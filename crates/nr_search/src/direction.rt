//! The direction of a search.

ghost use Rattle.std.specs.Prelude.{◌≡◌, ◌<◌, ◌+◌, ◌^◌};
ghost use Rattle.nr_search.specs.Search.{nth_on_way};

/// The direction in which to go through a recording, named after GDB's `exec-direction`.
#[derive(Clone, Copy, Debug, PartialEq, Eq)]
pub enum Direction {
    /// In the order in which the run was recorded.
    Forward,
    /// Back to the start.
    Backward,
}

impl Direction {
    /// Returns the number at index k when the numbers from `first` to `first + count - 1` are
    /// listed in this direction.
    pub(crate) fn nth(self, first: usize, count: usize, k: usize) -> usize
        requires within { k < count }
        requires fits { first + count < 2 ^ 64 }
        ensures { result ≡ nth_on_way self first count k }
    {
        match self {
            Direction::Forward => first + k,
            Direction::Backward => first + (count - 1 - k),
        }
    }
}
