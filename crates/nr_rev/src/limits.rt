//! The limits of a recording, and their ranges.

ghost use Rattle.std.specs.Prelude.{◌≡◌, true};
ghost use Rattle.nr_rev.specs.Limits.{is_limit};

/// The maximum number of goroutines that a recording may make.
pub const MOST_GOROUTINES: u32 = 4_096;

/// The maximum number of sockets that a recording may open.
pub const MOST_SOCKETS: u32 = 256;

/// The maximum number of descriptors that may be open at once.
pub const MOST_DESCRIPTORS: u32 = 256;

/// The maximum capacity of a buffer, in bytes.
pub const MOST_BUFFER: u32 = 1_048_576;

/// The limits of a recording: the numbers of goroutines, sockets and descriptors, and the size of a buffer in bytes.
#[derive(Clone, Copy, Debug, PartialEq, Eq)]
pub struct Limits {
    /// The maximum number of goroutines, including the first one and those that have ended; 1 to
    /// 4,096.
    pub goroutines: u32,
    /// The maximum number of sockets; 1 to 256.
    pub sockets: u32,
    /// The maximum number of descriptors that may be open at once; 1 to 256. At most twice this
    /// number of firings may wait to be run.
    pub descriptors: u32,
    /// The maximum capacity of a socket's input or output, and the maximum size of one read, in bytes; 1 to 1,048,576.
    pub buffer: u32,
}

impl Limits {
    ghost use Rattle.std.specs.Prelude.{◌≡◌, ◌≢◌, MatchBool};
    ghost use Rattle.std.specs.Bool.{OnTrue};
    ghost use Rattle.nr_rev.specs.Limits.{AreInRange};
    ghost use Rattle.nr_rev.specs.Auxiliary.Limits.{are_in_range};

    /// Returns whether each limit is in its range.
    pub fn are_in_range(&self) -> bool
        ensures value { result ≡ are_in_range self.now }
        ensures facts { OnTrue result (AreInRange self.now) }
        ensures all { AreInRange self.now → result ≡ true }
    {
        is_limit(MOST_GOROUTINES, self.goroutines)
            && is_limit(MOST_SOCKETS, self.sockets)
            && is_limit(MOST_DESCRIPTORS, self.descriptors)
            && is_limit(MOST_BUFFER, self.buffer)
    }

    /// Returns whether two sets of limits are the same.
    pub fn is(self, other: Limits) -> bool
        ensures { MatchBool result (self ≡ other) (self ≢ other) }
    {
        self == other
    }
}

/// Returns whether a limit is from 1 to `most`.
pub fn is_limit(most: u32, number: u32) -> bool
    ensures { result ≡ is_limit most number }
{
    number > 0 && number <= most
}
