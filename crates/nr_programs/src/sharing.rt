//! The parameters of a shared session.

ghost use Rattle.std.specs.Prelude.{◌≡◌};
ghost use Rattle.nr_programs.specs.Sharing.{is_in_range};

use std::num::NonZeroU32;

/// The greatest port.
pub const MOST_PORT: u32 = 65_535;

/// The maximum number of fronts that share a session.
pub const MOST_FRONTS: u32 = 64;

/// The maximum number of threads that search for one front.
pub const MOST_WORKERS: u32 = 16;

/// The maximum number of words in a session's journal.
pub const MOST_JOURNAL: u32 = 1_000_000;

/// The parameters of a shared session.
#[derive(Clone, Copy, Debug, PartialEq, Eq)]
pub struct Sharing {
    /// The port of the first front, at least 1. The other fronts have the next ports, up to `MOST_PORT`.
    pub port: u32,
    /// The number of fronts, from 1 to `MOST_FRONTS`.
    pub fronts: u32,
    /// The number of threads that search for each front, from 1 to `MOST_WORKERS`.
    pub workers: u32,
    /// The number of commands for which the session has room, from 1 to `MOST_JOURNAL`.
    pub journal: u32,
    /// The number of connections after which each front ends, or `None` if a front never ends.
    pub connections: Option<NonZeroU32>,
}

impl Sharing {
    /// Returns whether each number is in its range.
    pub fn is_in_range(&self) -> bool
        ensures { result ≡ is_in_range self.now }
    {
        1 <= self.port
            && 1 <= self.fronts
            && self.fronts <= MOST_FRONTS
            && self.port <= MOST_PORT
            && self.port + self.fronts - 1 <= MOST_PORT
            && 1 <= self.workers
            && self.workers <= MOST_WORKERS
            && 1 <= self.journal
            && self.journal <= MOST_JOURNAL
    }
}
