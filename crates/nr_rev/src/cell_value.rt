//! The value of a cell.

use crate::descriptor::WaitWord;
use crate::status::Status;

/// The value of a cell.
#[derive(Clone, Copy, Debug, PartialEq, Eq)]
pub enum CellValue {
    /// The cell's goroutine, socket, descriptor or timer doesn't exist.
    Absent,
    /// A count, a sequence, a summary or a lock word.
    Number(u64),
    /// A time in nanoseconds: a deadline, the time at which a timer is due, or the current time.
    Time(i64),
    /// A wait word.
    WaitWord(WaitWord),
    /// The status of a goroutine.
    Status(Status),
}

impl CellValue {
    ghost use Rattle.std.specs.Prelude.{◌≡◌, ◌≢◌, MatchBool};

    /// Returns whether two values are the same.
    pub fn is(self, other: CellValue) -> bool
        ensures { MatchBool result (self ≡ other) (self ≢ other) }
    {
        self == other
    }
}
