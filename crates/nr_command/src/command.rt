//! The requests that a line can make.

use nr_marks::Break;
use nr_rev::{Cell, Side};
use nr_search::Direction;
use std::num::NonZeroU32;

/// A command that moves the debugger or changes its state. Each is named after a GDB command, with
/// recorded steps in place of GDB's instructions.
#[derive(Clone, Copy, Debug, PartialEq, Eq)]
pub enum Command {
    /// Goes this many steps in the current direction, but not beyond the end of the recording.
    Step(NonZeroU32),
    /// Goes this many steps backwards, but not beyond the start.
    ReverseStep(NonZeroU32),
    /// Goes in the current direction to the nearest position at which a mark hits, or to the end of
    /// the recording if no mark hits.
    Continue,
    /// Goes backwards to the nearest position at which a mark hits, or to the start if no mark
    /// hits.
    ReverseContinue,
    /// Sets the direction of `Step` and `Continue`.
    SetDirection(Direction),
    /// Marks the positions before these steps.
    Break(Break),
    /// Marks the positions at which a cell has changed.
    Watch(Cell),
    /// Deletes the mark with this number.
    Delete(u32),
    /// Keeps the position under the next number.
    Checkpoint,
    /// Goes to the position of the checkpoint with this number, or to the start for 0.
    Restart(u32),
    /// Deletes the checkpoint with this number.
    DeleteCheckpoint(u32),
    /// Marks the positions before these steps, as `Break` does. The mark is deleted at the first
    /// stop of `Continue` or `ReverseContinue` at which it hits.
    TemporaryBreak(Break),
}

/// A query. It changes nothing.
#[derive(Clone, Copy, Debug, PartialEq, Eq)]
pub enum Query {
    /// The value of a cell.
    Print(Cell),
    /// The bytes in a socket's buffer; the buffer of the read side is the input.
    DumpBytes { side: Side, socket: u32 },
    /// The goroutines queued at a socket's semaphore.
    DumpQueue { side: Side, socket: u32 },
    /// The debugger's position and direction.
    Position,
    /// The marks.
    Breakpoints,
    /// The checkpoints.
    Checkpoints,
}

/// The request that a line makes.
#[derive(Clone, Copy, Debug, PartialEq, Eq)]
pub enum Line {
    Run(Command),
    Look(Query),
    /// The reply that is still owed, if there is one.
    Resume,
    Quit,
    /// The line has no words, and gets no reply.
    Empty,
}

/// Why a line isn't a request.
#[derive(Clone, Copy, Debug, PartialEq, Eq)]
pub enum LineFault {
    UnknownCommand,
    BadArgument,
    TooLong,
}
