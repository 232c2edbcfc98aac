//! The answers of steps.

/// The answer of a step that applies. `Step` lists the possible answers of each kind.
#[derive(Clone, Copy, Debug, PartialEq, Eq)]
pub enum Answer {
    /// The number of the goroutine, socket or descriptor that was made.
    Number(u32),
    /// The result of a check of a descriptor, as `netpollcheckerr` of `runtime/netpoll.go` returns it: 0 no error, 1
    /// closing, 2 an expired deadline, 3 an error event, for reading only.
    Code(u32),
    /// The number of bytes that were read, at least one.
    Got(u32),
    /// The number of bytes that were written, at least one.
    Put(u32),
    /// The step is done and returns nothing.
    Done,
    /// The goroutine got the reference, the lock, the semaphore or the event that it asked for, or
    /// it parked.
    Yes,
    /// The goroutine didn't get what it asked for; if it asked for a lock, the lock is closed.
    No,
    /// The goroutine has to wait.
    Wait,
    /// The lock is closed, and its last reference was dropped.
    Last,
    /// The lock is open, or still has references.
    NotLast,
    /// Nothing is left to read, and the peer has closed.
    Eof,
    /// Nothing can be read or written now.
    Again,
    /// The event or firing is out of date, and nothing changed.
    Stale,
    /// Nothing was written, because the write side is shut.
    Pipe,
}

impl Answer {
    ghost use Rattle.std.specs.Prelude.{◌≡◌, ◌≢◌, MatchBool};

    /// Returns whether two answers are the same.
    pub fn is(self, other: Answer) -> bool
        ensures { MatchBool result (self ≡ other) (self ≢ other) }
    {
        self == other
    }
}
