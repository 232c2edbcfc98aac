//! The lock of a socket, modelled on `internal/poll/fd_mutex.go`.

use crate::answer::Answer;
use crate::sides::Sides;

/// The lock of a socket: the fields of `fdMutex.state`. The counts of references and waiters have
/// 20 bits each, so each count is below 1,048,576 in a well-formed world.
#[derive(Clone, Copy, Debug, PartialEq, Eq)]
pub struct Lock {
    /// Whether the socket was closed.
    pub closed: bool,
    /// Whether a goroutine holds the lock of a side.
    pub locked: Sides<bool>,
    /// The number of references, counting each held lock as one.
    pub references: u32,
    /// The number of goroutines that wait for the lock of a side.
    pub waiters: Sides<u32>,
}

/// The result of an operation on a lock.
#[derive(Clone, Copy, Debug, PartialEq, Eq)]
pub struct LockOutcome {
    /// The answer of the operation.
    pub answer: Answer,
    /// The releases of each side's semaphore that the goroutine now owes: one for each waiter to wake.
    pub owed: Sides<u32>,
    /// The lock after the operation.
    pub lock: Lock,
}
