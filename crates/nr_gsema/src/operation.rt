//! The operations on goroutines and semaphores.

use nr_rev::Status;

/// A goroutine's operation on its status and the semaphores: the part of the machine's steps that
/// concerns statuses and semaphores. The errors are tested in the order in which they are listed,
/// and an error leaves everything unchanged. All operations except `Spawn` first fail with
/// `NoSuchGoroutine` if the goroutine doesn't exist or has ended.
#[derive(Clone, Copy, Debug)]
pub enum GOperation {
    /// Makes an idle goroutine. Answers its number. Fails with `TableFull` if the limit is reached.
    Spawn,
    /// Ends an idle goroutine. Answers `Done`. Fails with `NotThere` if it isn't idle.
    Exit {
        goroutine: u32,
    },
    /// Changes a goroutine's status from `from` to `to`. Answers `Done`. Fails with `NotThere` if
    /// its status isn't `from`, or if one of the two statuses is queued or ended; fails with
    /// `NoSuchSocket` if `to` names a socket that isn't below the limit.
    Move {
        goroutine: u32,
        from: Status,
        to: Status,
    },
    /// A goroutine that is acquiring a semaphore decreases the count and takes the lock again (`Relock`), with the
    /// answer `Yes`. If the count is 0, the goroutine joins the back of the queue, with the answer `Wait`. Fails with
    /// `NotThere` if the goroutine isn't acquiring, and with `NoSuchSocket` if its socket isn't below the limit.
    Acquire {
        goroutine: u32,
    },
    /// Performs one of the releases that the goroutine owes; those of the read side come first. The count grows by one,
    /// and the first goroutine in the queue, if any, leaves it and must acquire again. Answers `Done`. Fails with
    /// `NotThere` if the goroutine owes none, with `NoSuchSocket` if its socket isn't below the limit, and with
    /// `FieldOverflow` if the count is 4,294,967,295.
    Release {
        goroutine: u32,
    },
}
