//! The core: all parts of a packed world except the buffers of its sockets.

use nr_desc::Desc;
use nr_gsema::GTable;
use nr_lock::LockWord;
use nr_rev::{Limits, Refusal, RoomedList};
use nr_timers::Timers;
use std::alloc::Global;

/// Goroutines, locks, descriptors, timers and counts. `changing` has a method for each change that can be undone.
#[derive(Drop)]
pub(crate) struct Core {
    /// The limits of the recording.
    pub(crate) limits: Limits,
    /// The statuses of goroutines, and the semaphores of all sockets below the limit.
    pub(crate) goroutines: GTable,
    /// The lock of each opened socket, by its number.
    pub(crate) locks: RoomedList<LockWord>,
    /// Each descriptor that was ever opened, by its number.
    pub(crate) descriptors: RoomedList<Desc>,
    /// The numbers of closed descriptors, the last closed first.
    pub(crate) free: RoomedList<u32>,
    /// Armed timers and firings.
    pub(crate) timers: Timers,
    /// The current time.
    pub(crate) clock: i64,
    /// The number of wait words that hold a goroutine.
    pub(crate) waiters: u64,
}
