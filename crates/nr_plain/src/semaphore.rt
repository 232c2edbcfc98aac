//! The view of a semaphore: a count and a queue.

/// A count and the waiting goroutines, from the front of the queue on.
#[derive(Clone, Copy)]
pub(crate) struct PlainSemaphore<'a> {
    pub(crate) count: u32,
    pub(crate) queue: &'a [u32],
}
