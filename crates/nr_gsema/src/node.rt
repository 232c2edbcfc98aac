//! The nodes of goroutines and of semaphores.

ghost use Rattle.std.specs.Prelude.{◌≡◌, None};
ghost use Rattle.nr_gsema.specs.Links.{node_with};

use nr_rev::Status;

/// A goroutine's status, and its neighbours in its queue.
#[derive(Clone, Copy)]
pub(crate) struct GoroutineNode {
    pub(crate) status: Status,
    /// The goroutine after this one in its queue; none if this one is last or isn't queued.
    pub(crate) next: Option<u32>,
    /// The goroutine before this one in its queue; none if this one is first or isn't queued.
    pub(crate) previous: Option<u32>,
}

impl GoroutineNode {
    /// Returns the node of a goroutine that is in no queue.
    #[inline(always)]
    pub(crate) fn alone(status: Status) -> GoroutineNode
        ensures { result ≡ node_with status None None }
    {
        GoroutineNode {
            status,
            next: None,
            previous: None,
        }
    }
}

/// A semaphore's count and the two ends of its queue, which are none if the queue is empty.
#[derive(Clone, Copy)]
pub(crate) struct SemaphoreHead {
    pub(crate) count: u32,
    pub(crate) front: Option<u32>,
    pub(crate) back: Option<u32>,
}
