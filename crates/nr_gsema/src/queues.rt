//! Joining and leaving queues, and the counts of semaphores.

ghost use Rattle.std.specs.Prelude.{◌≡◌, ◌+◌, ◌-◌, ◌^◌, ◌<◌, ◌∷◌, ◌++◌, [], length, slice_get, take, Some, false};
ghost use Rattle.nr_rev.specs.declared.status.Status.TheVariants.{Idle, Acquiring, Queued};
ghost use Rattle.nr_gsema.specs.Delta.{HasSemaphore, IsOutside, CanRequeue, released_back};
ghost use Rattle.nr_gsema.specs.Links.{is_waiting};
ghost use Rattle.nr_gsema.specs.Relinking.{or_else, end_left};
ghost use Rattle.nr_gsema.specs.SemaphoreChange.{released_once, unreleased, with_count, with_last, without_last};
ghost use Rattle.nr_gsema.specs.Step.{tries_again};
ghost use Rattle.nr_gsema.specs.Auxiliary.Table.{on_semaphore, queue_at, with_status};

use crate::links::{set_next, set_previous};
use crate::node::{GoroutineNode, SemaphoreHead};
use crate::table::GTable;
use nr_rev::{Side, Status};

/// Returns the other end of a queue that a goroutine joins: the goroutine itself if the queue was empty.
#[inline(always)]
fn or_else(end: Option<u32>, goroutine: u32) -> Option<u32>
    ensures { result ≡ or_else end goroutine }
{
    match end {
        None => Some(goroutine),
        Some(_) => end,
    }
}

/// Returns one end of a queue after a goroutine has left the other end: none if that goroutine had
/// no neighbour.
#[inline(always)]
fn end_left(neighbour: Option<u32>, end: Option<u32>) -> Option<u32>
    ensures { result ≡ end_left neighbour end }
{
    match neighbour {
        None => None,
        Some(_) => end,
    }
}

impl GTable {
    /// Sets the status of a goroutine. Neither the old nor the new status is queued.
    #[inline(always)]
    pub(crate) fn set_status(&mut self, goroutine: u32, status: Status)
        requires old { IsOutside goroutine self.old }
        requires new { is_waiting status ≡ false }
        ensures { self.new ≡ with_status goroutine status self.old }
    {
        let node = self.nodes[goroutine as usize];
        self.nodes[goroutine as usize] = GoroutineNode { status, ..node };
        self.waits.change(node.status, status);
    }

    /// Sets the count of a semaphore.
    #[inline(always)]
    pub(crate) fn set_count(&mut self, socket: u32, side: Side, count: u32)
        requires { socket < length self.old.semaphores }
        ensures { self.new ≡ on_semaphore socket side (with_count count) self.old }
    {
        let semaphores = self.semaphores[socket as usize];
        let head = SemaphoreHead {
            count,
            ..semaphores.of(side)
        };
        self.semaphores[socket as usize] = semaphores.with(side, head);
    }

    /// Puts a goroutine that is in no queue at the back of a queue.
    #[inline(always)]
    pub(crate) fn join_back(&mut self, goroutine: u32, socket: u32, side: Side)
        requires outside { IsOutside goroutine self.old }
        requires there { socket < length self.old.semaphores }
        ensures { self.new ≡ with_status goroutine (Queued socket side)
            (on_semaphore socket side (with_last goroutine) self.old) }
    {
        let semaphores = self.semaphores[socket as usize];
        let queue = semaphores.of(side);
        self.waits.leave(self.nodes[goroutine as usize].status);
        self.nodes[goroutine as usize] = GoroutineNode {
            status: Status::Queued { socket, side },
            next: None,
            previous: queue.back,
        };
        set_next(&mut self.nodes, queue.back, Some(goroutine));
        let head = SemaphoreHead {
            count: queue.count,
            front: or_else(queue.front, goroutine),
            back: Some(goroutine),
        };
        self.semaphores[socket as usize] = semaphores.with(side, head);
    }

    /// Removes the last goroutine of a queue; that goroutine must acquire again.
    #[inline(always)]
    pub(crate) fn leave_back(&mut self, goroutine: u32, socket: u32, side: Side)
        requires { HasSemaphore socket side (λ semaphore. slice_get semaphore.queue (length semaphore.queue - 1) ≡ Some goroutine) self.old }
        ensures { self.new ≡ with_status goroutine (Acquiring socket side)
            (on_semaphore socket side without_last self.old) }
    {
        let semaphores = self.semaphores[socket as usize];
        let queue = semaphores.of(side);
        let previous = self.nodes[goroutine as usize].previous;
        let acquiring = Status::Acquiring { socket, side };
        self.nodes[goroutine as usize] = GoroutineNode::alone(acquiring);
        set_next(&mut self.nodes, previous, None);
        let head = SemaphoreHead {
            count: queue.count,
            front: end_left(previous, queue.front),
            back: previous,
        };
        self.semaphores[socket as usize] = semaphores.with(side, head);
    }

    /// Removes the goroutine at the front of a queue, and increments the semaphore's count. The
    /// goroutine must acquire again.
    #[inline(always)]
    pub(crate) fn leave_front(&mut self, goroutine: u32, socket: u32, side: Side)
        requires { HasSemaphore socket side (λ semaphore. (slice_get semaphore.queue 0 ≡ Some goroutine) × (semaphore.count + 1 < 2 ^ 32)) self.old }
        ensures { self.new ≡ with_status goroutine (Acquiring socket side)
            (on_semaphore socket side released_once self.old) }
    {
        let semaphores = self.semaphores[socket as usize];
        let queue = semaphores.of(side);
        let next = self.nodes[goroutine as usize].next;
        self.nodes[goroutine as usize] = GoroutineNode::alone(Status::Acquiring { socket, side });
        set_previous(&mut self.nodes, next, None);
        let head = SemaphoreHead {
            count: queue.count + 1,
            front: next,
            back: end_left(next, queue.back),
        };
        self.semaphores[socket as usize] = semaphores.with(side, head);
    }

    /// Puts a goroutine that is in no queue at the front of a queue, and decrements the semaphore's
    /// count.
    #[inline(always)]
    pub(crate) fn join_front(&mut self, goroutine: u32, socket: u32, side: Side)
        requires outside { IsOutside goroutine self.old }
        requires there { HasSemaphore socket side (λ semaphore. 0 < semaphore.count) self.old }
        ensures { self.new ≡ with_status goroutine (Queued socket side)
            (on_semaphore socket side (unreleased (Some goroutine)) self.old) }
    {
        let semaphores = self.semaphores[socket as usize];
        let queue = semaphores.of(side);
        self.waits.leave(self.nodes[goroutine as usize].status);
        self.nodes[goroutine as usize] = GoroutineNode {
            status: Status::Queued { socket, side },
            next: queue.front,
            previous: None,
        };
        set_previous(&mut self.nodes, queue.front, Some(goroutine));
        let head = SemaphoreHead {
            count: queue.count - 1,
            front: Some(goroutine),
            back: or_else(queue.back, goroutine),
        };
        self.semaphores[socket as usize] = semaphores.with(side, head);
    }

    /// Adds an idle goroutine.
    #[inline(always)]
    pub(crate) fn push(&mut self)
        requires { length self.old.goroutines < self.old.limit }
        ensures { self.new ≡ record self.old { goroutines = self.old.goroutines ++ Idle ∷ [] } }
    {
        self.nodes.push_reserved(GoroutineNode::alone(Status::Idle));
    }

    /// Removes the last goroutine, which is idle.
    #[inline(always)]
    pub(crate) fn pop(&mut self)
        requires { slice_get self.old.goroutines (length self.old.goroutines - 1) ≡ Some Idle }
        ensures { self.new ≡ record self.old {
          goroutines = take (length self.old.goroutines - 1) self.old.goroutines;
        } }
    {
        let _ = self.nodes.pop();
    }
}
