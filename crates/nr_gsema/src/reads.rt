//! The methods that read a table.

ghost use Rattle.std.specs.Prelude.{◌≡◌, ◌≤◌, length, slice_get};
ghost use Rattle.nr_rev.specs.World.{is_waited};
ghost use Rattle.nr_gsema.specs.Auxiliary.Table.{count_at, back_of, next_in_queue, previous_of, queue_at};

use crate::table::GTable;
use nr_rev::{Side, Status};

impl GTable {
    /// Returns the number of goroutines that were made.
    #[inline(always)]
    pub fn made(&self) -> u32
        ensures { result ≡ length self.now.goroutines }
    {
        // reading the field brings the invariant into the proof; the invariant bounds the number
        let _limit = self.limit;
        self.nodes.len() as u32
    }

    /// Returns a goroutine's status, or `None` if no goroutine with this number was made.
    #[inline(always)]
    pub fn status(&self, goroutine: u32) -> Option<Status>
        ensures { result ≡ slice_get self.now.goroutines goroutine }
    {
        if goroutine as usize >= self.nodes.len() {
            return None;
        }
        Some(self.nodes[goroutine as usize].status)
    }

    /// Returns whether a goroutine is inside a wait at the descriptor's side.
    #[inline(always)]
    pub fn is_waited(&self, descriptor: u32, side: Side) -> bool
        ensures { result ≡ is_waited descriptor side self.now.goroutines }
    {
        match self.waits.count(descriptor, side) {
            Some(count) => count > 0,
            None => self.is_waited_by_any(descriptor, side),
        }
    }

    /// Returns whether a goroutine is inside a wait at the descriptor's side, for a descriptor without counts.
    fn is_waited_by_any(&self, descriptor: u32, side: Side) -> bool
        ensures { result ≡ is_waited descriptor side self.now.goroutines }
    {
        self.nodes
            .as_slice()
            .iter()
            .any(|node| node.status.is_inside(descriptor, side))
    }

    /// Returns the count of a semaphore, or `None` if the socket isn't below the limit.
    #[inline(always)]
    pub fn count(&self, socket: u32, side: Side) -> Option<u32>
        ensures { result ≡ count_at socket side self.now }
    {
        if socket as usize >= self.semaphores.len() {
            return None;
        }
        Some(self.semaphores[socket as usize].of(side).count)
    }

    /// Returns the goroutine at the front of a queue, or `None` if the queue is empty.
    #[inline(always)]
    pub fn front_of(&self, socket: u32, side: Side) -> Option<u32>
        ensures { result ≡ slice_get (queue_at socket side self.now) 0 }
    {
        if socket as usize >= self.semaphores.len() {
            return None;
        }
        self.semaphores[socket as usize].of(side).front
    }

    /// Returns the goroutine at the back of a queue, or `None` if the queue is empty.
    #[inline(always)]
    pub fn back_of(&self, socket: u32, side: Side) -> Option<u32>
        ensures { result ≡ back_of (queue_at socket side self.now) }
    {
        if socket as usize >= self.semaphores.len() {
            return None;
        }
        self.semaphores[socket as usize].of(side).back
    }

    /// Returns the goroutine after this one in its queue, or `None` if it is the last one or isn't queued.
    #[inline(always)]
    pub fn next_of(&self, goroutine: u32) -> Option<u32>
        ensures { result ≡ next_in_queue goroutine self.now }
    {
        if goroutine as usize >= self.nodes.len() {
            return None;
        }
        self.nodes[goroutine as usize].next
    }

    /// Returns the goroutine before this one in its queue, or `None` if it is the first one or isn't queued.
    #[inline(always)]
    pub fn previous_of(&self, goroutine: u32) -> Option<u32>
        ensures { result ≡ previous_of goroutine self.now }
    {
        if goroutine as usize >= self.nodes.len() {
            return None;
        }
        self.nodes[goroutine as usize].previous
    }
}

impl GTable {
    /// Returns the maximum number of goroutines.
    #[inline(always)]
    pub(crate) fn limit(&self) -> u32
        ensures limit { result ≡ self.now.limit }
        ensures within { length self.now.goroutines ≤ result }
    {
        // reading the field brings the invariant into the proof; the invariant bounds the number of
        // nodes
        let _ = &self.nodes;
        self.limit
    }

    /// Returns the number of sockets.
    #[inline(always)]
    pub(crate) fn sockets(&self) -> usize
        ensures { result ≡ length self.now.semaphores }
    {
        self.semaphores.len()
    }
}
