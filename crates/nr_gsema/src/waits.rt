//! The number of goroutines inside a wait at each side of a descriptor.

ghost use Rattle.std.specs.Prelude.{◌≡◌, IfOk, length, replicate, take};
ghost use Rattle.nr_rev.specs.Sides.{twice};
ghost use Rattle.nr_rev.specs.World.{wait_of};
ghost use Rattle.nr_gsema.specs.Waits.{CanJoin, waiting_of, joined, left, moved_between};

use nr_rev::{Memory, Side, Sides, Status};
use std::alloc::Global;
use std::marker::Model;

/// The number of goroutines inside a wait at each side of each descriptor below a limit, in memory that is allocated
/// once.
#[derive(Drop)]
pub(crate) struct WaitCounts {
    counts: Vec<Sides<u32>>,
}

impl Model for WaitCounts {
    ghost use Rattle.std.specs.Prelude.{ℕ, List};
    ghost use Rattle.nr_rev.specs.declared.sides.Sides.{Sides};

    ghost Value = { List (Sides ℕ) };

    ghost view = { λ w. w.counts.items };
}

impl WaitCounts {
    /// Makes the counts of this many descriptors, all 0. Fails with `Memory` if memory runs out.
    pub(crate) fn with_room(alloc: Global, descriptors: u32) -> Result<WaitCounts, Memory>
        ensures { IfOk result (λ waits. waits ≡ replicate descriptors (twice 0)) }
    {
        Ok(WaitCounts {
            counts: Vec::from_elem(alloc, Sides::twice(0), descriptors as usize)?,
        })
    }

    /// Returns a copy of the counts, in newly allocated memory. Fails with `Memory` if memory runs
    /// out.
    pub(crate) fn try_copy(&self, alloc: Global) -> Result<WaitCounts, Memory>
        ensures { IfOk result (λ waits. waits ≡ self.now) }
    {
        Ok(WaitCounts {
            counts: Vec::from_slice(alloc, &self.counts)?,
        })
    }

    /// Copies the counts of another table, for the descriptors that both tables count. Allocates no
    /// memory.
    pub(crate) fn copy_from(&mut self, other: &WaitCounts)
        ensures { self.new ≡ take (length self.old) other.now }
    {
        let count = self.counts.len().min(other.counts.len());
        self.counts.truncate(count);
        self.counts.copy_from_slice(&other.counts[..count]);
    }

    /// Returns the number of goroutines inside a wait at the descriptor's side, or `None` if the descriptor isn't below
    /// the limit.
    #[inline(always)]
    pub(crate) fn count(&self, descriptor: u32, side: Side) -> Option<u32>
        ensures { result ≡ waiting_of descriptor side self.now }
    {
        if descriptor as usize >= self.counts.len() {
            return None;
        }
        Some(self.counts[descriptor as usize].of(side))
    }

    /// Updates the counts when a goroutine's status changes from this one to one outside all waits.
    #[inline(always)]
    pub(crate) fn leave(&mut self, status: Status)
        ensures { self.new ≡ left (wait_of status) self.old }
    {
        let Some((descriptor, side)) = status.wait() else {
            return;
        };
        if (descriptor as usize) < self.counts.len() {
            let both = self.counts[descriptor as usize];
            let fewer = both.of(side).saturating_sub(1);
            self.counts[descriptor as usize] = both.with(side, fewer);
        }
    }

    /// Updates the counts when a goroutine outside every wait gets this status.
    #[inline(always)]
    fn join(&mut self, status: Status)
        requires { CanJoin (wait_of status) self.old }
        ensures { self.new ≡ joined (wait_of status) self.old }
    {
        let Some((descriptor, side)) = status.wait() else {
            return;
        };
        if (descriptor as usize) < self.counts.len() {
            let both = self.counts[descriptor as usize];
            let more = both.of(side) + 1;
            self.counts[descriptor as usize] = both.with(side, more);
        }
    }

    /// Updates the counts when a goroutine's status changes.
    #[inline(always)]
    pub(crate) fn change(&mut self, before: Status, after: Status)
        requires { CanJoin (wait_of after) (left (wait_of before) self.old) }
        ensures { self.new ≡ moved_between before after self.old }
    {
        self.leave(before);
        self.join(after);
    }
}
