//! Armed timers, and the firings that wait to be run.

ghost use Rattle.std.specs.Prelude.{◌≡◌, ◌≢◌, ℕ, ◌^◌, ◌<◌, [], List, length, slice_get, IfOk, MatchOption};
ghost use Rattle.nr_rev.specs.declared.sides.Sides.{Sides};
ghost use Rattle.nr_rev.specs.declared.timer.Timer.{Timer};
ghost use Rattle.nr_timers.specs.Index.{Absent, key, key_of};
ghost use Rattle.nr_timers.specs.Order.{at};
ghost use Rattle.nr_timers.specs.State.{IsTimers};

use crate::entries::key_of;
use crate::heap::Heap;
use nr_rev::{Entry, Memory, RoomedList, Side};
use std::alloc::Global;
use std::marker::Model;

/// Armed timers for the sides of descriptors below a limit, and the firings that wait to be run.
/// All memory is allocated at once, so operations allocate none.
///
/// The entries are a heap with four children per place, like the timers of `runtime/time.go`. They are ordered by due
/// time. Entries that are due at the same time are ordered by arming number.
#[derive(Drop)]
pub struct Timers {
    pub(crate) alloc: Global,
    pub(crate) heap: Heap,
    pub(crate) firings: RoomedList<Entry>,
    pub(crate) next: u64,
    pub(crate) descriptors: u32,
}

impl Model for Timers {
    ghost use Rattle.std.specs.Prelude.{◌≡◌, ◌*◌, ◌^◌, ◌<◌};
    ghost use Rattle.nr_timers.specs.State.{State};

    ghost Value = { State };

    ghost view = { λ t. record {
      entries = t.heap.entries;
      firings = t.firings.items;
      next = t.next;
      descriptors = t.descriptors;
    } };

    ghost invariant = { λ t. (t.heap.limit ≡ 2 * t.descriptors)
        × (t.firings.room ≡ 2 * t.descriptors) × (2 * t.descriptors < 2 ^ 32) };
}

impl Timers {
    /// Returns an empty set of timers for this many descriptors, with room for two entries and two
    /// firings per descriptor. The first arming gets number 1. Fails with `Memory` if memory runs
    /// out.
    pub fn with_limits(alloc: Global, descriptors: u32) -> Result<Timers, Memory>
        requires { descriptors < 2 ^ 31 }
        ensures well_formed { IfOk result IsTimers }
        ensures empty { IfOk result (λ t. t ≡ record {
          entries = [];
          firings = [];
          next = 1;
          descriptors = descriptors;
        }) }
    {
        let limit = 2 * descriptors as usize;
        Ok(Timers {
            alloc,
            heap: Heap::with_limit(alloc, limit)?,
            firings: RoomedList::with_room(alloc, limit)?,
            next: 1,
            descriptors,
        })
    }

    /// Returns a copy of the timers, with each entry at the same place, in newly allocated memory. Fails with `Memory`
    /// if memory runs out.
    pub fn try_copy(&self) -> Result<Timers, Memory>
        ensures well_formed { IsTimers self.now → IfOk result IsTimers }
        ensures equal { IfOk result (λ t. t ≡ self.now) }
    {
        Ok(Timers {
            alloc: self.alloc,
            heap: self.heap.try_copy(self.alloc)?,
            firings: self.firings.try_copy(self.alloc)?,
            next: self.next,
            descriptors: self.descriptors,
        })
    }

    /// Copies other timers into these, with each entry at the same place. Both must have the same number of
    /// descriptors. Allocates no memory.
    pub fn copy_from(&mut self, other: &Timers)
        requires { self.old.descriptors ≡ other.now.descriptors }
        ensures { self.new ≡ other.now }
    {
        self.heap.copy_from(&other.heap);
        self.firings.copy_from(&other.firings);
        self.next = other.next;
    }

    /// Returns the number of armed timers.
    #[inline(always)]
    pub fn len(&self) -> usize
        ensures { result ≡ length self.now.entries }
    {
        self.heap.len()
    }

    /// Returns the entry at a place of the heap, counted from 0.
    #[inline(always)]
    pub fn at_place(&self, place: usize) -> Option<Entry>
        ensures { result ≡ slice_get self.now.entries place }
    {
        self.heap.get(place)
    }

    /// Returns the place of the entry for a side of a descriptor, or `None` if the side has no armed timer. A side has
    /// only one entry.
    #[inline(always)]
    pub fn place_of(&self, descriptor: u32, side: Side) -> Option<usize>
        ensures { MatchOption result (Absent (key_of descriptor side) self.now.entries)
            (λ place. (place < length self.now.entries)
            × (key (at self.now.entries place) ≡ key_of descriptor side)
            × ((p : ℕ) → p < length self.now.entries
            → key (at self.now.entries p) ≡ key_of descriptor side → p ≡ place)) }
    {
        self.heap.place_of(key_of(descriptor, side))
    }

    /// Returns the entry that goes off before all others.
    #[inline(always)]
    pub fn least(&self) -> Option<Entry>
        ensures { result ≡ slice_get self.now.entries 0 }
    {
        self.heap.get(0)
    }

    /// Returns the number of firings that wait to be run.
    #[inline(always)]
    pub fn firings(&self) -> usize
        ensures { result ≡ length self.now.firings }
    {
        self.firings.len()
    }

    /// Returns the firing at a place, counted from 0. The first one has waited longest.
    #[inline(always)]
    pub fn firing(&self, place: usize) -> Option<Entry>
        ensures { result ≡ slice_get self.now.firings place }
    {
        self.firings.get(place)
    }

    /// Returns the next arming number.
    #[inline(always)]
    pub fn next_number(&self) -> u64
        ensures { result ≡ self.now.next }
    {
        self.next
    }
}
