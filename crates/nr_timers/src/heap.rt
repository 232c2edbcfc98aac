//! Entries by place, with an index from each descriptor's side to its place.

ghost use Rattle.std.specs.Prelude.{◌≡◌, ◌+◌, ◌-◌, ◌^◌, ◌<◌, ◌≤◌, ◌++◌, ◌∷◌, [], length, take, slice_get, vec_capacity, IfOk, IfSome, IfNone};
ghost use Rattle.std.specs.List.{swap};
ghost use Rattle.nr_timers.specs.Index.{key, Absent, Keyed};
ghost use Rattle.nr_timers.specs.Order.{at, is_less};

use crate::entries::{is_less, key};
use nr_rev::{Entry, Memory};
use std::alloc::Global;
use std::marker::Model;

/// A heap with four children per place, for keys below a limit. All its memory is allocated at once.
#[derive(Drop)]
pub(crate) struct Heap {
    /// The entries by place.
    places: Vec<Entry>,
    /// For each key, the place of its entry plus 1, or 0 if the key has no entry.
    index: Vec<u32>,
}

/// An entry that was removed.
#[derive(Clone, Copy, Debug, PartialEq, Eq)]
pub(crate) struct Gone {
    /// The place from which the entry was removed.
    pub(crate) place: u32,
    /// The new place of the entry that was last.
    pub(crate) last: u32,
    /// The entry.
    pub(crate) entry: Entry,
}

impl Model for Heap {
    ghost use Rattle.std.specs.Prelude.{◌<◌, ◌≤◌, ◌^◌, length, vec_capacity};
    ghost use Rattle.nr_timers.specs.Places.{Places};
    ghost use Rattle.nr_timers.specs.Auxiliary.Index.{IsIndexed};

    ghost Value = { Places };

    ghost view = { λ h. record { entries = h.places.items; limit = length h.index.items } };

    ghost invariant = { λ h. IsIndexed h.places.items h.index.items
        × (length h.index.items ≤ vec_capacity h.places) × (length h.index.items < 2 ^ 32) };
}

impl Heap {
    /// Makes an empty heap with room for one entry of each key. Fails with `Memory` if memory runs out.
    pub(crate) fn with_limit(alloc: Global, limit: usize) -> Result<Heap, Memory>
        requires { limit < 2 ^ 32 }
        ensures { IfOk result (λ heap. heap ≡ record { entries = []; limit = limit }) }
    {
        let places = Vec::with_capacity(alloc, limit)?;
        let index = vec![in alloc; 0; limit]?;
        Ok(Heap { places, index })
    }

    /// Returns an equal heap, with each entry at its place, in memory of its own. Fails with `Memory` if memory runs
    /// out.
    pub(crate) fn try_copy(&self, alloc: Global) -> Result<Heap, Memory>
        ensures { IfOk result (λ heap. heap ≡ self.now) }
    {
        let limit = self.index.len();
        Ok(Heap {
            places: copy_of(alloc, &self.places, limit)?,
            index: copy_of(alloc, &self.index, limit)?,
        })
    }

    /// Makes this heap equal to another with the same limit. Allocates no memory.
    pub(crate) fn copy_from(&mut self, other: &Heap)
        requires { self.old.limit ≡ other.now.limit }
        ensures { self.new ≡ other.now }
    {
        self.places.clear();
        let Ok(()) = self.places.extend_from_slice(&other.places) else {
            unreachable!()
        };
        self.index.copy_from_slice(&other.index);
    }

    /// Returns the number of entries.
    #[inline(always)]
    pub(crate) fn len(&self) -> usize
        ensures len { result ≡ length self.now.entries }
        ensures within { result ≤ self.now.limit }
        ensures keyed { Keyed self.now.entries self.now.limit }
    {
        self.places.len()
    }

    /// Returns the entry at a place.
    #[inline(always)]
    pub(crate) fn get(&self, place: usize) -> Option<Entry>
        ensures { result ≡ slice_get self.now.entries place }
    {
        self.places.get(place).copied()
    }

    /// Returns the place of the entry of a key.
    #[inline(always)]
    pub(crate) fn place_of(&self, cell: usize) -> Option<usize>
        ensures some { IfSome result
            (λ place. (place < length self.now.entries) × (key (at self.now.entries place) ≡ cell)) }
        ensures none { IfNone result (Absent cell self.now.entries) }
        ensures keyed { Keyed self.now.entries self.now.limit }
        ensures bounded { self.now.limit < 2 ^ 32 }
    {
        let number = self.index.get(cell).copied().unwrap_or(0);
        if number == 0 {
            None
        } else {
            Some(number as usize - 1)
        }
    }

    /// Returns whether the entry at a place is less than the entry at another.
    #[inline(always)]
    pub(crate) fn is_less_at(&self, place: usize, other: usize) -> bool
        requires place { place < length self.now.entries }
        requires other { other < length self.now.entries }
        ensures { result ≡ is_less (at self.now.entries place) (at self.now.entries other) }
    {
        is_less(&self.places[place], &self.places[other])
    }

    /// Exchanges the entries at two places.
    #[inline(always)]
    pub(crate) fn swap(&mut self, a: usize, b: usize)
        requires a { a < length self.old.entries }
        requires b { b < length self.old.entries }
        ensures entries { self.new.entries ≡ swap self.old.entries a b }
        ensures limit { self.new.limit ≡ self.old.limit }
    {
        let key_a = key(&self.places[a]);
        let key_b = key(&self.places[b]);
        self.places.swap(a, b);
        self.index[key_a] = b as u32 + 1;
        self.index[key_b] = a as u32 + 1;
    }

    /// Appends an entry at the last place.
    #[inline(always)]
    pub(crate) fn push(&mut self, entry: Entry)
        requires key { key entry < self.old.limit }
        requires absent { Absent (key entry) self.old.entries }
        ensures entries { self.new.entries ≡ self.old.entries ++ entry ∷ [] }
        ensures room { length self.old.entries < self.old.limit }
        ensures limit { self.new.limit ≡ self.old.limit }
    {
        let len = self.places.len();
        let key_last = key(&entry);
        self.index[key_last] = len as u32 + 1;
        self.places.push_reserved(entry);
    }

    /// Removes the last entry and returns it.
    #[inline(always)]
    pub(crate) fn pop(&mut self) -> Entry
        requires { 0 < length self.old.entries }
        ensures entry { result ≡ at self.old.entries (length self.old.entries - 1) }
        ensures entries { self.new.entries
            ≡ take (length self.old.entries - 1) self.old.entries }
        ensures limit { self.new.limit ≡ self.old.limit }
    {
        let last = self.places.len() - 1;
        let entry = self.places[last];
        let key_last = key(&entry);
        self.index[key_last] = 0;
        self.places.truncate(last);
        entry
    }
}

/// Returns a copy of the items with this much room. Fails with `Memory` if memory runs out.
fn copy_of<T: Copy>(alloc: Global, items: &[T], room: usize) -> Result<Vec<T>, Memory>
    requires { length items.now ≤ room }
    ensures items { IfOk result (λ copy. copy.items ≡ items.now) }
    ensures room { IfOk result (λ copy. room ≤ vec_capacity copy) }
{
    let mut copy = Vec::with_capacity(alloc, room)?;
    copy.extend_from_slice(items)?;
    Ok(copy)
}
