//! A list with a fixed capacity. It never allocates memory to grow.

ghost use Rattle.std.specs.Prelude.{◌≡◌, ◌+◌, ◌-◌, ◌<◌, ◌≤◌, ◌∷◌, ◌++◌, [], length, take, drop, insert, remove, slice_get, slice_set, Some, IfOk, IfSome};

use crate::Memory;
use std::alloc::Global;
use std::marker::Model;

/// A list of at most `room` items; in contracts, the items and the room. The constructor allocates
/// all its memory. No other method allocates memory for this list, so undoing a step can't run out
/// of memory; `try_copy` allocates the copy.
#[derive(Drop)]
pub struct RoomedList<T> {
    items: Vec<T>,
    room: usize,
}

impl<T> Model for RoomedList<T> {
    ghost use Rattle.std.specs.Prelude.{◌≤◌, vec_len, vec_capacity};
    ghost use Rattle.nr_rev.specs.RoomedList.{Roomed};

    ghost Value = { Roomed T };

    ghost view = { λ t. record { items = t.items.items; room = t.room } };

    ghost invariant = { λ t. (vec_len t.items ≤ t.room) × (t.room ≤ vec_capacity t.items) };
}

impl<T: Drop> RoomedList<T> {
    /// Makes an empty list with room for `room` items. Fails if there is no memory for them.
    pub fn with_room(alloc: Global, room: usize) -> Result<RoomedList<T>, Memory>
        ensures { IfOk result (λ t. t ≡ record { items = []; room = room }) }
    {
        let items = Vec::with_capacity(alloc, room)?;
        Ok(RoomedList { items, room })
    }

    /// Returns the number of items.
    pub fn len(&self) -> usize
        ensures len { result ≡ length self.now.items }
        ensures within { result ≤ self.now.room }
    {
        self.items.len()
    }

    /// Returns the items.
    pub fn as_slice(&self) -> &[T]
        ensures items { result.now ≡ self.now.items }
        ensures within { length result.now ≤ self.now.room }
    {
        self.items.as_slice()
    }

    /// Appends an item.
    pub fn push(&mut self, item: T)
        requires { length self.old.items < self.old.room }
        ensures { self.new ≡ record self.old { items = self.old.items ++ item ∷ [] } }
    {
        self.items.push_reserved(item);
    }

    /// Inserts an item at a place.
    pub fn insert(&mut self, place: usize, item: T)
        requires room { length self.old.items < self.old.room }
        requires place { place ≤ length self.old.items }
        ensures { self.new ≡ record self.old { items = insert self.old.items place item } }
    {
        let Ok(()) = self.items.insert(place, item) else {
            unreachable!()
        };
    }

    /// Removes and returns the item at a place.
    pub fn remove(&mut self, place: usize) -> T
        requires { place < length self.old.items }
        ensures item { slice_get self.old.items place ≡ Some result }
        ensures rest { self.new ≡ record self.old { items = remove self.old.items place } }
        ensures within { length self.old.items ≤ self.old.room }
    {
        self.items.remove(place)
    }

    /// Removes and returns the first item, if there is one.
    pub fn take_first(&mut self) -> Option<T>
        ensures item { result ≡ slice_get self.old.items 0 }
        ensures rest { self.new ≡ record self.old { items = drop 1 self.old.items } }
        ensures within { length self.old.items ≤ self.old.room }
    {
        if self.items.is_empty() {
            return None;
        }
        Some(self.items.remove(0))
    }

    /// Removes the last item, if there is one.
    pub fn drop_last(&mut self)
        ensures { self.new ≡ record self.old {
          items = take (length self.old.items - 1) self.old.items;
        } }
    {
        let _ = self.items.pop();
    }
}

impl<T: Copy + Drop> RoomedList<T> {
    /// Keeps the first `count` items, or all if there are fewer.
    pub fn truncate(&mut self, count: usize)
        ensures rest { self.new ≡ record self.old { items = take count self.old.items } }
        ensures within { length self.old.items ≤ self.old.room }
    {
        self.items.truncate(count);
    }

    /// Removes the first `count` items, or all if there are fewer.
    pub fn drop_front(&mut self, count: usize)
        ensures rest { self.new ≡ record self.old { items = drop count self.old.items } }
        ensures within { length self.old.items ≤ self.old.room }
    {
        let count = count.min(self.items.len());
        let left = self.items.len() - count;
        self.items.rotate_left(count);
        self.items.truncate(left);
    }

    /// Inserts items at the front.
    pub fn extend_front(&mut self, items: &[T])
        requires { length items.now + length self.old.items ≤ self.old.room }
        ensures { self.new ≡ record self.old { items = items.now ++ self.old.items } }
    {
        let Ok(()) = self.items.extend_from_slice(items) else {
            unreachable!()
        };
        self.items.rotate_right(items.len());
    }

    /// Returns an equal list with memory of its own. Fails if there is no memory for it.
    pub fn try_copy(&self, alloc: Global) -> Result<RoomedList<T>, Memory>
        ensures { IfOk result (λ t. t ≡ self.now) }
    {
        let mut copy = RoomedList::with_room(alloc, self.room)?;
        copy.extend(self.items.as_slice());
        Ok(copy)
    }

    /// Copies the items of another list, which has no more room than this one. Allocates no memory.
    pub fn copy_from(&mut self, other: &RoomedList<T>)
        requires { other.now.room ≤ self.old.room }
        ensures { self.new ≡ record self.old { items = other.now.items } }
    {
        self.items.clear();
        self.extend(other.as_slice());
    }
}

impl<T: Copy> RoomedList<T> {
    /// Returns the item at a place, if there is one.
    pub fn get(&self, place: usize) -> Option<T>
        ensures { result ≡ slice_get self.now.items place }
    {
        self.items.get(place).copied()
    }

    /// Replaces the item at a place and returns the old item. If there is no item at this place,
    /// returns the new item.
    #[tactic(auto, using(crate::proofs::ListUpdateLemmas::set_read_back, crate::proofs::ListUpdateLemmas::read_is_there))]
    pub fn replace(&mut self, place: usize, item: T) -> T
        ensures items { self.new ≡ record self.old { items = slice_set self.old.items place item } }
        ensures back { slice_set self.new.items place result ≡ self.old.items }
        ensures old { IfSome (slice_get self.old.items place) (λ x. x ≡ result) }
    {
        if place >= self.items.len() {
            return item;
        }
        let old = self.items[place];
        self.items[place] = item;
        old
    }

    /// Appends items.
    pub fn extend(&mut self, items: &[T])
        requires { length self.old.items + length items.now ≤ self.old.room }
        ensures { self.new ≡ record self.old { items = self.old.items ++ items.now } }
    {
        let Ok(()) = self.items.extend_from_slice(items) else {
            unreachable!()
        };
    }
}
