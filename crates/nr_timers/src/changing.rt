//! Inserting and removing entries, and undoing both.

ghost use Rattle.std.specs.Prelude.{◌≡◌, ◌≢◌, ◌⊎◌, ℕ, ◌-◌, ◌<◌, ◌≤◌, List, length, IfSome};
ghost use Rattle.nr_rev.specs.declared.timer.Entry.{Entry};
ghost use Rattle.nr_timers.specs.Change.{Inserted, Removed};
ghost use Rattle.nr_timers.specs.Auxiliary.Change.{InsertedBack, RemovedBack, TakenBack, refilled};
ghost use Rattle.nr_timers.specs.Clearing.{Cleared, ClearedBack};
ghost use Rattle.nr_timers.specs.Index.{Absent, Keyed, key};
ghost use Rattle.nr_timers.specs.PathToRoot.{Leads, Ordered};
ghost use Rattle.nr_timers.specs.Auxiliary.PathToRoot.{OrderedAround, Sifted};
ghost use Rattle.nr_timers.specs.Order.{at};

use crate::heap::{Gone, Heap};
use nr_rev::Entry;

impl Heap {
    /// Inserts an entry, and returns its place.
    #[inline(always)]
    pub(crate) fn insert(&mut self, entry: Entry) -> usize
        requires key { key entry < self.old.limit }
        requires absent { Absent (key entry) self.old.entries }
        ensures inserted { Inserted self.old.entries entry result self.new.entries }
        ensures back { InsertedBack result self.new.entries self.old.entries }
        ensures ordered { Ordered self.old.entries → Ordered self.new.entries }
        ensures within { result < self.new.limit }
        ensures limit { self.new.limit ≡ self.old.limit }
    {
        let place = self.len();
        self.push(entry);
        self.raise(place)
    }

    /// Undoes an insertion that ended at a place, and returns the entry.
    #[inline(always)]
    pub(crate) fn uninsert(&mut self, place: usize) -> Entry
        requires some { 0 < length self.old.entries }
        requires path { (n : ℕ) × Leads n (length self.old.entries - 1) place }
        ensures entry { result ≡ at self.old.entries place }
        ensures back { InsertedBack place self.old.entries self.new.entries }
        ensures limit { self.new.limit ≡ self.old.limit }
    {
        let last = self.len() - 1;
        self.lower(last, place);
        self.pop()
    }

    /// Removes the entry at a place and puts the last entry there. Returns the removed entry.
    #[inline(always)]
    fn take_out(&mut self, place: usize) -> Entry
        requires { place < length self.old.entries }
        ensures entry { result ≡ at self.old.entries place }
        ensures rest { self.new.entries ≡ refilled self.old.entries place }
        ensures within { length self.old.entries ≤ self.old.limit }
        ensures limit { self.new.limit ≡ self.old.limit }
    {
        let last = self.len() - 1;
        self.swap(place, last);
        self.pop()
    }

    /// Moves the entry at a place up or down to where it belongs, and returns its new place.
    #[inline(always)]
    fn sift(&mut self, place: usize) -> usize
        requires { place < length self.old.entries }
        ensures sifted { Sifted self.old.entries place result self.new.entries }
        ensures back { TakenBack place result self.new.entries self.old.entries }
        ensures size { length self.new.entries ≡ length self.old.entries }
        ensures within { result < length self.old.entries }
        ensures ordered { OrderedAround self.old.entries place → Ordered self.new.entries }
        ensures limit { self.new.limit ≡ self.old.limit }
    {
        let up = self.raise(place);
        if up < place {
            return up;
        }
        self.sink(place)
    }

    /// Removes the entry at a place, and returns it together with the new place of the entry that
    /// was last.
    #[inline(always)]
    pub(crate) fn remove(&mut self, place: usize) -> (Entry, usize)
        requires { place < length self.old.entries }
        ensures entry { result.0 ≡ at self.old.entries place }
        ensures removed { Removed self.old.entries place result.1 self.new.entries }
        ensures back { RemovedBack place result.1 result.0 self.new.entries self.old.entries }
        ensures ordered { Ordered self.old.entries → Ordered self.new.entries }
        ensures room { length self.old.entries ≤ self.old.limit }
        ensures within { result.1 < self.new.limit }
        ensures limit { self.new.limit ≡ self.old.limit }
    {
        let entry = self.take_out(place);
        if place == self.len() {
            return (entry, place);
        }
        (entry, self.sift(place))
    }

    /// Moves the entry at the place `from` back to a place along the path to the root.
    #[inline(always)]
    fn take_back(&mut self, place: usize, from: usize)
        requires places { (place ≡ length self.old.entries) × (from ≡ place)
            ⊎ (place < length self.old.entries) × (from < length self.old.entries) }
        requires back { (rest : List Entry) × TakenBack place from self.old.entries rest }
        ensures back { TakenBack place from self.old.entries self.new.entries }
        ensures size { length self.new.entries ≡ length self.old.entries }
        ensures limit { self.new.limit ≡ self.old.limit }
    {
        if from < place {
            self.lower(place, from);
        } else if place < from {
            self.lift(from, place);
        }
    }

    /// Undoes the removal of an entry from a place; the removal moved the last entry to the place
    /// `last`.
    #[inline(always)]
    pub(crate) fn unremove(&mut self, place: usize, last: usize, entry: Entry)
        requires { (old : List Entry)
            × RemovedBack place last entry self.old.entries old × Keyed old self.old.limit }
        ensures back { RemovedBack place last entry self.old.entries self.new.entries }
        ensures limit { self.new.limit ≡ self.old.limit }
    {
        let len = self.len();
        self.take_back(place, last);
        self.push(entry);
        self.swap(place, len);
    }

    /// Removes the entry of a cell, if there is one.
    #[inline(always)]
    pub(crate) fn clear(&mut self, cell: usize) -> Option<Gone>
        ensures cleared { Cleared cell result self.old.entries self.new.entries }
        ensures back { ClearedBack result self.new.entries self.old.entries }
        ensures ordered { Ordered self.old.entries → Ordered self.new.entries }
        ensures limit { self.new.limit ≡ self.old.limit }
    {
        let place = self.place_of(cell)?;
        let (entry, last) = self.remove(place);
        Some(Gone {
            place: place as u32,
            last: last as u32,
            entry,
        })
    }
}
