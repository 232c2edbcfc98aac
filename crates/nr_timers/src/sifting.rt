//! Entries that move up and down along their paths to the root.

ghost use Rattle.std.specs.Prelude.{◌≡◌, ℕ, ◌+◌, ◌*◌, ◌<◌, false, length};
ghost use Rattle.nr_timers.specs.PathToRoot.{parent, Leads, Ordered, Raised, Sunk};
ghost use Rattle.nr_timers.specs.Auxiliary.PathToRoot.{moved_up, moved_down, OrderedAbove, OrderedBelow};
ghost use Rattle.nr_timers.specs.Order.{at, is_less};

use crate::heap::Heap;

impl Heap {
    /// Moves the entry at a place up while it is less than its parent, and returns its new place.
    pub(crate) fn raise(&mut self, place: usize) -> usize
        requires { place < length self.old.entries }
        ensures moved { (n : ℕ) × Leads n place result
            × (self.new.entries ≡ moved_up n self.old.entries place) }
        ensures raised { Raised self.old.entries place (at self.old.entries place) result
            self.new.entries }
        ensures ordered { OrderedAbove self.old.entries place → Ordered self.new.entries }
        ensures limit { self.new.limit ≡ self.old.limit }
    {
        if place > 0 {
            let above = (place - 1) / 4;
            if self.is_less_at(place, above) {
                self.swap(place, above);
                return self.raise(above);
            }
        }
        place
    }

    /// Returns the place of the least child of a place that has children.
    fn least_child(&self, place: usize) -> usize
        requires { 4 * place + 1 < length self.now.entries }
        ensures within { result < length self.now.entries }
        ensures child { parent result ≡ place }
        ensures below { 0 < result }
        ensures least { (i : ℕ) → 0 < i → i < length self.now.entries → parent i ≡ place
            → is_less (at self.now.entries i) (at self.now.entries result) ≡ false }
    {
        let len = self.len();
        let first = 4 * place + 1;
        let end = if len - first < 4 { len } else { first + 4 };
        let mut least = first;
        for i in first + 1..end {
            if self.is_less_at(i, least) {
                least = i;
            }
        }
        least
    }

    /// Moves the entry at a place down while a child is less, each time to the least child's place, and returns its new
    /// place.
    pub(crate) fn sink(&mut self, place: usize) -> usize
        requires { place < length self.old.entries }
        ensures moved { (n : ℕ) × Leads n result place
            × (self.new.entries ≡ moved_down n self.old.entries result) }
        ensures sunk { Sunk self.old.entries place (at self.old.entries place) result
            self.new.entries }
        ensures ordered { OrderedBelow self.old.entries place → Ordered self.new.entries }
        ensures within { result < length self.old.entries }
        ensures limit { self.new.limit ≡ self.old.limit }
    {
        if place.saturating_mul(4) < self.len() - 1 {
            let child = self.least_child(place);
            if self.is_less_at(child, place) {
                self.swap(child, place);
                return self.sink(child);
            }
        }
        place
    }

    /// Moves the entry at the place `above` down to `place`.
    pub(crate) fn lower(&mut self, place: usize, above: usize)
        requires place { place < length self.old.entries }
        requires path { (n : ℕ) × Leads n place above }
        ensures entries { (n : ℕ) × Leads n place above
            × (self.new.entries ≡ moved_down n self.old.entries place) }
        ensures size { length self.new.entries ≡ length self.old.entries }
        ensures limit { self.new.limit ≡ self.old.limit }
    {
        if place > above {
            let next = (place - 1) / 4;
            self.lower(next, above);
            self.swap(place, next);
        }
    }

    /// Moves the entry at `place` up to the place `above`.
    pub(crate) fn lift(&mut self, place: usize, above: usize)
        requires place { place < length self.old.entries }
        requires path { (n : ℕ) × Leads n place above }
        ensures entries { (n : ℕ) × Leads n place above
            × (self.new.entries ≡ moved_up n self.old.entries place) }
        ensures size { length self.new.entries ≡ length self.old.entries }
        ensures limit { self.new.limit ≡ self.old.limit }
    {
        if place > above {
            let next = (place - 1) / 4;
            self.swap(place, next);
            self.lift(next, above);
        }
    }
}
