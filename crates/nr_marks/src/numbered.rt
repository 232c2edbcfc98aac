//! Numbered items.

ghost use Rattle.std.specs.Prelude.{◌≡◌, ◌≤◌, ◌==◌, false, find, length};

use arrayvec::ArrayVec;
use std::marker::Model;

/// The maximum number of items at once.
pub const MOST_NUMBERED: usize = 64;

/// An item and its number.
#[derive(Clone, Copy, Debug, Default, PartialEq, Eq)]
pub struct Numbered<T> {
    /// The number, counted from 1, as GDB numbers its breakpoints.
    pub number: u32,
    pub item: T,
}

/// Items that are numbered from 1 in the order in which they are made. Numbers are never reused. No call allocates
/// memory.
#[derive(Debug, Drop)]
pub struct NumberedList<T> {
    pub(crate) present: ArrayVec<Numbered<T>, MOST_NUMBERED>,
    made: u32,
}

impl<T> Model for NumberedList<T> {
    ghost use Rattle.nr_marks.specs.Numbered.{NumberedItems};
    ghost use Rattle.nr_marks.specs.Auxiliary.Numbered.{RisesWithin, numbers_of};

    ghost Value = { NumberedItems T };

    ghost view = { λ l. record { present = l.present.items; made = l.made } };

    ghost invariant = { λ l. RisesWithin 0 (numbers_of l.present.items) l.made };
}

impl<T: Copy + Default> NumberedList<T> {
    ghost use Rattle.nr_marks.specs.Numbered.{empty, item_of, is_present, with_item, without_item};
    ghost use Rattle.nr_marks.specs.Auxiliary.Numbered.{RisesWithin, next, numbers_of};
    ghost use Rattle.nr_marks.specs.declared.numbered.TheConstants.{MOST_NUMBERED};

    /// Makes an empty list.
    pub fn new() -> Self
        ensures { result ≡ empty }
    {
        NumberedList {
            present: ArrayVec::new(),
            made: 0,
        }
    }

    /// Adds an item with the next number. Returns `None`, without any change, if there are 64 items
    /// already or the numbers up to 4,294,967,295 are used up.
    pub fn make(&mut self, item: T) -> Option<Numbered<T>>
        ensures numbered { result ≡ next item self.old }
        ensures list { self.new ≡ with_item item self.old }
    {
        if self.present.is_full() || self.made == u32::MAX {
            return None;
        }
        let number = self.made + 1;
        let numbered = Numbered { number, item };
        self.present.push(numbered);
        self.made = number;
        Some(numbered)
    }

    /// Deletes the item with this number, and returns whether there was one. The other items keep
    /// their numbers.
    pub fn delete(&mut self, number: u32) -> bool
        ensures was_present { result ≡ is_present number self.old }
        ensures list { self.new ≡ without_item number self.old }
        ensures unchanged { result ≡ false → self.new ≡ self.old }
    {
        if self.find(number).is_none() {
            return false;
        }
        self.present.retain(|numbered| numbered.number != number);
        true
    }

    /// Returns the item with this number, if there is one.
    pub fn find(&self, number: u32) -> Option<T>
        ensures { result ≡ item_of number self.now }
    {
        let numbered = first_of_number(self.present.as_slice(), number)?;
        Some(numbered.item)
    }

    /// Returns the items, in ascending order of their numbers.
    pub fn as_slice(&self) -> &[Numbered<T>]
        ensures items { result.now ≡ self.now.present }
        ensures few { length result.now ≤ MOST_NUMBERED }
        ensures rising { RisesWithin 0 (numbers_of result.now) self.now.made }
    {
        self.present.as_slice()
    }
}

// Returns the first item with this number.
fn first_of_number<T: Copy>(items: &[Numbered<T>], number: u32) -> Option<Numbered<T>>
    ensures { result ≡ find (λ n. n.number == number) items.now }
{
    items
        .iter()
        .copied()
        .find(|numbered| numbered.number == number)
}
