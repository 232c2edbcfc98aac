//! The numbered list of marks.

use crate::mark::{Break, Mark, NextStep};
use crate::numbered::{MOST_NUMBERED, Numbered, NumberedList};
use arrayvec::ArrayVec;
use nr_rev::{Cell, Step, Worlds};
use std::marker::Model;

/// The maximum number of marks at once.
pub const MOST_MARKS: usize = MOST_NUMBERED;

/// A mark and its number.
pub type NumberedMark = Numbered<Mark>;

/// The reason why a call failed and left the marks as they were.
#[derive(Clone, Copy, Debug, PartialEq, Eq)]
pub enum MarkFault {
    /// No mark has this number.
    NoSuchMark,
    /// No mark can be made: there are 64 already, or the numbers up to 4,294,967,295 are used up.
    MarksFull,
}

/// The marks of a debugger. They are numbered from 1 in the order in which they are made, and a number is never used
/// twice. No call allocates memory.
#[derive(Debug, Drop)]
pub struct Marks {
    list: NumberedList<Mark>,
}

impl Model for Marks {
    ghost use Rattle.nr_marks.specs.Marks.{MarkList};

    ghost Value = { MarkList };

    ghost view = { λ m. m.list };
}

impl NumberedList<Mark> {
    ghost use Rattle.std.specs.Prelude.{◌≡◌};
    ghost use Rattle.nr_marks.specs.Marks.{after_stop};

    // Deletes the temporary marks among the marks with these numbers.
    fn delete_temporary(&mut self, hits: &[u32])
        ensures { self.new ≡ after_stop hits.now self.old }
    {
        self.present.retain(|mark| !(mark.item.is_temporary() && hits.contains(&mark.number)));
    }
}

impl Marks {
    ghost use Rattle.std.specs.Prelude.{◌≡◌, ◌≤◌, length, option_map, OnErr};
    ghost use Rattle.nr_marks.specs.Hit.{hits_between, step_numbered};
    ghost use Rattle.nr_marks.specs.Marks.{after_stop, any_watch, mark_deletion, next_number};
    ghost use Rattle.nr_marks.specs.Numbered.{empty, with_item, without_item};
    ghost use Rattle.nr_marks.specs.Auxiliary.Numbered.{RisesWithin, numbers_of};
    ghost use Rattle.nr_marks.specs.declared.marks.TheConstants.{MOST_MARKS};
    ghost use Rattle.nr_marks.specs.declared.mark.Mark.TheVariants as mark;

    /// Makes an empty list of marks.
    pub fn new() -> Marks
        ensures { result ≡ empty }
    {
        Marks {
            list: NumberedList::new(),
        }
    }

    /// Makes a breakpoint with the next number, and returns the number. Fails, without any change,
    /// if there are 64 marks already or the numbers are used up.
    pub fn add_break(&mut self, wanted: Break) -> Result<u32, MarkFault>
        ensures number { result ≡ next_number self.old }
        ensures marks { self.new ≡ with_item (mark.Break wanted) self.old }
        ensures unchanged { OnErr result (self.new ≡ self.old) }
    {
        self.add(Mark::Break(wanted))
    }

    /// Makes a temporary breakpoint with the next number, and returns the number. Fails, without
    /// any change, if there are 64 marks already or the numbers are used up.
    pub fn add_tbreak(&mut self, wanted: Break) -> Result<u32, MarkFault>
        ensures number { result ≡ next_number self.old }
        ensures marks { self.new ≡ with_item (mark.TemporaryBreak wanted) self.old }
        ensures unchanged { OnErr result (self.new ≡ self.old) }
    {
        self.add(Mark::TemporaryBreak(wanted))
    }

    /// Makes a watchpoint with the next number, and returns the number. Fails, without any change,
    /// if there are 64 marks already or the numbers are used up.
    pub fn add_watch(&mut self, cell: Cell) -> Result<u32, MarkFault>
        ensures number { result ≡ next_number self.old }
        ensures marks { self.new ≡ with_item (mark.Watch cell) self.old }
        ensures unchanged { OnErr result (self.new ≡ self.old) }
    {
        self.add(Mark::Watch(cell))
    }

    /// Makes a mark with the next number, and returns the number. Fails, without any change, if
    /// there are 64 marks already or the numbers are used up.
    pub fn add(&mut self, mark: Mark) -> Result<u32, MarkFault>
        ensures number { result ≡ next_number self.old }
        ensures marks { self.new ≡ with_item mark self.old }
        ensures unchanged { OnErr result (self.new ≡ self.old) }
    {
        match self.list.make(mark) {
            Some(made) => Ok(made.number),
            None => Err(MarkFault::MarksFull),
        }
    }

    /// Deletes the mark with this number. The other marks keep their numbers. Fails, without any
    /// change, if no mark has this number.
    pub fn delete(&mut self, number: u32) -> Result<(), MarkFault>
        ensures answer { result ≡ mark_deletion number self.old }
        ensures marks { self.new ≡ without_item number self.old }
        ensures unchanged { OnErr result (self.new ≡ self.old) }
    {
        if self.list.delete(number) {
            Ok(())
        } else {
            Err(MarkFault::NoSuchMark)
        }
    }

    /// Deletes the temporary marks that hit at a stop, as GDB deletes a breakpoint that `tbreak` set. The other marks
    /// keep their numbers, and the numbers of the deleted marks aren't reused.
    pub fn delete_temporary(&mut self, hits: &[u32])
        ensures { self.new ≡ after_stop hits.now self.old }
    {
        self.list.delete_temporary(hits);
    }

    /// Returns the marks, in ascending order of their numbers.
    pub fn as_slice(&self) -> &[NumberedMark]
        ensures marks { result.now ≡ self.now.present }
        ensures few { length result.now ≤ MOST_MARKS }
        ensures rising { RisesWithin 0 (numbers_of result.now) self.now.made }
    {
        self.list.as_slice()
    }

    /// Returns the number of marks.
    pub fn len(&self) -> usize
        ensures count { result ≡ length self.now.present }
        ensures few { result ≤ MOST_MARKS }
    {
        self.list.as_slice().len()
    }

    /// Returns whether one of the marks is a watchpoint.
    pub fn any_watch(&self) -> bool
        ensures { result ≡ any_watch self.now.present }
    {
        self.as_slice().iter().any(|mark| mark.item.is_watch())
    }

    /// Returns the numbers of the marks that hit at a position, in ascending order. `after` is the world at the
    /// position, `before` the world one step earlier, and `next` the next step with its number, counted from 1. At
    /// position 0 the two worlds are the same, and at the end there is no next step.
    pub fn hits<W: Worlds>(
        &self,
        before: &W,
        after: &W,
        next: Option<(usize, &Step)>,
    ) -> ArrayVec<u32, MOST_MARKS>
        requires before { W.is_well_formed before.now }
        requires after { W.is_well_formed after.now }
        ensures hits { result.items
            ≡ hits_between (W.world before.now) (W.world after.now)
            (option_map (λ next. step_numbered next.0 next.1.now) next.entry) self.now.present }
        ensures rising { RisesWithin 0 result.items self.now.made }
    {
        match next {
            Some((number, step)) => {
                self.hits_before(before, after, Some(NextStep::of(number, step)))
            }
            None => self.hits_before(before, after, None),
        }
    }

    // Returns the numbers of the marks that hit between two worlds, given the next step, if any.
    fn hits_before<W: Worlds>(
        &self,
        before: &W,
        after: &W,
        next: Option<NextStep>,
    ) -> ArrayVec<u32, MOST_MARKS>
        requires before { W.is_well_formed before.now }
        requires after { W.is_well_formed after.now }
        ensures hits { result.items
            ≡ hits_between (W.world before.now) (W.world after.now) next self.now.present }
        ensures rising { RisesWithin 0 result.items self.now.made }
    {
        let mut hits = ArrayVec::new();
        for numbered in self.as_slice() {
            let mark = numbered.item;
            if mark.hits(mark.watched(before), mark.watched(after), next) {
                hits.push(numbered.number);
            }
        }
        hits
    }
}
