//! Marks, and whether one hits at a position.

ghost use Rattle.std.specs.Prelude.{◌≡◌, ◌+◌, ◌<◌, ◌^◌};
ghost use Rattle.std.specs.Option.{option_copied};
ghost use Rattle.nr_marks.specs.Hit.{break_hits, hits_by, names, numbered, step_numbered, watched};
ghost use Rattle.nr_marks.specs.Marks.{is_temporary, is_watch};

use nr_rev::{Cell, CellValue, Kind, Step, Worlds};
use std::num::NonZeroU32;

/// The steps that a breakpoint names.
#[derive(Clone, Copy, Debug, PartialEq, Eq)]
pub enum Break {
    /// Each step of this kind.
    Kind(Kind),
    /// The step with this number, counted from 1.
    Step(NonZeroU32),
}

/// A mark stops `continue`. Marks are modelled on GDB's `break`, `tbreak` and `watch`.
#[derive(Clone, Copy, Debug, PartialEq, Eq)]
pub enum Mark {
    /// A breakpoint: stops before each step that it names.
    Break(Break),
    /// A temporary breakpoint: stops as a breakpoint does, and is deleted after the first stop at which it hits.
    TemporaryBreak(Break),
    /// A watchpoint: stops after each step that changes the value of the cell. Absence counts as a
    /// value, so the watchpoint also stops after a step that makes an absent cell present.
    Watch(Cell),
}

// The value of an unused place in a list.
impl Default for Mark {
    fn default() -> Mark {
        Mark::Watch(Cell::Clock)
    }
}

/// The step that comes next at a position.
#[derive(Clone, Copy, Debug, PartialEq, Eq)]
pub struct NextStep {
    /// The step's number, counted from 1: one more than the position.
    pub number: usize,
    /// The step's kind.
    pub kind: Kind,
}

impl NextStep {
    /// Makes the next step from its number, counted from 1.
    pub fn of(number: usize, step: &Step) -> NextStep
        ensures { result ≡ step_numbered number step.now }
    {
        NextStep {
            number,
            kind: step.kind(),
        }
    }

    /// Returns the step that comes next at a position, if there is one.
    pub fn at(position: usize, step: Option<&Step>) -> Option<NextStep>
        requires { position + 1 < 2 ^ 64 }
        ensures { result ≡ numbered position (option_copied step.entry) }
    {
        Some(NextStep::of(position + 1, step?))
    }
}

impl Break {
    /// Returns whether the breakpoint names the step.
    pub fn names(self, step: NextStep) -> bool
        ensures { result ≡ names self step }
    {
        match self {
            Break::Kind(kind) => kind == step.kind,
            Break::Step(number) => number.get() as usize == step.number,
        }
    }

    /// Returns whether the breakpoint hits at a position, given the next step there.
    pub fn hits(self, next: Option<NextStep>) -> bool
        ensures { result ≡ break_hits self next }
    {
        match next {
            Some(step) => self.names(step),
            None => false,
        }
    }
}

impl Mark {
    /// Returns the value that the mark watches in a world: the value of its cell. A break watches
    /// no cell, so its value counts as absent.
    #[inline(always)]
    pub fn watched<W: Worlds>(self, world: &W) -> CellValue
        requires { W.is_well_formed world.now }
        ensures { result ≡ watched (W.world world.now) self }
    {
        match self {
            Mark::Break(_) | Mark::TemporaryBreak(_) => CellValue::Absent,
            Mark::Watch(cell) => world.cell(cell),
        }
    }

    /// Returns whether the mark hits at a position. A breakpoint checks the next step. A watchpoint
    /// compares the value of its cell one step before the position with the value at the position.
    #[inline(always)]
    pub fn hits(self, before: CellValue, now: CellValue, next: Option<NextStep>) -> bool
        ensures { result ≡ hits_by before now next self }
    {
        match self {
            Mark::Break(wanted) | Mark::TemporaryBreak(wanted) => wanted.hits(next),
            Mark::Watch(_) => before != now,
        }
    }

    /// Returns whether the mark is deleted after the first stop at which it hits, like a breakpoint
    /// set with GDB's `tbreak`.
    pub fn is_temporary(self) -> bool
        ensures { result ≡ is_temporary self }
    {
        matches!(self, Mark::TemporaryBreak(_))
    }

    /// Returns whether the mark is a watchpoint.
    pub fn is_watch(self) -> bool
        ensures { result ≡ is_watch self }
    {
        matches!(self, Mark::Watch(_))
    }
}
