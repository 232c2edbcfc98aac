//! The deltas of timer operations.

ghost use Rattle.std.specs.Prelude.{◌≡◌};
ghost use Rattle.nr_timers.specs.Clearing.{armed_undo, stopped_undo};

use crate::heap::Gone;
use nr_rev::{Entry, Timer};

/// The data that undoes an operation, and nothing else.
#[derive(Clone, Copy, Debug, PartialEq, Eq)]
pub struct TimersDelta {
    /// The undo of the operation.
    pub undo: TimersUndo,
}

/// What an operation changed. Places are counted from 0. The data are at most one entry or timer
/// and a few places, so their size is bounded.
#[derive(Clone, Copy, Debug, PartialEq, Eq)]
pub enum TimersUndo {
    /// A timer was armed on a side that had none, and its entry was put at the place `to`.
    Armed {
        to: u32,
    },
    /// A timer was armed and replaced another timer, `timer`. The replaced entry was removed from
    /// `place`, and the last entry moved to `last`. Then the new entry was put at `to`.
    Rearmed {
        to: u32,
        place: u32,
        last: u32,
        timer: Timer,
    },
    /// The entry was removed from `place`, and the last entry moved to `last`.
    Stopped {
        place: u32,
        last: u32,
        entry: Entry,
    },
    /// Nothing changed.
    Still,
    /// The entry that is now the last firing was removed from place 0, and the last entry moved to
    /// `last`.
    Popped {
        last: u32,
    },
    /// The firing was removed from `place` in the list of firings.
    Taken {
        place: u32,
        entry: Entry,
    },
}

/// The default delta undoes nothing; it fills the free places of a bounded list.
impl Default for TimersDelta {
    ghost use Rattle.std.specs.Prelude.{◌≡◌};
    ghost use Rattle.nr_timers.specs.declared.delta.TimersUndo.TheVariants.{Still};

    ghost is_default = { λ delta. delta ≡ record { undo = Still } };

    fn default() -> Self {
        TimersDelta {
            undo: TimersUndo::Still,
        }
    }
}

impl TimersUndo {
    /// Returns the undo of an operation that armed a timer and put its entry at the place `to`.
    /// `gone` is the earlier entry of the same side, if one was removed.
    #[inline(always)]
    pub(crate) fn of_arming(to: u32, gone: Option<Gone>) -> TimersUndo
        ensures { result ≡ armed_undo to gone }
    {
        match gone {
            None => TimersUndo::Armed { to },
            Some(Gone { place, last, entry }) => TimersUndo::Rearmed {
                to,
                place,
                last,
                timer: entry.timer,
            },
        }
    }

    /// Returns the undo of an operation that stopped a timer. `gone` is the removed entry, if there
    /// was one.
    #[inline(always)]
    pub(crate) fn of_stop(gone: Option<Gone>) -> TimersUndo
        ensures { result ≡ stopped_undo gone }
    {
        match gone {
            None => TimersUndo::Still,
            Some(Gone { place, last, entry }) => TimersUndo::Stopped { place, last, entry },
        }
    }
}
