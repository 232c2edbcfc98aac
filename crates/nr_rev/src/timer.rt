//! Timers, and the order in which they are due.

use crate::sides::Side;

/// The function that a timer runs when it fires, modelled on `runtime/netpoll.go`.
#[derive(Clone, Copy, Debug, PartialEq, Eq)]
pub enum TimerFunction {
    /// The read deadline expires: `netpollReadDeadline`.
    Read,
    /// The write deadline expires: `netpollWriteDeadline`.
    Write,
    /// Both deadlines, which are the same, expire: `netpollDeadline`.
    Both,
}

impl TimerFunction {
    ghost use Rattle.std.specs.Prelude.{◌≡◌};
    ghost use Rattle.nr_rev.specs.Sides.{covers_side, side_of_function};

    /// Returns whether the function makes a side's deadline expire.
    pub fn covers(self, side: Side) -> bool
        ensures { result ≡ covers_side self side }
    {
        match self {
            TimerFunction::Read => side == Side::Read,
            TimerFunction::Write => side == Side::Write,
            TimerFunction::Both => true,
        }
    }

    /// Returns the side whose sequence and running flag the function uses.
    pub fn side(self) -> Side
        ensures { result ≡ side_of_function self }
    {
        match self {
            TimerFunction::Write => Side::Write,
            _ => Side::Read,
        }
    }
}

/// An armed timer. Timers go off in the order of their due times; those due at the same time, in
/// the order in which they were armed.
#[derive(Clone, Copy, Debug, PartialEq, Eq)]
pub struct Timer {
    /// The time at which the timer is due, in nanoseconds.
    pub due: i64,
    /// The timer's arming number: the number of timers armed before it, plus one.
    pub number: u64,
    /// The function that the timer runs.
    pub function: TimerFunction,
    /// The sequence that the timer's side had when the timer was armed. If the side has another
    /// sequence now, the firing is stale.
    pub sequence: u64,
}

impl Timer {
    ghost use Rattle.std.specs.Prelude.{◌≡◌};
    ghost use Rattle.nr_rev.specs.Timer.{is_before};

    /// Returns whether this timer goes off before another. The timer with the earlier due time does. If the due times
    /// are equal, the timer with the lower arming number does.
    pub fn is_before(&self, other: &Timer) -> bool
        ensures { result ≡ is_before self.now other.now }
    {
        self.due < other.due || (self.due == other.due && self.number < other.number)
    }
}

/// A timer with the descriptor and the side that it is armed for. The timer is armed, or has gone off and waits to be
/// run.
#[derive(Clone, Copy, Debug, PartialEq, Eq)]
pub struct Entry {
    /// The number of the descriptor.
    pub descriptor: u32,
    /// The side, or the read side if the timer is for both.
    pub side: Side,
    /// The timer.
    pub timer: Timer,
}

/// An order that a descriptor's operation gives to its timers: to arm the timer of a side, replacing an armed one, or
/// to stop it, if it is armed.
#[derive(Clone, Copy, Debug, PartialEq, Eq)]
pub enum TimerOrder {
    /// Arm the timer, due at this time in nanoseconds.
    Arm {
        side: Side,
        due: i64,
        function: TimerFunction,
        sequence: u64,
    },
    /// Stop the timer.
    Stop {
        side: Side,
    },
}
