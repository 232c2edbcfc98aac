//! The operations on a descriptor, and their answers.

ghost use Rattle.std.specs.Prelude.{◌≡◌, ◌++◌, ◌<◌, option_to_list};

use nr_rev::{Answer, MOST_GOROUTINES, Mode, Side, Sides, TimerFunction, TimerOrder};
use std::marker::Model;

/// A goroutine's number, below the maximum number of goroutines. In contracts, it is a plain number.
#[derive(Clone, Copy, Debug, PartialEq, Eq)]
pub struct Goroutine(u32);

impl Model for Goroutine {
    ghost use Rattle.std.specs.Prelude.{ℕ, ◌<◌};
    ghost use Rattle.nr_rev.specs.declared.limits.TheConstants.{MOST_GOROUTINES};

    ghost Value = { ℕ };

    ghost view = { λ g. g.0 };

    ghost invariant = { λ g. g.0 < MOST_GOROUTINES };

    ghost inverse = { λ n. record { 0 = n } };
}

impl Goroutine {
    /// Returns the goroutine with this number.
    #[inline(always)]
    pub fn of_number(number: u32) -> Goroutine
        requires { number < MOST_GOROUTINES }
        ensures { result ≡ number }
    {
        Goroutine(number)
    }

    /// Returns the goroutine's number.
    #[inline(always)]
    pub fn number(self) -> u32
        ensures number { result ≡ self }
        ensures small { result < MOST_GOROUTINES }
    {
        self.0
    }
}

/// An operation on a descriptor.
#[derive(Clone, Copy, Debug, PartialEq, Eq)]
pub enum DescOp {
    /// Opens the descriptor for a socket (Go's `poll_runtime_pollOpen`). Answers `Done`.
    Open {
        /// The number of the socket.
        socket: u32,
    },
    /// Closes the descriptor (Go's `poll_runtime_pollClose`) and changes its tag. Answers `Done`.
    Close,
    /// Makes a side's word nil, if nothing prevents a wait (Go's `poll_runtime_pollReset`). Answers `Code`.
    Reset(Side),
    /// Checks whether anything prevents a wait (Go's `netpollcheckerr`). Answers `Code`.
    Check(Side),
    /// Sets a side's word to wait, or consumes the word if it is ready (the first half of Go's
    /// `netpollblock`). Answers `Wait`, or `Code(0)` if the word was ready.
    Arm(Side),
    /// Makes a side's word hold the goroutine, if the word is wait (Go's `netpollblockcommit`).
    /// Answers `Yes`, or `No` if the word isn't wait.
    Commit(Side, Goroutine),
    /// Makes a side's word nil (the second half of Go's `netpollblock`). Answers `Yes` if the word
    /// was ready, and otherwise `No`.
    Swap(Side),
    /// Sets a deadline (Go's `poll_runtime_pollSetDeadline`). Answers `Done`, with the orders to the timers and the
    /// woken goroutines.
    SetDeadline {
        /// The current time in nanoseconds.
        clock: i64,
        /// The sides of the deadline.
        mode: Mode,
        /// The deadline: positive and counted from now if it is in the future, negative if it has
        /// passed, 0 for none.
        time: i64,
    },
    /// Marks the descriptor as closing (Go's `poll_runtime_pollUnblock`). Answers `Done`, with the orders to the timers
    /// and the woken goroutines.
    Evict,
    /// Runs a firing (Go's `netpolldeadlineimpl`). Answers `Done` with the woken goroutines, or `Stale`.
    Fire {
        /// The timer's function.
        function: TimerFunction,
        /// The sequence with which the timer was armed.
        sequence: u64,
    },
    /// Applies an event of the poller (Go's `netpollready`). Answers `Done` with the woken
    /// goroutines, or `Stale` if the tag is out of date.
    Event {
        /// The event's tag.
        tag: u64,
        /// The sides that are ready.
        mode: Mode,
        /// True if the event has an error.
        error: bool,
    },
}

/// At most one order to the timer of each side. In contracts, they are a list of orders, the read side's first.
#[derive(Drop, Debug)]
pub struct Orders {
    sides: Sides<Option<TimerOrder>>,
}

impl Model for Orders {
    ghost use Rattle.std.specs.Prelude.{List, ◌++◌, option_to_list};
    ghost use Rattle.nr_rev.specs.declared.timer.TimerOrder.{TimerOrder};

    ghost Value = { List TimerOrder };

    ghost view = { λ o. option_to_list o.sides.read ++ option_to_list o.sides.write };
}

impl Orders {
    /// Makes the orders of both sides.
    #[inline(always)]
    pub(crate) fn new(sides: Sides<Option<TimerOrder>>) -> Orders
        ensures { result ≡ option_to_list sides.read ++ option_to_list sides.write }
    {
        Orders { sides }
    }

    /// Returns the order to each side's timer, if there is one. The order for reading is carried
    /// out first.
    #[inline(always)]
    pub fn sides(&self) -> Sides<Option<TimerOrder>>
        ensures { self.now ≡ option_to_list result.read ++ option_to_list result.write }
    {
        self.sides
    }
}

/// The answer of a descriptor.
#[derive(Drop, Debug)]
pub struct DescAnswer {
    /// The answer.
    pub answer: Answer,
    /// The orders to its timers.
    pub orders: Orders,
    /// The goroutine that is woken at each side, if any: the goroutine that the side's word held.
    /// The goroutine for reading is woken first.
    pub woken: Sides<Option<u32>>,
}
