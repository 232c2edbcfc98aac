//! The operations on timers.

use nr_rev::{Side, TimerFunction};

/// An operation on timers. Each operation refers to its descriptor by number.
#[derive(Clone, Copy, Debug, PartialEq, Eq)]
pub enum TimersOp {
    /// Arms the timer of a descriptor's side, and replaces any armed one. The timer gets the next
    /// arming number. Fails with `Refusal::NoSuchDescriptor` if the descriptor isn't below the
    /// limit, or else with `Refusal::LastNumber` if the next number is the last one,
    /// 18,446,744,073,709,551,615.
    Arm {
        descriptor: u32,
        side: Side,
        /// The time at which the timer is due, in nanoseconds.
        due: i64,
        function: TimerFunction,
        sequence: u64,
    },
    /// Stops the timer of a descriptor's side, if one is armed. Fails with `Refusal::NoSuchDescriptor` if the
    /// descriptor isn't below the limit.
    Stop {
        descriptor: u32,
        side: Side,
    },
    /// Moves the least entry to the end of the firings. Fails with `Refusal::NoTimerDue` if there is no entry, or if
    /// the least entry is due after this time, in nanoseconds. Otherwise fails with `Refusal::FiringsFull` if the
    /// number of waiting firings is twice the maximum number of descriptors.
    Pop {
        now: i64,
    },
    /// Removes the firing at a place, counted from 0. Fails with `Refusal::NoSuchFiring` if there is none.
    TakeFiring {
        place: u32,
    },
}
