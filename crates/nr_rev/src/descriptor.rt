//! Poll descriptors, modelled on `runtime/netpoll.go`.

ghost use Rattle.std.specs.Prelude.{◌≡◌};
ghost use Rattle.nr_rev.specs.Descriptor as spec;
ghost use Rattle.nr_rev.specs.Refusing as refusing;

use crate::refusal::Refusal;
use crate::sides::Sides;
use crate::timer::Timer;

/// A wait word, `rg` or `wg` of `pollDesc`: the state of one side of a descriptor, or the goroutine that waits for it.
#[derive(Clone, Copy, Debug, PartialEq, Eq)]
pub enum WaitWord {
    /// The side isn't known to be ready, and no goroutine waits.
    Nil,
    /// The side is ready, and no goroutine has consumed the word yet.
    Ready,
    /// A goroutine is about to park.
    Wait,
    /// The goroutine with this number is parked.
    Held(u32),
}

impl WaitWord {
    ghost use Rattle.std.specs.Prelude.{◌≡◌, ◌≢◌, MatchBool};

    /// Returns whether two words are the same.
    pub fn is(self, other: WaitWord) -> bool
        ensures { MatchBool result (self ≡ other) (self ≢ other) }
    {
        self == other
    }
}

/// A poll descriptor, `pollDesc`.
#[derive(Clone, Copy, Debug, PartialEq, Eq)]
pub struct Descriptor {
    /// The wait words, `rg` and `wg`.
    pub words: Sides<WaitWord>,
    /// Whether the descriptor is being closed, so that no goroutine waits on it any more.
    pub closing: bool,
    /// Whether the last event reported an error.
    pub event_error: bool,
    /// The deadlines, `rd` and `wd`, in nanoseconds: positive if in the future, negative if past, 0 if none is set.
    pub deadlines: Sides<i64>,
    /// Whether a side's timer was armed and hasn't been stopped, `rrun` and `wrun`.
    pub running: Sides<bool>,
    /// The sequences by which stale firings are recognized, `rseq` and `wseq`.
    pub sequences: Sides<u64>,
    /// The tag by which stale events are recognized, `fdseq`.
    pub fdseq: u64,
    /// The number of the socket that the descriptor was opened for.
    pub socket: u32,
}

/// A descriptor with the timers armed for it.
#[derive(Clone, Copy, Debug, PartialEq, Eq)]
pub struct DescriptorRow {
    /// The descriptor.
    pub descriptor: Descriptor,
    /// The timer armed for each side, if there is one.
    pub timers: Sides<Option<Timer>>,
}

/// Returns the next sequence, tag or arming number: this one plus 1. Fails with `LastNumber` if it
/// is the greatest 64-bit number.
pub fn raised_sequence(sequence: u64) -> Result<u64, Refusal>
    ensures { result ≡ refusing.raised_sequence sequence }
{
    if sequence == u64::MAX {
        return Err(Refusal::LastNumber);
    }
    Ok(sequence + 1)
}

/// Increments both sides' sequences, the read side's first. Fails with `LastNumber` if either sequence is the greatest
/// 64-bit number.
pub fn both_raised(sequences: Sides<u64>) -> Result<Sides<u64>, Refusal>
    ensures { result ≡ spec.both_raised sequences }
{
    let read = raised_sequence(sequences.read)?;
    let write = raised_sequence(sequences.write)?;
    Ok(Sides { read, write })
}

/// Turns a deadline, counted in nanoseconds from now, into a time. A sum beyond the greatest time
/// becomes the greatest time. A past deadline stays as it is, and so does 0, which means none.
pub fn deadline_from(clock: i64, time: i64) -> i64
    ensures { result ≡ spec.deadline_from clock time }
{
    if time > 0 {
        clock.saturating_add(time)
    } else {
        time
    }
}
