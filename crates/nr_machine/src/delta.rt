//! The deltas of steps.

use nr_desc::DescDelta;
use nr_gsema::GDelta;
use nr_lock::LockDelta;
use nr_rev::{Keeper, Sides};
use nr_sockbuf::SockDelta;
use nr_timers::TimersDelta;

/// The maximum number of words in a delta, not counting the bytes that left a buffer.
pub(crate) const MOST_WORDS: u32 = 40;

/// The delta of a step: the old values of the parts that it changed, and nothing else.
#[derive(Drop)]
pub struct WorldDelta {
    pub(crate) undo: WorldUndo,
}

/// The old values of what a step changed.
#[derive(Drop)]
pub(crate) enum WorldUndo {
    /// Nothing changed.
    Still,
    /// Some goroutines or a semaphore changed.
    Goroutine(GDelta),
    /// A lock changed, and perhaps the status of the goroutine that used it.
    Locked {
        lock: LockUndo,
        moved: Option<GDelta>,
    },
    /// The buffers of a socket changed.
    Sock {
        socket: u32,
        delta: SockDelta,
    },
    /// A socket was opened.
    Opened(SockDelta),
    /// A descriptor was opened for the first time.
    Made,
    /// A free descriptor was opened.
    Reopened(DescUndo),
    /// A descriptor was closed.
    Closed(DescUndo),
    /// A descriptor changed.
    Described(DescUndo),
    /// A descriptor changed, and so did the status of a goroutine inside a wait for it. If the
    /// goroutine parked, there is one more waiter.
    Waited {
        desc: DescUndo,
        moved: GDelta,
        parked: bool,
    },
    /// The clock was at this time.
    Clock(i64),
    /// Timers changed.
    Timers(TimersDelta),
    /// A descriptor changed with its timers, and these goroutines were woken.
    Changed {
        desc: DescUndo,
        timers: Sides<Option<TimersDelta>>,
        woken: Sides<Option<u32>>,
    },
}

/// The old value of a lock.
#[derive(Clone, Copy)]
pub(crate) struct LockUndo {
    pub(crate) socket: u32,
    pub(crate) before: LockDelta,
}

/// The old value of a descriptor.
#[derive(Clone, Copy)]
pub(crate) struct DescUndo {
    pub(crate) descriptor: u32,
    pub(crate) before: DescDelta,
}

/// A delta that restores nothing.
impl Default for WorldDelta {
    fn default() -> Self {
        WorldDelta {
            undo: WorldUndo::Still,
        }
    }
}

/// A variable of this type can store a step's undo: `put` overwrites the variable.
impl Keeper<WorldUndo> for WorldUndo {
    ghost use Rattle.std.specs.Prelude.{◌≡◌, true};

    const KEEPS: bool = true;

    ghost KEEPS = { true };

    ghost holds = { λ place undo. place ≡ undo };

    #[inline(always)]
    fn put(&mut self, undo: WorldUndo) {
        *self = undo;
    }
}
