//! The states of goroutines between two steps.

use crate::answer::Answer;
use crate::sides::{Side, Sides};

/// The status of a goroutine. From `Entering` to `Checking`, the goroutine is inside a wait at one side of a
/// descriptor, that is, in `runtime_pollWait` of `runtime/netpoll.go`.
#[derive(Clone, Copy, Debug, PartialEq, Eq)]
pub enum Status {
    /// The goroutine isn't inside a call that takes several steps.
    Idle,
    /// Another goroutine has the lock, so this one will acquire the semaphore.
    Acquiring {
        socket: u32,
        side: Side,
    },
    /// The goroutine waits in the queue of the semaphore.
    Queued {
        socket: u32,
        side: Side,
    },
    /// The goroutine has acquired the semaphore, and will try the lock again.
    Relock {
        socket: u32,
        side: Side,
    },
    /// The goroutine will release the semaphores this many times, the read semaphore first.
    Owing {
        socket: u32,
        reads: u32,
        writes: u32,
    },
    /// The goroutine will set the wait word to wait: `netpollblock` begins.
    Entering {
        descriptor: u32,
        side: Side,
    },
    /// The wait word is set to wait; the goroutine will check once more.
    Armed {
        descriptor: u32,
        side: Side,
    },
    /// The goroutine will park: `netpollblockcommit`.
    Parking {
        descriptor: u32,
        side: Side,
    },
    /// The goroutine is parked, and the wait word holds it.
    Parked {
        descriptor: u32,
        side: Side,
    },
    /// The goroutine continues, and will consume the wait word.
    Swapping {
        descriptor: u32,
        side: Side,
    },
    /// The goroutine found nothing ready, and will check why it was woken.
    Checking {
        descriptor: u32,
        side: Side,
    },
    /// The goroutine has ended. Its number is not reused.
    Gone,
}

impl Status {
    ghost use Rattle.std.specs.Prelude.{◌≡◌, ◌≢◌, MatchBool};
    ghost use Rattle.nr_rev.specs.Step as step;
    ghost use Rattle.nr_rev.specs.World.{is_wait_at, wait_of};

    /// Returns whether two statuses are the same.
    pub fn is(self, other: Status) -> bool
        ensures { MatchBool result (self ≡ other) (self ≢ other) }
    {
        self == other
    }

    /// If the goroutine is inside a wait, returns the descriptor and side of the wait.
    #[inline(always)]
    pub fn wait(self) -> Option<(u32, Side)>
        ensures { result ≡ wait_of self }
    {
        match self {
            Status::Entering { descriptor, side }
            | Status::Armed { descriptor, side }
            | Status::Parking { descriptor, side }
            | Status::Parked { descriptor, side }
            | Status::Swapping { descriptor, side }
            | Status::Checking { descriptor, side } => Some((descriptor, side)),
            _ => None,
        }
    }

    /// Returns whether the goroutine is inside a wait at this side of the descriptor.
    #[inline(always)]
    pub fn is_inside(self, descriptor: u32, side: Side) -> bool
        ensures { result ≡ is_wait_at descriptor side (wait_of self) }
    {
        match self.wait() {
            None => false,
            Some((at_descriptor, at_side)) => descriptor == at_descriptor && side == at_side,
        }
    }

    /// Returns whether the goroutine may try the lock of a socket's side: it is idle, or has
    /// acquired that side's semaphore.
    #[inline(always)]
    pub fn may_lock(self, socket: u32, side: Side) -> bool
        ensures { result ≡ step.may_lock socket side self }
    {
        match self {
            Status::Idle => true,
            Status::Relock {
                socket: at_socket,
                side: at_side,
            } => socket == at_socket && side.is(at_side),
            _ => false,
        }
    }

    /// Returns the status of a goroutine that owes these releases of a socket's semaphores: idle if
    /// it owes none.
    #[inline(always)]
    pub fn owing(socket: u32, owed: Sides<u32>) -> Status
        ensures { result ≡ step.owing socket owed }
    {
        if owed.read == 0 && owed.write == 0 {
            return Status::Idle;
        }
        Status::Owing {
            socket,
            reads: owed.read,
            writes: owed.write,
        }
    }

    /// Returns the status of a goroutine after an `rwlock` with this answer: it will acquire the semaphore, or is idle.
    #[inline(always)]
    pub fn after_lock(socket: u32, side: Side, answer: Answer) -> Status
        ensures { result ≡ step.locker socket side answer }
    {
        match answer {
            Answer::Wait => Status::Acquiring { socket, side },
            _ => Status::Idle,
        }
    }
}
