//! The reasons for which a step is refused.

ghost use Rattle.std.specs.Prelude.{◌≡◌};
ghost use Rattle.nr_rev.specs.Refusing.{out_of_memory, refusal_number};

use crate::Memory;

/// The reason why a step does not apply. netrev prints its number. If several reasons hold, the step reports the one
/// that its definition tests first. Reasons that mention a Go panic or throw are from `internal/poll/fd_mutex.go` and
/// `runtime/netpoll.go`; the others are rules of this machine.
#[derive(Clone, Copy, Debug, PartialEq, Eq)]
pub enum Refusal {
    /// Memory ran out. The machine's definition never refuses a step for this reason.
    Memory(Memory),
    /// No goroutine with this number was made, or it has ended.
    NoSuchGoroutine,
    /// The goroutine is in the wrong state for the step: it isn't idle, or it isn't at the point of
    /// a wait that the step requires.
    NotThere,
    /// There are as many goroutines, sockets or descriptors as the limits allow.
    TableFull,
    /// No socket with this number was opened.
    NoSuchSocket,
    /// The descriptor is not open, or, for an event, never was.
    NoSuchDescriptor,
    /// The number of references or waiters, or the count of a semaphore, is at its maximum; Go panics with "too many
    /// concurrent operations on a single file or socket".
    FieldOverflow,
    /// The lock has no such reference or is not locked; Go panics with "inconsistent poll.fdMutex".
    InconsistentLock,
    /// Another goroutine is inside a wait of this descriptor and side; Go throws "runtime: double wait".
    DoubleWait,
    /// The descriptor is closed and was not evicted; Go throws "runtime: close polldesc w/o unblock".
    CloseWithoutUnblock,
    /// The descriptor was evicted before; Go throws "runtime: unblock on closing polldesc".
    AlreadyClosing,
    /// A goroutine is inside a wait of the descriptor that the step closes or resets.
    WaiterInside,
    /// The new time is before the current time.
    ClockGoesBack,
    /// No timer is armed, or the first one is not due yet.
    NoTimerDue,
    /// The list of waiting firings is full. Its maximum length is twice the limit of descriptors.
    FiringsFull,
    /// The list of firings has no firing at this place.
    NoSuchFiring,
    /// The bytes that arrive do not all fit.
    NoRoom,
    /// Fewer bytes are waiting than the step sends.
    TooFewBytes,
    /// A sequence, a tag or the arming number is at its maximum.
    LastNumber,
    /// A capacity or a count is 0 or above the buffer limit, or the step carries no bytes.
    SizeOutOfRange,
    /// The peer has closed.
    PeerClosed,
    /// A current firing finds no deadline or no running timer; Go throws "runtime: inconsistent read deadline". This
    /// occurs in no well-formed world.
    CorruptedDescriptor,
}

impl Refusal {
    /// Returns the number that netrev prints for the reason.
    pub fn number(self) -> u8
        ensures { result ≡ refusal_number self }
    {
        match self {
            Refusal::Memory(_) => 0,
            Refusal::NoSuchGoroutine => 1,
            Refusal::NotThere => 2,
            Refusal::TableFull => 3,
            Refusal::NoSuchSocket => 4,
            Refusal::NoSuchDescriptor => 5,
            Refusal::FieldOverflow => 6,
            Refusal::InconsistentLock => 7,
            Refusal::DoubleWait => 8,
            Refusal::CloseWithoutUnblock => 9,
            Refusal::AlreadyClosing => 10,
            Refusal::WaiterInside => 11,
            Refusal::ClockGoesBack => 12,
            Refusal::NoTimerDue => 13,
            Refusal::FiringsFull => 14,
            Refusal::NoSuchFiring => 15,
            Refusal::NoRoom => 16,
            Refusal::TooFewBytes => 17,
            Refusal::LastNumber => 18,
            Refusal::SizeOutOfRange => 19,
            Refusal::PeerClosed => 20,
            Refusal::CorruptedDescriptor => 21,
        }
    }
}

/// Turns an out-of-memory error into the reason `Memory`.
impl From<Memory> for Refusal {
    ghost from_gives = { λ _ reason. reason ≡ out_of_memory };

    fn from(refused: Memory) -> Refusal {
        Refusal::Memory(refused)
    }
}
