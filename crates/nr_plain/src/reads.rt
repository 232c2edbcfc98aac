//! Functions that read parts of a world for a plan. If a read fails, the function returns the
//! reason for the refusal.

ghost use Rattle.std.specs.Prelude.{◌≡◌, Some, None, MatchResult, slice_get};
ghost use Rattle.nr_rev.specs.declared.refusal.Refusal.TheVariants.{NoSuchSocket};
ghost use Rattle.nr_rev.specs.Step as step;
ghost use Rattle.nr_rev.specs.World.{is_free_number, is_wait_at, is_waited, wait_of};

use crate::socket::PlainSocket;
use crate::world::PlainWorld;
use nr_rev::{DescriptorRow, Refusal, Side, Status};

impl PlainWorld {
    /// Returns the status of a goroutine that exists and hasn't ended.
    pub(crate) fn status_of(&self, goroutine: u32) -> Result<Status, Refusal>
        ensures { result ≡ step.status_of goroutine self.now }
    {
        match self.goroutines.get(goroutine as usize) {
            None | Some(Status::Gone) => Err(Refusal::NoSuchGoroutine),
            Some(status) => Ok(status),
        }
    }

    /// Succeeds if a goroutine is idle, and otherwise returns the reason.
    pub(crate) fn idle(&self, goroutine: u32) -> Result<(), Refusal>
        ensures { result ≡ step.idle goroutine self.now }
    {
        match self.status_of(goroutine)? {
            Status::Idle => Ok(()),
            _ => Err(Refusal::NotThere),
        }
    }

    /// Returns an open socket.
    pub(crate) fn socket_of(&self, socket: u32) -> Result<&PlainSocket, Refusal>
        ensures { MatchResult result
            (λ p. slice_get self.now.sockets socket ≡ Some p.now.socket)
            (λ e. (slice_get self.now.sockets socket ≡ None) × (e ≡ NoSuchSocket)) }
    {
        self.sockets.get(socket).ok_or(Refusal::NoSuchSocket)
    }

    /// Succeeds if a size is from 1 to the limit of buffers, and otherwise returns the reason.
    pub(crate) fn sized(&self, size: u32) -> Result<(), Refusal>
        ensures { result ≡ step.sized size self.now }
    {
        if size == 0 || size > self.limits.buffer {
            return Err(Refusal::SizeOutOfRange);
        }
        Ok(())
    }

    /// Returns a descriptor that exists, with its timers.
    pub(crate) fn row_in(&self, descriptor: u32) -> Result<DescriptorRow, Refusal>
        ensures { result ≡ step.row_of descriptor self.now }
    {
        self.descriptors
            .get(descriptor as usize)
            .ok_or(Refusal::NoSuchDescriptor)
    }

    /// Returns an open descriptor, with its timers.
    pub(crate) fn open_row_of(&self, descriptor: u32) -> Result<DescriptorRow, Refusal>
        ensures { result ≡ step.open_row_of descriptor self.now }
    {
        if self.is_free(descriptor) {
            return Err(Refusal::NoSuchDescriptor);
        }
        self.row_in(descriptor)
    }

    /// Returns whether a descriptor is free.
    pub(crate) fn is_free(&self, descriptor: u32) -> bool
        ensures { result ≡ is_free_number descriptor self.now.free }
    {
        self.free.as_slice().iter().any(|free| descriptor == *free)
    }

    /// Returns whether a goroutine is inside a wait for this side of the descriptor.
    pub(crate) fn is_waited(&self, descriptor: u32, side: Side) -> bool
        ensures { result ≡ is_waited descriptor side self.now.goroutines }
    {
        self.goroutines
            .as_slice()
            .iter()
            .any(|status| status.is_inside(descriptor, side))
    }
}
