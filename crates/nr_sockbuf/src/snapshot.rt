//! Snapshots of a socket's buffers.

ghost use Rattle.std.specs.Prelude.{◌≡◌, IfOk};
ghost use Rattle.nr_sockbuf.specs.Sock.{never_opened};

use crate::pipe::PipeSnapshot;
use crate::sock::Sock;
use nr_rev::Memory;
use std::alloc::Global;
use std::marker::Model;

/// A snapshot of a socket's buffers: the marks and the bytes. The bytes use only the memory that they need. Snapshots
/// of the same socket may share bytes. In contracts, a snapshot has the same value as the buffers.
#[derive(Drop)]
pub struct SockSnapshot {
    limit: u32,
    made: bool,
    peer_closed: bool,
    shut: bool,
    input: PipeSnapshot,
    output: PipeSnapshot,
}

impl Model for SockSnapshot {
    ghost use Rattle.std.specs.Prelude.{◌≡◌};
    ghost use Rattle.nr_sockbuf.specs.Sock.{SockParts};
    ghost use Rattle.nr_sockbuf.specs.Auxiliary.Sock.{open_of, opened_when};

    ghost Value = { SockParts };

    ghost view = { λ s. record { limit = s.limit; opened = opened_when s.made (open_of s.input s.output s.peer_closed s.shut) } };

    ghost invariant = { λ s. (s.input.most ≡ s.limit) × (s.output.most ≡ s.limit) };
}

impl Sock {
    /// Returns a snapshot of the buffers. A side shares its bytes with `last` if they are equal, and allocates memory
    /// otherwise. Fails with `Memory` if memory runs out.
    pub fn snapshot(&self, last: Option<&SockSnapshot>) -> Result<SockSnapshot, Memory>
        ensures { IfOk result (λ s. s ≡ self.now) }
    {
        let (last_input, last_output) = match last {
            Some(last) => (Some(&last.input), Some(&last.output)),
            None => (None, None),
        };
        let input = self.input.snapshot(self.alloc, last_input)?;
        let output = self.output.snapshot(self.alloc, last_output)?;
        Ok(SockSnapshot {
            limit: self.limit,
            made: self.made,
            peer_closed: self.peer_closed,
            shut: self.shut,
            input,
            output,
        })
    }

    /// Restores the buffers from a snapshot with the same limit, in their existing memory.
    /// Allocates no memory.
    pub fn restore(&mut self, snapshot: &SockSnapshot)
        requires { self.old.limit ≡ snapshot.now.limit }
        ensures { self.new ≡ snapshot.now }
    {
        self.made = snapshot.made;
        self.peer_closed = snapshot.peer_closed;
        self.shut = snapshot.shut;
        self.input.restore(&snapshot.input);
        self.output.restore(&snapshot.output);
    }

    /// Resets the buffers to those of a socket that was never opened.
    pub fn reset(&mut self)
        ensures { self.new ≡ never_opened self.old.limit }
    {
        self.made = false;
    }
}

impl SockSnapshot {
    /// Returns the buffers, each with room for the maximum number of bytes. Fails with `Memory` if
    /// memory runs out.
    pub fn restored(&self, alloc: Global) -> Result<Sock, Memory>
        ensures { IfOk result (λ s. s ≡ self.now) }
    {
        let input = self.input.restored(alloc)?;
        let output = self.output.restored(alloc)?;
        Ok(Sock {
            alloc,
            limit: self.limit,
            made: self.made,
            peer_closed: self.peer_closed,
            shut: self.shut,
            input,
            output,
        })
    }
}
