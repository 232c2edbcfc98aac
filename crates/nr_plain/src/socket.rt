//! A socket: a lock, two semaphores, two buffers and two marks, with memory that is allocated once.

ghost use Rattle.std.specs.Prelude.{◌≡◌, ◌≤◌, [], length, IfOk};
ghost use Rattle.nr_rev.specs.Sides.{of_side, twice};
ghost use Rattle.nr_rev.specs.Socket.{new_socket};
ghost use Rattle.nr_plain.specs.Buffer.{buffer_view};
ghost use Rattle.nr_plain.specs.ListEdit.{CanEditList, after_list_edit};
ghost use Rattle.nr_plain.specs.Semaphore.{semaphore_view};
ghost use Rattle.nr_plain.specs.Socket.{socket_with, state_of};
ghost use Rattle.nr_plain.specs.SocketEdit.{on_bytes, on_queue};

use crate::buffer::PlainBuffer;
use crate::list_edit::{ListEdit, edit_list};
use crate::lock::open_lock;
use crate::semaphore::PlainSemaphore;
use nr_rev::{Lock, Memory, RoomedList, Side, Sides};
use std::alloc::Global;
use std::marker::Model;

/// The state of a socket without its queues and its bytes.
#[derive(Clone, Copy)]
pub(crate) struct SocketState {
    pub(crate) lock: Lock,
    pub(crate) counts: Sides<u32>,
    pub(crate) capacities: Sides<u32>,
    pub(crate) peer_closed: bool,
    pub(crate) shut: bool,
}

impl SocketState {
    /// Returns the state of a new socket with buffers of these capacities.
    pub(crate) fn new(read_capacity: u32, write_capacity: u32) -> SocketState
        ensures { socket_with result (twice []) (twice [])
            ≡ new_socket read_capacity write_capacity }
    {
        SocketState {
            lock: open_lock(),
            counts: Sides::twice(0),
            capacities: Sides {
                read: read_capacity,
                write: write_capacity,
            },
            peer_closed: false,
            shut: false,
        }
    }
}

/// A socket. Both queues have the same room, and both buffers have the same room.
#[derive(Drop)]
pub(crate) struct PlainSocket {
    pub(crate) state: SocketState,
    pub(crate) read_queue: RoomedList<u32>,
    pub(crate) write_queue: RoomedList<u32>,
    pub(crate) input: RoomedList<u8>,
    pub(crate) output: RoomedList<u8>,
}

impl Model for PlainSocket {
    ghost use Rattle.nr_plain.specs.SocketTable.{RoomedSocket};

    ghost Value = { RoomedSocket };

    ghost use Rattle.nr_plain.specs.Socket.{HasItsRoom, socket_view};

    ghost view = { socket_view };

    ghost invariant = { HasItsRoom };
}

impl PlainSocket {
    /// Makes a new socket with buffers of capacity 0, and with room for this many goroutines and
    /// bytes. Fails with `Memory` if memory runs out.
    pub(crate) fn with_room(
        alloc: Global,
        queue_room: usize,
        byte_room: usize,
    ) -> Result<PlainSocket, Memory>
        ensures { IfOk result (λ p. p ≡ record {
          socket = new_socket 0 0;
          queue_room = queue_room;
          byte_room = byte_room;
        }) }
    {
        Ok(PlainSocket {
            state: SocketState::new(0, 0),
            read_queue: RoomedList::with_room(alloc, queue_room)?,
            write_queue: RoomedList::with_room(alloc, queue_room)?,
            input: RoomedList::with_room(alloc, byte_room)?,
            output: RoomedList::with_room(alloc, byte_room)?,
        })
    }

    /// Returns an equal socket with memory of its own. Fails with `Memory` if memory runs out.
    pub(crate) fn try_copy(&self, alloc: Global) -> Result<PlainSocket, Memory>
        ensures { IfOk result (λ p. p ≡ self.now) }
    {
        Ok(PlainSocket {
            state: self.state,
            read_queue: self.read_queue.try_copy(alloc)?,
            write_queue: self.write_queue.try_copy(alloc)?,
            input: self.input.try_copy(alloc)?,
            output: self.output.try_copy(alloc)?,
        })
    }

    /// Makes this socket equal to another with the same room. Allocates no memory.
    pub(crate) fn copy_from(&mut self, other: &PlainSocket)
        requires queues { self.old.queue_room ≡ other.now.queue_room }
        requires buffers { self.old.byte_room ≡ other.now.byte_room }
        ensures { self.new ≡ other.now }
    {
        self.state = other.state;
        self.read_queue.copy_from(&other.read_queue);
        self.write_queue.copy_from(&other.write_queue);
        self.input.copy_from(&other.input);
        self.output.copy_from(&other.output);
    }

    /// Resets this socket to a new one with buffers of these capacities.
    pub(crate) fn renew(&mut self, read_capacity: u32, write_capacity: u32)
        ensures { self.new ≡ record self.old {
          socket = new_socket read_capacity write_capacity;
        } }
    {
        self.state = SocketState::new(read_capacity, write_capacity);
        self.read_queue.truncate(0);
        self.write_queue.truncate(0);
        self.input.truncate(0);
        self.output.truncate(0);
    }

    /// Returns the state without queues and bytes.
    pub(crate) fn state(&self) -> SocketState
        ensures { result ≡ state_of self.now.socket }
    {
        self.state
    }

    /// Returns the semaphore of a side.
    pub(crate) fn semaphore(&self, side: Side) -> PlainSemaphore<'_>
        ensures viewed { semaphore_view result ≡ of_side side self.now.socket.semaphores }
        ensures short { length result.queue.now ≤ self.now.queue_room }
    {
        let queue = match side {
            Side::Read => &self.read_queue,
            Side::Write => &self.write_queue,
        };
        PlainSemaphore {
            count: self.state.counts.of(side),
            queue: queue.as_slice(),
        }
    }

    /// Returns the buffer of a side: the input for the read side, the output for the write side.
    pub(crate) fn buffer(&self, side: Side) -> PlainBuffer<'_>
        ensures viewed { buffer_view result ≡ of_side side self.now.socket.buffers }
        ensures short { length result.bytes.now ≤ self.now.byte_room }
    {
        let bytes = match side {
            Side::Read => &self.input,
            Side::Write => &self.output,
        };
        PlainBuffer {
            bytes: bytes.as_slice(),
            capacity: self.state.capacities.of(side),
        }
    }

    /// Changes the queue of a side.
    pub(crate) fn edit_queue(&mut self, side: Side, edit: ListEdit<u32>)
        requires { CanEditList self.old.queue_room edit
            (of_side side self.old.socket.semaphores).queue }
        ensures after { self.new ≡ record self.old {
          socket = on_queue side (after_list_edit edit.entry) self.old.socket;
        } }
        ensures short { length (of_side side self.old.socket.semaphores).queue
            ≤ self.old.queue_room }
    {
        match side {
            Side::Read => edit_list(&mut self.read_queue, edit),
            Side::Write => edit_list(&mut self.write_queue, edit),
        }
    }

    /// Changes the bytes of a side's buffer.
    pub(crate) fn edit_bytes(&mut self, side: Side, edit: ListEdit<u8>)
        requires { CanEditList self.old.byte_room edit
            (of_side side self.old.socket.buffers).bytes }
        ensures after { self.new ≡ record self.old {
          socket = on_bytes side (after_list_edit edit.entry) self.old.socket;
        } }
        ensures short { length (of_side side self.old.socket.buffers).bytes ≤ self.old.byte_room }
    {
        match side {
            Side::Read => edit_list(&mut self.input, edit),
            Side::Write => edit_list(&mut self.output, edit),
        }
    }
}
