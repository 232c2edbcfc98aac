//! The sockets of a world, in memory that is allocated once.

ghost use Rattle.std.specs.Prelude.{◌≡◌, ◌-◌, ◌<◌, ◌∷◌, ◌++◌, ◌≤◌, [], drop, length, option_map, slice_get, take, IfOk, IfSome};
ghost use Rattle.nr_rev.specs.Sides.{of_side};
ghost use Rattle.nr_rev.specs.Socket.{new_socket};
ghost use Rattle.nr_plain.specs.Edit.{with_changed};
ghost use Rattle.nr_plain.specs.SocketEdit.{CanEditSocket, CanUndoSocket, after_socket_undo, on_bytes};
ghost use Rattle.nr_plain.specs.Sockets.{EditsSocket, HasRoom};

use crate::socket::PlainSocket;
use crate::socket_edit::{SocketEdit, SocketUndo};
use nr_rev::{Memory, Side};
use std::alloc::Global;
use std::marker::Model;

/// The open sockets, followed by those that can still be opened.
#[derive(Drop)]
pub(crate) struct Sockets {
    all: Vec<PlainSocket>,
    opened: usize,
    queue_room: usize,
    byte_room: usize,
}

impl Model for Sockets {
    ghost use Rattle.nr_plain.specs.SocketTable.{SocketTable};

    ghost Value = { SocketTable };

    ghost use Rattle.nr_plain.specs.Sockets.{AreRoomed, table_view};

    ghost view = { table_view };

    ghost invariant = { AreRoomed };
}

impl Sockets {
    /// Makes a table without open sockets, with room for this many sockets, and with room for this
    /// many goroutines and bytes in each socket. Fails with `Memory` if memory runs out.
    pub(crate) fn with_room(
        alloc: Global,
        room: u32,
        queue_room: usize,
        byte_room: usize,
    ) -> Result<Sockets, Memory>
        ensures { IfOk result (λ s. s ≡ record {
          sockets = [];
          room = room;
          queue_room = queue_room;
          byte_room = byte_room;
        }) }
    {
        let mut all = Vec::new(alloc);
        for _ in 0..room {
            all.push(PlainSocket::with_room(alloc, queue_room, byte_room)?)?;
        }
        Ok(Sockets {
            all,
            opened: 0,
            queue_room,
            byte_room,
        })
    }

    /// Returns an equal table with memory of its own. Fails with `Memory` if memory runs out.
    pub(crate) fn try_copy(&self, alloc: Global) -> Result<Sockets, Memory>
        ensures { IfOk result (λ s. s ≡ self.now) }
    {
        let mut all = Vec::new(alloc);
        for socket in &self.all {
            all.push(socket.try_copy(alloc)?)?;
        }
        Ok(Sockets {
            all,
            opened: self.opened,
            queue_room: self.queue_room,
            byte_room: self.byte_room,
        })
    }

    /// Makes this table equal to another with the same room. Allocates no memory.
    pub(crate) fn copy_from(&mut self, other: &Sockets)
        requires room { self.old.room ≡ other.now.room }
        requires queues { self.old.queue_room ≡ other.now.queue_room }
        requires buffers { self.old.byte_room ≡ other.now.byte_room }
        ensures { self.new ≡ other.now }
    {
        for place in 0..other.opened {
            self.all[place].copy_from(&other.all[place]);
        }
        self.opened = other.opened;
    }

    /// Returns the number of open sockets.
    pub(crate) fn len(&self) -> usize
        ensures { result ≡ length self.now.sockets }
    {
        self.opened
    }

    /// Returns a socket, if it is open.
    pub(crate) fn get(&self, socket: u32) -> Option<&PlainSocket>
        ensures viewed { option_map (λ p. p.now.socket) result ≡ slice_get self.now.sockets socket }
        ensures room { IfSome result (λ p. HasRoom self.now.queue_room self.now.byte_room p.now) }
    {
        self.all[..self.opened].get(socket as usize)
    }

    /// Opens the next socket, with buffers of these capacities.
    pub(crate) fn open(&mut self, read_capacity: u32, write_capacity: u32)
        requires { length self.old.sockets < self.old.room }
        ensures { self.new ≡ record self.old {
          sockets = self.old.sockets ++ new_socket read_capacity write_capacity ∷ [];
        } }
    {
        self.all[self.opened].renew(read_capacity, write_capacity);
        self.opened += 1;
    }

    /// Undoes the opening of the last socket.
    pub(crate) fn close_last(&mut self)
        ensures { self.new ≡ record self.old {
          sockets = take (length self.old.sockets - 1) self.old.sockets;
        } }
    {
        self.opened = self.opened.saturating_sub(1);
    }

    /// Changes a socket, if it is open, and returns the undo of the change.
    pub(crate) fn edit(&mut self, socket: u32, edit: SocketEdit) -> SocketUndo
        requires { IfSome (slice_get self.old.sockets socket)
            (CanEditSocket self.old.queue_room self.old.byte_room edit) }
        ensures { EditsSocket socket edit.entry result self.old self.new }
    {
        let place = socket as usize;
        if place >= self.opened {
            return SocketUndo::OpenPeer;
        }
        self.all[place].edit(edit)
    }

    /// Undoes a change to a socket.
    pub(crate) fn undo(&mut self, socket: u32, undo: SocketUndo)
        requires { IfSome (slice_get self.old.sockets socket)
            (CanUndoSocket self.old.queue_room self.old.byte_room undo) }
        ensures { self.new ≡ record self.old {
          sockets = with_changed socket (after_socket_undo undo) self.old.sockets;
        } }
    {
        let place = socket as usize;
        if place < self.opened {
            self.all[place].undo(undo);
        }
    }

    /// Removes this many bytes from the front of a socket's buffer, if it is open.
    pub(crate) fn lose(&mut self, socket: u32, side: Side, count: usize)
        ensures after { self.new ≡ record self.old {
          sockets = with_changed socket
              (on_bytes side (λ held. drop count held)) self.old.sockets;
        } }
        ensures short { IfSome (slice_get self.old.sockets socket)
            (λ x. length (of_side side x.buffers).bytes ≤ self.old.byte_room) }
    {
        let place = socket as usize;
        if place < self.opened {
            self.all[place].lose(side, count);
        }
    }
}
