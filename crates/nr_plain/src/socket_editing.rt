//! Making the primitive changes to a socket, and undoing them.

ghost use Rattle.std.specs.Prelude.{◌≡◌, ◌≤◌, drop, length};
ghost use Rattle.nr_rev.specs.Sides.{of_side};
ghost use Rattle.nr_plain.specs.declared.socket_edit.SocketEdit.TheVariants as edit;
ghost use Rattle.nr_plain.specs.declared.socket_edit.SocketUndo.TheVariants as undo;
ghost use Rattle.nr_plain.specs.SocketEdit.{CanEditSocket, CanUndoSocket, after_socket_edit, after_socket_undo, on_bytes};
ghost use Rattle.nr_plain.specs.Sockets.{Edits};

use crate::list_edit::ListEdit;
use crate::socket::PlainSocket;
use crate::socket_edit::{SocketEdit, SocketUndo};
use nr_rev::{Lock, Side};

impl PlainSocket {
    /// Makes the change, and returns its undo.
    pub(crate) fn edit(&mut self, edit: SocketEdit) -> SocketUndo
        requires { CanEditSocket self.old.queue_room self.old.byte_room edit self.old.socket }
        ensures { Edits edit.entry result self.old self.new }
    {
        match edit {
            SocketEdit::Lock(lock) => self.set_lock(lock),
            SocketEdit::Count { side, count } => self.set_count(side, count),
            SocketEdit::Enqueue { side, goroutine } => self.enqueue(side, goroutine),
            SocketEdit::Release { side } => self.release(side),
            SocketEdit::Append { side, bytes } => self.append(side, bytes),
            SocketEdit::ClosePeer => self.close_peer(),
            SocketEdit::Shut(shut) => self.set_shut(shut),
        }
    }

    fn set_lock(&mut self, lock: Lock) -> SocketUndo
        ensures { Edits (edit.Lock lock) result self.old self.new }
    {
        let old = self.state.lock;
        self.state.lock = lock;
        SocketUndo::Lock(old)
    }

    fn set_count(&mut self, side: Side, count: u32) -> SocketUndo
        ensures edits { Edits (edit.Count side count) result self.old self.new }
        ensures was { result ≡ undo.Count side (of_side side self.old.socket.semaphores).count }
    {
        let old = self.state.counts;
        self.state.counts = old.with(side, count);
        SocketUndo::Count {
            side,
            count: old.of(side),
        }
    }

    fn set_shut(&mut self, shut: bool) -> SocketUndo
        ensures { Edits (edit.Shut shut) result self.old self.new }
    {
        let old = self.state.shut;
        self.state.shut = shut;
        SocketUndo::Shut(old)
    }

    fn close_peer(&mut self) -> SocketUndo
        requires { CanEditSocket self.old.queue_room self.old.byte_room edit.ClosePeer
            self.old.socket }
        ensures { Edits edit.ClosePeer result self.old self.new }
    {
        self.state.peer_closed = true;
        SocketUndo::OpenPeer
    }

    fn enqueue(&mut self, side: Side, goroutine: u32) -> SocketUndo
        requires { CanEditSocket self.old.queue_room self.old.byte_room
            (edit.Enqueue side goroutine) self.old.socket }
        ensures { Edits (edit.Enqueue side goroutine) result self.old self.new }
    {
        self.edit_queue(side, ListEdit::Extend(&[goroutine]));
        SocketUndo::LeaveQueue { side }
    }

    fn release(&mut self, side: Side) -> SocketUndo
        requires { CanEditSocket self.old.queue_room self.old.byte_room
            (edit.Release side) self.old.socket }
        ensures { Edits (edit.Release side) result self.old self.new }
    {
        let semaphore = self.semaphore(side);
        let front = semaphore.queue.first().copied();
        let count = semaphore.count + 1;
        let _ = self.set_count(side, count);
        self.edit_queue(side, ListEdit::DropFront(1));
        SocketUndo::Requeue { side, front }
    }

    fn append(&mut self, side: Side, bytes: &[u8]) -> SocketUndo
        requires { CanEditSocket self.old.queue_room self.old.byte_room
            (edit.Append side bytes) self.old.socket }
        ensures { Edits (edit.Append side bytes.entry) result self.old self.new }
    {
        let len = self.buffer(side).bytes.len();
        self.edit_bytes(side, ListEdit::Extend(bytes));
        SocketUndo::Cut { side, len }
    }

    /// Removes this many bytes from the front of a buffer.
    pub(crate) fn lose(&mut self, side: Side, count: usize)
        ensures after { self.new ≡ record self.old {
          socket = on_bytes side (λ held. drop count held) self.old.socket;
        } }
        ensures short { length (of_side side self.old.socket.buffers).bytes ≤ self.old.byte_room }
    {
        self.edit_bytes(side, ListEdit::DropFront(count));
    }

    /// Undoes a change.
    pub(crate) fn undo(&mut self, undo: SocketUndo)
        requires { CanUndoSocket self.old.queue_room self.old.byte_room undo self.old.socket }
        ensures { self.new ≡ record self.old {
          socket = after_socket_undo undo self.old.socket;
        } }
    {
        match undo {
            SocketUndo::Lock(lock) => self.state.lock = lock,
            SocketUndo::Count { side, count } => {
                let _ = self.set_count(side, count);
            }
            SocketUndo::LeaveQueue { side } => self.leave_queue(side),
            SocketUndo::Requeue { side, front } => self.requeue(side, front),
            SocketUndo::Cut { side, len } => self.edit_bytes(side, ListEdit::Truncate(len)),
            SocketUndo::Restore { side, bytes } => {
                self.edit_bytes(side, ListEdit::ExtendFront(bytes.as_slice()));
            }
            SocketUndo::OpenPeer => self.state.peer_closed = false,
            SocketUndo::Shut(shut) => self.state.shut = shut,
        }
    }

    fn leave_queue(&mut self, side: Side)
        ensures { self.new ≡ record self.old {
          socket = after_socket_undo (undo.LeaveQueue side) self.old.socket;
        } }
    {
        let left = self.semaphore(side).queue.len().saturating_sub(1);
        self.edit_queue(side, ListEdit::Truncate(left));
    }

    fn requeue(&mut self, side: Side, front: Option<u32>)
        requires { CanUndoSocket self.old.queue_room self.old.byte_room
            (undo.Requeue side front) self.old.socket }
        ensures { self.new ≡ record self.old {
          socket = after_socket_undo (undo.Requeue side front) self.old.socket;
        } }
    {
        let count = self.semaphore(side).count.saturating_sub(1);
        let _ = self.set_count(side, count);
        if let Some(goroutine) = front {
            self.edit_queue(side, ListEdit::ExtendFront(&[goroutine]));
        }
    }
}
