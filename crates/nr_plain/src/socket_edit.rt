//! The primitive changes to a socket, and their undos.

use nr_rev::{KeptBytes, Lock, Side};

/// A change to a socket.
#[derive(Drop)]
pub(crate) enum SocketEdit<'a> {
    /// Sets the lock.
    Lock(Lock),
    /// Sets a semaphore's count.
    Count { side: Side, count: u32 },
    /// Appends a goroutine to a semaphore's queue.
    Enqueue { side: Side, goroutine: u32 },
    /// Increases a semaphore's count, and removes the first goroutine from its queue.
    Release { side: Side },
    /// Appends bytes to a buffer.
    Append { side: Side, bytes: &'a [u8] },
    /// Marks the peer as closed.
    ClosePeer,
    /// Sets whether the write side is shut.
    Shut(bool),
}

/// The undo of a change to a socket.
#[derive(Drop)]
pub enum SocketUndo {
    Lock(Lock),
    Count { side: Side, count: u32 },
    /// Removes the last goroutine from the queue.
    LeaveQueue { side: Side },
    /// Decreases the count, and puts a goroutine back at the front of the queue.
    Requeue { side: Side, front: Option<u32> },
    /// Keeps only this many bytes in the buffer.
    Cut { side: Side, len: usize },
    /// Puts the bytes back at the front of the buffer.
    Restore { side: Side, bytes: KeptBytes },
    OpenPeer,
    Shut(bool),
}
