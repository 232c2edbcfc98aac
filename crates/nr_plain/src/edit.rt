//! The primitive changes from which steps are built, and their undos.

use crate::socket_edit::{SocketEdit, SocketUndo};
use nr_rev::{DescriptorRow, Entry, Status};

/// A change to the world.
#[derive(Drop)]
pub(crate) enum Edit<'a> {
    /// Sets a goroutine's status.
    Status {
        goroutine: u32,
        status: Status,
    },
    /// Adds an idle goroutine.
    AddGoroutine,
    /// Adds a new socket.
    AddSocket {
        read_capacity: u32,
        write_capacity: u32,
    },
    /// Changes a socket.
    Socket {
        socket: u32,
        edit: SocketEdit<'a>,
    },
    /// Sets a descriptor with its timers.
    Row {
        descriptor: u32,
        row: DescriptorRow,
    },
    /// Adds a descriptor that was never opened.
    AddRow,
    /// Removes the front of the free list.
    TakeFree,
    /// Puts a descriptor at the front of the free list.
    GiveFree {
        descriptor: u32,
    },
    /// Wakes a goroutine that a word held.
    Wake {
        goroutine: u32,
    },
    /// Sets the count of waiters.
    Waiters {
        count: u64,
    },
    /// Sets the next arming number.
    Arming {
        number: u64,
    },
    /// Sets the clock.
    Clock {
        time: i64,
    },
    /// Appends an entry to the firings.
    AddFiring {
        entry: Entry,
    },
    /// Removes the firing at a place.
    TakeFiring {
        place: u32,
    },
}

/// The undo of a change to the world.
#[derive(Drop)]
pub enum Undo {
    Status {
        goroutine: u32,
        status: Status,
    },
    RemoveGoroutine,
    RemoveSocket,
    Socket {
        socket: u32,
        undo: SocketUndo,
    },
    Row {
        descriptor: u32,
        row: DescriptorRow,
    },
    RemoveRow,
    ReturnFree {
        descriptor: u32,
    },
    RemoveFree,
    /// Restores the goroutine's status and the count of waiters.
    Sleep {
        goroutine: u32,
        status: Status,
        waiters: u64,
    },
    Waiters {
        count: u64,
    },
    Arming {
        number: u64,
    },
    Clock {
        time: i64,
    },
    RemoveFiring,
    ReturnFiring {
        place: u32,
        entry: Entry,
    },
}
