//! The parts of a packed world that have memory of their own: goroutines, buffers and timers. Lock
//! words and descriptors have no memory of their own.

use crate::twice::{Came, Twice, grant, refuse};
use nr_gsema::{GOperation, GTable};
use nr_rev::{Bytes, Memory, Reversible, Side, Status, Step, TimerFunction};
use nr_sockbuf::{Sock, SockSnapshot};
use nr_timers::{Timers, TimersOp};
use std::alloc::Global;

fn came_of_table(made: Result<GTable, Memory>, goroutines: u32) -> Came {
    match made {
        Ok(table) => Came::of(has_goroutines(&table, goroutines)),
        Err(_) => Came::Refused,
    }
}

// Returns whether exactly this many goroutines were made, all of them are idle, and none is queued.
fn has_goroutines(table: &GTable, goroutines: u32) -> bool {
    let last = goroutines
        .checked_sub(1)
        .and_then(|last| table.status(last));
    let is_last = match last {
        None => goroutines == 0,
        Some(status) => status == Status::Idle,
    };
    is_last
        && table.made() == goroutines
        && table.status(goroutines).is_none()
        && table.count(0, Side::Read) == Some(0)
        && table.count(1, Side::Read).is_none()
        && table.front_of(0, Side::Read).is_none()
}

/// Tests making a table for four goroutines and a socket.
pub(crate) fn make_table_twice(rt: &HostRuntime) -> Twice {
    refuse(rt);
    let first = GTable::with_limits(rt.alloc(), 4, 1);
    grant(rt);
    Twice {
        first: came_of_table(first, 0),
        again: came_of_table(GTable::with_limits(rt.alloc(), 4, 1), 0),
    }
}

/// Tests making a table that counts the goroutines inside the waits of a descriptor.
pub(crate) fn make_counting_table_twice(rt: &HostRuntime) -> Twice {
    refuse(rt);
    let first = GTable::with_descriptors(rt.alloc(), 4, 1, 1);
    grant(rt);
    Twice {
        first: came_of_table(first, 0),
        again: came_of_table(GTable::with_descriptors(rt.alloc(), 4, 1, 1), 0),
    }
}

// Makes a table with two goroutines.
fn table_of_two(alloc: Global) -> Option<GTable> {
    let mut table = GTable::with_descriptors(alloc, 4, 1, 1).ok()?;
    table.apply(&GOperation::Spawn).ok()?;
    table.apply(&GOperation::Spawn).ok()?;
    Some(table)
}

/// Tests copying a table of two goroutines.
pub(crate) fn copy_table_twice(rt: &HostRuntime) -> Option<Twice> {
    let table = table_of_two(rt.alloc())?;
    refuse(rt);
    let first = table.try_copy();
    grant(rt);
    Some(Twice {
        first: came_of_table(first, 2).leaving(has_goroutines(&table, 2)),
        again: came_of_table(table.try_copy(), 2),
    })
}

fn came_of_sock(made: Result<Sock, Memory>, bytes: &[u8]) -> Came {
    match made {
        Ok(sock) => Came::of(has_bytes(&sock, bytes)),
        Err(_) => Came::Refused,
    }
}

// Returns whether exactly these bytes can be read. If `bytes` is empty, the socket must not have
// been opened.
fn has_bytes(sock: &Sock, bytes: &[u8]) -> bool {
    sock.is_made() != bytes.is_empty()
        && sock.byte(Side::Read, 0) == bytes.get(0).copied()
        && sock.byte(Side::Read, 1) == bytes.get(1).copied()
        && sock.byte(Side::Read, 2) == bytes.get(2).copied()
        && sock.byte(Side::Write, 0).is_none()
}

/// Tests making a socket's buffers.
pub(crate) fn make_sock_twice(rt: &HostRuntime) -> Twice {
    refuse(rt);
    let first = Sock::with_limits(rt.alloc(), 16);
    grant(rt);
    Twice {
        first: came_of_sock(first, b""),
        again: came_of_sock(Sock::with_limits(rt.alloc(), 16), b""),
    }
}

const OPEN: Step = Step::SockOpen {
    read_capacity: 16,
    write_capacity: 16,
};

// Makes a socket's buffers, which then receive two bytes.
fn sock_of_two(alloc: Global) -> Option<Sock> {
    let mut sock = Sock::with_limits(alloc, 16).ok()?;
    let bytes = Bytes::new(Vec::from_slice(alloc, b"hi").ok()?);
    sock.apply(&OPEN).ok()?;
    sock.apply(&Step::Arrive { socket: 0, bytes }).ok()?;
    Some(sock)
}

/// Tests copying a socket's buffers.
pub(crate) fn copy_sock_twice(rt: &HostRuntime) -> Option<Twice> {
    let sock = sock_of_two(rt.alloc())?;
    refuse(rt);
    let first = sock.try_copy();
    grant(rt);
    Some(Twice {
        first: came_of_sock(first, b"hi").leaving(has_bytes(&sock, b"hi")),
        again: came_of_sock(sock.try_copy(), b"hi"),
    })
}

// Returns whether the buffers that are restored from a snapshot contain exactly the two bytes.
fn keeps_two(alloc: Global, snapshot: &SockSnapshot) -> bool {
    match snapshot.restored(alloc) {
        Ok(sock) => has_bytes(&sock, b"hi"),
        Err(_) => false,
    }
}

fn came_of_rest(made: Result<SockSnapshot, Memory>, alloc: Global) -> Came {
    match made {
        Ok(snapshot) => Came::of(keeps_two(alloc, &snapshot)),
        Err(_) => Came::Refused,
    }
}

/// Tests taking a snapshot of a socket's buffers.
pub(crate) fn rest_sock_twice(rt: &HostRuntime) -> Option<Twice> {
    let sock = sock_of_two(rt.alloc())?;
    let last = sock.snapshot(None).ok()?;
    refuse(rt);
    let first = sock.snapshot(None);
    grant(rt);
    Some(Twice {
        first: came_of_rest(first, rt.alloc()).leaving(has_bytes(&sock, b"hi")),
        again: came_of_rest(sock.snapshot(Some(&last)), rt.alloc()),
    })
}

/// Tests restoring a socket's buffers.
pub(crate) fn restore_sock_twice(rt: &HostRuntime) -> Option<Twice> {
    let snapshot = sock_of_two(rt.alloc())?.snapshot(None).ok()?;
    refuse(rt);
    let first = snapshot.restored(rt.alloc());
    grant(rt);
    Some(Twice {
        first: came_of_sock(first, b"hi").leaving(keeps_two(rt.alloc(), &snapshot)),
        again: came_of_sock(snapshot.restored(rt.alloc()), b"hi"),
    })
}

fn came_of_timers(made: Result<Timers, Memory>, times: &[i64]) -> Came {
    match made {
        Ok(timers) => Came::of(has_times(&timers, times)),
        Err(_) => Came::Refused,
    }
}

// Returns whether exactly these timers are armed, in this order in the heap, and none has gone off.
fn has_times(timers: &Timers, times: &[i64]) -> bool {
    let due = |place| timers.at_place(place).map(|entry| entry.timer.due);
    timers.len() == times.len()
        && timers.next_number() == 1 + times.len() as u64
        && timers.firings() == 0
        && due(0) == times.get(0).copied()
        && due(1) == times.get(1).copied()
}

/// Tests making the timers of two descriptors.
pub(crate) fn make_timers_twice(rt: &HostRuntime) -> Twice {
    refuse(rt);
    let first = Timers::with_limits(rt.alloc(), 2);
    grant(rt);
    Twice {
        first: came_of_timers(first, &[]),
        again: came_of_timers(Timers::with_limits(rt.alloc(), 2), &[]),
    }
}

fn arm(side: Side, due: i64) -> TimersOp {
    TimersOp::Arm {
        descriptor: 0,
        side,
        due,
        function: TimerFunction::Read,
        sequence: 1,
    }
}

// Makes two timers, of which the second is due first.
fn armed(alloc: Global) -> Option<Timers> {
    let mut timers = Timers::with_limits(alloc, 2).ok()?;
    timers.apply(&arm(Side::Read, 20)).ok()?;
    timers.apply(&arm(Side::Write, 10)).ok()?;
    Some(timers)
}

/// Tests copying two timers.
pub(crate) fn copy_timers_twice(rt: &HostRuntime) -> Option<Twice> {
    let timers = armed(rt.alloc())?;
    refuse(rt);
    let first = timers.try_copy();
    grant(rt);
    Some(Twice {
        first: came_of_timers(first, &[10, 20]).leaving(has_times(&timers, &[10, 20])),
        again: came_of_timers(timers.try_copy(), &[10, 20]),
    })
}
