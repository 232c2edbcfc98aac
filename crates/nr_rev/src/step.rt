//! The thirty-one recorded steps.

use crate::bytes::Bytes;
use crate::sides::{Mode, Side};

/// A recorded step. Each kind is an atomic action of a goroutine, of the system or of the clock, so the steps of
/// several goroutines can be interleaved in any order. Goroutines, sockets and descriptors are numbered from 0, in the
/// order in which they were made; the number of a closed descriptor is reused.
#[derive(Drop)]
pub enum Step {
    /// A `go` statement: makes the next goroutine, idle. Answers its number.
    Spawn,
    /// The goroutine ends. Answers `Done`.
    Exit {
        goroutine: u32,
    },
    /// Opens a socket with input and output buffers of these capacities. Answers its number.
    SockOpen {
        read_capacity: u32,
        write_capacity: u32,
    },
    /// Bytes arrive from the peer. Answers `Done`.
    Arrive {
        socket: u32,
        bytes: Bytes,
    },
    /// The peer closes; the bytes that have arrived can still be read. Answers `Done`.
    PeerClose {
        socket: u32,
    },
    /// The system call of `FD.Read` (`internal/poll/fd_unix.go`): takes at most `count` bytes of
    /// the input. Answers `Got`, or, for an empty input, `Eof` if the peer has closed and `Again`
    /// if not.
    SysRead {
        goroutine: u32,
        socket: u32,
        count: u32,
    },
    /// The system call of `FD.Write`: puts as many of the bytes into the output as it has room for. Answers `Put`, or
    /// `Again` if there is no room. If the write side is shut, it writes no bytes and answers `Pipe`, as `write` fails
    /// with `EPIPE`.
    SysWrite {
        goroutine: u32,
        socket: u32,
        bytes: Bytes,
    },
    /// Bytes of the output are sent to the peer. Answers `Done`.
    Drain {
        socket: u32,
        count: u32,
    },
    /// `fdMutex.incref` (`internal/poll/fd_mutex.go`): takes a reference. Answers `Yes`, or `No` if the lock is closed.
    Incref {
        goroutine: u32,
        socket: u32,
    },
    /// `fdMutex.increfAndClose`: closes the lock, takes a reference, and owes a release to each waiter. Answers `Yes`,
    /// or `No` if the lock is closed already.
    IncrefClose {
        goroutine: u32,
        socket: u32,
    },
    /// `fdMutex.decref`: drops a reference. Answers `Last` or `NotLast`.
    Decref {
        goroutine: u32,
        socket: u32,
    },
    /// `fdMutex.rwlock`, from its top: takes the lock of a side and a reference. Answers `Yes`; `No` if the lock is
    /// closed; or `Wait` if another goroutine has it, after which this one acquires the semaphore.
    RwLock {
        goroutine: u32,
        socket: u32,
        side: Side,
    },
    /// `fdMutex.rwunlock`: drops the lock and its reference. If other goroutines wait for the lock, the goroutine then
    /// owes one of them a release. Answers `Last` or `NotLast`.
    RwUnlock {
        goroutine: u32,
        socket: u32,
        side: Side,
    },
    /// `runtime_Semacquire`: decrements the count, or queues the goroutine. Answers `Yes` or `Wait`.
    Acquire {
        goroutine: u32,
    },
    /// `runtime_Semrelease`: increments the count, and lets the goroutine at the front of the queue try again. Answers
    /// `Done`.
    Release {
        goroutine: u32,
    },
    /// `runtime_pollOpen` (`runtime/netpoll.go`): opens a descriptor for a socket. Answers its number.
    PollOpen {
        goroutine: u32,
        socket: u32,
    },
    /// `runtime_pollClose`: frees the descriptor. Answers `Done`.
    PollClose {
        goroutine: u32,
        descriptor: u32,
    },
    /// `runtime_pollReset`: resets the word to nil, unless the check forbids a wait. Answers `Code` with the result of
    /// the check.
    PollReset {
        goroutine: u32,
        descriptor: u32,
        side: Side,
    },
    /// `runtime_pollWait`, from its top: the goroutine enters a wait, unless the check forbids it. Answers `Code` with
    /// the result of the check.
    WaitBegin {
        goroutine: u32,
        descriptor: u32,
        side: Side,
    },
    /// `netpollblock`, first loop: consumes a ready word, which ends the wait, or changes a nil word to `wait`. Answers
    /// `Code(0)` or `Wait`.
    BlockArm {
        goroutine: u32,
    },
    /// `netpollblock`, the check after the word was set. Answers `Code` with the result of the
    /// check. If the result is 0, the goroutine goes on to park.
    BlockCheck {
        goroutine: u32,
    },
    /// `netpollblockcommit`: the goroutine parks if the word is still `wait`. Answers `Yes` or
    /// `No`.
    ParkCommit {
        goroutine: u32,
    },
    /// `netpollblock`, after parking: the word becomes nil. If the word was ready, the wait ends, and the answer is
    /// `Yes`; otherwise the answer is `No`.
    BlockSwap {
        goroutine: u32,
    },
    /// `runtime_pollWait`, the check after `netpollblock`. Answers `Code` with the result of the
    /// check. If the result is 0, the goroutine waits again.
    WaitCheck {
        goroutine: u32,
    },
    /// `runtime_pollSetDeadline`: sets a deadline in nanoseconds. A positive deadline is counted
    /// from now, 0 means none, and a negative deadline has passed. Answers `Done`.
    SetDeadline {
        goroutine: u32,
        descriptor: u32,
        mode: Mode,
        time: i64,
    },
    /// `runtime_pollUnblock`: the descriptor is closing, and the goroutines that wait on it are woken. Answers `Done`.
    Evict {
        goroutine: u32,
        descriptor: u32,
    },
    /// `netpollready` for a descriptor and the tag that the system holds for it, with the error flag of the event.
    /// Answers `Done`, or `Stale` if the tag is old or the descriptor is free.
    PollEvent {
        descriptor: u32,
        tag: u64,
        mode: Mode,
        error: bool,
    },
    /// The clock advances to this time, in nanoseconds. Answers `Done`.
    Tick {
        time: i64,
    },
    /// The next due timer goes off: it is no longer armed, and its firing waits to be run. Answers
    /// `Done`.
    Pop,
    /// `netpollReadDeadline`, `netpollWriteDeadline` or `netpollDeadline`: runs the firing at this
    /// place of the list, counted from 0. Answers `Done`, or `Stale` if its sequence is old.
    Fire {
        place: u32,
    },
    /// `shutdown(SHUT_WR)`, as `TCPConn.CloseWrite` calls it (`FD.Shutdown` of `internal/poll/fd_unix.go`): shuts the
    /// write side. Bytes written before can still be sent. A second call changes nothing. Answers `Done`.
    CloseWrite {
        goroutine: u32,
        socket: u32,
    },
}
