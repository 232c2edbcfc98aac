//! Copies of steps.

ghost use Rattle.std.specs.Prelude.{◌≡◌, IfOk};

use nr_rev::{Bytes, Memory, Step};
use std::alloc::Global;

fn copy_of(alloc: Global, bytes: &Bytes) -> Result<Bytes, Memory>
    ensures { IfOk result (λ copy. copy ≡ bytes.now) }
{
    Ok(Bytes::new(bytes.as_slice().to_vec(alloc)?))
}

/// Returns a copy of a step. Only the step's bytes need memory.
pub fn step_copy(alloc: Global, step: &Step) -> Result<Step, Memory>
    ensures { IfOk result (λ copy. copy ≡ step.now) }
{
    Ok(match step {
        Step::Spawn => Step::Spawn,
        Step::Exit { goroutine } => Step::Exit {
            goroutine: *goroutine,
        },
        Step::SockOpen {
            read_capacity,
            write_capacity,
        } => Step::SockOpen {
            read_capacity: *read_capacity,
            write_capacity: *write_capacity,
        },
        Step::Arrive { socket, bytes } => Step::Arrive {
            socket: *socket,
            bytes: copy_of(alloc, bytes)?,
        },
        Step::PeerClose { socket } => Step::PeerClose { socket: *socket },
        Step::SysRead {
            goroutine,
            socket,
            count,
        } => Step::SysRead {
            goroutine: *goroutine,
            socket: *socket,
            count: *count,
        },
        Step::SysWrite {
            goroutine,
            socket,
            bytes,
        } => Step::SysWrite {
            goroutine: *goroutine,
            socket: *socket,
            bytes: copy_of(alloc, bytes)?,
        },
        Step::Drain { socket, count } => Step::Drain {
            socket: *socket,
            count: *count,
        },
        Step::Incref { goroutine, socket } => Step::Incref {
            goroutine: *goroutine,
            socket: *socket,
        },
        Step::IncrefClose { goroutine, socket } => Step::IncrefClose {
            goroutine: *goroutine,
            socket: *socket,
        },
        Step::Decref { goroutine, socket } => Step::Decref {
            goroutine: *goroutine,
            socket: *socket,
        },
        Step::RwLock {
            goroutine,
            socket,
            side,
        } => Step::RwLock {
            goroutine: *goroutine,
            socket: *socket,
            side: *side,
        },
        Step::RwUnlock {
            goroutine,
            socket,
            side,
        } => Step::RwUnlock {
            goroutine: *goroutine,
            socket: *socket,
            side: *side,
        },
        Step::Acquire { goroutine } => Step::Acquire {
            goroutine: *goroutine,
        },
        Step::Release { goroutine } => Step::Release {
            goroutine: *goroutine,
        },
        Step::PollOpen { goroutine, socket } => Step::PollOpen {
            goroutine: *goroutine,
            socket: *socket,
        },
        Step::PollClose {
            goroutine,
            descriptor,
        } => Step::PollClose {
            goroutine: *goroutine,
            descriptor: *descriptor,
        },
        Step::PollReset {
            goroutine,
            descriptor,
            side,
        } => Step::PollReset {
            goroutine: *goroutine,
            descriptor: *descriptor,
            side: *side,
        },
        Step::WaitBegin {
            goroutine,
            descriptor,
            side,
        } => Step::WaitBegin {
            goroutine: *goroutine,
            descriptor: *descriptor,
            side: *side,
        },
        Step::BlockArm { goroutine } => Step::BlockArm {
            goroutine: *goroutine,
        },
        Step::BlockCheck { goroutine } => Step::BlockCheck {
            goroutine: *goroutine,
        },
        Step::ParkCommit { goroutine } => Step::ParkCommit {
            goroutine: *goroutine,
        },
        Step::BlockSwap { goroutine } => Step::BlockSwap {
            goroutine: *goroutine,
        },
        Step::WaitCheck { goroutine } => Step::WaitCheck {
            goroutine: *goroutine,
        },
        Step::SetDeadline {
            goroutine,
            descriptor,
            mode,
            time,
        } => Step::SetDeadline {
            goroutine: *goroutine,
            descriptor: *descriptor,
            mode: *mode,
            time: *time,
        },
        Step::Evict {
            goroutine,
            descriptor,
        } => Step::Evict {
            goroutine: *goroutine,
            descriptor: *descriptor,
        },
        Step::PollEvent {
            descriptor,
            tag,
            mode,
            error,
        } => Step::PollEvent {
            descriptor: *descriptor,
            tag: *tag,
            mode: *mode,
            error: *error,
        },
        Step::Tick { time } => Step::Tick { time: *time },
        Step::Pop => Step::Pop,
        Step::Fire { place } => Step::Fire { place: *place },
        Step::CloseWrite { goroutine, socket } => Step::CloseWrite {
            goroutine: *goroutine,
            socket: *socket,
        },
    })
}
