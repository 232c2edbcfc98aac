//! Buffers of a socket with room for four bytes each, so that their bytes wrap round the end of the
//! ring. The file also tests failed allocations. The tests also pass if any one allocation fails,
//! because the second of two tries succeeds.

ghost use Rattle.std.specs.Prelude.{◌≡◌, ◌≤◌, OnOk, [], length};
ghost use Rattle.nr_rev.specs.Transaction.{LeadsBack};
ghost use Rattle.nr_sockbuf.specs.Delta as back;

use arrayvec::ArrayVec;
use nr_rev::{Answer, Bytes, Memory, Refusal, Reversible, Side, Step, transact, undo_all};
use nr_sockbuf::{Sock, SockDelta};
use std::alloc::Global;
use std::test::Fail;

const OPEN: Step = Step::SockOpen {
    read_capacity: 4,
    write_capacity: 3,
};

const SHUT: Step = Step::CloseWrite {
    goroutine: 0,
    socket: 0,
};

const DRAIN: Step = Step::Drain {
    socket: 0,
    count: 2,
};

fn read(count: u32) -> Step {
    Step::SysRead {
        goroutine: 0,
        socket: 0,
        count,
    }
}

fn arrive(alloc: Global, bytes: &[u8]) -> Result<Step, Memory> {
    let bytes = Bytes::new(Vec::from_slice(alloc, bytes)?);
    Ok(Step::Arrive { socket: 0, bytes })
}

fn write(alloc: Global, bytes: &[u8]) -> Result<Step, Memory> {
    let bytes = Bytes::new(Vec::from_slice(alloc, bytes)?);
    Ok(Step::SysWrite {
        goroutine: 0,
        socket: 0,
        bytes,
    })
}

/// Makes buffers with room for four bytes. Tries again if memory runs out.
fn made(alloc: Global) -> Result<Sock, Memory> {
    match Sock::with_limits(alloc, 4) {
        Err(_) => Sock::with_limits(alloc, 4),
        made => made,
    }
}

/// Returns a copy. Tries again if memory runs out.
fn copied(sock: &Sock) -> Result<Sock, Memory> {
    match sock.try_copy() {
        Err(_) => sock.try_copy(),
        copy => copy,
    }
}

/// Applies all the steps or none. Tries again if memory runs out.
fn play(sock: &mut Sock, steps: &[Step], deltas: &mut ArrayVec<SockDelta, 8>) -> Result<(), Refusal>
    requires few { length steps.now ≤ 8 }
    requires empty { deltas.old.items ≡ [] }
    ensures { OnOk result (LeadsBack back.LeadsBack deltas.new.items sock.new sock.old) }
{
    match transact(sock, steps, deltas) {
        Err(Refusal::Memory(_)) => transact(sock, steps, deltas),
        played => played,
    }
}

/// The first bytes of a side, from the front.
type Held = [Option<u8>; 4];

fn held(sock: &Sock, side: Side) -> Held {
    [
        sock.byte(side, 0),
        sock.byte(side, 1),
        sock.byte(side, 2),
        sock.byte(side, 3),
    ]
}

/// Applies a round of steps and drops its undo record.
fn go(sock: &mut Sock, steps: &[Step]) -> Result<(), Refusal>
    requires { length steps.now ≤ 8 }
{
    let mut deltas = ArrayVec::new();
    play(sock, steps, &mut deltas)
}

/// Applies a round of steps and undoes it. Returns the input before the round, after it, and after
/// the undo.
fn round(sock: &mut Sock, steps: &[Step]) -> Result<[Held; 3], Refusal>
    requires { length steps.now ≤ 8 }
{
    let before = held(sock, Side::Read);
    let mut deltas = ArrayVec::new();
    play(sock, steps, &mut deltas)?;
    let after = held(sock, Side::Read);
    undo_all(sock, &mut deltas);
    Ok([before, after, held(sock, Side::Read)])
}

/// Applies two rounds of steps and undoes the second.
fn rounds(sock: &mut Sock, first: &[Step], second: &[Step]) -> Result<[Held; 3], Refusal>
    requires first { length first.now ≤ 8 }
    requires second { length second.now ≤ 8 }
{
    go(sock, first)?;
    round(sock, second)
}

/// Returns the input of a copy, if there is memory for one.
fn held_by_a_copy(sock: &Sock) -> Option<Held> {
    match copied(sock) {
        Ok(copy) => Some(held(&copy, Side::Read)),
        Err(_) => None,
    }
}

/// Applies two rounds of steps in new buffers, undoes the second, and copies the result.
fn there_and_back(
    alloc: Global,
    first: &[Step],
    second: &[Step],
) -> Result<(Result<[Held; 3], Refusal>, Option<Held>), Memory>
    requires first { length first.now ≤ 8 }
    requires second { length second.now ≤ 8 }
{
    let mut sock = made(alloc)?;
    let played = rounds(&mut sock, first, second);
    Ok((played, held_by_a_copy(&sock)))
}

/// Returns a round of steps. After them, the bytes in the buffer wrap around its end.
fn first_round(alloc: Global) -> Result<[Step; 4], Memory> {
    Ok([
        OPEN,
        arrive(alloc, b"abc")?,
        read(2),
        arrive(alloc, b"def")?,
    ])
}

/// Returns a round of steps that reads these bytes.
fn second_round(alloc: Global) -> Result<[Step; 2], Memory> {
    Ok([read(3), arrive(alloc, b"xyz")?])
}

#[test]
fn what_wraps_round_the_end_is_read_and_put_back(rt: HostRuntime) -> Result<(), Fail> {
    let Ok(first) = first_round(rt.alloc()) else {
        return Ok(());
    };
    let Ok(second) = second_round(rt.alloc()) else {
        return Ok(());
    };
    let before = [Some(b'c'), Some(b'd'), Some(b'e'), Some(b'f')];
    let after = [Some(b'f'), Some(b'x'), Some(b'y'), Some(b'z')];
    assert_eq!(rt;
        there_and_back(rt.alloc(), &first, &second),
        Ok((Ok([before, after, before]), Some(before)))
    );
    Ok(())
}

/// Returns the answers of five steps in new buffers, and the bytes in the output afterwards.
fn answers(
    alloc: Global,
    steps: &[Step; 5],
) -> Result<([Result<Answer, Refusal>; 5], [Option<u8>; 4]), Memory> {
    let mut sock = made(alloc)?;
    let [first, second, third, fourth, fifth] = steps;
    let answers = [
        sock.advance(first),
        sock.advance(second),
        sock.advance(third),
        sock.advance(fourth),
        sock.advance(fifth),
    ];
    Ok((answers, held(&sock, Side::Write)))
}

/// Returns five steps: a write before the socket is opened, two steps that open it, and two more
/// writes.
fn writes(alloc: Global) -> Result<[Step; 5], Memory> {
    Ok([
        write(alloc, b"hello")?,
        OPEN,
        OPEN,
        write(alloc, b"hello")?,
        write(alloc, b"hello")?,
    ])
}

#[test]
fn a_write_takes_what_there_is_room_for(rt: HostRuntime) -> Result<(), Fail> {
    let Ok(writes) = writes(rt.alloc()) else {
        return Ok(());
    };
    assert_eq!(rt;
        answers(rt.alloc(), &writes),
        Ok((
            [
                Err(Refusal::NoSuchSocket),
                Ok(Answer::Done),
                Err(Refusal::TableFull),
                Ok(Answer::Put(3)),
                Ok(Answer::Again),
            ],
            [Some(b'h'), Some(b'e'), Some(b'l'), None],
        ))
    );
    Ok(())
}

#[test]
fn other_kinds_and_sizes_are_refused(rt: HostRuntime) -> Result<(), Fail> {
    assert_eq!(rt;
        answers(rt.alloc(), &[Step::Spawn, read(1), OPEN, read(5), read(1)]),
        Ok((
            [
                Err(Refusal::SizeOutOfRange),
                Err(Refusal::NoSuchSocket),
                Ok(Answer::Done),
                Err(Refusal::SizeOutOfRange),
                Ok(Answer::Again),
            ],
            [None; 4],
        ))
    );
    Ok(())
}

/// Returns steps that write, shut the write side, write again, and shut it again.
fn writes_round_the_shutting(alloc: Global) -> Result<[Step; 5], Memory> {
    Ok([OPEN, write(alloc, b"hi")?, SHUT, write(alloc, b"h")?, SHUT])
}

/// Returns steps that write, shut the write side, drain the written bytes, and write again.
fn writes_round_the_drain(alloc: Global) -> Result<[Step; 5], Memory> {
    Ok([OPEN, write(alloc, b"hi")?, SHUT, DRAIN, write(alloc, b"h")?])
}

#[test]
fn nothing_is_written_once_the_write_side_is_shut(rt: HostRuntime) -> Result<(), Fail> {
    let Ok(writes) = writes_round_the_shutting(rt.alloc()) else {
        return Ok(());
    };
    assert_eq!(rt;
        answers(rt.alloc(), &writes),
        Ok((
            [
                Ok(Answer::Done),
                Ok(Answer::Put(2)),
                Ok(Answer::Done),
                Ok(Answer::Pipe),
                Ok(Answer::Done),
            ],
            [Some(b'h'), Some(b'i'), None, None],
        ))
    );
    Ok(())
}

#[test]
fn what_was_written_goes_out_once_the_write_side_is_shut(rt: HostRuntime) -> Result<(), Fail> {
    let Ok(writes) = writes_round_the_drain(rt.alloc()) else {
        return Ok(());
    };
    assert_eq!(rt;
        answers(rt.alloc(), &writes),
        Ok((
            [
                Ok(Answer::Done),
                Ok(Answer::Put(2)),
                Ok(Answer::Done),
                Ok(Answer::Done),
                Ok(Answer::Pipe),
            ],
            [None; 4],
        ))
    );
    Ok(())
}

/// Shuts the write side and undoes this. Returns whether the side was shut before, in between and
/// afterwards.
fn shut(sock: &mut Sock) -> Result<[bool; 3], Refusal> {
    let before = sock.shut();
    let mut deltas = ArrayVec::new();
    play(sock, &[SHUT], &mut deltas)?;
    let after = sock.shut();
    undo_all(sock, &mut deltas);
    Ok([before, after, sock.shut()])
}

/// Applies the steps, and then runs `shut`.
fn lead_and_shut(sock: &mut Sock, steps: &[Step]) -> Result<[bool; 3], Refusal>
    requires { length steps.now ≤ 8 }
{
    go(sock, steps)?;
    shut(sock)
}

/// Runs `lead_and_shut` in new buffers.
fn shut_and_back(alloc: Global, steps: &[Step]) -> Result<Result<[bool; 3], Refusal>, Memory>
    requires { length steps.now ≤ 8 }
{
    let mut sock = made(alloc)?;
    Ok(lead_and_shut(&mut sock, steps))
}

#[test]
fn the_write_side_is_as_it_was_once_its_shutting_is_undone(rt: HostRuntime) -> Result<(), Fail> {
    assert_eq!(rt;
        shut_and_back(rt.alloc(), &[OPEN]),
        Ok(Ok([false, true, false]))
    );
    assert_eq!(rt;
        shut_and_back(rt.alloc(), &[OPEN, SHUT]),
        Ok(Ok([true, true, true]))
    );
    assert_eq!(rt;
        shut_and_back(rt.alloc(), &[]),
        Ok(Err(Refusal::NoSuchSocket))
    );
    Ok(())
}
