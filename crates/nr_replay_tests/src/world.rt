//! Tests of packed worlds with concrete values, and with allocations that fail.

ghost use Rattle.std.specs.Prelude.{◌≡◌, ◌≤◌, IfOk, length};
ghost use Rattle.nr_rev.specs.Transaction.{LeadsBack};
ghost use Rattle.nr_machine.specs.Delta.{WorldBack};
ghost use Rattle.nr_machine.specs.Fits.{IsWorld};
ghost use Rattle.nr_machine.specs.World.{WorldParts};

use crate::films::OPEN;
use arrayvec::ArrayVec;
use nr_machine::World;
use nr_rev::{
    Answer, Bytes, Cell, CellValue, Limits, Memory, Refusal, Reversible, Side, Step, Worlds,
    transact, undo_all,
};
use std::alloc::{AllocError, Global};
use std::process::Abort;
use std::test::Fail;

type Delta = <World as Reversible>::Delta;

const LIMITS: Limits = Limits {
    goroutines: 6,
    sockets: 2,
    descriptors: 2,
    buffer: 16,
};

const INCREF: Step = Step::Incref {
    goroutine: 0,
    socket: 0,
};

const DECREF: Step = Step::Decref {
    goroutine: 0,
    socket: 0,
};

/// Makes a small world before its first step.
fn little_world(alloc: Global) -> Result<World, Memory>
    ensures { IfOk result IsWorld }
{
    World::fresh(alloc, LIMITS)
}

/// Applies a step without an undo record.
fn advance(world: &mut World, step: &Step) -> Result<Answer, Refusal>
    requires { IsWorld world.old }
    ensures { IsWorld world.new }
{
    world.advance(step)
}

/// Applies the steps, up to the first step that is refused.
fn lead(world: &mut World, steps: &[Step]) -> Result<(), Refusal>
    requires { IsWorld world.old }
    ensures { IsWorld world.new }
{
    for step in steps {
        advance(world, step)?;
    }
    Ok(())
}

/// Applies all the steps or none. Returns whether they apply, the number of deltas, and the lock word of socket 0
/// afterwards.
fn transacted(world: &mut World, steps: &[Step]) -> (Result<(), Refusal>, usize, CellValue)
    requires well_formed { IsWorld world.old }
    requires few { length steps.now ≤ 8 }
    ensures { IsWorld world.new }
{
    let mut deltas = ArrayVec::new();
    let applied = transact(world, steps, &mut deltas);
    (applied, deltas.len(), world.cell(Cell::Lock(0)))
}

/// Applies three lists of steps: a list whose last step is refused, an empty list, and a list that
/// applies.
fn transactions(world: &mut World) -> [(Result<(), Refusal>, usize, CellValue); 3]
    requires { IsWorld world.old }
{
    [
        transacted(world, &[OPEN, INCREF, DECREF, DECREF]),
        transacted(world, &[]),
        transacted(world, &[OPEN, INCREF, DECREF]),
    ]
}

#[test]
fn applies_all_or_none(rt: HostRuntime) -> Result<(), Fail> {
    let mut world = little_world(rt.alloc())?;
    assert_eq!(rt;
        transactions(&mut world),
        [
            (Err(Refusal::InconsistentLock), 0, CellValue::Absent),
            (Ok(()), 0, CellValue::Absent),
            (Ok(()), 3, CellValue::Number(0)),
        ]
    );
    Ok(())
}

/// Applies all the steps and undoes them all. Returns the number of deltas, and the value of a cell before and
/// after the undos.
fn there_and_back(
    world: &mut World,
    steps: &[Step],
    observed: Cell,
) -> Result<(usize, CellValue, CellValue), Refusal>
    requires well_formed { IsWorld world.old }
    requires few { length steps.now ≤ 8 }
    ensures well_formed { IsWorld world.new }
    ensures back { world.new ≡ world.old }
{
    let mut deltas = ArrayVec::new();
    transact(world, steps, &mut deltas)?;
    let made = deltas.len();
    let there = world.cell(observed);
    undo_all(world, &mut deltas);
    Ok((made, there, world.cell(observed)))
}

/// Takes and releases a reference twice: first with both steps in one list, then one step at a
/// time.
fn references(world: &mut World) -> Result<[(usize, CellValue, CellValue); 3], Refusal>
    requires { IsWorld world.old }
{
    let all = there_and_back(world, &[OPEN, INCREF, DECREF], Cell::Lock(0))?;
    lead(world, &[OPEN])?;
    let taken = there_and_back(world, &[INCREF], Cell::Lock(0))?;
    lead(world, &[INCREF])?;
    let given_up = there_and_back(world, &[DECREF], Cell::Lock(0))?;
    Ok([all, taken, given_up])
}

#[test]
fn undoes_all(rt: HostRuntime) -> Result<(), Fail> {
    let mut world = little_world(rt.alloc())?;
    assert_eq!(rt;
        references(&mut world),
        Ok([
            (3, CellValue::Number(0), CellValue::Absent),
            (1, CellValue::Number(8), CellValue::Number(0)),
            (1, CellValue::Number(0), CellValue::Number(8)),
        ])
    );
    Ok(())
}

const SHUT: Step = Step::CloseWrite {
    goroutine: 0,
    socket: 0,
};

/// Shuts a write side twice.
fn shuts(world: &mut World) -> Result<[(usize, CellValue, CellValue); 2], Refusal>
    requires { IsWorld world.old }
{
    lead(world, &[OPEN])?;
    let once = there_and_back(world, &[SHUT], Cell::Shut(0))?;
    lead(world, &[SHUT])?;
    let again = there_and_back(world, &[SHUT], Cell::Shut(0))?;
    Ok([once, again])
}

#[test]
fn undoes_the_shutting_of_a_write_side(rt: HostRuntime) -> Result<(), Fail> {
    let mut world = little_world(rt.alloc())?;
    assert_eq!(rt;
        shuts(&mut world),
        Ok([
            (1, CellValue::Number(1), CellValue::Number(0)),
            (1, CellValue::Number(1), CellValue::Number(1)),
        ])
    );
    Ok(())
}

/// Opens a socket with room for four bytes per side.
const OPEN_FOR_FOUR: Step = Step::SockOpen {
    read_capacity: 4,
    write_capacity: 4,
};

const READ: Step = Step::SysRead {
    goroutine: 0,
    socket: 0,
    count: 1,
};

const DRAIN: Step = Step::Drain {
    socket: 0,
    count: 2,
};

/// Returns a step in which two bytes arrive.
fn arriving(alloc: Global) -> Result<Step, AllocError> {
    let bytes = Bytes::new(Vec::from_slice(alloc, b"hi")?);
    Ok(Step::Arrive { socket: 0, bytes })
}

/// Returns the step that writes two bytes.
fn writing(alloc: Global) -> Result<Step, AllocError> {
    let bytes = Bytes::new(Vec::from_slice(alloc, b"yo")?);
    Ok(Step::SysWrite {
        goroutine: 0,
        socket: 0,
        bytes,
    })
}

/// Returns steps that move bytes in and out.
fn traffic(alloc: Global) -> Result<[Step; 5], AllocError> {
    Ok([
        OPEN_FOR_FOUR,
        arriving(alloc)?,
        writing(alloc)?,
        READ,
        DRAIN,
    ])
}

/// Applies a step and drops its undo record.
fn apply(world: &mut World, step: &Step) -> Result<Answer, Refusal>
    requires { IsWorld world.old }
    ensures { IsWorld world.new }
{
    let (answer, _) = world.apply(step)?;
    Ok(answer)
}

/// Returns the answer of the step on a copy, without an undo record.
fn answer_of_a_copy(world: &World, step: &Step) -> Result<Answer, Refusal>
    requires { IsWorld world.now }
{
    let mut copy = world.try_copy()?;
    advance(&mut copy, step)
}

/// Returns the answer of the step, if it is the same on a copy.
fn answer_of(world: &mut World, step: &Step) -> Option<Answer>
    requires { IsWorld world.old }
    ensures { IsWorld world.new }
{
    let reported = answer_of_a_copy(world, step).ok()?;
    let answer = apply(world, step).ok()?;
    if answer == reported {
        Some(answer)
    } else {
        None
    }
}

/// Returns the bytes in a buffer of socket 0, if the buffer exists and there is memory to return them.
fn held(world: &World, side: Side) -> Option<Bytes> {
    world.bytes(0, side).ok()?
}

/// Undoes the last of the world's deltas.
fn undo_last(world: &mut World, deltas: &mut ArrayVec<Delta, 8>)
    requires { (old : WorldParts) × LeadsBack WorldBack deltas.old.items world.old old }
    ensures { (old : WorldParts) × LeadsBack WorldBack deltas.new.items world.new old }
{
    if let Some(delta) = deltas.pop() {
        world.undo(delta);
    }
}

/// Applies three steps, and undoes the last `count` of them.
fn lead_and_return(world: &mut World, steps: &[Step; 3], count: u32) -> Result<(), Refusal>
    requires { IsWorld world.old }
{
    let mut deltas = ArrayVec::new();
    transact(world, steps, &mut deltas)?;
    for _ in 0..count {
        undo_last(world, &mut deltas);
    }
    Ok(())
}

/// Returns whether these are the wanted bytes.
fn is_held(bytes: &Option<Bytes>, wanted: &[u8]) -> bool {
    match bytes {
        Some(bytes) => bytes.as_slice() == wanted,
        None => false,
    }
}

/// Returns whether socket 0 has the wanted input after `lead_and_return`; `None` means that the
/// input shouldn't exist.
fn is_left(
    world: &mut World,
    steps: &[Step; 3],
    count: u32,
    input: Option<&[u8]>,
) -> Result<bool, Refusal>
    requires { IsWorld world.old }
{
    lead_and_return(world, steps, count)?;
    let left = world.bytes(0, Side::Read)?;
    Ok(match input {
        Some(input) => is_held(&left, input),
        None => left.is_none(),
    })
}

/// Runs `is_left` in a new world.
fn undone(
    alloc: Global,
    steps: &[Step; 3],
    count: u32,
    input: Option<&[u8]>,
) -> Result<bool, Refusal> {
    let mut world = little_world(alloc)?;
    is_left(&mut world, steps, count, input)
}

/// Returns the results of `undone` for zero to three undos. The three steps before the undos open a
/// socket, let two bytes arrive, and read one of them.
fn all_undone(alloc: Global, steps: &[Step; 3]) -> Result<[bool; 4], Refusal> {
    Ok([
        undone(alloc, steps, 0, Some(b"i".as_slice()))?,
        undone(alloc, steps, 1, Some(b"hi".as_slice()))?,
        undone(alloc, steps, 2, Some(b"".as_slice()))?,
        undone(alloc, steps, 3, None)?,
    ])
}

#[test]
fn undoes_one_by_one(rt: HostRuntime) -> Result<(), Fail> {
    let steps = [OPEN_FOR_FOUR, arriving(rt.alloc())?, READ];
    assert_eq!(rt; all_undone(rt.alloc(), &steps), Ok([true; 4]));
    Ok(())
}

/// Applies the steps, and returns the answer of the last one. Returns `None` if a step has another
/// answer on a copy of the world.
fn last_answer_of(world: &mut World, steps: &[Step]) -> Option<Answer>
    requires { IsWorld world.old }
{
    let mut answer = Answer::Done;
    for step in steps {
        answer = answer_of(world, step)?;
    }
    Some(answer)
}

/// The answer of the last step, and the bytes in the buffers of socket 0 afterwards.
#[derive(Drop)]
struct Buffers {
    answer: Option<Answer>,
    input: Option<Bytes>,
    output: Option<Bytes>,
}

/// Applies the steps in a new world.
fn moved(alloc: Global, steps: &[Step]) -> Result<Buffers, Refusal> {
    let mut world = little_world(alloc)?;
    Ok(Buffers {
        answer: last_answer_of(&mut world, steps),
        input: held(&world, Side::Read),
        output: held(&world, Side::Write),
    })
}

/// Returns whether the last step gives this answer and leaves these bytes.
fn is_moved(
    alloc: Global,
    steps: Option<&[Step]>,
    answer: Answer,
    input: &[u8],
    output: &[u8],
) -> Result<bool, Refusal> {
    let moved = moved(alloc, steps.unwrap_or(&[]))?;
    Ok(
        moved.answer == Some(answer)
            && is_held(&moved.input, input)
            && is_held(&moved.output, output),
    )
}

/// Returns the results of `is_moved` for the first step, the first two steps and so on.
fn all_moved(alloc: Global, steps: &[Step]) -> Result<[bool; 5], Refusal> {
    Ok([
        is_moved(alloc, steps.get(..1), Answer::Number(0), b"", b"")?,
        is_moved(alloc, steps.get(..2), Answer::Done, b"hi", b"")?,
        is_moved(alloc, steps.get(..3), Answer::Put(2), b"hi", b"yo")?,
        is_moved(alloc, steps.get(..4), Answer::Got(1), b"i", b"yo")?,
        is_moved(alloc, steps.get(..5), Answer::Done, b"i", b"")?,
    ])
}

#[test]
fn moves_bytes(rt: HostRuntime) -> Result<(), Fail> {
    let steps = traffic(rt.alloc())?;
    assert_eq!(rt; all_moved(rt.alloc(), &steps), Ok([true; 5]));
    Ok(())
}

/// Returns whether the world has no bytes for socket 1, and whether the queue of socket 0 is empty.
fn missing_and_empty(world: &World) -> Result<(bool, bool), Refusal> {
    let bytes = world.bytes(1, Side::Read)?;
    let queue = world.queue(0, Side::Read)?;
    let is_empty = matches!(&queue, Some(queue) if queue.as_slice().is_empty());
    Ok((bytes.is_none(), is_empty))
}

/// Opens a socket, and returns the result of `missing_and_empty`.
fn opened(world: &mut World) -> Result<(bool, bool), Refusal>
    requires { IsWorld world.old }
{
    lead(world, &[OPEN])?;
    missing_and_empty(world)
}

#[test]
fn shows_what_is_missing_or_empty(rt: HostRuntime) -> Result<(), Fail> {
    let mut world = little_world(rt.alloc())?;
    assert_eq!(rt; opened(&mut world), Ok((true, true)));
    Ok(())
}

/// Returns the numbers of bytes in the buffers of socket 0.
fn lengths(world: &World) -> (CellValue, CellValue)
    requires { IsWorld world.now }
{
    (world.cell(Cell::Input(0)), world.cell(Cell::Output(0)))
}

/// Returns the answer of the step. If it runs out of memory and changes nothing, tries again.
fn answer_in_two_tries(world: &mut World, step: &Step) -> Result<Answer, Refusal>
    requires { IsWorld world.old }
    ensures { IsWorld world.new }
{
    let before = lengths(world);
    match apply(world, step) {
        Err(Refusal::Memory(_)) if lengths(world) == before => apply(world, step),
        answered => answered,
    }
}

/// Applies the steps of the traffic, each with at most two tries.
fn take_in_two_tries(rt: &impl Abort, world: &mut World, traffic: &[Step; 5])
    requires { IsWorld world.old }
{
    let [open, arrive, write, read, drain] = traffic;
    for (step, answer) in [
        (open, Answer::Number(0)),
        (arrive, Answer::Done),
        (write, Answer::Put(2)),
        (read, Answer::Got(1)),
        (drain, Answer::Done),
    ] {
        assert_eq!(rt; answer_in_two_tries(world, step), Ok(answer));
    }
}

/// Tests a failed allocation only if run with `rt try --test --fail-alloc N`, which makes one fail.
#[test]
fn goes_on_where_memory_was_refused(rt: HostRuntime) -> Result<(), Fail> {
    let Ok(steps) = traffic(rt.alloc()) else {
        return Ok(());
    };
    let Ok(mut world) = little_world(rt.alloc()) else {
        return Ok(());
    };
    take_in_two_tries(&rt, &mut world, &steps);
    Ok(())
}
