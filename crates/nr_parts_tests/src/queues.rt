//! Tests of queues with concrete goroutines: the links before an operation, after it, and after its
//! undo. The tests also pass if any one allocation fails, because the second of two tries succeeds.

ghost use Rattle.std.specs.Prelude.{◌≡◌, ◌≤◌, IfOk, length};
ghost use Rattle.nr_gsema.specs.Applying.{IsQueuedUp};

use arrayvec::ArrayVec;
use nr_gsema::{GOperation, GTable};
use nr_rev::{Memory, Refusal, Reversible, Side, Status, transact};
use std::alloc::Global;
use std::test::Fail;

/// Two goroutines, each of which may be missing: the front and the back of a queue, or the
/// goroutines before and after another one.
type Pair = (Option<u32>, Option<u32>);

/// The ends of the read queue at socket 0, and the neighbours of the goroutines 1, 2 and 3.
type Links = (Pair, [Pair; 3]);

fn neighbours(table: &GTable, goroutine: u32) -> Pair {
    (table.previous_of(goroutine), table.next_of(goroutine))
}

fn links(table: &GTable) -> Links {
    (
        (table.front_of(0, Side::Read), table.back_of(0, Side::Read)),
        [
            neighbours(table, 1),
            neighbours(table, 2),
            neighbours(table, 3),
        ],
    )
}

/// The links while goroutines 1, 2 and 3 are queued in this order.
const OF_THREE: Links = (
    (Some(1), Some(3)),
    [(None, Some(2)), (Some(1), Some(3)), (Some(2), None)],
);

/// The links after goroutine 1 has left that queue.
const OF_TWO: Links = (
    (Some(2), Some(3)),
    [(None, None), (None, Some(3)), (Some(2), None)],
);

fn acquiring(goroutine: u32) -> GOperation {
    GOperation::Move {
        goroutine,
        from: Status::Idle,
        to: Status::Acquiring {
            socket: 0,
            side: Side::Read,
        },
    }
}

fn acquire(goroutine: u32) -> GOperation {
    GOperation::Acquire { goroutine }
}

/// Makes goroutine 0 owe a release for reading.
const OWES: GOperation = GOperation::Move {
    goroutine: 0,
    from: Status::Idle,
    to: Status::Owing {
        socket: 0,
        reads: 1,
        writes: 0,
    },
};

/// Makes a table for four goroutines and a socket. Tries again if memory runs out.
fn made(alloc: Global) -> Result<GTable, Memory>
    ensures { IfOk result IsQueuedUp }
{
    match GTable::with_limits(alloc, 4, 1) {
        Err(_) => GTable::with_limits(alloc, 4, 1),
        made => made,
    }
}

/// Applies all the operations or none.
fn play(table: &mut GTable, operations: &[GOperation]) -> Result<(), Refusal>
    requires queued { IsQueuedUp table.old }
    requires few { length operations.now ≤ 8 }
    ensures { IsQueuedUp table.new }
{
    let mut deltas = ArrayVec::new();
    transact(table, operations, &mut deltas)
}

/// Makes four goroutines. Goroutines 1, 2 and 3 are queued, and goroutine 0 owes a release.
fn queue_up(table: &mut GTable) -> Result<(), Refusal>
    requires { IsQueuedUp table.old }
    ensures { IsQueuedUp table.new }
{
    play(table, &[GOperation::Spawn; 4])?;
    play(table, &[OWES, acquiring(1), acquiring(2), acquiring(3)])?;
    play(table, &[acquire(1), acquire(2), acquire(3)])
}

/// The state after a release by goroutine 0 or after its undo: the count, the links and the status of goroutine 1.
type Left = (Option<u32>, Links, Option<Status>);

fn left(table: &GTable) -> Left {
    (table.count(0, Side::Read), links(table), table.status(1))
}

/// Queues the goroutines, lets goroutine 0 release the semaphore, and undoes the release. Returns
/// the links before the release, the state after the release, and the state after the undo.
fn released_and_undone(table: &mut GTable) -> Result<(Links, Left, Left), Refusal>
    requires { IsQueuedUp table.old }
{
    queue_up(table)?;
    let before = links(table);
    let (_, delta) = table.apply(&GOperation::Release { goroutine: 0 })?;
    let after = left(table);
    table.undo(delta);
    Ok((before, after, left(table)))
}

#[test]
fn a_release_is_undone_with_the_links(rt: HostRuntime) -> Result<(), Fail> {
    let mut table = made(rt.alloc())?;
    let (socket, side) = (0, Side::Read);
    assert_eq!(rt;
        released_and_undone(&mut table),
        Ok((
            OF_THREE,
            (Some(1), OF_TWO, Some(Status::Acquiring { socket, side })),
            (Some(0), OF_THREE, Some(Status::Queued { socket, side })),
        ))
    );
    Ok(())
}

/// The result of the operations, and the count and the links afterwards.
type Played = (Result<(), Refusal>, Option<u32>, Links);

fn played(table: &mut GTable, operations: &[GOperation]) -> Played
    requires queued { IsQueuedUp table.old }
    requires few { length operations.now ≤ 8 }
    ensures { IsQueuedUp table.new }
{
    let applied = play(table, operations);
    (applied, table.count(0, Side::Read), links(table))
}

/// Queues the goroutines. Then tries a list of operations whose last one is refused, and a list of
/// operations that all apply.
fn refused_and_applied(table: &mut GTable) -> Result<[Played; 2], Refusal>
    requires { IsQueuedUp table.old }
{
    queue_up(table)?;
    let release = GOperation::Release { goroutine: 0 };
    Ok([
        played(table, &[release, acquire(1), release]),
        played(table, &[release, acquire(1)]),
    ])
}

#[test]
fn what_is_refused_last_leaves_the_links(rt: HostRuntime) -> Result<(), Fail> {
    let mut table = made(rt.alloc())?;
    assert_eq!(rt;
        refused_and_applied(&mut table),
        Ok([
            (Err(Refusal::NotThere), Some(0), OF_THREE),
            (Ok(()), Some(0), OF_TWO),
        ])
    );
    Ok(())
}

/// Returns a copy. Tries again if memory runs out.
fn copied(table: &GTable) -> Result<GTable, Memory> {
    match table.try_copy() {
        Err(_) => table.try_copy(),
        copied => copied,
    }
}

/// Queues the goroutines, and returns the links of a copy.
fn links_of_a_copy(table: &mut GTable) -> Option<Links>
    requires { IsQueuedUp table.old }
{
    if queue_up(table).is_err() {
        return None;
    }
    match copied(table) {
        Ok(copy) => Some(links(&copy)),
        Err(_) => None,
    }
}

#[test]
fn a_copy_has_the_links(rt: HostRuntime) -> Result<(), Fail> {
    let mut table = made(rt.alloc())?;
    assert_eq!(rt; links_of_a_copy(&mut table), Some(OF_THREE));
    Ok(())
}
