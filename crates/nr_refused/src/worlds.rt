//! Worlds in both representations: making, copying, snapshotting and restoring them.

ghost use Rattle.std.specs.Prelude.{◌≡◌};

use crate::films::is_at;
use crate::texts::TEXT;
use crate::twice::{Came, Twice, grant, refuse};
use nr_recording::{Recording, read};
use nr_rev::{Cell, CellValue, Limits, Memory, Side, Status, Worlds};
use std::alloc::Global;

const LIMITS: Limits = Limits {
    goroutines: 4,
    sockets: 2,
    descriptors: 2,
    buffer: 16,
};

/// Cells that have a value after bytes have arrived.
static CELLS: [Cell; 12] = [
    Cell::Clock,
    Cell::Waiters,
    Cell::Timers,
    Cell::Firings,
    Cell::Goroutine(0),
    Cell::Goroutine(1),
    Cell::Lock(0),
    Cell::ReadSemaphore(0),
    Cell::Input(0),
    Cell::Output(0),
    Cell::ReadWord(0),
    Cell::DescriptorSequence(0),
];

// Returns whether the world has only goroutine 0, and no goroutine waits.
fn is_empty<W: Worlds>(world: &W) -> bool
    requires { W.is_well_formed world.now }
{
    is_at(world, 0)
        && world.cell(Cell::Goroutine(0)) == CellValue::Status(Status::Idle)
        && world.cell(Cell::Goroutine(1)) == CellValue::Absent
        && world.cell(Cell::Timers) == CellValue::Number(0)
}

// Makes a world.
fn make<W: Worlds + Drop>(alloc: Global) -> Came {
    match W::fresh(alloc, LIMITS) {
        Ok(world) => Came::of(is_empty(&world)),
        Err(_) => Came::Refused,
    }
}

/// Tests making a world.
pub(crate) fn make_twice<W: Worlds + Drop>(rt: &HostRuntime) -> Twice {
    refuse(rt);
    let first = make::<W>(rt.alloc());
    grant(rt);
    Twice {
        first,
        again: make::<W>(rt.alloc()),
    }
}

/// The position at which bytes have arrived and a goroutine is about to be woken.
const ARRIVED: usize = 9;

// Applies the steps up to that position, and returns whether they all apply.
fn lead<W: Worlds>(world: &mut W, recording: &Recording) -> bool
    requires { W.is_well_formed world.old }
    ensures { W.is_well_formed world.new }
{
    let mut has_applied = true;
    for n in 0..ARRIVED {
        has_applied &= match recording.step(n) {
            Some(step) => world.advance(step).is_ok(),
            None => false,
        };
    }
    has_applied
}

// Returns whether two worlds have the same cells and the same unread bytes.
fn are_alike<W: Worlds>(one: &W, other: &W) -> bool
    requires one { W.is_well_formed one.now }
    requires other { W.is_well_formed other.now }
{
    let mut are_alike = have_same_bytes(one, other);
    for cell in CELLS.iter() {
        are_alike &= one.cell(*cell) == other.cell(*cell);
    }
    are_alike
}

fn have_same_bytes<W: Worlds>(one: &W, other: &W) -> bool {
    match (one.bytes(0, Side::Read), other.bytes(0, Side::Read)) {
        (Ok(Some(one)), Ok(Some(other))) => one.as_slice() == other.as_slice(),
        _ => false,
    }
}

// Copies a world. No later request is refused.
fn copy<W: Worlds + Drop>(rt: &HostRuntime, world: &W) -> Came
    requires { W.is_well_formed world.now }
{
    match world.try_copy() {
        Ok(copy) => {
            grant(rt);
            Came::of(are_alike(world, &copy))
        }
        Err(_) => {
            grant(rt);
            Came::Refused.leaving(is_at(world, ARRIVED))
        }
    }
}

// Returns whether the world that is restored from a snapshot equals this one.
fn keeps<W: Worlds + Drop>(world: &W, snapshot: &W::Snapshot) -> bool
    requires well_formed { W.is_well_formed world.now }
    requires kept { W.kept snapshot.now ≡ world.now }
{
    match W::restored(snapshot) {
        Ok(restored) => are_alike(world, &restored),
        Err(_) => false,
    }
}

// Takes a snapshot of a world. The new snapshot may share bytes with the last snapshot. No later
// request is refused.
fn rest<W: Worlds + Drop>(rt: &HostRuntime, world: &W, last: &W::Snapshot) -> Came
where
    W::Snapshot: Drop,
    requires { W.is_well_formed world.now }
{
    match world.snapshot(Some(last)) {
        Ok(snapshot) => {
            grant(rt);
            Came::of(keeps(world, &snapshot))
        }
        Err(_) => {
            grant(rt);
            Came::Refused.leaving(is_at(world, ARRIVED))
        }
    }
}

// Restores a world from its snapshot. No later request is refused.
fn restore<W: Worlds + Drop>(rt: &HostRuntime, world: &W, snapshot: &W::Snapshot) -> Came
    requires well_formed { W.is_well_formed world.now }
    requires kept { W.kept snapshot.now ≡ world.now }
{
    match W::restored(snapshot) {
        Ok(restored) => {
            grant(rt);
            Came::of(are_alike(world, &restored))
        }
        Err(_) => {
            grant(rt);
            Came::Refused.leaving(keeps(world, snapshot))
        }
    }
}

// Restores a snapshot in the memory of another world. No later request is refused.
fn restore_in_place<W: Worlds + Drop>(
    rt: &HostRuntime,
    world: &W,
    snapshot: &W::Snapshot,
    other: &mut W,
) -> Came
    requires well_formed { W.is_well_formed world.now }
    requires other { W.is_well_formed other.old }
    requires kept { W.kept snapshot.now ≡ world.now }
    ensures { W.is_well_formed other.new }
{
    match other.restore(snapshot) {
        Ok(()) => {
            grant(rt);
            Came::of(are_alike(world, other))
        }
        Err(_) => {
            grant(rt);
            Came::Refused
        }
    }
}

/// What a test makes from a world.
#[derive(Clone, Copy)]
pub(crate) enum Made {
    Copy,
    Snapshot,
    /// The world, from its snapshot.
    Restored,
    /// The world, from its snapshot, in the memory of another world.
    RestoredInPlace,
}

fn make_of<W: Worlds + Drop>(
    rt: &HostRuntime,
    world: &W,
    snapshot: &W::Snapshot,
    other: &mut W,
    made: Made,
) -> Came
where
    W::Snapshot: Drop,
    requires well_formed { W.is_well_formed world.now }
    requires other { W.is_well_formed other.old }
    requires kept { W.kept snapshot.now ≡ world.now }
    ensures { W.is_well_formed other.new }
{
    match made {
        Made::Copy => copy(rt, world),
        Made::Snapshot => rest(rt, world, snapshot),
        Made::Restored => restore(rt, world, snapshot),
        Made::RestoredInPlace => restore_in_place(rt, world, snapshot, other),
    }
}

fn make_both<W: Worlds + Drop>(rt: &HostRuntime, world: &W, made: Made) -> Option<Twice>
where
    W::Snapshot: Drop,
    requires { W.is_well_formed world.now }
{
    let none: Option<W::Snapshot> = None;
    let snapshot = world.snapshot(none.as_ref()).ok()?;
    let mut other = W::fresh(rt.alloc(), LIMITS).ok()?;
    refuse(rt);
    let first = make_of(rt, world, &snapshot, &mut other, made);
    Some(Twice {
        first,
        again: make_of(rt, world, &snapshot, &mut other, made),
    })
}

// Tests a call on the world at that position of the recording.
fn make_of_recorded<W: Worlds + Drop>(
    rt: &HostRuntime,
    recording: &Recording,
    made: Made,
) -> Option<Twice>
where
    W::Snapshot: Drop,
{
    let mut world = W::fresh(rt.alloc(), LIMITS).ok()?;
    let has_applied = lead(&mut world, recording);
    let twice = make_both(rt, &world, made);
    if has_applied { twice } else { None }
}

/// Tests a call on a world at that position.
pub(crate) fn make_of_world_twice<W: Worlds + Drop>(rt: &HostRuntime, made: Made) -> Option<Twice>
where
    W::Snapshot: Drop,
{
    let recording = read(rt.alloc(), TEXT.as_bytes()).ok()?;
    make_of_recorded::<W>(rt, &recording, made)
}
